// Shows: a find painted on the ink, gone without a trace when the show ends.
//
//     let passed = ShowTest::new(&strip, m, ink)?;
//     let show = passed.open(ink);
//     show.ink() // reads the painted boxes; where `show` ends, `ink` is as before
#![tactic(auto)]

mod checks;
pub mod glimpses;
pub mod guard;
pub(crate) mod stretch;
mod strokes;
pub mod tested;

pub use self::glimpses::in_turn;
pub use self::guard::Show;
pub use self::tested::ShowTest;
