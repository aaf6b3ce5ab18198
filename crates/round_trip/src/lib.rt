// A chapter written out as a job, and that the reader makes that very chapter of it.
#![tactic(auto)]

mod keeps;
mod stands;

pub use self::keeps::chapter_stands;
pub use self::stands::{example_stands, pages_stand};
