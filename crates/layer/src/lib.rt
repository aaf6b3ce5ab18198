// Sources over sources: two as one, and a window on a part of one.
#![tactic(auto)]

mod both;
mod window;

pub use self::both::Both;
pub use self::window::Window;
