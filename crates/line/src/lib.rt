// A line of a job: its kind, its fields, and what is wrong with them.
#![tactic(auto)]

mod checks;
pub mod faults;
pub mod kinds;
mod reads;

pub use self::faults::{Layer, LineFault};
pub use self::kinds::Line;
pub use self::reads::read_line;
