// What the programs share: the job that they read, the sources of its chapter, and the lines of stretches and faults.
#![tactic(auto)]

mod faults;
mod input;
pub mod open_error;
mod output;
pub mod sources;
mod stretches;

pub use self::faults::{print_fault, print_job_fault, print_mark_fault};
pub use self::input::read_input;
pub use self::open_error::OpenError;
pub use self::output::print_line;
pub use self::sources::Sources;
pub use self::stretches::print_stretches;
