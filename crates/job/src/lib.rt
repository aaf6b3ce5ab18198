// A job text read into a chapter.
#![tactic(auto)]

pub mod fault;
mod reads;

pub use self::fault::JobFault;
pub use self::reads::{examples_stand, laws_stand, read_job};
