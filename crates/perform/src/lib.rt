// Any list of calls made on a sheet in turn, with the whole theorem on one contract.
#![tactic(auto)]

mod performs;
pub mod values;

pub use self::performs::perform;
pub use self::values::{Answer, Call, Reply, Turn};
