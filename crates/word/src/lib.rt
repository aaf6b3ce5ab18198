// The words of a line: names and numbers, each judged wherever it stands.
#![tactic(auto)]

mod checks;
pub mod faults;
pub mod field;
pub mod limits;
mod numbers;
mod runs;

pub use self::checks::{check_letters, check_numbers, read_name};
pub use self::faults::WordFault;
pub use self::field::Field;
pub use self::limits::Limits;
pub use self::numbers::{read_code, read_number, read_place};
pub use self::runs::runs_stand;
