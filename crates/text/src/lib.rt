// Taking the lines of a job into a chapter, one by one.
#![tactic(auto)]

pub mod faults;
pub mod kept;
pub mod steps;
mod takes;
mod values;

pub use self::faults::TextFault;
pub use self::takes::take_line;
