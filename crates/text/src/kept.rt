// What is kept of a line while it is read.
pub use crate::steps::Steps;
