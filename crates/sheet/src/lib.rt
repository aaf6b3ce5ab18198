// A sheet over any priced source: a rule is laid on it by an order, looked for, and its finds are taken.
#![tactic(auto)]

mod calls;
pub mod values;

pub use self::values::{Sheet, Stage, Work};
