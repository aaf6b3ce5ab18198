// The forecast of a rule by weights, the price of an order of it, and the order of least price. Each call takes a book
// and the number of one of its rules.
#![tactic(auto)]

pub mod plans;
mod tariffs;
pub mod weighs;

pub use self::plans::{plan, price};
pub use self::weighs::weigh;
