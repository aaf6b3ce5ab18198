// The book of a house, and the chapter that its rules are looked for in.
#![tactic(auto)]

mod books;
mod chapters;
pub mod values;

pub use self::values::book::Book;
pub use self::values::chapter::Chapter;
