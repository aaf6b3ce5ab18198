// The entries of a book and a chapter: names, motifs with their bodies, rules with their ranges, and marks.
#![tactic(auto)]

pub mod body;
mod makes;
pub mod mark;
pub mod motif;
pub mod name;
pub mod named;
pub mod range;
mod reads;
pub mod rule;

pub use self::body::{Body, Class, Item};
pub use self::mark::Mark;
pub use self::motif::Motif;
pub use self::name::Name;
pub use self::named::{Named, is_taken, number_named};
pub use self::range::Range;
pub use self::rule::Rule;
