// The row source: a motif stands where the boxes of a row fit the items of its body. A row and a book are tested, then
// opened.
#![tactic(auto)]

pub mod opened;
pub mod tested;

pub use self::opened::RowSource;
pub use self::tested::RowTest;
