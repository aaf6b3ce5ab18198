// The mark source: stretches that are named outright, one by one. Marks are copied, then tested, then opened; only the
// copy can want memory. Both questions take logarithmic time in the number of marks.
#![tactic(auto)]

pub mod fault;
mod key;
pub mod list;
pub mod opened;
mod test;
pub mod tested;

pub use self::fault::{MarkFault, MarkRefused};
pub use self::list::MarkList;
pub use self::opened::MarkSource;
pub use self::tested::MarkTest;
