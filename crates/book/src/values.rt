// The values themselves, each with its limits as ghost fields.
pub mod book;
pub mod chapter;
