// Where a refusal comes from, as the line of a fault has it.
pub use refusal::Layer;
