// The lines that are printed: docs/FORMATS.md has them. Each call writes one line to the front of a caller's bytes, and
// answers its length; where they are too few it refuses by 25 and leaves them.
//
//     let len = write_plan(out, &name, order, 86)?;        // p,ladder,3RLL,86
//     let len = write_find(out, &name, &[1, 2, 2, 2])?;    // f,ladder,1,2,2,2
//     let len = write_fault(out, Refusal::BadShape, Layer::Line, 2, 10)?;    // x,6,line,2,10
#![tactic(auto)]

mod cursor;
pub(crate) mod field;
pub mod layer;
mod put;
mod room;
mod sink;
pub mod write;

pub use self::layer::Layer;
pub use self::write::{write_end, write_fault, write_find, write_plan};
