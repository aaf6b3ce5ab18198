// Marks that were copied: in the order that they were handed in, and by end, sorted.
ghost use Rattle.std.specs.Prelude.{◌≡◌, ℕ, vec_items, IfOk};
ghost use Rattle.std.specs.List.Sorted.{IsSorted};
ghost use Rattle.mark.specs.Keys.{any_key, rank_key};
ghost use Rattle.mark.specs.Marks.{any_mark};

use crate::key::Key;
use entry::Mark;
use std::alloc::{AllocError, Global};

#[derive(Drop)]
pub struct MarkList {
    pub(crate) marks: Vec<Mark>,
    pub(crate) ends: Vec<Key>,
    // For the start question; the test is what says that `marks` is sorted by start.
    ghost sorted: { IsSorted rank_key (vec_items ends) },
    ghost ends_say: { (k a b : ℕ) → any_key (vec_items ends) k b a ≡ any_mark (vec_items marks) k a b },
}

impl MarkList {
    ghost use Rattle.mark.specs.Listed.{listed};

    // The only call that can want memory.
    pub fn copied(heap: Global, marks: &[Mark]) -> Result<MarkList, AllocError>
        ensures { IfOk result (λ l. listed l ≡ marks.now) }
    {
        let mut ends = Vec::with_capacity(heap, marks.len())?;
        // By hand: over the four marks of a page `collect` makes the copy a sixth dearer.
        for mark in marks {
            ends.push(Key::by_end(*mark))?;
        }
        ends.sort()?;
        let marks = marks.to_vec(heap)?;
        Ok(MarkList { marks, ends })
    }
}
