// Marks that passed the test with a length: only the test makes one.
ghost use Rattle.std.specs.Prelude.{◌≡◌, false, is_some};
ghost use Rattle.mark.specs.Faults.{mark_fault};
ghost use Rattle.mark.specs.Listed.{listed};

use crate::key::{Key, first_from};
use crate::list::MarkList;

#[derive(Drop)]
pub struct MarkTest {
    pub(crate) length: usize,
    pub(crate) list: MarkList,
    ghost passed: { is_some (mark_fault length (listed list)) ≡ false },
}

// What the two questions ask: one search, by start and by end.
impl MarkTest {
    ghost use Rattle.source.specs.Meaning.{Least};
    ghost use Rattle.mark.specs.Marks.{any_mark};

    pub(crate) fn least_end(&self, asked: Key) -> Option<usize>
        ensures { Least (λ b. any_mark (listed self.now.list) asked.motif asked.known b) asked.wanted result }
    {
        let mark = first_from(
            self.list.marks.as_slice(),
            asked,
            |mark| Key::by_start(*mark),
        )?;
        (mark.motif == asked.motif && mark.start == asked.known).then_some(mark.end)
    }

    pub(crate) fn least_start(&self, asked: Key) -> Option<usize>
        ensures { Least (λ a. any_mark (listed self.now.list) asked.motif a asked.known) asked.wanted result }
    {
        let key = first_from(self.list.ends.as_slice(), asked, |key| *key)?;
        (key.motif == asked.motif && key.known == asked.known).then_some(key.wanted)
    }
}
