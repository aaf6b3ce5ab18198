// The test of marks: whether they may be opened as a source of a given length.
ghost use Rattle.std.specs.Prelude.{◌≡◌, IfOk, MatchResult};
ghost use Rattle.mark.specs.Faults.{fits, mark_fault};
ghost use Rattle.mark.specs.Judged.{Judged, fault_of};
ghost use Rattle.mark.specs.Listed.{listed};

use crate::fault::{MarkFault, MarkRefused};
use crate::key::Key;
use crate::list::MarkList;
use crate::tested::MarkTest;
use entry::Mark;

const MOST_BOXES: usize = 20_000;

const LAST_MOTIF: usize = 15;

impl MarkList {
    // A refusal hands the list back as it was.
    pub fn test(self, length: usize) -> Result<MarkTest, MarkRefused>
        ensures fault { fault_of result ≡ mark_fault length (listed self) }
        ensures law { Judged length (listed self) (fault_of result) }
        ensures sized { IfOk result (λ t. t.length ≡ length) }
        ensures kept { MatchResult result (λ t. t.list ≡ self) (λ e. e.list ≡ self) }
    {
        match first_fault(self.marks.as_slice(), length) {
            Some(fault) => Err(MarkRefused { fault, list: self }),
            None => Ok(MarkTest { length, list: self }),
        }
    }
}

fn first_fault(marks: &[Mark], length: usize) -> Option<MarkFault>
    ensures { result ≡ mark_fault length marks.now }
{
    if length > MOST_BOXES {
        return Some(MarkFault::TooLong);
    }
    let mut previous = None;
    for (at, mark) in marks.iter().enumerate() {
        if !is_fit(length, previous, *mark) {
            return Some(MarkFault::Entry(at));
        }
        previous = Some(*mark);
    }
    None
}

// Whether a mark is lawful in this length and comes strictly after the one before it.
fn is_fit(length: usize, previous: Option<Mark>, mark: Mark) -> bool
    ensures { result ≡ fits length previous mark }
{
    previous.is_none_or(|last| Key::by_start(last) < Key::by_start(mark))
        && mark.motif <= LAST_MOTIF
        && mark.start <= mark.end
        && mark.end <= length
}
