// Why marks are refused.
ghost use Rattle.std.specs.Prelude.{◌≡◌};
ghost use Rattle.mark.specs.Faults.{refusal_of};

use crate::list::MarkList;
use refusal::Refusal;

#[derive(Clone, Copy, PartialEq, Eq, Debug)]
pub enum MarkFault {
    // The length is above 20,000.
    TooLong,
    // The mark at this entry, from 0, is unlawful or does not come after the one before it.
    Entry(usize),
}

impl From<MarkFault> for Refusal {
    ghost from_gives = { λ fault refusal. refusal ≡ refusal_of fault };

    fn from(fault: MarkFault) -> Refusal {
        match fault {
            MarkFault::TooLong => Refusal::SourceTooLong,
            MarkFault::Entry(_) => Refusal::BadMark,
        }
    }
}

// The fault, and the list as it was handed in.
#[derive(Drop)]
pub struct MarkRefused {
    pub fault: MarkFault,
    pub list: MarkList,
}
