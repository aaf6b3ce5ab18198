ghost use Rattle.std.specs.Prelude.{◌≡◌, length};
ghost use Rattle.few.specs.Few.{entries};

use entry::Range;
use few::{Few, Full};

// The motifs of a net so far, and the range before each. Two lists, since the call that makes
// a rule takes two slices.
#[derive(Clone, Copy)]
pub struct Steps {
    pub(crate) motifs: Few<usize, 12>,
    pub(crate) ranges: Few<Range, 12>,
    ghost paired: { length (entries motifs) ≡ length (entries ranges) },
}

impl Steps {
    ghost use Rattle.std.specs.Prelude.{[], ◌∷◌, ◌++◌, ◌↔◌, IsErr, OnErr, OnOk};
    ghost use Rattle.text.specs.Held.{bounds_in, motifs_held, steps_held};
    ghost use Rattle.text.specs.Nets.{link_of};

    pub(crate) fn none() -> Steps
        ensures kept { steps_held result ≡ [] }
        ensures motifs { motifs_held result ≡ [] }
    {
        Steps {
            motifs: Few::none(0),
            ranges: Few::none(Range { low: 0, high: 0 }),
        }
    }

    // Puts a motif and the range before it behind the last.
    #[tactic(auto, using(crate::proofs::Walks::links_push))]
    pub(crate) fn push(&mut self, range: Range, motif: usize) -> Result<(), Full>
        ensures full { IsErr result ↔ (length (motifs_held self.old) ≡ 12) }
        ensures kept { OnOk result (steps_held self.new ≡ steps_held self.old ++ link_of (bounds_in range) motif ∷ []) }
        ensures motifs { OnOk result (motifs_held self.new ≡ motifs_held self.old ++ motif ∷ []) }
        ensures same { OnErr result (self.new ≡ self.old) }
    {
        let Steps {
            mut motifs,
            mut ranges,
        } = *self;
        motifs.push(motif)?;
        ranges.push(range)?;
        *self = Steps { motifs, ranges };
        Ok(())
    }
}
