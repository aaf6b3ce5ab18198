// A run of neighbouring motifs of a rule, and what a letter does after it.
ghost use Rattle.std.specs.Prelude.{◌≡◌, ◌≤◌, Decides};
ghost use Rattle.planner.specs.Runs.{Can, first_after, last_after, motif_taken, range_taken};

use walk::Letter;

#[derive(Clone, Copy)]
pub(crate) struct Run {
    pub(crate) first: usize,
    pub(crate) last: usize,
    ghost some: { 1 ≤ first },
    ghost ordered: { first ≤ last },
}

impl Run {
    // The run of the seed alone.
    pub(crate) fn alone(seed: usize) -> Run
        requires { 1 ≤ seed }
        ensures first { result.first ≡ seed }
        ensures last { result.last ≡ seed }
    {
        Run {
            first: seed,
            last: seed,
        }
    }

    // Whether a rule of so many motifs has one for the letter to take.
    pub(crate) fn can(self, letter: Letter, motifs: usize) -> bool
        requires { self.last ≤ motifs }
        ensures { Decides result (Can motifs self.first self.last letter) }
    {
        match letter {
            Letter::L => 1 < self.first,
            Letter::R => self.last < motifs,
        }
    }

    // The motif that the letter takes, and the range between it and the run.
    pub(crate) fn taken(self, letter: Letter) -> (usize, usize)
        requires { Can 12 self.first self.last letter }
        ensures motif { result.0 ≡ motif_taken self.first self.last letter }
        ensures range { result.1 ≡ range_taken self.first self.last letter }
    {
        match letter {
            Letter::L => (self.first - 1, self.first - 1),
            Letter::R => (self.last + 1, self.last),
        }
    }

    // The run with the motif that the letter takes.
    pub(crate) fn after(self, letter: Letter) -> Run
        requires { Can 12 self.first self.last letter }
        ensures first { result.first ≡ first_after self.first letter }
        ensures last { result.last ≡ last_after self.last letter }
    {
        match letter {
            Letter::L => Run {
                first: self.first - 1,
                last: self.last,
            },
            Letter::R => Run {
                first: self.first,
                last: self.last + 1,
            },
        }
    }
}
