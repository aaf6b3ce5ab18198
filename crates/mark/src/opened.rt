// Tested marks, opened as a source: their stretches are the marks.
ghost use Rattle.std.specs.Prelude.{◌≡◌};
ghost use Rattle.mark.specs.Lawful.{mark_fair, mark-lawful};
ghost use Rattle.mark.specs.Listed.{listed};
ghost use Rattle.mark.specs.Marks.{mark_meaning, mark_price};
ghost use Rattle.mark.specs.Opened.{opened_meaning};

use crate::key::Key;
use crate::tested::MarkTest;
use source::{PricedSource, Source};

#[derive(Drop)]
pub struct MarkSource {
    tested: MarkTest,
}

impl MarkTest {
    pub fn open(self) -> MarkSource
        ensures { opened_meaning result ≡ mark_meaning self.length (listed self.list) }
    {
        MarkSource { tested: self }
    }
}

impl Source for MarkSource {
    ghost means = { opened_meaning };

    ghost lawful = { λ s. mark-lawful s.tested.length (listed s.tested.list) s.tested.passed };

    fn length(&self) -> usize {
        self.tested.length
    }

    fn next_end(&self, motif: usize, start: usize, least: usize) -> Option<usize> {
        self.tested.least_end(Key {
            motif,
            known: start,
            wanted: least,
        })
    }

    fn next_start(&self, motif: usize, end: usize, least: usize) -> Option<usize> {
        self.tested.least_start(Key {
            motif,
            known: end,
            wanted: least,
        })
    }
}

impl PricedSource for MarkSource {
    ghost price = { λ _ _. mark_price };

    ghost fair = { λ _ _. mark_fair };

    fn prices(&self, _motif: usize) -> (u32, u32) {
        (1, 2)
    }
}
