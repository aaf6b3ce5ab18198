// A tested row and book, opened as a source: the stretches of the motifs that have a body.
ghost use Rattle.std.specs.Prelude.{◌≡◌, ℕ, Decides};
ghost use Rattle.book.specs.Adding.{motifs_in};
ghost use Rattle.row.specs.Laws.{row_fair, row_lawful};
ghost use Rattle.row.specs.Opened.{opened_meaning};
ghost use Rattle.row.specs.Row.{StandsAt, items_from, row_meaning, row_price};
ghost use Rattle.row.specs.Tested.{tested_book, tested_row};

use crate::tested::RowTest;
use source::{PricedSource, Source};

#[derive(Drop)]
pub struct RowSource<'a> {
    tested: RowTest<'a>,
}

impl<'a> RowTest<'a> {
    // The source of what passed. Its stretches, box by box: each box fits its item.
    #[tactic(auto, using(crate::proofs::Boxes::row_decides))]
    pub fn open(self) -> RowSource<'a>
        ensures meaning { opened_meaning result ≡ row_meaning (tested_row self.entry) (tested_book self.entry) }
        ensures stretches { (k a b : ℕ) → Decides ((opened_meaning result).has k a b) (StandsAt (items_from (motifs_in (tested_book self.entry)) k) (tested_row self.entry) a b) }
    {
        RowSource { tested: self }
    }
}

impl Source for RowSource<'_> {
    ghost means = { opened_meaning };

    ghost lawful = { λ s. row_lawful (tested_row s.tested) (tested_book s.tested) s.tested.short };

    fn length(&self) -> usize {
        self.tested.row.len()
    }

    #[tactic(auto, using(crate::specs::Laws::standing))]
    fn next_end(&self, motif: usize, start: usize, least: usize) -> Option<usize> {
        let items = self.tested.items(motif)?;
        let end = start.checked_add(items.len())?;
        (end >= least && self.tested.stands(items, start, end)).then_some(end)
    }

    fn next_start(&self, motif: usize, end: usize, least: usize) -> Option<usize> {
        let items = self.tested.items(motif)?;
        let start = end.checked_sub(items.len())?;
        (start >= least && self.tested.stands(items, start, end)).then_some(start)
    }
}

impl PricedSource for RowSource<'_> {
    ghost price = { λ s k. row_price (tested_book s.tested) k };

    ghost fair = { λ s k. row_fair (tested_book s.tested) k };

    fn prices(&self, motif: usize) -> (u32, u32) {
        let look = self.tested.items(motif).map_or(1, |items| items.len());
        (look as u32, 0)
    }
}
