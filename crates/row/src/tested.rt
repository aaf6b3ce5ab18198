// A row and a book that passed the test, and what they tell of a motif.
ghost use Rattle.std.specs.Prelude.{◌≡◌, ◌+◌, ◌<◌, ◌≤◌, [], length, IfOk, IfSome, MatchOption};
ghost use Rattle.std.specs.List.{list_all, zip};
ghost use Rattle.book.specs.Adding.{motifs_in};
ghost use Rattle.entry.specs.Bodies.{fits};
ghost use Rattle.refusal.specs.Checks.{refused_by};
ghost use Rattle.row.specs.Row.{items_from, row_fault, stands};

use book::Book;
use entry::Item;
use refusal::Refusal;

// Only the test makes one.
#[derive(Drop)]
pub struct RowTest<'a> {
    pub(crate) row: &'a [u16],
    pub(crate) book: &'a Book,
    ghost short: { length row.now ≤ 20000 },
}

impl<'a> RowTest<'a> {
    ghost use Rattle.row.specs.Tested.{tested_book, tested_row};

    // Tests any codes with any book, and holds both where they pass.
    pub fn new(row: &'a [u16], book: &'a Book) -> Result<RowTest<'a>, Refusal>
        ensures refused { refused_by result ≡ row_fault (length row.now) }
        ensures value { IfOk result (λ t. (tested_row t ≡ row.now) × (tested_book t ≡ book.now)) }
    {
        if row.len() > 20_000 {
            return Err(Refusal::SourceTooLong);
        }
        Ok(RowTest { row, book })
    }

    // The items of the motif's body, `None` where it has none, or there is no such motif.
    #[tactic(auto, using(crate::specs::Laws::few_items, crate::specs::Laws::some_items))]
    pub(crate) fn items(&self, motif: usize) -> Option<&[Item]>
        ensures items { MatchOption result (items_from (motifs_in (tested_book self.now)) motif ≡ []) (λ items. items.now ≡ items_from (motifs_in (tested_book self.now)) motif) }
        ensures some { IfSome result (λ items. 0 < length items.now) }
        ensures few { IfSome result (λ items. length items.now ≤ 16) }
    {
        let motif = self.book.motifs().get(motif)?;
        let body = motif.body.as_ref()?;
        Some(body.items())
    }

    // Whether these boxes fit the items, one each.
    #[tactic(auto, using(crate::proofs::Fit::stands_past, crate::proofs::Fit::stands_there))]
    pub(crate) fn stands(&self, items: &[Item], start: usize, end: usize) -> bool
        requires some { 0 < length items.now }
        requires one_each { end ≡ start + length items.now }
        ensures { result ≡ stands items.now (tested_row self.now) start end }
    {
        end <= self.row.len() && each_fits(items, &self.row[start..end])
    }
}

// Whether each item fits the code beside it; it stops at the first that doesn't.
fn each_fits(items: &[Item], codes: &[u16]) -> bool
    ensures { result ≡ list_all (λ p. fits p.0 p.1) (zip items.now codes.now) }
{
    items
        .iter()
        .zip(codes)
        .all(|(item, code)| item.fits_code(*code))
}
