// Two sources as one.
ghost use Rattle.std.specs.Prelude.{◌≡◌, ◌+◌, ◌≤◌, min};
ghost use Rattle.layer.specs.Laws.{both_fair, both-lawful};
ghost use Rattle.layer.specs.Layers.{both, both_price, nearer};

use source::{PricedSource, Source};

// The first's length and stretches, and those stretches of the second that end within that length.
#[derive(Drop)]
pub struct Both<A, B> {
    first: A,
    second: B,
}

impl<A: Source, B: Source> Both<A, B> {
    pub fn new(first: A, second: B) -> Both<A, B>
        ensures kept { (result.first ≡ first) × (result.second ≡ second) }
        ensures meaning { ⟦<Both<A, B> as Source>⟧.means result ≡ both (A.Source.means first) (B.Source.means second) }
    {
        Both { first, second }
    }
}

fn nearer_of(x: Option<usize>, y: Option<usize>) -> Option<usize>
    ensures { result ≡ nearer x y }
{
    match (x, y) {
        (Some(a), Some(b)) => Some(a.min(b)),
        (a, b) => a.or(b),
    }
}

impl<A: Source, B: Source> Source for Both<A, B> {
    ghost means = { λ s. both (A.Source.means s.first) (B.Source.means s.second) };

    ghost lawful = { λ s. both-lawful (A.Source.means s.first) (B.Source.means s.second) (A.Source.lawful s.first) (B.Source.lawful s.second) };

    fn length(&self) -> usize {
        self.first.length()
    }

    fn next_end(&self, motif: usize, start: usize, least: usize) -> Option<usize> {
        let first = self.first.next_end(motif, start, least);
        let second = self.second.next_end(motif, start, least);
        let length = self.first.length();
        nearer_of(first, second.filter(|end| *end <= length))
    }

    fn next_start(&self, motif: usize, end: usize, least: usize) -> Option<usize> {
        let first = self.first.next_start(motif, end, least);
        if end > self.first.length() {
            return first;
        }
        nearer_of(first, self.second.next_start(motif, end, least))
    }
}

// Each price is the smaller of the sum and 1,000.
fn summed(x: u32, y: u32) -> u32
    requires { (x ≤ 1000) × (y ≤ 1000) }
    ensures { result ≡ min (x + y) 1000 }
{
    (x + y).min(1000)
}

impl<A: PricedSource, B: PricedSource> PricedSource for Both<A, B> {
    ghost price = { λ s k. both_price (A.PricedSource.price s.first k) (B.PricedSource.price s.second k) };

    ghost fair = { λ s k. both_fair (A.PricedSource.price s.first k) (B.PricedSource.price s.second k) (A.PricedSource.fair s.first k) (B.PricedSource.fair s.second k) };

    fn prices(&self, motif: usize) -> (u32, u32) {
        let (look, opening) = self.first.prices(motif);
        let (more_look, more_opening) = self.second.prices(motif);
        (summed(look, more_look), summed(opening, more_opening))
    }
}
