// What a search asks: a source says where a motif stands, a priced source also what a look costs.
#![tactic(auto)]

ghost use Rattle.std.specs.Prelude.{◌≡◌, ℕ, ◌+◌, ◌≤◌};
ghost use Rattle.source.specs.Meaning.{Fair, Lawful, Meaning, NextEnd, NextStart, Price};

// A length and, for each motif, a set of stretches. The questions take any argument and change nothing.
pub trait Source {
    ghost means: { Self → Meaning };

    ghost lawful: { (s : Self) → Lawful (means s) };

    fn length(&self) -> usize
        ensures { result ≡ (means self.now).boxes };

    // The end question: the smallest end at or above `least` of a stretch that starts at `start`.
    fn next_end(&self, motif: usize, start: usize, least: usize) -> Option<usize>
        ensures { NextEnd (means self.now) motif start least result };

    // The start question: the smallest start at or above `least` of a stretch that ends at `end`.
    fn next_start(&self, motif: usize, end: usize, least: usize) -> Option<usize>
        ensures { NextStart (means self.now) motif end least result };
}

// A source that also quotes prices, for every number. They depend on the source alone, so they never change.
pub trait PricedSource: Source {
    ghost price: { Self → ℕ → Price };

    ghost fair: { (s : Self) (k : ℕ) → Fair (price s k) };

    // Look price and opening price of a motif, as one pair: what every priced source answers is fixed so.
    fn prices(&self, motif: usize) -> (u32, u32)
        ensures look { result.0 ≡ (price self.now motif).look }
        ensures opening { result.1 ≡ (price self.now motif).opening };
}

// Whether (start, end) is a stretch of the motif, in any source: the questions tell the whole meaning.
pub fn has_stretch<S: Source>(source: &S, motif: usize, start: usize, end: usize) -> bool
    ensures { result ≡ (S.means source.now).has motif start end }
{
    source.next_end(motif, start, end) == Some(end)
}

// What the first look of a step costs: the opening price and the look price.
pub fn first_look<S: PricedSource>(source: &S, motif: usize) -> u32
    ensures value { result ≡ (S.price source.now motif).opening + (S.price source.now motif).look }
    ensures bound { result ≤ 2000 }
{
    let (look, opening) = source.prices(motif);
    opening + look
}
