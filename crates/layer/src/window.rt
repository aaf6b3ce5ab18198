// A window on a part of a source.
ghost use Rattle.std.specs.Prelude.{◌≡◌, ◌≤◌};
ghost use Rattle.layer.specs.Laws.{part-lawful};
ghost use Rattle.layer.specs.Layers.{cut_from, cut_to, part, window};

use source::{PricedSource, Source};

// The stretches of a source between two of its places, counted from the first.
#[derive(Drop)]
pub struct Window<S> {
    source: S,
    from: usize,
    to: usize,
    ghost ordered: { from ≤ to },
    ghost short: { to ≤ 20000 },
}

impl<S: Source> Window<S> {
    // Any places are taken: `from` is cut to at most the source's length, then `to` to between `from` and that.
    pub fn new(source: S, from: usize, to: usize) -> Window<S>
        ensures kept { result.source ≡ source }
        ensures places { (result.from ≡ cut_from (S.Source.means source).boxes from) × (result.to ≡ cut_to (S.Source.means source).boxes from to) }
        ensures meaning { ⟦<Window<S> as Source>⟧.means result ≡ window (S.Source.means source) from to }
    {
        let length = source.length();
        let from = from.min(length);
        let to = to.clamp(from, length);
        Window { source, from, to }
    }
}

impl<S: Source> Source for Window<S> {
    ghost means = { λ s. part (S.Source.means s.source) s.from s.to };

    ghost lawful = { λ s. part-lawful (S.Source.means s.source) s.from s.to s.short (S.Source.lawful s.source) };

    fn length(&self) -> usize {
        self.to - self.from
    }

    fn next_end(&self, motif: usize, start: usize, least: usize) -> Option<usize> {
        let length = self.length();
        if start > length || least > length {
            return None;
        }
        self.source
            .next_end(motif, start + self.from, least + self.from)
            .filter(|end| *end <= self.to)
            .map(|end| end - self.from)
    }

    fn next_start(&self, motif: usize, end: usize, least: usize) -> Option<usize> {
        let length = self.length();
        if end > length || least > length {
            return None;
        }
        self.source
            .next_start(motif, end + self.from, least + self.from)
            .map(|start| start - self.from)
    }
}

impl<S: PricedSource> PricedSource for Window<S> {
    ghost price = { λ s k. S.PricedSource.price s.source k };

    ghost fair = { λ s k. S.PricedSource.fair s.source k };

    fn prices(&self, motif: usize) -> (u32, u32) {
        self.source.prices(motif)
    }
}
