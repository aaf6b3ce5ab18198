// What the prices of a rule's orders are made from, beside the forecast.
ghost use Rattle.std.specs.Prelude.{◌≡◌, ◌+◌, ◌≤◌, not, length, is_some, IfSome, ◌==◌};
ghost use Rattle.few.specs.Few.{entries};

use few::Few;

// What a motif costs: each look, and the first look of a step on top.
#[derive(Clone, Copy)]
pub struct Charge {
    pub look: u64,
    pub opening: u64,
    ghost some: { 1 ≤ look },
    ghost lookfits: { look ≤ 1000 },
    ghost openingfits: { opening ≤ 1000 },
}

// How many places a range allows.
#[derive(Clone, Copy)]
pub struct Width {
    pub places: u64,
    ghost some: { 1 ≤ places },
    ghost few: { places ≤ 4001 },
}

// The charges of the motifs, at least one, and the widths of the ranges between them. What stands behind the last range
// is not read, and a range with no width of its own has no places.
#[derive(Clone, Copy)]
pub struct Tariff {
    pub charges: Few<Charge, 12>,
    pub widths: Few<Width, 11>,
    ghost some: { 1 ≤ length (entries charges) },
}

impl Tariff {
    ghost use Rattle.planner.specs.Terms.{look_of, motifs_in, opening_of, width_of};

    // A tariff of any widths, however many; `None` where no motif is charged.
    pub fn new(charges: Few<Charge, 12>, widths: Few<Width, 11>) -> Option<Tariff>
        ensures some { is_some result ≡ not (length (entries charges) == 0) }
        ensures charges { IfSome result (λ t. entries t.charges ≡ entries charges) }
        ensures widths { IfSome result (λ t. entries t.widths ≡ entries widths) }
    {
        if charges.is_empty() {
            return None;
        }
        Some(Tariff { charges, widths })
    }

    pub(crate) fn motifs(&self) -> usize
        ensures value { result ≡ motifs_in self.now }
        ensures some { 1 ≤ result }
        ensures few { result ≤ 12 }
    {
        self.charges.as_slice().len()
    }

    // What the motif costs.
    pub(crate) fn charge(&self, motif: usize) -> Charge
        requires some { 1 ≤ motif }
        requires within { motif ≤ motifs_in self.now }
        ensures look { result.look ≡ look_of self.now motif }
        ensures opening { result.opening ≡ opening_of self.now motif }
    {
        self.charges.as_slice()[motif - 1]
    }

    // How many places the range allows.
    pub(crate) fn places(&self, range: usize) -> u64
        requires some { 1 ≤ range }
        requires between { range + 1 ≤ motifs_in self.now }
        ensures value { result ≡ width_of self.now range }
        ensures bound { result ≤ 4001 }
    {
        let width = self.widths.as_slice().get(range - 1);
        width.map_or(0, |width| width.places)
    }
}
