ghost use Rattle.std.specs.Prelude.{◌≡◌, ◌&&◌, int_le};
ghost use Rattle.word.specs.Numbers.{highest, lowest};

// What the numbers of a field have to keep.
#[derive(Clone, Copy, PartialEq, Eq, Debug)]
pub enum Limits {
    // A weight or a code: 0 to 65,535.
    Code,
    // A bound of a range: -2,000 to 2,000.
    Shift,
    // A start or an end of a mark: 0 to 20,000.
    Place,
}

impl Limits {
    pub fn low(self) -> i32
        ensures { result ≡ lowest self }
    {
        match self {
            Limits::Code => 0,
            Limits::Shift => -2000,
            Limits::Place => 0,
        }
    }

    pub fn high(self) -> i32
        ensures { result ≡ highest self }
    {
        match self {
            Limits::Code => 65_535,
            Limits::Shift => 2000,
            Limits::Place => 20_000,
        }
    }

    pub(crate) fn hold(self, n: i32) -> bool
        ensures { result ≡ (int_le (lowest self) n && int_le n (highest self)) }
    {
        (self.low()..=self.high()).contains(&n)
    }
}
