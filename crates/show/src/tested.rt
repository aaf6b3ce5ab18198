ghost use Rattle.std.specs.Prelude.{◌≡◌, ◌≤◌, length, take};
ghost use Rattle.show.specs.Numbers.{numbers};
ghost use Rattle.show.specs.Stretches.{boxes};

use crate::stretch::Stretch;

// A strip and how many of its stretches to show, which passed the test; the test alone makes one.
#[derive(Clone, Copy)]
pub struct ShowTest {
    pub(crate) strip: [Stretch; 12],
    pub(crate) m: usize,
    ghost few: { m ≤ 12 },
    ghost all: { length strip ≡ 12 },
    ghost small: { boxes (numbers strip) m ≤ 64 },
}

impl ShowTest {
    // The stretches that are shown.
    pub(crate) fn shown(&self) -> &[Stretch]
        ensures { result.now ≡ take self.now.m self.now.strip }
    {
        &self.strip[..self.m]
    }
}
