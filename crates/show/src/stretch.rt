ghost use Rattle.std.specs.Prelude.{◌≡◌, ◌-◌, ◌≤◌, min};

// The boxes from `start` to before `end`.
#[derive(Clone, Copy)]
pub(crate) struct Stretch {
    pub(crate) start: usize,
    pub(crate) end: usize,
}

impl Stretch {
    // What of it lies in an ink of this length.
    pub(crate) fn within(self, ink_len: usize) -> Stretch
        ensures start { result.start ≡ min self.start (min self.end ink_len) }
        ensures end { result.end ≡ min self.end ink_len }
    {
        let end = self.end.min(ink_len);
        Stretch {
            start: self.start.min(end),
            end,
        }
    }

    pub(crate) fn len(self) -> usize
        requires { self.start ≤ self.end }
        ensures { result ≡ self.end - self.start }
    {
        self.end - self.start
    }
}
