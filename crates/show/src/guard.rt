// The show itself: it paints at its opening, and puts back all that it painted over at its end.
ghost use Rattle.std.specs.Prelude.{◌≡◌, length};
ghost use Rattle.show.specs.Ended.{ended};
ghost use Rattle.show.specs.Stretches.{Shown};

use crate::tested::ShowTest;

// The ink under a show. While it lasts the ink can be read through it, and in no other way.
pub struct Show<'a> {
    ink: &'a mut [u8],
    // What was painted over, in place: a show asks for no memory, and has at most 64 boxes.
    saved: [u8; 64],
    passed: ShowTest,
}

impl Drop for Show<'_> {
    fn drop(self)
        ensures { self.exit.0.now ≡ ended self.entry }
    {
        let passed = self.passed;
        let saved = self.saved;
        passed.put_all_back(self.ink, &saved);
        let Show {
            ink: _,
            saved: _,
            passed: _,
        } = self;
    }
}

impl ShowTest {
    ghost use Rattle.show.specs.Held.{count_of, strip_of};

    // Shows what passed on any ink: of another ink than the tested one, only boxes inside it are painted.
    pub fn open<'a>(self, ink: &'a mut [u8]) -> Show<'a>
        ensures lent { result.ink.ghost_name ≡ ink.entry.ghost_name }
        ensures size { length result.ink.now ≡ length ink.old }
        ensures shown { Shown (strip_of self) (count_of self) ink.old result.ink.now }
        ensures ends { ended result ≡ ink.old }
    {
        let saved = self.paint_all(ink);
        Show {
            ink,
            saved,
            passed: self,
        }
    }
}

impl Show<'_> {
    // The ink as it reads while the show lasts.
    pub fn ink(&self) -> &[u8]
        ensures { result.now ≡ self.now.ink.now }
    {
        self.ink
    }
}
