// Calls that open shows for their own use: the ink is handed back as it was, whichever way they leave.
ghost use Rattle.std.specs.Prelude.{◌≡◌};
ghost use Rattle.show.specs.Glimpses.{read_at};
ghost use Rattle.show.specs.Held.{count_of, strip_of};

use crate::tested::ShowTest;

impl ShowTest {
    // What box i reads under the show, none where the ink has no box i: there it leaves while the show lasts.
    pub fn glimpse(self, ink: &mut [u8], i: usize) -> Option<u8>
        ensures same { ink.new ≡ ink.old }
        ensures value { result ≡ read_at (strip_of self) (count_of self) ink.old i }
    {
        let show = self.open(ink);
        if i >= show.ink().len() {
            return None;
        }
        Some(show.ink()[i])
    }
}

// What box i reads under one show and, when that has ended, under another; none where the ink has no box i.
pub fn in_turn(
    first: ShowTest,
    second: ShowTest,
    ink: &mut [u8],
    i: usize,
) -> (Option<u8>, Option<u8>)
    ensures same { ink.new ≡ ink.old }
    ensures first { result.0 ≡ read_at (strip_of first) (count_of first) ink.old i }
    ensures second { result.1 ≡ read_at (strip_of second) (count_of second) ink.old i }
{
    if i >= ink.len() {
        return (None, None);
    }
    (first.glimpse(ink, i), second.glimpse(ink, i))
}
