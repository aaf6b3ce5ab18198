// Painting the stretches of a show on the ink, and putting back what stood there.
ghost use Rattle.std.specs.Prelude.{◌≡◌, ◌+◌, ◌-◌, ◌<◌, ◌≤◌, length, drop, replicate};
ghost use Rattle.show.specs.Ends.{kept_by, undone};
ghost use Rattle.show.specs.Stretches.{Shown};
ghost use Rattle.std.proofs.Math.Seq.{paste};

use crate::stretch::Stretch;
use crate::tested::ShowTest;

// Saves the bytes of the boxes, from place `at` on, and paints the boxes.
fn paint(ink: &mut [u8], saved: &mut [u8], at: usize, boxes: Stretch, number: u8)
    requires part { (boxes.start ≤ boxes.end) × (boxes.end ≤ length ink.old) }
    requires room { at + (boxes.end - boxes.start) ≤ length saved.old }
    ensures painted { ink.new ≡ paste ink.old boxes.start (replicate (boxes.end - boxes.start) number) (boxes.end - boxes.start) }
    ensures kept { saved.new ≡ paste saved.old at (drop boxes.start ink.old) (boxes.end - boxes.start) }
{
    let part = &mut ink[boxes.start..boxes.end];
    saved[at..at + boxes.len()].copy_from_slice(part);
    part.fill(number);
}

// Puts the bytes that were saved from place `at` on back into the boxes.
fn put_back(ink: &mut [u8], saved: &[u8], at: usize, boxes: Stretch)
    requires part { (boxes.start ≤ boxes.end) × (boxes.end ≤ length ink.old) }
    requires room { at + (boxes.end - boxes.start) ≤ length saved.now }
    ensures { ink.new ≡ paste ink.old boxes.start (drop at saved.now) (boxes.end - boxes.start) }
{
    ink[boxes.start..boxes.end].copy_from_slice(&saved[at..at + boxes.len()]);
}

impl ShowTest {
    ghost use Rattle.show.specs.Held.{count_of, strip_of};

    // How many bytes the show saves of an ink of this length.
    fn room(&self, ink_len: usize) -> usize
        ensures { result ≡ kept_by (strip_of self.now) ink_len (count_of self.now) }
    {
        self.shown()
            .iter()
            .map(|stretch| stretch.within(ink_len).len())
            .sum()
    }

    // Paints all stretches in turn, and answers the bytes that it painted over.
    pub(crate) fn paint_all(&self, ink: &mut [u8]) -> [u8; 64]
        ensures shown { Shown (strip_of self.now) (count_of self.now) ink.old ink.new }
        ensures undoes { undone (strip_of self.now) (length ink.old) result (count_of self.now) ink.new ≡ ink.old }
        ensures len { length result ≡ 64 }
    {
        let mut saved = [0; 64];
        let mut at = 0;
        for (k, stretch) in self.shown().iter().enumerate() {
            let boxes = stretch.within(ink.len());
            paint(ink, &mut saved, at, boxes, (k + 1) as u8);
            at += boxes.len();
        }
        saved
    }

    // Puts the bytes back in the opposite order: where stretches overlap, the first one saved the byte of before.
    pub(crate) fn put_all_back(&self, ink: &mut [u8], saved: &[u8; 64])
        ensures { ink.new ≡ undone (strip_of self.now) (length ink.old) saved.now (count_of self.now) ink.old }
    {
        let mut at = self.room(ink.len());
        for stretch in self.shown().iter().rev() {
            let boxes = stretch.within(ink.len());
            at -= boxes.len();
            put_back(ink, saved, at, boxes);
        }
    }
}
