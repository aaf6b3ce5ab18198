// A find on a strip of numbers.
#![tactic(auto)]

ghost use Rattle.std.specs.Prelude.{◌≡◌, ◌+◌, ◌<◌, ◌≤◌, map, length, None, vec_len, vec_capacity, OnErr, OnOk, nat_lt};
ghost use Rattle.refusal.specs.Checks.{refuse, refused_by};
ghost use Rattle.refusal.specs.declared.Refusal.TheVariants.{ShortStrip};
ghost use Rattle.sheet_model.specs.Strip.{stretches_of, written};
ghost use Rattle.stack.specs.Frames.{stretch_of};
ghost use Rattle.stack.specs.Searches.{made_of};
ghost use Rattle.strip.specs.Finds.{grown_list, written_list};

use refusal::Refusal;
use stack::{Ends, Frame, Search};
use std::alloc::{AllocError, Global};
use walk::Letter;

// Room in which the stretches of a find are put in the rule's order before they are written. It is made once, so that no
// write wants memory.
#[derive(Drop)]
pub struct FindRoom {
    pub(crate) stretches: Vec<Ends>,
    ghost few: { vec_len stretches ≤ 12 },
    ghost enough: { 12 ≤ vec_capacity stretches },
}

impl FindRoom {
    pub fn new(heap: Global) -> Result<FindRoom, AllocError> {
        let stretches = Vec::with_capacity(heap, 12)?;
        Ok(FindRoom { stretches })
    }

    // Writes the placement that the search has gone into on the strip: start and end of each motif in the rule's order,
    // then zeros up to the 24th number.
    pub fn write_find(&mut self, search: &Search, strip: &mut [u32]) -> Result<(), Refusal>
        ensures refused { refused_by result ≡ refuse (nat_lt (length strip.old) 24) ShortStrip None }
        ensures strip { OnOk result (strip.new ≡ written (made_of search.now) strip.old) }
        ensures same { OnErr result ((strip.new ≡ strip.old) × (self.new ≡ self.old)) }
    {
        if strip.len() < 24 {
            return Err(Refusal::ShortStrip);
        }
        self.gather(search);
        put(strip, &self.stretches);
        Ok(())
    }

    // Puts the stretches of the search's frames in the rule's order.
    fn gather(&mut self, search: &Search)
        ensures { map stretch_of self.new.stretches.items ≡ stretches_of (made_of search.now) }
    {
        self.stretches.clear();
        for f in &search.frames {
            self.add(*f);
        }
        self.add(search.top);
    }

    // Adds the frame's stretch, on its side.
    fn add(&mut self, f: Frame)
        requires { vec_len self.old.stretches < 12 }
        ensures items { map stretch_of self.new.stretches.items ≡ grown_list f.letter (map stretch_of self.old.stretches.items) (stretch_of f.gone) }
        ensures len { vec_len self.new.stretches ≡ vec_len self.old.stretches + 1 }
    {
        match f.letter {
            Letter::L => self.stretches.insert(0, f.gone).unwrap(),
            Letter::R => self.stretches.push_reserved(f.gone),
        }
    }
}

// Writes the stretches on the strip, with zeros behind them up to the 24th number.
fn put(strip: &mut [u32], stretches: &[Ends])
    requires few { length stretches.now ≤ 12 }
    requires long { 24 ≤ length strip.old }
    ensures { strip.new ≡ written_list (map stretch_of stretches.now) strip.old }
{
    strip[..24].fill(0);
    // by index: of what is written through `chunks_exact_mut` a proof learns only the length
    for (i, s) in stretches.iter().enumerate() {
        strip[2 * i] = s.start;
        strip[2 * i + 1] = s.end;
    }
}
