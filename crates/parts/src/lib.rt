// A text in parts, which end at a byte of its own.
#![tactic(auto)]

ghost use Rattle.std.specs.Prelude.{◌≡◌, ◌<◌, ◌≤◌, length};
ghost use Rattle.std.specs.Iterator.{YieldsFirstBy, item_count};
ghost use Rattle.std.specs.List.{AllByRecursion};
ghost use Rattle.parts.specs.Parts.{IsPart, parts, placed, tally};
ghost use Rattle.parts.specs.Readers.{as_placed, parts_left};

// How often the byte stands in the text.
pub fn count(text: &[u8], byte: u8) -> usize
    ensures { result ≡ tally byte text.now }
{
    text.iter().filter(|x| **x == byte).count()
}

// How long the first part is.
fn first_len(text: &[u8], byte: u8) -> usize
    ensures { IsPart byte text.now 0 result }
{
    text.iter().take_while(|x| **x != byte).count()
}

// The end of the part that begins at `from`: the next such byte, or the end of the text. What stands before `from` is cut
// off, since an iterator that skips goes over it.
pub fn part_end(text: &[u8], from: usize, byte: u8) -> usize
    ensures inside { from ≤ length text.now → IsPart byte text.now from result }
    ensures behind { length text.now < from → result ≡ from }
{
    if from > text.len() {
        return from;
    }
    from + first_len(&text[from..], byte)
}

// A part of a text, and the place at which it begins.
#[derive(Clone, Copy)]
pub struct Part<'a> {
    pub from: usize,
    pub bytes: &'a [u8],
}

// The parts of a text in turn.
#[derive(Clone, Copy)]
pub struct Parts<'a> {
    text: &'a [u8],
    byte: u8,
    // Where the next part begins; behind the text there is none.
    from: usize,
}

impl<'a> Parts<'a> {
    #[tactic(auto, using(crate::proofs::Places::places_within))]
    pub fn new(text: &'a [u8], byte: u8) -> Parts<'a>
        ensures left { parts_left result ≡ placed 0 (parts byte text.now) }
        ensures within { AllByRecursion (λ p. p.at ≤ length text.now) (parts_left result) }
    {
        Parts {
            text,
            byte,
            from: 0,
        }
    }
}

impl<'a> Iterator for Parts<'a> {
    type Item = Part<'a>;

    ghost next_gives = { YieldsFirstBy as_placed parts_left };

    ghost remaining = { item_count parts_left };

    #[tactic(auto, using(crate::proofs::Cuts::placed_cut))]
    fn next(&mut self) -> Option<Part<'a>> {
        let text = self.text;
        let from = self.from;
        if from > text.len() {
            return None;
        }
        let to = part_end(text, from, self.byte);
        self.from = to + 1;
        Some(Part {
            from,
            bytes: &text[from..to],
        })
    }
}
