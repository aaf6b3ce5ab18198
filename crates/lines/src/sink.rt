// What a line is put into: room that is counted, or bytes that are written over. So one pass over the fields measures
// and writes. (std's `Display` and `fmt::Write` say nothing of when a write fails, and a refusal is exact here.)
ghost use Rattle.std.specs.Prelude.{◌≡◌, ℕ, ◌+◌, ◌-◌, ◌≤◌, List, [], ◌++◌, map, length};
ghost use Rattle.lines.specs.Lines.{letter_byte};
ghost use Rattle.lines.specs.Sinks.{Puts};

use refusal::Refusal;
use walk::Letter;

pub(crate) trait Sink {
    // how many bytes it has room for
    ghost room: { Self → ℕ };

    // `took before text after`  it took the text
    ghost took: { Self → List ℕ → Self → Type 0 };

    // Takes the text behind what it took before, or refuses it where it has too little room.
    fn put(&mut self, text: &[u8]) -> Result<(), Refusal>
        ensures { Puts room took self.old text.now result self.new };

    // The same of letters, a byte each: room is counted at once, however many they are.
    fn put_letters(&mut self, letters: &[Letter]) -> Result<(), Refusal>
        ensures { Puts room took self.old (map letter_byte letters.now) result self.new };

    ghost nothing: { (s : Self) → took s [] s };

    ghost both: { (s t u : Self) (a b : List ℕ) → took s a t → took t b u → took s (a ++ b) u };

    ghost rest: { (s t : Self) (a : List ℕ) → took s a t → room t + length a ≡ room s };
}
