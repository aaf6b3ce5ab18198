ghost use Rattle.std.specs.Prelude.{◌≡◌, ◌≤◌, true, vec_len, vec_capacity};
ghost use Rattle.book.specs.Entries.{all_held};

use super::book::Book;
use entry::Mark;

// A book, the row of codes that its rules are looked for in, and the marks on it. Room for all of them is there from
// the start. A mark's start may lie behind its end here.
#[derive(Drop)]
pub struct Chapter {
    pub book: Book,
    pub(crate) row: Vec<u16>,
    pub(crate) marks: Vec<Mark>,
    ghost short: { vec_len row ≤ 20000 },
    ghost few: { vec_len marks ≤ 4000 },
    ghost rowroom: { 20000 ≤ vec_capacity row },
    ghost markroom: { 4000 ≤ vec_capacity marks },
    ghost held: { all_held (vec_len book.motifs) marks.items ≡ true },
}
