ghost use Rattle.std.specs.Prelude.{◌≡◌, ◌+◌, length};
ghost use Rattle.few.specs.Few.{entries};

use crate::name::Name;
use crate::range::Range;
use few::Few;

// 1 to 12 motifs, by their numbers in a book, with a range between neighbours.
#[derive(Clone, Copy)]
pub struct Rule {
    pub name: Name,
    pub(crate) motifs: Few<usize, 12>,
    pub(crate) ranges: Few<Range, 11>,
    ghost between: { length (entries motifs) ≡ length (entries ranges) + 1 },
}
