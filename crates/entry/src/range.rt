ghost use Rattle.std.specs.Prelude.{pos, negsuc, ◌≤ℤ◌};

// How far the start of a motif may lie from the end of the motif before it: `low` to `high` boxes.
#[derive(Clone, Copy)]
pub struct Range {
    pub low: i32,
    pub high: i32,
    ghost least: { negsuc 1999 ≤ℤ low },
    ghost ordered: { low ≤ℤ high },
    ghost most: { high ≤ℤ pos 2000 },
}
