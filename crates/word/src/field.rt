ghost use Rattle.std.specs.Prelude.{◌≤◌, length};

// A field of a line: the bytes `from` to `to` of the very line.
#[derive(Clone, Copy)]
pub struct Field<'a> {
    pub line: &'a [u8],
    pub from: usize,
    pub to: usize,
    ghost ordered: { from ≤ to },
    ghost within: { to ≤ length line.now },
}
