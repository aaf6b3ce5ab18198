ghost use Rattle.std.specs.Prelude.{◌≤◌, length};
ghost use Rattle.few.specs.Few.{entries};

use few::Few;

// 1 to 8 codes, of which a box has one.
#[derive(Clone, Copy)]
pub struct Class {
    pub(crate) codes: Few<u16, 8>,
    ghost some: { 1 ≤ length (entries codes) },
}

// What one box of a stretch has to be.
#[derive(Clone, Copy)]
pub enum Item {
    Code(u16),
    Any,
    Class(Class),
}

// 1 to 16 items, one for each box of a stretch.
#[derive(Clone, Copy)]
pub struct Body {
    pub(crate) items: Few<Item, 16>,
    ghost some: { 1 ≤ length (entries items) },
}
