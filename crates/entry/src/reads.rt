// What a value of a book holds.
ghost use Rattle.std.specs.Prelude.{◌≡◌, ◌≤◌, nat_eq};
ghost use Rattle.entry.specs.Bodies.{codes_of, fits, items_of};
ghost use Rattle.entry.specs.Named.{letters_of};
ghost use Rattle.entry.specs.Rules.{motifs_of, ranges_of, span_of, width};
ghost use Rattle.std.specs.List.{list_any};

use crate::body::{Body, Class, Item};
use crate::name::Name;
use crate::range::Range;
use crate::rule::Rule;

impl Name {
    pub fn letters(&self) -> &[u8]
        ensures { result.now ≡ letters_of self.now }
    {
        self.letters.as_slice()
    }
}

// A class has few codes: of these one after another is quicker than `contains`, which compares many at a time.
fn has_code(codes: &[u16], code: u16) -> bool
    ensures { result ≡ list_any (nat_eq code) codes.now }
{
    codes.iter().any(|c| code == *c)
}

impl Class {
    pub fn codes(&self) -> &[u16]
        ensures { result.now ≡ codes_of self.now }
    {
        self.codes.as_slice()
    }
}

impl Item {
    // Whether a box with this code fits the item.
    pub fn fits_code(&self, code: u16) -> bool
        ensures { result ≡ fits self.now code }
    {
        match self {
            Item::Code(c) => code == *c,
            Item::Any => true,
            Item::Class(class) => has_code(class.codes(), code),
        }
    }
}

impl Body {
    pub fn items(&self) -> &[Item]
        ensures { result.now ≡ items_of self.now }
    {
        self.items.as_slice()
    }
}

impl Range {
    // The number of places that the range allows, 1 to 4,001.
    pub fn width(self) -> usize
        ensures value { result ≡ width (span_of self) }
        ensures bound { (1 ≤ result) × (result ≤ 4001) }
    {
        (self.high - self.low + 1) as usize
    }
}

impl Rule {
    pub fn motifs(&self) -> &[usize]
        ensures { result.now ≡ motifs_of self.now }
    {
        self.motifs.as_slice()
    }

    pub fn ranges(&self) -> &[Range]
        ensures { result.now ≡ ranges_of self.now }
    {
        self.ranges.as_slice()
    }
}
