// The value of a BODY, read part by part.
#![tactic(auto)]

ghost use Rattle.std.specs.Prelude.{◌≡◌, ◌<◌, ◌≤◌, ◌↔◌, length, IsErr, IsOk, IfErr, IfOk, Ok};
ghost use Rattle.body.specs.Bodies.{as_item, body_of, empty, inside_class, onward, or_none, read_from};
ghost use Rattle.body.specs.Entries.{entries_of};
ghost use Rattle.body.specs.Readers.{body_or, items_kept, read_or, read_so_far};
ghost use Rattle.few.specs.Few.{entries};
ghost use Rattle.parts.specs.Parts.{parts};

use entry::{Body, Class, Item};
use few::{Few, Full};
use parts::{Part, Parts};
use word::read_code;

// The items of a body, at most.
const MOST_ITEMS: usize = 16;

// What was read of a body: its items, and the codes of the class that is not shut yet.
#[derive(Clone, Copy)]
struct Reader {
    items: Few<Item, 16>,
    class: Option<Few<u16, 8>>,
}

// A part inside a class; refused where it is a code too many.
fn in_class(mut items: Few<Item, 16>, mut codes: Few<u16, 8>, part: &[u8]) -> Result<Reader, Full>
    requires { length (entries items) < 16 }
    ensures full { IsErr result ↔ (length (entries codes) ≡ 8) }
    ensures value { IfOk result (λ r. read_so_far r ≡ inside_class (items_kept items) (entries codes) part.now) }
{
    if let [code @ .., b']'] = part {
        codes.push(read_code(code))?;
        let Ok(class) = Class::new(codes.as_slice()) else {
            unreachable()
        };
        items.push(Item::Class(class))?;
        Ok(Reader { items, class: None })
    } else {
        codes.push(read_code(part))?;
        Ok(Reader {
            items,
            class: Some(codes),
        })
    }
}

// A part where an item begins.
fn an_item(mut items: Few<Item, 16>, part: &[u8]) -> Result<Reader, Full>
    requires { length (entries items) < 16 }
    ensures taken { IsOk result }
    ensures value { IfOk result (λ r. read_so_far r ≡ as_item (items_kept items) part.now) }
{
    match part {
        [b'.'] => items.push(Item::Any)?,
        [b'[', rest @ ..] => return in_class(items, Few::none(0), rest),
        _ => items.push(Item::Code(read_code(part)))?,
    }
    Ok(Reader { items, class: None })
}

impl Reader {
    fn new() -> Reader
        ensures { read_so_far result ≡ empty }
    {
        Reader {
            items: Few::none(Item::Any),
            class: None,
        }
    }

    // One part more; refused by its place where it is an entry too many.
    fn with(self, part: Part<'_>) -> Result<Reader, usize>
        ensures place { IfErr result (λ p. p ≡ part.entry.from) }
        ensures value { read_or result ≡ onward part.entry.from (read_so_far self) part.entry.bytes.now }
    {
        if self.items.len() >= MOST_ITEMS {
            return Err(part.from);
        }
        match self.class {
            Some(codes) => in_class(self.items, codes, part.bytes),
            None => an_item(self.items, part.bytes),
        }
        .map_err(|_| part.from)
    }

    // The body of the items that were read.
    fn body(self) -> Option<Body>
        ensures { entries_of result ≡ or_none (items_kept self.items) }
    {
        Body::new(self.items.as_slice()).ok()
    }
}

// All parts of the field.
fn read_items(field: &[u8]) -> Result<Reader, usize>
    ensures within { IfErr result (λ p. p ≤ length field.now) }
    ensures value { read_or result ≡ read_from 0 (Ok empty) (parts 32 field.now) }
{
    let mut reader = Reader::new();
    for part in Parts::new(field, b' ') {
        reader = reader.with(part)?;
    }
    Ok(reader)
}

// The body that the field says, or the place of the first entry too many.
pub fn read_body(field: &[u8]) -> Result<Option<Body>, usize>
    ensures within { IfErr result (λ p. p ≤ length field.now) }
    ensures value { body_or result ≡ body_of field.now }
{
    if matches!(field, [b'*']) {
        return Ok(None);
    }
    Ok(read_items(field)?.body())
}
