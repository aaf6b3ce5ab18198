// The pass over a line: each field is put into a sink behind its comma.
ghost use Rattle.std.specs.Prelude.{◌≡◌, [], ◌∷◌, ◌++◌, map, decimal};
ghost use Rattle.lines.specs.Fields.{field_text};
ghost use Rattle.lines.specs.Lines.{commaed, letter_byte, order_text};
ghost use Rattle.lines.specs.Sinks.{Puts};
ghost use Rattle.std.specs.List.{flat_map};
ghost use Rattle.walk.specs.Asked.{order_of};

use crate::field::Field;
use crate::sink::Sink;
use itoa::Buffer;
use refusal::Refusal;
use walk::{Letter, Order};

// A `From` would have to stand in the crate of `Letter`, which knows no lines.
pub(crate) fn letter_byte(letter: Letter) -> u8
    ensures { result ≡ letter_byte letter }
{
    match letter {
        Letter::L => b'L',
        Letter::R => b'R',
    }
}

fn put_text<S: Sink>(sink: &mut S, text: &[u8]) -> Result<(), Refusal>
    ensures { Puts S.room S.took sink.old (44 ∷ text.now) result sink.new }
{
    sink.put(b",")?;
    sink.put(text)
}

fn put_number<S: Sink>(sink: &mut S, n: u64) -> Result<(), Refusal>
    ensures { Puts S.room S.took sink.old (44 ∷ decimal n) result sink.new }
{
    put_text(sink, Buffer::new().format(n).as_bytes())
}

fn put_order<S: Sink>(sink: &mut S, order: Order<'_>) -> Result<(), Refusal>
    ensures { Puts S.room S.took sink.old (44 ∷ order_text (order_of order.entry)) result sink.new }
{
    put_number(sink, order.seed as u64)?;
    sink.put_letters(order.letters)
}

fn put_numbers<S: Sink>(sink: &mut S, numbers: &[u32]) -> Result<(), Refusal>
    ensures { Puts S.room S.took sink.old (commaed (map decimal numbers.now)) result sink.new }
{
    for n in numbers {
        put_number(sink, u64::from(*n))?;
    }
    Ok(())
}

fn put_field<S: Sink>(sink: &mut S, field: Field<'_>) -> Result<(), Refusal>
    ensures { Puts S.room S.took sink.old (field_text field.entry) result sink.new }
{
    // A closed set of fields, each of another type: a match, and no trait object.
    match field {
        Field::Text(text) => put_text(sink, text),
        Field::Number(n) => put_number(sink, n),
        Field::Looks(order) => put_order(sink, order),
        Field::Numbers(numbers) => put_numbers(sink, numbers),
    }
}

fn put_fields<S: Sink>(sink: &mut S, fields: &[Field<'_>]) -> Result<(), Refusal>
    ensures { Puts S.room S.took sink.old (flat_map field_text fields.now) result sink.new }
{
    for field in fields {
        put_field(sink, *field)?;
    }
    Ok(())
}

// The letter of the line's kind, its fields, and byte 10.
pub(crate) fn put_line<S: Sink>(sink: &mut S, kind: u8, fields: &[Field<'_>]) -> Result<(), Refusal>
    ensures { Puts S.room S.took sink.old (kind ∷ (flat_map field_text fields.now ++ 10 ∷ [])) result sink.new }
{
    sink.put(&[kind])?;
    put_fields(sink, fields)?;
    sink.put(b"\n")
}
