// A line is measured first and written then, so that a refusal leaves the bytes.
ghost use Rattle.std.specs.Prelude.{[], ◌∷◌, ◌++◌};
ghost use Rattle.lines.specs.Fields.{field_text};
ghost use Rattle.lines.specs.Lines.{end_line, fault_line, find_line, plan_line};
ghost use Rattle.lines.specs.Written.{Written};
ghost use Rattle.std.specs.List.{flat_map};
ghost use Rattle.walk.specs.Asked.{order_of};

use crate::cursor::Cursor;
use crate::field::Field;
use crate::put::put_line;
use crate::room::Room;
use entry::Name;
use refusal::{Layer, Refusal};
use walk::Order;

fn write_line(out: &mut [u8], kind: u8, fields: &[Field<'_>]) -> Result<usize, Refusal>
    ensures { Written (kind ∷ (flat_map field_text fields.now ++ 10 ∷ [])) out.old out.new result }
{
    let mut room = Room { left: out.len() };
    put_line(&mut room, kind, fields)?;
    let mut cursor = Cursor { out, at: 0 };
    put_line(&mut cursor, kind, fields)?;
    Ok(cursor.at)
}

// A rule's plan.
pub fn write_plan<'a>(
    out: &mut [u8],
    name: &'a Name,
    order: Order<'a>,
    price: u64,
) -> Result<usize, Refusal>
    ensures { Written (plan_line name.now (order_of order.entry) price) out.old out.new result }
{
    let fields = [
        Field::Text(name.letters()),
        Field::Looks(order),
        Field::Number(price),
    ];
    write_line(out, b'p', &fields)
}

// A find of a rule: start and end of each motif, in the rule's order.
pub fn write_find<'a>(out: &mut [u8], name: &'a Name, numbers: &'a [u32]) -> Result<usize, Refusal>
    ensures { Written (find_line name.now numbers.now) out.old out.new result }
{
    let fields = [Field::Text(name.letters()), Field::Numbers(numbers)];
    write_line(out, b'f', &fields)
}

// The end of a rule: how many finds it had, and the bill.
pub fn write_end(out: &mut [u8], name: &Name, finds: u64, bill: u64) -> Result<usize, Refusal>
    ensures { Written (end_line name.now finds bill) out.old out.new result }
{
    let fields = [
        Field::Text(name.letters()),
        Field::Number(finds),
        Field::Number(bill),
    ];
    write_line(out, b'e', &fields)
}

// A refusal, with the layer that it comes from. `line` is the line, the entry or the rule's number.
pub fn write_fault(
    out: &mut [u8],
    refusal: Refusal,
    layer: Layer,
    line: usize,
    place: usize,
) -> Result<usize, Refusal>
    ensures { Written (fault_line refusal layer line place) out.old out.new result }
{
    let fields = [
        Field::Number(u64::from(refusal.number())),
        Field::Text(layer.text().as_bytes()),
        Field::Number(line as u64),
        Field::Number(place as u64),
    ];
    write_line(out, b'x', &fields)
}
