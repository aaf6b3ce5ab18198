// The checks of a field by the line layer; a place is counted from the start of the line.
ghost use Rattle.std.specs.Prelude.{◌≡◌};
ghost use Rattle.line.specs.Fields.{placed_of};
ghost use Rattle.line.specs.Lines.{backward_range, bad_shape, too_many_items, too_many_names};
ghost use Rattle.refusal.specs.Checks.{refused_by};

use crate::faults::LineFault;
use body::read_body;
use net::{NetReader, Token};
use shape::{Form, shape_fault};
use word::Field;

// The names of a net, at most.
const MOST_NAMES: usize = 12;

pub(crate) fn check_shape(field: Field<'_>, form: Form) -> Result<(), LineFault>
    ensures { refused_by result ≡ bad_shape form (placed_of field.entry) }
{
    shape_fault(form, field.bytes()).map_or(Ok(()), |q| Err(LineFault::BadShape(field.from + q)))
}

pub(crate) fn check_items(body: Field<'_>) -> Result<(), LineFault>
    ensures { refused_by result ≡ too_many_items (placed_of body.entry) }
{
    read_body(body.bytes())
        .map(|_| ())
        .map_err(|q| LineFault::TooMany(body.from + q))
}

// Loops, here and below: with `find`, and with `filter` and `nth`, the goal `returns` stayed open, as the library's lemmas
// on them do not fit items that have a lifetime.
pub(crate) fn check_ranges(net: Field<'_>) -> Result<(), LineFault>
    ensures { refused_by result ≡ backward_range (placed_of net.entry) }
{
    for token in NetReader::new(net.bytes()) {
        match token {
            Token::Range { at, bounds } if bounds.high < bounds.low => {
                return Err(LineFault::BackwardRange(net.from + at));
            }
            _ => {}
        }
    }
    Ok(())
}

pub(crate) fn check_names(net: Field<'_>) -> Result<(), LineFault>
    ensures { refused_by result ≡ too_many_names (placed_of net.entry) }
{
    let mut names: usize = 0;
    for token in NetReader::new(net.bytes()) {
        if let Token::Name { at, .. } = token {
            if names >= MOST_NAMES {
                return Err(LineFault::TooMany(net.from + at));
            }
            names += 1;
        }
    }
    Ok(())
}
