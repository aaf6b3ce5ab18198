// One line, judged number by number over the whole of it.
ghost use Rattle.std.specs.Prelude.{◌≡◌, ◌+◌, ◌<◌, ◌≤◌, ◌∷◌, length, IfOk};
ghost use Rattle.line.specs.Fields.{placed, placed_of};
ghost use Rattle.line.specs.Lines.{boxes_fault, line_fault, mark_fault, motif_fault, rule_fault};
ghost use Rattle.line.specs.Said.{ReadsAs, line_says, said};
ghost use Rattle.line.specs.declared.kinds.Kind.TheVariants.{Boxes, Mark, Motif, Rule};
ghost use Rattle.parts.specs.Parts.{left};
ghost use Rattle.refusal.specs.Checks.{refused_by};

use crate::checks::{check_items, check_names, check_ranges, check_shape};
use crate::faults::LineFault;
use crate::kinds::{Kind, Line};
use parts::{count, part_end};
use shape::Form;
use word::{Field, Limits, check_letters, check_numbers, read_code, read_name, read_place};

fn judge_motif(name: Field<'_>, weight: Field<'_>, body: Field<'_>) -> Result<(), LineFault>
    ensures { refused_by result ≡ motif_fault (placed_of name.entry) (placed_of weight.entry) (placed_of body.entry) }
{
    read_name(name)?;
    check_numbers(weight, Limits::Code)?;
    check_numbers(body, Limits::Code)?;
    check_shape(weight, Form::Number)?;
    check_shape(body, Form::Body)?;
    check_items(body)
}

fn judge_rule(name: Field<'_>, net: Field<'_>) -> Result<(), LineFault>
    ensures { refused_by result ≡ rule_fault (placed_of name.entry) (placed_of net.entry) }
{
    read_name(name)?;
    check_letters(net)?;
    check_numbers(net, Limits::Shift)?;
    check_shape(net, Form::Net)?;
    check_ranges(net)?;
    check_names(net)
}

fn judge_boxes(codes: Field<'_>) -> Result<(), LineFault>
    ensures { refused_by result ≡ boxes_fault (placed_of codes.entry) }
{
    check_numbers(codes, Limits::Code)?;
    check_shape(codes, Form::Codes)
}

fn judge_mark(name: Field<'_>, start: Field<'_>, end: Field<'_>) -> Result<(), LineFault>
    ensures { refused_by result ≡ mark_fault (placed_of name.entry) (placed_of start.entry) (placed_of end.entry) }
{
    read_name(name)?;
    check_numbers(start, Limits::Place)?;
    check_numbers(end, Limits::Place)?;
    check_shape(start, Form::Number)?;
    check_shape(end, Form::Number)
}

// The field of the line that begins at `from`, with those behind it left. The readers below ask for as many as their
// kind has; the parts of the line as an iterator would answer each with an Option that is never none.
#[tactic(auto, using(crate::proofs::Splits::within, crate::proofs::Splits::fewer, parts::proofs::Cuts::placed_cut))]
fn field_at(line: &[u8], from: usize) -> Field<'_>
    requires { 0 < length (left 44 line.now from) }
    ensures fewer { length (left 44 line.now from) ≡ 1 + length (left 44 line.now (result.to + 1)) }
    ensures first { placed from (left 44 line.now from) ≡ placed_of result ∷ placed (result.to + 1) (left 44 line.now (result.to + 1)) }
    ensures room { result.to ≤ length line.now }
{
    let to = part_end(line, from, b',');
    Field { line, from, to }
}

fn read_motif(line: &[u8]) -> Result<Line<'_>, LineFault>
    requires { length (left 44 line.now 2) ≡ 3 }
    ensures { ReadsAs Motif line.now result }
{
    let name = field_at(line, 2);
    let weight = field_at(line, name.to + 1);
    let body = field_at(line, weight.to + 1);
    judge_motif(name, weight, body)?;
    Ok(Line::Motif {
        name: name.bytes(),
        weight: read_code(weight.bytes()),
        body: body.bytes(),
    })
}

fn read_rule(line: &[u8]) -> Result<Line<'_>, LineFault>
    requires { length (left 44 line.now 2) ≡ 2 }
    ensures { ReadsAs Rule line.now result }
{
    let name = field_at(line, 2);
    let net = field_at(line, name.to + 1);
    judge_rule(name, net)?;
    Ok(Line::Rule {
        name: name.bytes(),
        net: net.bytes(),
    })
}

fn read_boxes(line: &[u8]) -> Result<Line<'_>, LineFault>
    requires { length (left 44 line.now 2) ≡ 1 }
    ensures { ReadsAs Boxes line.now result }
{
    let codes = field_at(line, 2);
    judge_boxes(codes)?;
    Ok(Line::Boxes {
        codes: codes.bytes(),
    })
}

fn read_mark(line: &[u8]) -> Result<Line<'_>, LineFault>
    requires { length (left 44 line.now 2) ≡ 3 }
    ensures { ReadsAs Mark line.now result }
{
    let name = field_at(line, 2);
    let start = field_at(line, name.to + 1);
    let end = field_at(line, start.to + 1);
    judge_mark(name, start, end)?;
    Ok(Line::Mark {
        name: name.bytes(),
        start: read_place(start.bytes()),
        end: read_place(end.bytes()),
    })
}

// What a line says, or the first fault that it has; any bytes may come.
#[tactic(auto, using(crate::proofs::Splits::as_many))]
pub fn read_line(line: &[u8]) -> Result<Line<'_>, LineFault>
    ensures refused { refused_by result ≡ line_fault line.now }
    ensures value { IfOk result (λ x. said x ≡ line_says line.now) }
{
    let Some(kind) = Kind::of(line) else {
        return Err(LineFault::UnknownKind);
    };
    if count(line, b',') != kind.commas() {
        return Err(LineFault::WrongCommas(line.len()));
    }
    // The kinds are four for good, so a match says more than a table of functions.
    match kind {
        Kind::Motif => read_motif(line),
        Kind::Rule => read_rule(line),
        Kind::Boxes => read_boxes(line),
        Kind::Mark => read_mark(line),
    }
}
