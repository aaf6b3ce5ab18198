// One line taken into a chapter, or refused with the chapter as it was.
ghost use Rattle.std.specs.Prelude.{◌≡◌, ◌<◌, ◌≤◌, true, length, None};
ghost use Rattle.body.specs.Bodies.{body_of};
ghost use Rattle.entry.specs.Names.{is_name};
ghost use Rattle.entry.specs.Rules.{motifs_of, net_of};
ghost use Rattle.refusal.specs.Checks.{refused_by};
ghost use Rattle.text.specs.Held.{motifs_held, steps_held};
ghost use Rattle.text.specs.Nets.{net_in};
ghost use Rattle.text.specs.Pages.{page_of};
ghost use Rattle.text.specs.Sound.{SoundRule};
ghost use Rattle.text.specs.Taking.{Takes, with_boxes_taken, with_line_taken, with_mark_taken, with_motif_taken, with_rule_taken};

use crate::faults::TextFault;
use crate::steps::Steps;
use crate::values::{read_codes, read_steps};
use body::read_body;
use book::Chapter;
use entry::{Mark, Motif, Name, Rule, is_taken, number_named};
use line::{Line, read_line};

// The bytes of a line, at most.
const LONGEST: usize = 200;

fn take_motif(chapter: &mut Chapter, name: &[u8], weight: u16, body: &[u8]) -> Result<(), TextFault>
    requires named { is_name name.now ≡ true }
    requires few { refused_by (body_of body.now) ≡ None }
    ensures { Takes (with_motif_taken (page_of chapter.old) name.now weight body.now) (page_of chapter.old) (page_of chapter.new) result }
{
    if is_taken(chapter.book.motifs(), name) {
        return Err(TextFault::NameTaken);
    }
    let Ok(name) = Name::new(name) else {
        unreachable()
    };
    let Ok(body) = read_body(body) else {
        unreachable()
    };
    chapter
        .add_motif(Motif { name, weight, body })
        .map_err(|_| TextFault::NoRoom)
}

fn make_rule(name: Name, steps: Steps) -> Rule
    requires { 0 < length (motifs_held steps) }
    ensures name { result.name ≡ name }
    ensures motifs { motifs_of result ≡ motifs_held steps }
    ensures net { net_of result ≡ net_in (steps_held steps) }
{
    let Ok(rule) = Rule::new(name, steps.motifs.as_slice(), &steps.ranges.as_slice()[1..]) else {
        unreachable()
    };
    rule
}

fn take_rule(chapter: &mut Chapter, name: &[u8], net: &[u8]) -> Result<(), TextFault>
    requires { SoundRule 198 name.now net.now }
    ensures { Takes (with_rule_taken (page_of chapter.old) name.now net.now) (page_of chapter.old) (page_of chapter.new) result }
{
    if is_taken(chapter.book.rules(), name) {
        return Err(TextFault::NameTaken);
    }
    let net_from = 3 + name.len();
    let Ok(name) = Name::new(name) else {
        unreachable()
    };
    let steps = read_steps(chapter.book.motifs(), net).map_err(|at| TextFault::UnknownMotif(
        net_from + at,
    ))?;
    chapter
        .add_rule(make_rule(name, steps))
        .map_err(|_| TextFault::NoRoom)
}

fn take_boxes(chapter: &mut Chapter, field: &[u8]) -> Result<(), TextFault>
    requires { length field.now ≤ 198 }
    ensures { Takes (with_boxes_taken (page_of chapter.old) field.now) (page_of chapter.old) (page_of chapter.new) result }
{
    let codes = read_codes(field);
    chapter
        .add_boxes(codes.as_slice())
        .map_err(|_| TextFault::NoRoom)
}

fn take_mark(chapter: &mut Chapter, name: &[u8], start: usize, end: usize) -> Result<(), TextFault>
    requires { (start ≤ 20000) × (end ≤ 20000) }
    ensures { Takes (with_mark_taken (page_of chapter.old) name.now start end) (page_of chapter.old) (page_of chapter.new) result }
{
    let Some(motif) = number_named(chapter.book.motifs(), name) else {
        return Err(TextFault::UnknownMotif(2));
    };
    chapter
        .add_mark(Mark { motif, start, end })
        .map_err(|_| TextFault::NoRoom)
}

// Takes a line that is not empty; any bytes may come.
pub fn take_line(chapter: &mut Chapter, line: &[u8]) -> Result<(), TextFault>
    ensures { Takes (with_line_taken (page_of chapter.old) line.now) (page_of chapter.old) (page_of chapter.new) result }
{
    if line.len() > LONGEST {
        return Err(TextFault::LineTooLong);
    }
    // As for the kinds of lines: four for good, and each has other fields.
    match read_line(line)? {
        Line::Motif { name, weight, body } => take_motif(chapter, name, weight, body),
        Line::Rule { name, net } => take_rule(chapter, name, net),
        Line::Boxes { codes } => take_boxes(chapter, codes),
        Line::Mark { name, start, end } => take_mark(chapter, name, start, end),
    }
}
