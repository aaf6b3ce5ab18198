// The mark source, and the test that opens it.
use crate::asked::Question::{End, Start};
use crate::asked::answers;
use crate::rows::FAR;
use entry::Mark;
use mark::MarkFault::{Entry, TooLong};
use mark::{MarkFault, MarkList, MarkSource};
use refusal::Refusal;
use source::{PricedSource, Source};
use std::alloc::Global;
use std::process::Abort;
use std::test::Fail;

pub fn at(motif: usize, start: usize, end: usize) -> Mark {
    Mark { motif, start, end }
}

pub fn opened(heap: Global, length: usize, marks: &[Mark]) -> Result<MarkSource, Fail> {
    let tested = MarkList::copied(heap, marks)?.test(length);
    let passed = tested.map_err(|_| Fail::new("the marks were refused"))?;
    Ok(passed.open())
}

#[test]
fn overlapping_marks(rt: HostRuntime) -> Result<(), Fail> {
    let marks = [
        at(0, 0, 0),
        at(0, 1, 3),
        at(0, 1, 5),
        at(0, 2, 5),
        at(0, 9, 9),
        at(3, 1, 4),
    ];
    let source = opened(rt.alloc(), 9, &marks)?;
    assert_eq!(rt; source.length(), 9);
    assert_eq!(rt; source.prices(0), (1, 2));
    assert_eq!(rt; source.prices(FAR), (1, 2), "every number has a price");
    answers(
        &rt,
        &source,
        &[
            ("an empty stretch at the first place", End(0, 0, 0), Some(0)),
            ("an empty stretch at the last place", End(0, 9, 0), Some(9)),
            ("the nearest of two ends", End(0, 1, 0), Some(3)),
            ("the next of two ends", End(0, 1, 4), Some(5)),
            ("no end is left", End(0, 1, 6), None),
            ("another motif's start", End(3, 2, 0), None),
            ("a motif without marks", End(1, 1, 0), None),
            ("the largest numbers", End(FAR, FAR, FAR), None),
            ("the nearest of two starts", Start(0, 5, 0), Some(1)),
            ("the next of two starts", Start(0, 5, 2), Some(2)),
            ("no start is left", Start(0, 5, 3), None),
            ("another motif's end", Start(0, 4, 0), None),
            (
                "the empty stretch at the last place",
                Start(0, 9, 9),
                Some(9),
            ),
            ("the largest numbers", Start(FAR, FAR, FAR), None),
        ],
    );
    Ok(())
}

// The fault with the number of its refusal, none where the marks pass.
fn fault(heap: Global, length: usize, marks: &[Mark]) -> Result<Option<(u8, MarkFault)>, Fail> {
    let tested = MarkList::copied(heap, marks)?.test(length);
    Ok(tested.err().map(|refused| (Refusal::from(refused.fault).number(), refused.fault)))
}

// What is said of a table's row, a length, marks, and the fault that is wanted.
type Case<'a> = (&'a str, usize, [Mark; 3], Option<(u8, MarkFault)>);

// The mark at this entry is at fault.
fn bad(entry: usize) -> Option<(u8, MarkFault)> {
    Some((13, Entry(entry)))
}

fn are_told(rt: &impl Abort, heap: Global, cases: &[Case<'_>]) -> Result<(), Fail> {
    for (about, length, marks, wanted) in cases {
        let found = fault(heap, *length, marks.as_slice())?;
        assert_eq!(rt; found, *wanted, "{}", *about);
    }
    Ok(())
}

#[test]
fn refused_marks(rt: HostRuntime) -> Result<(), Fail> {
    let heap = rt.alloc();
    let good = at(2, 3, 4);
    let cases = [
        (
            "in order",
            20_000,
            [at(0, 9, 9), at(15, 0, 0), at(15, 0, 20_000)],
            None,
        ),
        (
            "too long a length, before any mark",
            20_001,
            [at(16, 0, 0), good, good],
            Some((12, TooLong)),
        ),
        (
            "a motif above 15",
            9,
            [good, at(16, 5, 5), at(0, 0, 0)],
            bad(1),
        ),
        (
            "a start above its end",
            9,
            [at(2, 5, 4), good, good],
            bad(0),
        ),
        (
            "an end above the length",
            9,
            [at(2, 1, 1), at(2, 1, 10), at(2, 0, 0)],
            bad(1),
        ),
        (
            "the first of several",
            9,
            [good, good, at(16, 0, 0)],
            bad(1),
        ),
    ];
    are_told(&rt, heap, &cases)?;
    assert_eq!(rt; fault(heap, 0, &[])?, None, "no mark on no box");
    Ok(())
}

#[test]
fn marks_out_of_order(rt: HostRuntime) -> Result<(), Fail> {
    let good = at(2, 3, 4);
    let cases = [
        ("equal marks", 9, [at(1, 1, 1), good, good], bad(2)),
        (
            "an end that falls",
            9,
            [at(2, 3, 5), good, at(3, 0, 0)],
            bad(1),
        ),
        (
            "a start that falls",
            9,
            [at(2, 4, 4), good, at(3, 0, 0)],
            bad(1),
        ),
        (
            "a motif that falls",
            9,
            [at(3, 0, 0), at(3, 0, 1), good],
            bad(2),
        ),
    ];
    are_told(&rt, rt.alloc(), &cases)
}
