// The weighted forecast, and forecasts made from any numbers.
use crate::books::{add_motif, add_rule, ladder, refusal_of};
use book::Book;
use entry::Range;
use forecast::{Forecast, Runs};
use plan::weigh;
use std::alloc::Global;
use std::test::Fail;

// 0 le <2 6> le, 1 the same of the heaviest motif, 2 three of the heaviest, far apart.
fn weights(heap: Global) -> Result<Book, Fail> {
    let mut book = Book::new(heap)?;
    add_motif(&mut book, b"le", 1500, None)?;
    add_motif(&mut book, b"heavy", 65535, None)?;
    let near = Range::new(2, 6)?;
    let anywhere = Range::new(-2000, 2000)?;
    add_rule(&mut book, b"light", &[0, 0], &[near])?;
    add_rule(&mut book, b"heavy", &[1, 1], &[near])?;
    add_rule(&mut book, b"far", &[1, 1, 1], &[anywhere, anywhere])?;
    Ok(book)
}

#[test]
fn weighed(rt: HostRuntime) -> Result<(), Fail> {
    let book = weights(rt.alloc())?;
    let light = weigh(20_000, &book, 0)?;
    assert_eq!(rt; light.length(), 20_000);
    assert_eq!(rt; light.at(1, 1), 457);
    assert_eq!(rt; light.at(2, 2), 457);
    assert_eq!(rt; light.at(1, 2), 52);
    assert_eq!(rt; light.at(2, 3), 0, "no run of the rule");
    assert_eq!(rt;
        weigh(0, &book, 0)?.at(1, 1),
        0,
        "an empty row, rounded down"
    );
    assert_eq!(rt; weigh(20_000, &book, 1)?.at(1, 2), 99_998, "the heaviest");
    let cases = [
        ("a long row before all else", 20_001, 9, Some(12)),
        ("the longest row, no such rule", 20_000, 3, Some(14)),
        ("no rule at the largest number", 0, usize::MAX, Some(14)),
        ("a long row before a large number", 20_001, 2, Some(12)),
        ("a number too large", 20_000, 2, Some(15)),
        ("small enough in a short row", 0, 2, None),
    ];
    for (about, boxes, rule, wanted) in cases {
        assert_eq!(rt; refusal_of(weigh(boxes, &book, rule)), wanted, "{}", about);
    }
    Ok(())
}

#[test]
fn by_the_ladder(rt: HostRuntime) -> Result<(), Fail> {
    let book = ladder(rt.alloc())?;
    let ladder = weigh(20_000, &book, 0)?;
    assert_eq!(rt; ladder.at(1, 1), 91, "hy, of 300");
    assert_eq!(rt; ladder.at(2, 2), 457, "le, of 1500");
    assert_eq!(rt; ladder.at(1, 2), 2, "hy le");
    assert_eq!(rt; ladder.at(2, 3), 10, "le <2 6> hy");
    Ok(())
}

#[test]
fn from_any_numbers(rt: HostRuntime) {
    let cases = [
        ("the largest number", 20_000, 1_000_000_000, None),
        ("one more", 20_000, 1_000_000_001, Some(15)),
        ("a long row", 20_001, 1_000_000_000, Some(12)),
        (
            "a long row before a large number",
            20_001,
            1_000_000_001,
            Some(12),
        ),
    ];
    for (about, boxes, number, wanted) in cases {
        let mut runs = Runs::zeros();
        runs.put(3, 12, number);
        assert_eq!(rt; refusal_of(Forecast::new(boxes, runs)), wanted, "{}", about);
    }
}
