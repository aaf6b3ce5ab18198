// The counted forecast.
use crate::books::{ROW, add_motif, add_rule, ladder, page, refusal_of};
use book::Book;
use counter::{CountRoom, count};
use entry::{Body, Item, Range};
use row::RowTest;
use source::Source;
use std::test::Fail;

#[test]
fn the_ladder(rt: HostRuntime) -> Result<(), Fail> {
    let heap = rt.alloc();
    let book = ladder(heap)?;
    let row = ROW;
    let source = page(heap, &row, &book)?;
    let mut room = CountRoom::new(heap)?;
    let forecast = count(&mut room, &source, &book, 0)?;
    assert_eq!(rt; forecast.length(), 12);
    let cases = [
        ("hy", 1, 1, 4),
        ("hy le", 1, 2, 3),
        ("le <2 6> hy", 2, 3, 3),
        ("le <2 6> hy le", 2, 4, 2),
        ("the whole rule", 1, 4, 2),
        ("no motif 0", 0, 1, 0),
        ("no motif 5", 1, 5, 0),
        ("turned", 2, 1, 0),
    ];
    for (about, first, last, wanted) in cases {
        assert_eq!(rt; forecast.at(first, last), wanted, "{}", about);
    }
    let same = count(&mut room, &source, &book, 1)?;
    assert_eq!(rt; same.at(1, 2), 4, "a range below 0");
    let twelve = count(&mut room, &source, &book, 2)?;
    assert_eq!(rt; twelve.at(1, 12), 16, "twelve motifs");
    assert_eq!(rt;
        refusal_of(count(&mut room, &source, &book, 3)),
        Some(14),
        "no such rule"
    );
    Ok(())
}

#[test]
fn as_many_as_there_may_be(rt: HostRuntime) -> Result<(), Fail> {
    let heap = rt.alloc();
    let mut book = Book::new(heap)?;
    add_motif(&mut book, b"any", 0, Some(Body::new(&[Item::Any])?))?;
    let anywhere = Range::new(-2000, 2000)?;
    add_rule(&mut book, b"nine", &[0; 9], &[anywhere; 8])?;
    add_rule(&mut book, b"ten", &[0; 10], &[anywhere; 9])?;
    let row = [0; 10];
    let source = RowTest::new(&row, &book)?.open();
    let mut room = CountRoom::new(heap)?;
    let nine = count(&mut room, &source, &book, 0)?;
    assert_eq!(rt; nine.at(1, 9), 1_000_000_000, "the largest");
    assert_eq!(rt;
        refusal_of(count(&mut room, &source, &book, 1)),
        Some(15),
        "the whole rule passes it"
    );
    Ok(())
}
