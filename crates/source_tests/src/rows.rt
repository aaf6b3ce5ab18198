// The row source, and the test that opens it.
use crate::asked::Question::{End, Start};
use crate::asked::answers;
use book::Book;
use entry::{Body, Class, Item, Motif, Name};
use refusal::Refusal;
use row::RowTest;
use source::{PricedSource, Source};
use std::alloc::Global;
use std::test::Fail;

pub const FAR: usize = 18446744073709551615;

fn add(book: &mut Book, letters: &[u8], body: Option<Body>) -> Result<(), Refusal> {
    book.add_motif(Motif {
        name: Name::new(letters)?,
        weight: 1,
        body,
    })
}

fn vowel_then_any() -> Result<Body, Refusal> {
    let vowel = Item::Class(Class::new(&[97, 101])?);
    Body::new(&[vowel, Item::Any])
}

// 0 the box 45, 1 no body, 2 one of 97 and 101 and then any box, 3 any two boxes.
pub fn four_motifs(heap: Global) -> Result<Book, Fail> {
    let mut book = Book::new(heap)?;
    add(&mut book, b"hy", Some(Body::new(&[Item::Code(45)])?))?;
    add(&mut book, b"le", None)?;
    add(&mut book, b"va", Some(vowel_then_any()?))?;
    add(&mut book, b"two", Some(Body::new(&[Item::Any, Item::Any])?))?;
    Ok(book)
}

#[test]
fn a_short_row(rt: HostRuntime) -> Result<(), Fail> {
    let book = four_motifs(rt.alloc())?;
    let row = [97, 45, 101, 45, 45];
    let source = RowTest::new(&row, &book)?.open();
    assert_eq!(rt; source.length(), 5);
    assert_eq!(rt; source.prices(0), (1, 0), "one item");
    assert_eq!(rt; source.prices(1), (1, 0), "no body");
    assert_eq!(rt; source.prices(3), (2, 0), "two items");
    assert_eq!(rt; source.prices(FAR), (1, 0), "no such motif");
    answers(
        &rt,
        &source,
        &[
            ("a code", End(0, 1, 0), Some(2)),
            ("another code", End(0, 0, 0), None),
            ("least at the end", End(0, 1, 2), Some(2)),
            ("least past the end", End(0, 1, 3), None),
            ("no body", End(1, 1, 0), None),
            ("a class and any box", End(2, 2, 0), Some(4)),
            ("the last two boxes", End(3, 3, 0), Some(5)),
            ("one box is too few", End(3, 4, 0), None),
            ("no box behind the row", End(0, 5, 0), None),
            ("a motif above 15", End(16, 1, 0), None),
            ("the largest start", End(0, FAR, 0), None),
            ("the largest least", End(0, 1, FAR), None),
            ("a code", Start(0, 2, 0), Some(1)),
            ("least at the start", Start(0, 2, 1), Some(1)),
            ("least past the start", Start(0, 2, 2), None),
            ("more items than boxes before", Start(3, 1, 0), None),
            ("an end behind the row", Start(0, 6, 0), None),
            ("the largest numbers", Start(FAR, FAR, FAR), None),
        ],
    );
    Ok(())
}

#[test]
fn lengths(rt: HostRuntime) -> Result<(), Fail> {
    let heap = rt.alloc();
    let book = four_motifs(heap)?;
    let codes = vec![in heap; 45; 20_001]?;
    assert!(rt; codes.len() == 20_001);
    assert_eq!(rt;
        RowTest::new(&codes.as_slice()[0..0], &book)?
            .open()
            .length(),
        0,
        "no box"
    );
    let full = RowTest::new(&codes.as_slice()[0..20_000], &book)?.open();
    answers(
        &rt,
        &full,
        &[
            ("the last box", End(0, 19_999, 0), Some(20_000)),
            ("the last place", End(0, 20_000, 0), None),
        ],
    );
    let refused = RowTest::new(codes.as_slice(), &book)
        .err()
        .map(Refusal::number);
    assert_eq!(rt; refused, Some(12), "20,001 boxes");
    Ok(())
}
