// What a book and a chapter take, and what a refusal leaves.
use crate::refused::refused;
use book::{Book, Chapter};
use entry::{Mark, Motif, Name, Range, Rule};
use refusal::Refusal;
use std::test::Fail;

fn motif(letter: u8) -> Result<Motif, Refusal> {
    Ok(Motif {
        name: Name::new(&[letter])?,
        weight: 1,
        body: None,
    })
}

// A rule of one motif.
fn rule(letter: u8, motif: usize) -> Result<Rule, Refusal> {
    Rule::new(Name::new(&[letter])?, &[motif], &[])
}

fn mark(motif: usize, start: usize, end: usize) -> Mark {
    Mark { motif, start, end }
}

#[test]
fn sixteen_motifs(rt: HostRuntime) -> Result<(), Fail> {
    let mut book = Book::new(rt.alloc())?;
    for letter in b'a'..b'q' {
        assert_eq!(rt; refused(book.add_motif(motif(letter)?)), None);
    }
    assert_eq!(rt;
        refused(book.add_motif(motif(b'a')?)),
        Some(9),
        "9 before 11"
    );
    assert_eq!(rt;
        refused(book.add_motif(motif(b'q')?)),
        Some(11),
        "a seventeenth"
    );
    assert_eq!(rt; book.motifs().len(), 16);
    Ok(())
}

#[test]
fn eight_rules(rt: HostRuntime) -> Result<(), Fail> {
    let mut book = Book::new(rt.alloc())?;
    assert_eq!(rt;
        refused(book.add_rule(rule(b'a', 0)?)),
        Some(10),
        "no motif yet"
    );
    book.add_motif(motif(b'a')?)?;
    for letter in b'a'..b'i' {
        assert_eq!(rt;
            refused(book.add_rule(rule(letter, 0)?)),
            None,
            "a rule may be called like a motif"
        );
    }
    assert_eq!(rt;
        refused(book.add_rule(rule(b'a', 1)?)),
        Some(9),
        "9 before 10"
    );
    assert_eq!(rt;
        refused(book.add_rule(rule(b'i', 1)?)),
        Some(10),
        "10 before 11"
    );
    assert_eq!(rt; refused(book.add_rule(rule(b'i', 0)?)), Some(11), "a ninth");
    assert_eq!(rt; book.rules().len(), 8);
    Ok(())
}

#[test]
fn rows(rt: HostRuntime) -> Result<(), Fail> {
    let heap = rt.alloc();
    let mut chapter = Chapter::new(heap)?;
    let codes = vec![in heap; 7; 20_000]?;
    assert_eq!(rt; refused(chapter.add_boxes(&[])), Some(6), "no codes");
    assert_eq!(rt; refused(chapter.add_boxes(&[1, 2])), None);
    assert_eq!(rt;
        refused(chapter.add_boxes(codes.as_slice())),
        Some(11),
        "taken whole or not at all"
    );
    assert_eq!(rt; chapter.row().len(), 2);
    let rest = chapter.row().len();
    assert!(rt; rest <= 20_000);
    assert_eq!(rt;
        refused(chapter.add_boxes(&codes.as_slice()[rest..])),
        None,
        "exactly 20,000"
    );
    assert_eq!(rt; refused(chapter.add_boxes(&[1])), Some(11), "box 20,001");
    assert_eq!(rt; chapter.row().len(), 20_000);
    Ok(())
}

#[test]
fn marks(rt: HostRuntime) -> Result<(), Fail> {
    let mut chapter = Chapter::new(rt.alloc())?;
    chapter.add_motif(motif(b'a')?)?;
    assert_eq!(rt;
        refused(chapter.add_mark(mark(0, 20_000, 20_000))),
        None,
        "the last place, on no boxes"
    );
    assert_eq!(rt;
        refused(chapter.add_mark(mark(0, 9, 2))),
        None,
        "a start behind its end"
    );
    assert_eq!(rt;
        refused(chapter.add_mark(mark(1, 20_001, 0))),
        Some(5),
        "5 before 10"
    );
    assert_eq!(rt;
        refused(chapter.add_mark(mark(0, 0, 20_001))),
        Some(5),
        "an end too far"
    );
    assert_eq!(rt;
        refused(chapter.add_mark(mark(1, 0, 0))),
        Some(10),
        "a motif not in the book"
    );
    for _ in 2..4_000 {
        chapter.add_mark(mark(0, 5, 5))?;
    }
    assert_eq!(rt;
        refused(chapter.add_mark(mark(0, 5, 5))),
        Some(11),
        "mark 4,001"
    );
    assert_eq!(rt; chapter.marks().len(), 4_000);
    Ok(())
}
