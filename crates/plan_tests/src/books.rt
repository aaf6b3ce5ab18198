// The book of the ladder, and the source that its rules are looked for in.
use book::Book;
use entry::{Body, Item, Mark, Motif, Name, Range, Rule};
use layer::Both;
use mark::{MarkList, MarkSource};
use refusal::Refusal;
use row::{RowSource, RowTest};
use std::alloc::Global;
use std::test::Fail;

pub const ROW: [u16; 12] = [97, 45, 98, 99, 100, 45, 101, 45, 102, 45, 103, 104];

pub fn add_motif(
    book: &mut Book,
    letters: &[u8],
    weight: u16,
    body: Option<Body>,
) -> Result<(), Refusal> {
    book.add_motif(Motif {
        name: Name::new(letters)?,
        weight,
        body,
    })
}

pub fn add_rule(
    book: &mut Book,
    letters: &[u8],
    motifs: &[usize],
    ranges: &[Range],
) -> Result<(), Refusal> {
    book.add_rule(Rule::new(Name::new(letters)?, motifs, ranges)?)
}

// 0 hy, 1 le; 0 hy le <2 6> hy le, 1 hy <-1 -1> hy, 2 le twelve times.
pub fn ladder(heap: Global) -> Result<Book, Fail> {
    let mut book = Book::new(heap)?;
    add_motif(&mut book, b"hy", 300, Some(Body::new(&[Item::Code(45)])?))?;
    add_motif(&mut book, b"le", 1500, None)?;
    let touching = Range::new(0, 0)?;
    let near = Range::new(-1, 1)?;
    add_rule(
        &mut book,
        b"ladder",
        &[0, 1, 0, 1],
        &[touching, Range::new(2, 6)?, touching],
    )?;
    add_rule(&mut book, b"same", &[0, 0], &[Range::new(-1, -1)?])?;
    let anywhere = Range::new(-2000, 2000)?;
    add_rule(
        &mut book,
        b"twelve",
        &[1; 12],
        &[
            anywhere, near, touching, near, touching, near, touching, near, touching, near,
            touching,
        ],
    )?;
    Ok(book)
}

fn le(place: usize) -> Mark {
    Mark {
        motif: 1,
        start: place,
        end: place,
    }
}

pub fn marks(heap: Global) -> Result<MarkSource, Fail> {
    let tested = MarkList::copied(heap, &[le(2), le(6), le(10), le(12)])?.test(12);
    let passed = tested.map_err(|_| Fail::new("the marks were refused"))?;
    Ok(passed.open())
}

pub fn page<'a>(
    heap: Global,
    row: &'a [u16],
    book: &'a Book,
) -> Result<Both<RowSource<'a>, MarkSource>, Fail> {
    Ok(Both::new(RowTest::new(row, book)?.open(), marks(heap)?))
}

// The number that an answer is refused by, if it is.
pub fn refusal_of<T: Drop>(answer: Result<T, Refusal>) -> Option<u8> {
    answer.err().map(Refusal::number)
}
