// The lines of stretches.
use crate::sources::Sources;
use book::Chapter;
use source::{PricedSource, Source};
use std::alloc::{AllocError, Global};
use std::io;

// Appends the stretches of the motif by start and then end, each found by the end question.
fn write_stretches<S: PricedSource>(
    heap: Global,
    source: &S,
    motif: usize,
    line: &mut String,
) -> Result<(), AllocError> {
    for start in 0..=source.length() {
        let mut least = start;
        while let Some(end) = source.next_end(motif, start, least) {
            line.push_str(format!(in heap; " ({start},{end})")?.as_str())?;
            least = end + 1;
        }
    }
    Ok(())
}

// One line: the motif, the source, its length, the two prices, and the stretches.
fn print_motif<R: Print + AllocGlobal, S: PricedSource>(
    rt: &R,
    name: &str,
    by: &str,
    source: &S,
    motif: usize,
) -> io::Result<()> {
    let heap = rt.alloc();
    let length = source.length();
    let (look, opening) = source.prices(motif);
    let mut line = format!(in heap; "{name} {by} {length} {look},{opening}:")?;
    write_stretches(heap, source, motif, &mut line)?;
    rt.println(line)
}

// The stretches of each motif of the chapter, as each of its sources has them.
pub fn print_stretches<R: Print + AllocGlobal>(
    rt: &R,
    chapter: &Chapter,
    sources: &Sources<'_>,
) -> io::Result<()> {
    for (number, motif) in chapter.book.motifs().iter().enumerate() {
        let name = String::from_utf8_lossy(rt.alloc(), motif.name.letters())?;
        print_motif(rt, name.as_str(), "row", &sources.row, number)?;
        print_motif(rt, name.as_str(), "marks", &sources.marks, number)?;
        print_motif(rt, name.as_str(), "both", &sources.both, number)?;
        print_motif(rt, name.as_str(), "window", &sources.window, number)?;
    }
    Ok(())
}
