// The sources of a chapter.
ghost use Rattle.std.specs.Prelude.{◌≡◌, IfOk};
ghost use Rattle.layer.specs.Layers.{window};
ghost use Rattle.listing.specs.Opened.{OpenAnswer, both_meaning, marks_meaning, row_meaning_of};
ghost use Rattle.mark.specs.Opened.{opened_meaning as mark_source_meaning};
ghost use Rattle.row.specs.Opened.{opened_meaning as row_source_meaning};

use crate::open_error::OpenError;
use book::Chapter;
use layer::{Both, Window};
use mark::{MarkList, MarkSource};
use row::{RowSource, RowTest};
use source::Source;
use std::alloc::Global;

// The places between which the window lies.
const FROM: usize = 6;

const TO: usize = 10;

// The stretches of a chapter's motifs as its row, its marks, both and a window on both have them.
#[derive(Drop)]
pub struct Sources<'a> {
    pub row: RowSource<'a>,
    pub marks: MarkSource,
    pub both: Both<RowSource<'a>, MarkSource>,
    pub window: Window<Both<RowSource<'a>, MarkSource>>,
}

fn row_of(chapter: &Chapter) -> RowSource<'_>
    ensures { row_source_meaning result ≡ row_meaning_of chapter.now }
{
    match RowTest::new(chapter.row(), &chapter.book) {
        Ok(passed) => passed.open(),
        Err(_) => unreachable!(),
    }
}

fn marks_of(heap: Global, chapter: &Chapter) -> Result<MarkSource, OpenError>
    ensures value { IfOk result (λ s. mark_source_meaning s ≡ marks_meaning chapter.now) }
    ensures fault { OpenAnswer chapter.now result }
{
    let list = MarkList::copied(heap, chapter.marks())?;
    match list.test(chapter.row().len()) {
        Ok(passed) => Ok(passed.open()),
        Err(refused) => Err(OpenError::Marks(refused.fault)),
    }
}

fn both_of(heap: Global, chapter: &Chapter) -> Result<Both<RowSource<'_>, MarkSource>, OpenError>
    ensures value { IfOk result (λ s. ⟦<Both<RowSource<'static>, MarkSource> as Source>⟧.means s ≡ both_meaning chapter.now) }
    ensures fault { OpenAnswer chapter.now result }
{
    Ok(Both::new(row_of(chapter), marks_of(heap, chapter)?))
}

impl<'a> Sources<'a> {
    pub fn open(heap: Global, chapter: &'a Chapter) -> Result<Sources<'a>, OpenError>
        ensures row { IfOk result (λ s. row_source_meaning s.row ≡ row_meaning_of chapter.now) }
        ensures marks { IfOk result (λ s. mark_source_meaning s.marks ≡ marks_meaning chapter.now) }
        ensures both { IfOk result (λ s. ⟦<Both<RowSource<'static>, MarkSource> as Source>⟧.means s.both ≡ both_meaning chapter.now) }
        ensures window { IfOk result (λ s. ⟦<Window<Both<RowSource<'static>, MarkSource>> as Source>⟧.means s.window ≡ window (both_meaning chapter.now) 6 10) }
        ensures fault { OpenAnswer chapter.now result }
    {
        Ok(Sources {
            row: row_of(chapter),
            marks: marks_of(heap, chapter)?,
            both: both_of(heap, chapter)?,
            window: Window::new(both_of(heap, chapter)?, FROM, TO),
        })
    }
}
