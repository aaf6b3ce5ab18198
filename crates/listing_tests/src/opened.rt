// Jobs read and opened.
use book::Chapter;
use job::read_job;
use listing::{OpenError, Sources, read_input};
use source::Source;
use std::alloc::Global;
use std::test::Fail;

const LADDER: &[u8] =
    b"m,hy,300,45\nm,le,1500,*\nb,97 45 98 99 100 45 101 45 102 45 103 104\ns,le,2,2\ns,le,6,6\n";

fn chapter_of(heap: Global, job: &[u8]) -> Result<Chapter, Fail> {
    let mut chapter = Chapter::new(heap)?;
    read_job(job, &mut chapter).map_err(|_| Fail::new("the job was refused"))?;
    Ok(chapter)
}

#[test]
fn a_job_is_read(rt: HostRuntime) -> Result<(), Fail> {
    let heap = rt.alloc();
    let job = read_input(heap, LADDER)?;
    assert!(rt; job.as_slice() == LADDER, "all of it");
    let long = vec![in heap; 10; 60_002]?;
    let cut = read_input(heap, long.as_slice())?;
    assert_eq!(rt; cut.len(), 60_001, "as much as tells that it is too long");
    Ok(())
}

#[test]
fn sources_are_opened(rt: HostRuntime) -> Result<(), Fail> {
    let heap = rt.alloc();
    let chapter = chapter_of(heap, LADDER)?;
    match Sources::open(heap, &chapter) {
        Ok(sources) => {
            assert_eq!(rt; sources.row.next_end(0, 1, 0), Some(2), "hy by the row");
            assert_eq!(rt; sources.row.next_end(1, 2, 0), None, "no le by the row");
            assert_eq!(rt; sources.marks.next_end(1, 2, 0), Some(2), "le by the marks");
            assert_eq!(rt; sources.both.next_end(0, 1, 0), Some(2), "hy by both");
            assert_eq!(rt; sources.both.next_end(1, 6, 0), Some(6), "le by both");
            assert_eq!(rt; sources.window.length(), 4, "the window 6 to 10");
            assert_eq!(rt;
                sources.window.next_end(1, 0, 0),
                Some(0),
                "le by the window"
            );
        }
        Err(_) => return Err(Fail::new("the sources were not opened")),
    }
    Ok(())
}

#[test]
fn marks_at_fault(rt: HostRuntime) -> Result<(), Fail> {
    let heap = rt.alloc();
    let chapter = chapter_of(heap, b"m,le,1500,*\nb,97 45\ns,le,0,0\ns,le,0,3\n")?;
    match Sources::open(heap, &chapter) {
        Err(OpenError::Marks(fault)) => assert!(rt; fault == mark::MarkFault::Entry(1)),
        _ => return Err(Fail::new("a mark behind the row was not told")),
    }
    Ok(())
}
