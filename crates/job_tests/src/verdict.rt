// The verdict on a job, in the words of the line that a program prints of it.
use book::Chapter;
use job::read_job;
use refusal::Refusal;
use std::alloc::{AllocError, Global};
use std::process::Abort;
use std::test::Fail;

// Reads the job into an empty chapter: `ok`, or number, layer, line and place of its fault.
fn verdict(heap: Global, job: &[u8]) -> Result<String, AllocError> {
    let mut chapter = Chapter::new(heap)?;
    match read_job(job, &mut chapter) {
        Ok(()) => format!(in heap; "ok"),
        Err(found) => {
            let number = Refusal::from(found.fault).number();
            let layer = found.fault.layer();
            let line = found.line;
            let place = found.fault.place();
            format!(in heap; "{number},{layer},{line},{place}")
        }
    }
}

// Whether the job has the wanted verdict.
pub(crate) fn judged(
    rt: &impl Abort,
    heap: Global,
    about: &str,
    job: &[u8],
    wanted: &str,
) -> Result<(), Fail> {
    let found = verdict(heap, job)?;
    assert_eq!(rt; found.as_str(), wanted, "{}", about);
    Ok(())
}

pub(crate) fn all(
    rt: &impl Abort,
    heap: Global,
    cases: &[(&str, &[u8], &str)],
) -> Result<(), Fail> {
    for (about, job, wanted) in cases {
        judged(rt, heap, *about, *job, *wanted)?;
    }
    Ok(())
}
