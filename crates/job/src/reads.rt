ghost use Rattle.std.specs.Prelude.{◌≡◌, length};
ghost use Rattle.job.specs.Examples.{WorkedJobs};
ghost use Rattle.job.specs.Jobs.{line_read, job_read};
ghost use Rattle.job.specs.Laws.{ReadingLaws};
ghost use Rattle.refusal.specs.Checks.{refused_by};
ghost use Rattle.text.specs.Pages.{page_of};
ghost use Rattle.text.specs.Taking.{Takes};

use crate::fault::JobFault;
use book::Chapter;
use parts::Parts;
use text::{TextFault, take_line};

// The bytes of a job, at most.
const LONGEST: usize = 60_000;

// Takes a line into the chapter; an empty one brings nothing.
fn take_next(chapter: &mut Chapter, line: &[u8]) -> Result<(), TextFault>
    ensures { Takes (line_read (page_of chapter.old) line.now) (page_of chapter.old) (page_of chapter.new) result }
{
    if line.is_empty() {
        return Ok(());
    }
    take_line(chapter, line)
}

// Reads a job into the chapter. Where a line is at fault, the chapter has the lines before it and nothing of that line.
pub fn read_job(job: &[u8], chapter: &mut Chapter) -> Result<(), JobFault>
    ensures refused { refused_by result ≡ (job_read (page_of chapter.old) job.now).fault }
    ensures page { page_of chapter.new ≡ (job_read (page_of chapter.old) job.now).page }
{
    if job.len() > LONGEST {
        return Err(JobFault {
            line: 0,
            fault: TextFault::JobTooLong,
        });
    }
    for (before, line) in Parts::new(job, b'\n').enumerate() {
        take_next(chapter, line.bytes).map_err(|fault| JobFault {
            line: before + 1,
            fault,
        })?;
    }
    Ok(())
}

// The worked jobs are read as they say.
pub fn examples_stand()
    ensures { WorkedJobs }
{}

// Where a job is refused, and what it leaves.
pub fn laws_stand()
    ensures { ReadingLaws }
{}
