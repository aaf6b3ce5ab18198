// Reads a job and lists the stretches of each of its motifs, as its row, its marks, both and a window on both have them,
// and then the placements of each of its rules.
#![tactic(auto)]

mod placements;

use crate::placements::print_rules;
use book::Chapter;
use job::read_job;
use listing::{OpenError, Sources, print_job_fault, print_mark_fault, print_stretches, read_input};

fn list(rt: &HostRuntime, chapter: &Chapter, sources: Sources<'_>) -> anyhow::Result<()> {
    print_stretches(rt, chapter, &sources)?;
    print_rules(rt, sources.both, &chapter.book)
}

fn run(rt: &HostRuntime) -> anyhow::Result<()> {
    let mut chapter = Chapter::new(rt.alloc())?;
    let text = read_input(rt.alloc(), rt.stdin())?;
    if let Err(refused) = read_job(text.as_slice(), &mut chapter) {
        return print_job_fault(rt, refused);
    }
    match Sources::open(rt.alloc(), &chapter) {
        Ok(sources) => list(rt, &chapter, sources),
        Err(OpenError::Marks(fault)) => print_mark_fault(rt, fault),
        Err(OpenError::Memory(error)) => Err(error.into()),
    }
}

fn main(rt: HostRuntime) -> anyhow::Result<()> {
    run(&rt)
}
