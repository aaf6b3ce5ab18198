// Reads a job and lists the stretches of each of its motifs, as its row, its marks, both and a window on both have them.
#![tactic(auto)]

use book::Chapter;
use job::read_job;
use listing::{OpenError, Sources, print_job_fault, print_mark_fault, print_stretches, read_input};

fn run(rt: &HostRuntime) -> anyhow::Result<()> {
    let mut chapter = Chapter::new(rt.alloc())?;
    let text = read_input(rt.alloc(), rt.stdin())?;
    if let Err(refused) = read_job(text.as_slice(), &mut chapter) {
        return print_job_fault(rt, refused);
    }
    match Sources::open(rt.alloc(), &chapter) {
        Ok(sources) => Ok(print_stretches(rt, &chapter, &sources)?),
        Err(OpenError::Marks(fault)) => print_mark_fault(rt, fault),
        Err(OpenError::Memory(error)) => Err(error.into()),
    }
}

fn main(rt: HostRuntime) -> anyhow::Result<()> {
    run(&rt)
}
