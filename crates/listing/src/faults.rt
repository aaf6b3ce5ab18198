// The line of a refusal.
use crate::output::print_line;
use job::JobFault;
use lines::{Layer, write_fault};
use mark::MarkFault;
use refusal::Refusal;

// The line that a refusal prints; `line` is the line, the entry or the rule's number.
pub fn print_fault(
    rt: &impl Print,
    refusal: Refusal,
    layer: Layer,
    line: usize,
    place: usize,
) -> anyhow::Result<()> {
    print_line(rt, |bytes| write_fault(bytes, refusal, layer, line, place))
}

// The line that a faulty text prints.
pub fn print_job_fault(rt: &impl Print, refused: JobFault) -> anyhow::Result<()> {
    let fault = refused.fault;
    print_fault(rt, fault.into(), fault.layer(), refused.line, fault.place())
}

// The line that faulty marks print.
pub fn print_mark_fault(rt: &impl Print, fault: MarkFault) -> anyhow::Result<()> {
    let entry = match fault {
        MarkFault::TooLong => 0,
        MarkFault::Entry(entry) => entry,
    };
    print_fault(rt, fault.into(), Layer::Marks, entry, 0)
}
