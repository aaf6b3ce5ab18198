use text::TextFault;

// What is wrong with a job, and at which of its lines, counted from 1; of the whole job 0, which is what is printed.
#[derive(Clone, Copy, PartialEq, Eq, Debug)]
pub struct JobFault {
    pub line: usize,
    pub fault: TextFault,
}
