// A stretch that the line breaker names outright. Any numbers may stand in it: whether it is lawful is told where a
// mark source is opened.
#[derive(Clone, Copy, PartialEq, Eq, Debug)]
pub struct Mark {
    pub motif: usize,
    pub start: usize,
    pub end: usize,
}
