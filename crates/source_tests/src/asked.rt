// A table of questions, asked of any source.
use source::Source;
use std::process::Abort;

#[derive(Clone, Copy)]
pub enum Question {
    // motif, start, least end
    End(usize, usize, usize),
    // motif, end, least start
    Start(usize, usize, usize),
}

// What the case is about, the question, and the answer that is wanted.
pub type Case = (&'static str, Question, Option<usize>);

pub fn answers<S: Source>(rt: &impl Abort, source: &S, cases: &[Case]) {
    for (about, question, wanted) in cases {
        let answer = match *question {
            Question::End(motif, start, least) => source.next_end(motif, start, least),
            Question::Start(motif, end, least) => source.next_start(motif, end, least),
        };
        assert_eq!(rt; answer, *wanted, "{}", *about);
    }
}
