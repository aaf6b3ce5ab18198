use refusal::Refusal;

// The number of the refusal, none where the call is taken.
pub(crate) fn refused<T: Drop>(made: Result<T, Refusal>) -> Option<u8> {
    made.err().map(Refusal::number)
}
