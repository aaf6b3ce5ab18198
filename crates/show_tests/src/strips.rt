// A start and an end.
pub type Pair = (usize, usize);

// A strip that begins with these stretches, at most 12, and goes on with zeros.
pub fn strip_of(stretches: &[Pair]) -> [usize; 24] {
    let mut strip = [0; 24];
    for (pair, (start, end)) in strip.chunks_exact_mut(2).zip(stretches) {
        pair.copy_from_slice(&[*start, *end]);
    }
    strip
}
