// What prints a line.
use refusal::Refusal;
use std::io;
use std::io::Write;

// A line has at most this many bytes: a find of twelve motifs has 24 numbers of at most five digits.
const LONGEST_LINE: usize = 256;

// Prints the line that is written at the front of the bytes, and whose length the writing answers.
pub fn print_line<F: FnOnce(&mut [u8]) -> Result<usize, Refusal>>(
    rt: &impl Print,
    write: F,
) -> anyhow::Result<()>
    requires { F.IsAlwaysCallable write }
{
    let mut bytes = [0; LONGEST_LINE];
    let len = write(&mut bytes)?;
    if let Some(line) = bytes.get(..len) {
        io::writer(rt).write_all(line)?;
    }
    Ok(())
}
