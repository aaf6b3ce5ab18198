// The numbers that words write.
ghost use Rattle.std.specs.Prelude.{◌≡◌, pos, negsuc};
ghost use Rattle.std.specs.Option.{option_map};
ghost use Rattle.word.specs.Numbers.{code_of, kept, number_of, place_of, plain, written};

use crate::limits::Limits;

// No limits reach further from 0, so that a longer word need not be read to its end.
const FURTHEST: u32 = 1_000_000;

// The number of digits without a leading zero, if it is at most a million.
fn digits(ds: &[u8]) -> Option<i32>
    ensures { result ≡ kept (pos 0) (pos 1000000) (option_map pos (plain ds.now)) }
{
    if ds.is_empty() || ds[0] < b'1' {
        return None;
    }
    let mut n: u32 = 0;
    for b in ds {
        if !b.is_ascii_digit() {
            return None;
        }
        n = n * 10 + u32::from(*b - b'0');
        if n > FURTHEST {
            return None;
        }
    }
    Some(n as i32)
}

// The number that a word writes, if it is at most a million away from 0.
fn value(word: &[u8]) -> Option<i32>
    ensures { result ≡ kept (negsuc 999999) (pos 1000000) (written word.now) }
{
    match word {
        [b'0'] => Some(0),
        [b'-', rest @ ..] => digits(rest).map(|n| -n),
        _ => digits(word),
    }
}

// The number of a word that is well formed and keeps its limits.
pub fn read_number(word: &[u8], limits: Limits) -> Option<i32>
    ensures { result ≡ number_of limits word.now }
{
    value(word).filter(|n| limits.hold(*n))
}

// The code that a word is, or 0. It and the next differ in a cast alone, and a bound for casts would be longer than both.
pub fn read_code(word: &[u8]) -> u16
    ensures { result ≡ code_of word.now }
{
    read_number(word, Limits::Code).map_or(0, |n| n as u16)
}

// The start or the end that a word is, or 0.
pub fn read_place(word: &[u8]) -> usize
    ensures { result ≡ place_of word.now }
{
    read_number(word, Limits::Place).map_or(0, |n| n as usize)
}
