// The names and ranges of a NET, one by one.
#![tactic(auto)]

ghost use Rattle.std.specs.Prelude.{◌≡◌, ◌≤◌, length};
ghost use Rattle.std.specs.Iterator.{YieldsFirstBy, item_count};
ghost use Rattle.std.specs.List.{AllByRecursion};
ghost use Rattle.net.specs.Readers.{token_of, tokens_left};
ghost use Rattle.net.specs.Tokens.{bounds_of, high_of, low_of, net_tokens, place_of};

use parts::Parts;
use word::{Limits, read_number};

// The numbers of a range, as they are written.
#[derive(Clone, Copy)]
pub struct Bounds {
    pub low: i32,
    pub high: i32,
}

// What a net has, and the place of the field at which it begins.
#[derive(Clone, Copy)]
pub enum Token<'a> {
    // The very bytes of the field.
    Name { at: usize, letters: &'a [u8] },
    Range { at: usize, bounds: Bounds },
}

// The names and ranges of a field in turn.
#[derive(Clone, Copy)]
pub struct NetReader<'a> {
    parts: Parts<'a>,
}

fn low_of(part: &[u8]) -> Option<i32>
    ensures { result ≡ low_of part.now }
{
    match part {
        [b'<', word @ ..] => read_number(word, Limits::Shift),
        _ => None,
    }
}

fn high_of(part: &[u8]) -> Option<i32>
    ensures { result ≡ high_of part.now }
{
    match part {
        [word @ .., b'>'] => read_number(word, Limits::Shift),
        _ => None,
    }
}

// The range that two parts make.
fn bounds_of(first: &[u8], second: &[u8]) -> Option<Bounds>
    ensures { result ≡ bounds_of first.now second.now }
{
    let low = low_of(first)?;
    let high = high_of(second)?;
    Some(Bounds { low, high })
}

impl<'a> NetReader<'a> {
    pub fn new(field: &'a [u8]) -> NetReader<'a>
        ensures left { tokens_left result ≡ net_tokens field.now }
        ensures within { AllByRecursion (λ t. place_of t ≤ length field.now) (tokens_left result) }
    {
        NetReader {
            parts: Parts::new(field, b' '),
        }
    }
}

impl<'a> Iterator for NetReader<'a> {
    type Item = Token<'a>;

    ghost next_gives = { YieldsFirstBy token_of tokens_left };

    ghost remaining = { item_count tokens_left };

    fn next(&mut self) -> Option<Token<'a>> {
        let first = self.parts.next()?;
        let mut ahead = self.parts;
        if let Some(second) = ahead.next() {
            if let Some(bounds) = bounds_of(first.bytes, second.bytes) {
                self.parts = ahead;
                return Some(Token::Range {
                    at: first.from,
                    bounds,
                });
            }
        }
        Some(Token::Name {
            at: first.from,
            letters: first.bytes,
        })
    }
}
