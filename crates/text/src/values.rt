// The values of a line that are read with the book at hand.
ghost use Rattle.std.specs.Prelude.{◌≡◌, ◌<◌, ◌≤◌, true, length, IfOk, IfErr, None, nat_lt};
ghost use Rattle.book.specs.Entries.{motif_names};
ghost use Rattle.few.specs.Few.{entries};
ghost use Rattle.std.specs.List.{list_all};
ghost use Rattle.net.specs.Tokens.{names_over, net_tokens};
ghost use Rattle.text.specs.Held.{bounds_in, motifs_held, steps_or};
ghost use Rattle.text.specs.Nets.{lawful, missing, steps_in};
ghost use Rattle.text.specs.Taking.{codes_in};

use crate::steps::Steps;
use entry::{Motif, Range, number_named};
use few::Few;
use net::{Bounds, NetReader, Token};
use parts::Parts;
use word::read_code;

// The codes of a field that is a part of a line. A space stands between two of them.
#[tactic(auto, using(crate::proofs::Walks::codes_placed, crate::proofs::Walks::placed_few, crate::proofs::Walks::held_more))]
pub(crate) fn read_codes(field: &[u8]) -> Few<u16, 200>
    requires { length field.now < 200 }
    ensures { entries result ≡ codes_in field.now }
{
    let mut codes = Few::none(0);
    for part in Parts::new(field, b' ') {
        let Ok(()) = codes.push(read_code(part.bytes)) else {
            unreachable()
        };
    }
    codes
}

// A missing range is 0 to 0.
fn missing_range() -> Range
    ensures { bounds_in result ≡ missing }
{
    Range { low: 0, high: 0 }
}

fn lawful_range(bounds: Bounds) -> Range
    ensures { bounds_in result ≡ lawful bounds }
{
    Range::new(bounds.low, bounds.high).unwrap_or(missing_range())
}

// The motifs of a net with the ranges before them, or the place of the first name that is no motif's.
#[tactic(auto, using(crate::proofs::Walks::ahead_none))]
pub(crate) fn read_steps(motifs: &[Motif], net: &[u8]) -> Result<Steps, usize>
    requires few { names_over 0 (net_tokens net.now) ≡ None }
    ensures value { steps_or result ≡ steps_in (motif_names motifs.now) net.now }
    ensures known { IfOk result (λ s. list_all (λ k. nat_lt k (length motifs.now)) (motifs_held s) ≡ true) }
    ensures within { IfErr result (λ p. p ≤ length net.now) }
{
    let mut steps = Steps::none();
    let mut range = missing_range();
    for token in NetReader::new(net) {
        match token {
            Token::Name { at, letters } => {
                let motif = number_named(motifs, letters).ok_or(at)?;
                let Ok(()) = steps.push(range, motif) else {
                    unreachable()
                };
                range = missing_range();
            }
            Token::Range { bounds, .. } => range = lawful_range(bounds),
        }
    }
    Ok(steps)
}
