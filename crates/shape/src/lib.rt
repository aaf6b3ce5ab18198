// The shapes of the fields of a line, and the place at which a field leaves its shape.
#![tactic(auto)]

ghost use Rattle.std.specs.Prelude.{◌≡◌, MatchOption};
ghost use Rattle.shape.specs.Follow.{misfit};
ghost use Rattle.shape.specs.Grammar.{shape_of};
ghost use Rattle.shape.specs.Shape.{Fits, Misshapen};

pub mod kinds;
pub mod states;

use kinds::Kind;
use states::State;

// What a field has to be.
#[derive(Clone, Copy, PartialEq, Eq, Debug)]
pub enum Form {
    Number,
    Codes,
    Body,
    Net,
}

// None where the field has its shape; else the length of its longest beginning that can be completed.
pub fn shape_fault(form: Form, field: &[u8]) -> Option<usize>
    ensures value { result ≡ misfit (shape_of form) field.now }
    ensures law { MatchOption result (Fits (shape_of form) field.now) (λ p. Misshapen (shape_of form) field.now p) }
{
    let mut state = State::from(form);
    for (i, byte) in field.iter().enumerate() {
        match state.next(Kind::from(*byte)) {
            Some(next) => state = next,
            None => return Some(i),
        }
    }
    (!state.is_final()).then_some(field.len())
}
