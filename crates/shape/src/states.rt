// Where a walk through a field stands: what was read last, and so what may follow.
ghost use Rattle.std.specs.Prelude.{◌≡◌};
ghost use Rattle.shape.specs.States.{begin as begun, final, next as led};

use crate::Form;
use crate::kinds::Kind;

#[derive(Clone, Copy)]
pub enum State {
    NumberDue,
    InNumber,
    CodeDue,
    InCode,
    BodyDue,
    StarDone,
    ItemDue,
    InItem,
    ItemDone,
    ClassDue,
    InClass,
    NameDue,
    InName,
    LinkDue,
    LowDue,
    InLow,
    HighDue,
    InHigh,
    RangeDone,
}

impl State {
    // What a byte of the kind leads to; none where no text of the shape goes on with it.
    pub(crate) fn next(self, kind: Kind) -> Option<State>
        ensures { result ≡ led self kind }
    {
        match (self, kind) {
            (State::NumberDue | State::InNumber, Kind::Numeral) => Some(State::InNumber),
            (State::CodeDue | State::InCode, Kind::Numeral) => Some(State::InCode),
            (State::InCode, Kind::Space) => Some(State::CodeDue),
            (State::BodyDue, Kind::Star) => Some(State::StarDone),
            (State::BodyDue | State::ItemDue | State::InItem, Kind::Numeral) => Some(State::InItem),
            (State::BodyDue | State::ItemDue, Kind::Dot) => Some(State::ItemDone),
            (State::BodyDue | State::ItemDue, Kind::Open) => Some(State::ClassDue),
            (State::InItem | State::ItemDone, Kind::Space) => Some(State::ItemDue),
            (State::ClassDue | State::InClass, Kind::Numeral) => Some(State::InClass),
            (State::InClass, Kind::Space) => Some(State::ClassDue),
            (State::InClass, Kind::Shut) => Some(State::ItemDone),
            (State::NameDue | State::InName | State::LinkDue, Kind::Letter) => Some(State::InName),
            (State::InName, Kind::Space) => Some(State::LinkDue),
            (State::LinkDue, Kind::Less) => Some(State::LowDue),
            (State::LowDue | State::InLow, Kind::Numeral) => Some(State::InLow),
            (State::InLow, Kind::Space) => Some(State::HighDue),
            (State::HighDue | State::InHigh, Kind::Numeral) => Some(State::InHigh),
            (State::InHigh, Kind::More) => Some(State::RangeDone),
            (State::RangeDone, Kind::Space) => Some(State::NameDue),
            _ => None,
        }
    }

    // Whether the field may end here.
    pub(crate) fn is_final(self) -> bool
        ensures { result ≡ final self }
    {
        matches!(
            self,
            State::InNumber
                | State::InCode
                | State::StarDone
                | State::InItem
                | State::ItemDone
                | State::InName
        )
    }
}

impl From<Form> for State {
    ghost from_gives = { λ form state. state ≡ begun form };

    fn from(form: Form) -> State {
        match form {
            Form::Number => State::NumberDue,
            Form::Codes => State::CodeDue,
            Form::Body => State::BodyDue,
            Form::Net => State::NameDue,
        }
    }
}
