ghost use Rattle.std.specs.Prelude.{◌≡◌};
ghost use Rattle.line.specs.declared.faults.LineFault.TheVariants.{Word};
ghost use Rattle.line.specs.Faults.{line_layer, line_place, line_refusal};

pub use refusal::Layer;
use refusal::Refusal;
use word::WordFault;

// What is wrong with a line, and at which place.
#[derive(Clone, Copy, PartialEq, Eq, Debug)]
pub enum LineFault {
    // None of the four pairs begins the line.
    UnknownKind,
    // The line hasn't the commas of its kind; the place is its length.
    WrongCommas(usize),
    // A word is at fault.
    Word(WordFault),
    // A field hasn't its shape.
    BadShape(usize),
    // A range has its low above its high.
    BackwardRange(usize),
    // A body, a class or a net has an entry too many.
    TooMany(usize),
}

impl From<WordFault> for LineFault {
    ghost from_gives = { λ w r. r ≡ Word w };

    fn from(fault: WordFault) -> LineFault {
        LineFault::Word(fault)
    }
}

impl From<LineFault> for Refusal {
    ghost from_gives = { λ e r. r ≡ line_refusal e };

    fn from(fault: LineFault) -> Refusal {
        match fault {
            LineFault::UnknownKind => Refusal::UnknownKind,
            LineFault::WrongCommas(_) => Refusal::WrongCommas,
            LineFault::Word(fault) => Refusal::from(fault),
            LineFault::BadShape(_) => Refusal::BadShape,
            LineFault::BackwardRange(_) => Refusal::BackwardRange,
            LineFault::TooMany(_) => Refusal::TooMany,
        }
    }
}

impl LineFault {
    pub fn layer(self) -> Layer
        ensures { result ≡ line_layer self }
    {
        match self {
            LineFault::Word(_) => Layer::Word,
            _ => Layer::Line,
        }
    }

    pub fn place(self) -> usize
        ensures { result ≡ line_place self }
    {
        match self {
            LineFault::UnknownKind => 0,
            LineFault::WrongCommas(place) => place,
            LineFault::Word(fault) => fault.place(),
            LineFault::BadShape(place) => place,
            LineFault::BackwardRange(place) => place,
            LineFault::TooMany(place) => place,
        }
    }
}
