ghost use Rattle.std.specs.Prelude.{◌≡◌};
ghost use Rattle.text.specs.declared.faults.TextFault.TheVariants.{Line};
ghost use Rattle.text.specs.Faults.{text_layer, text_place, text_refusal};

use line::LineFault;
use refusal::{Layer, Refusal};

// What is wrong with a text, at one of its lines.
#[derive(Clone, Copy, PartialEq, Eq, Debug)]
pub enum TextFault {
    // The job has over 60,000 bytes.
    JobTooLong,
    // The line has over 200 bytes.
    LineTooLong,
    // The line itself is at fault.
    Line(LineFault),
    // The name is taken in its kind.
    NameTaken,
    // A name that begins at the place is no motif's.
    UnknownMotif(usize),
    // The chapter has no room for what the line brings.
    NoRoom,
}

impl From<LineFault> for TextFault {
    ghost from_gives = { λ e r. r ≡ Line e };

    fn from(fault: LineFault) -> TextFault {
        TextFault::Line(fault)
    }
}

impl From<TextFault> for Refusal {
    ghost from_gives = { λ e r. r ≡ text_refusal e };

    fn from(fault: TextFault) -> Refusal {
        match fault {
            TextFault::JobTooLong => Refusal::TooLong,
            TextFault::LineTooLong => Refusal::TooLong,
            TextFault::Line(fault) => Refusal::from(fault),
            TextFault::NameTaken => Refusal::NameTaken,
            TextFault::UnknownMotif(_) => Refusal::UnknownMotif,
            TextFault::NoRoom => Refusal::NoRoom,
        }
    }
}

impl TextFault {
    pub fn layer(self) -> Layer
        ensures { result ≡ text_layer self }
    {
        match self {
            TextFault::Line(fault) => fault.layer(),
            _ => Layer::Text,
        }
    }

    pub fn place(self) -> usize
        ensures { result ≡ text_place self }
    {
        match self {
            TextFault::JobTooLong => 0,
            TextFault::LineTooLong => 200,
            TextFault::Line(fault) => fault.place(),
            TextFault::NameTaken => 2,
            TextFault::UnknownMotif(place) => place,
            TextFault::NoRoom => 0,
        }
    }
}
