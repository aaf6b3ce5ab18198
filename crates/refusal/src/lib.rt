// Why a call refuses: one named case for each of the 25 numbers of docs/REFUSALS.md.
#![tactic(auto)]

ghost use Rattle.std.specs.Prelude.{◌≡◌, ◌≤◌, ◌++◌, Some, codes, decimal};
ghost use Rattle.refusal.specs.Numbers.{number_of};

pub mod layer;

pub use self::layer::Layer;
use std::error::Error;
use std::fmt;

#[derive(Clone, Copy, PartialEq, Eq, Debug)]
pub enum Refusal {
    // The job or a line is too long.
    TooLong = 1,
    // A line begins with no known pair.
    UnknownKind = 2,
    // A line has the wrong number of commas.
    WrongCommas = 3,
    // A name isn't 1 to 8 letters a to z.
    BadName = 4,
    // A number isn't well formed or leaves its limits.
    BadNumber = 5,
    // A field hasn't its shape.
    BadShape = 6,
    // A range has its low above its high.
    BackwardRange = 7,
    // A body, a class or a net has too many entries.
    TooMany = 8,
    // A name is taken in its kind.
    NameTaken = 9,
    // A motif isn't in the book.
    UnknownMotif = 10,
    // There is no room for one more.
    NoRoom = 11,
    // A length is above 20,000.
    SourceTooLong = 12,
    // A mark is unlawful or out of order.
    BadMark = 13,
    // A rule's number isn't in the book.
    UnknownRule = 14,
    // A number of a forecast is above 1,000,000,000.
    ForecastTooLarge = 15,
    // An order isn't one of the rule's.
    BadOrder = 16,
    // The sheet is laid already.
    SheetLaid = 17,
    // The sheet is clean.
    SheetClean = 18,
    // An allowance isn't 1 to 1,000,000.
    BadAllowance = 19,
    // A find isn't taken yet.
    FindHeld = 20,
    // The bill has come to 10^12.
    BillTooHigh = 21,
    // There is no find to take.
    NoFind = 22,
    // A strip has under 24 numbers.
    ShortStrip = 23,
    // A show isn't lawful.
    BadShow = 24,
    // There is too little room for a line.
    ShortLine = 25,
}

impl Refusal {
    // The number that is printed; no two cases have the same one.
    pub fn number(self) -> u8
        ensures value { result ≡ number_of self }
        ensures bound { (1 ≤ result) × (result ≤ 25) }
        ensures apart { (other : Refusal) → number_of other ≡ result → other ≡ self }
    {
        self as u8
    }
}

// What a program says of a refusal that it didn't expect.
impl fmt::Display for Refusal {
    ghost output = { λ x. Some (codes "refused by " ++ decimal (number_of x)) };

    fn fmt<W: fmt::Write>(&self, f: &mut fmt::Formatter<W>) -> fmt::Result {
        let number = self.number();
        write!(f, "refused by {number}")
    }
}

impl Error for Refusal {}
