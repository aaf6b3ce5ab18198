ghost use Rattle.std.specs.Prelude.{◌≡◌};
ghost use Rattle.word.specs.Faults.{word_place, word_refusal};

use refusal::Refusal;

// What is wrong with a word, and the place in its line at which the word begins.
#[derive(Clone, Copy, PartialEq, Eq, Debug)]
pub enum WordFault {
    // A name, or a run of letters in a net, isn't 1 to 8 letters a to z.
    BadName(usize),
    // A number word isn't well formed, or leaves its limits.
    BadNumber(usize),
}

impl From<WordFault> for Refusal {
    ghost from_gives = { λ w r. r ≡ word_refusal w };

    fn from(fault: WordFault) -> Refusal {
        match fault {
            WordFault::BadName(_) => Refusal::BadName,
            WordFault::BadNumber(_) => Refusal::BadNumber,
        }
    }
}

impl WordFault {
    pub fn place(self) -> usize
        ensures { result ≡ word_place self }
    {
        match self {
            WordFault::BadName(place) => place,
            WordFault::BadNumber(place) => place,
        }
    }
}
