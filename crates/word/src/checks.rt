// The verdicts on the words of a field; a place is counted from the start of the line.
ghost use Rattle.std.specs.Prelude.{◌≡◌, IfOk};
ghost use Rattle.entry.specs.Named.{letters_of};
ghost use Rattle.refusal.specs.Checks.{refused_by};
ghost use Rattle.word.specs.Faults.{letters_fault, name_fault, numbers_fault};
ghost use Rattle.word.specs.Fields.{bytes_of};

use crate::faults::WordFault;
use crate::field::Field;
use crate::limits::Limits;
use crate::numbers::read_number;
use crate::runs::first_fault;
use entry::Name;

impl<'a> Field<'a> {
    pub fn bytes(&self) -> &'a [u8]
        ensures { result.now ≡ bytes_of self.now }
    {
        &self.line[self.from..self.to]
    }
}

// The name that the whole field is.
pub fn read_name(field: Field<'_>) -> Result<Name, WordFault>
    ensures refused { refused_by result ≡ name_fault field.entry.from (bytes_of field.entry) }
    ensures value { IfOk result (λ n. letters_of n ≡ bytes_of field.entry) }
{
    Name::new(field.bytes()).map_err(|_| WordFault::BadName(field.from))
}

// Whether every run of letters in the field is a name.
pub fn check_letters(field: Field<'_>) -> Result<(), WordFault>
    ensures { refused_by result ≡ letters_fault field.entry.from (bytes_of field.entry) }
{
    let fault = first_fault(
        field.bytes(),
        |byte| !byte.is_ascii_alphabetic(),
        |run| Name::new(run).is_ok(),
    );
    fault.map_or(Ok(()), |q| Err(WordFault::BadName(field.from + q)))
}

// Whether every run of digits and minus signs in the field is a number within the limits.
pub fn check_numbers(field: Field<'_>, limits: Limits) -> Result<(), WordFault>
    ensures { refused_by result ≡ numbers_fault limits field.entry.from (bytes_of field.entry) }
{
    let is_sound = |word: &[u8]| read_number(word, limits).is_some();
    let fault = first_fault(
        field.bytes(),
        |byte| !byte.is_ascii_digit() && *byte != b'-',
        is_sound,
    );
    fault.map_or(Ok(()), |q| Err(WordFault::BadNumber(field.from + q)))
}
