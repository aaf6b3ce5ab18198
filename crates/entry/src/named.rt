// What has a name among others of its kind, and the search for it.
ghost use Rattle.std.specs.Prelude.{◌≡◌, ℕ, ◌<◌, List, map, length, IfSome};
ghost use Rattle.entry.specs.Named.{letters_of, number_in, taken};
ghost use Rattle.std.specs.Str.{bytes_eq};

use crate::motif::Motif;
use crate::name::Name;
use crate::rule::Rule;

pub trait Named {
    ghost called: { Self → List ℕ };

    fn name(&self) -> &Name
        ensures { letters_of result.now ≡ called self.now };
}

impl Named for Motif {
    ghost called = { λ m. letters_of m.name };

    fn name(&self) -> &Name {
        &self.name
    }
}

impl Named for Rule {
    ghost called = { λ r. letters_of r.name };

    fn name(&self) -> &Name {
        &self.name
    }
}

fn is_called<T: Named>(entry: &T, letters: &[u8]) -> bool
    ensures { result ≡ bytes_eq letters.now (T.Named.called entry.now) }
{
    letters == entry.name().letters()
}

// The number of the entry with this name, from 0. A loop: with `position` the goal `returns` stayed open, also
// where the closure has clauses of its own, as the items are references to a type parameter.
pub fn number_named<T: Named>(named: &[T], letters: &[u8]) -> Option<usize>
    ensures value { result ≡ number_in letters.now (map T.Named.called named.now) }
    ensures bound { IfSome result (λ k. k < length named.now) }
{
    for (number, entry) in named.iter().enumerate() {
        if is_called(entry, letters) {
            return Some(number);
        }
    }
    None
}

// Whether one of the entries has this name.
pub fn is_taken<T: Named>(named: &[T], letters: &[u8]) -> bool
    ensures { result ≡ taken letters.now (map T.Named.called named.now) }
{
    number_named(named, letters).is_some()
}
