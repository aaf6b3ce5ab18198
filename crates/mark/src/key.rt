// A mark as a question reads it, and the search in the order of such keys.
ghost use Rattle.std.specs.Prelude.{◌≡◌};
ghost use Rattle.std.specs.Fn.{ComputesKey};
ghost use Rattle.std.specs.List.Sorted.{IsSortedByKey};
ghost use Rattle.std.specs.Option.{option_copied};
ghost use Rattle.mark.specs.Keys.{First, end_key, rank_key, start_key};

use entry::Mark;

// The end question knows a start and wants ends; the start question knows an end and wants starts. So `known` is the one
// and `wanted` the other. Keys come in the order of motif, known, wanted.
#[derive(Clone, Copy, PartialEq, Eq, PartialOrd, Ord)]
pub(crate) struct Key {
    pub motif: usize,
    pub known: usize,
    pub wanted: usize,
}

// Two ways, of which neither is the one that a `From<Mark>` could be.
impl Key {
    pub fn by_start(mark: Mark) -> Key
        ensures { result ≡ start_key mark }
    {
        Key {
            motif: mark.motif,
            known: mark.start,
            wanted: mark.end,
        }
    }

    pub fn by_end(mark: Mark) -> Key
        ensures { result ≡ end_key mark }
    {
        Key {
            motif: mark.motif,
            known: mark.end,
            wanted: mark.start,
        }
    }
}

// The first item, in the order of the keys, that does not come before what is asked.
pub(crate) fn first_from<T, F: FnMut(&T) -> Key>(items: &[T], asked: Key, key: F) -> Option<&T>
    requires { F.IsAlwaysCallable key }
    ensures { (k : T → Key) → ComputesKey F.FnMut k key → IsSortedByKey k rank_key items.now → First k items.now asked (option_copied result) }
{
    match items.binary_search_by_key(&asked, key) {
        Ok(place) => items.get(place),
        Err(place) => items.get(place),
    }
}
