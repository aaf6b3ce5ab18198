// A list of at most N entries, in place: it wants no memory, and is copied as a number is. (The kit's arrayvec is not
// `Copy`, as names, rules and plans are.)
//
//     let mut name = Few::<u8, 8>::none(0);
//     name.push(b'h')?;             // refused where all 8 places are taken
//     name.as_slice()               // the entries, in order
#![tactic(auto)]

ghost use Rattle.std.specs.Prelude.{◌≡◌, ◌<◌, ◌≤◌, [], ◌∷◌, ◌++◌, ◌↔◌, length, IsErr, IfOk, OnErr, OnOk, ◌==◌};
ghost use Rattle.few.specs.Few.{entries};

pub mod list;

pub use self::list::{Few, Full};

impl<T: Copy, const N: usize> Few<T, N> {
    // No entry; the filler stands in the places that are not taken.
    pub fn none(filler: T) -> Few<T, N>
        ensures { entries result ≡ [] }
    {
        Few {
            kept: [filler; N],
            len: 0,
        }
    }

    // These entries, if there is room for them.
    pub fn of(filler: T, items: &[T]) -> Result<Few<T, N>, Full>
        ensures full { IsErr result ↔ (N < length items.now) }
        ensures value { IfOk result (λ f. entries f ≡ items.now) }
    {
        if items.len() > N {
            return Err(Full);
        }
        let mut kept = [filler; N];
        kept[..items.len()].copy_from_slice(items);
        Ok(Few {
            kept,
            len: items.len(),
        })
    }

    pub fn as_slice(&self) -> &[T]
        ensures value { result.now ≡ entries self.now }
        ensures bound { length result.now ≤ N }
    {
        &self.kept[..self.len]
    }

    pub fn len(&self) -> usize
        ensures { result ≡ length (entries self.now) }
    {
        self.as_slice().len()
    }

    pub fn is_empty(&self) -> bool
        ensures { result ≡ (length (entries self.now) == 0) }
    {
        self.len == 0
    }

    // Puts an entry behind the last.
    pub fn push(&mut self, entry: T) -> Result<(), Full>
        ensures full { IsErr result ↔ (length (entries self.old) ≡ N) }
        ensures value { OnOk result (entries self.new ≡ entries self.old ++ entry ∷ []) }
        ensures same { OnErr result (self.new ≡ self.old) }
    {
        if self.len == N {
            return Err(Full);
        }
        self.kept[self.len] = entry;
        self.len += 1;
        Ok(())
    }
}
