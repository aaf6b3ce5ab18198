ghost use Rattle.std.specs.Prelude.{◌≡◌, ◌≤◌, length, ⊤};

use std::alloc::AllocError;

// The first `len` of N places are taken. No heap may be asked for by what holds one, so the places lie here.
#[derive(Copy)]
pub struct Few<T: Copy, const N: usize> {
    pub(crate) kept: [T; N],
    pub(crate) len: usize,
    ghost few: { len ≤ N },
    ghost all: { length kept ≡ N },
}

// By hand: a derive of `Clone` is refused beside a ghost field where the type has a parameter.
impl<T: Copy, const N: usize> Clone for Few<T, N> {
    ghost is_clone = { λ few copy. copy ≡ few };

    ghost is_infallible = { λ _. ⊤ };

    fn clone(&self) -> Result<Few<T, N>, AllocError> {
        Ok(*self)
    }
}

// All places are taken.
#[derive(Clone, Copy, PartialEq, Eq, Debug)]
pub struct Full;
