ghost use Rattle.std.specs.Prelude.{◌≡◌};
ghost use Rattle.listing.specs.declared.open_error.OpenError.TheVariants.{Memory};

use mark::MarkFault;
use std::alloc::AllocError;
use thiserror::Error;

// Why the sources of a chapter are not opened.
#[derive(Debug, Drop, Error)]
pub enum OpenError {
    #[error("the marks are at fault")]
    Marks(MarkFault),
    #[error(transparent)]
    Memory(AllocError),
}

// By hand, since the clauses name the error that a `?` makes.
impl From<AllocError> for OpenError {
    ghost from_gives = { λ error opened. opened ≡ Memory error };

    fn from(error: AllocError) -> OpenError {
        OpenError::Memory(error)
    }
}
