//! Why there is no list.
ghost use Rattle.std.specs.Prelude.{◌≡◌};
ghost use Rattle.itip_view.specs.declared.error.ViewError.TheVariants.{NoMemory};

use std::alloc::{AllocError, AllocFailed};
use thiserror::Error;

/// The days don't form a window: the end is not after the start, or is more than 3,660 days after it (refused with 30).
#[derive(Clone, Copy, PartialEq, Eq, Debug, Drop, Error)]
#[error("the window is bad")]
pub struct BadWindow;

/// Why there are no rows.
#[derive(Clone, Copy, PartialEq, Eq, Debug, Drop, Error)]
pub enum ViewError {
    /// The list would have more than 100,000 rows (refused with 31).
    #[error("there are too many rows")]
    TooManyRows,
    /// An allocation failed (refused with 32).
    #[error("no memory to list")]
    NoMemory,
}

impl From<AllocError> for ViewError {
    ghost from_gives = { λ _ e. e ≡ NoMemory };

    fn from(_e: AllocError) -> ViewError {
        ViewError::NoMemory
    }
}

impl<T: Drop> From<AllocFailed<T>> for ViewError {
    ghost from_gives = { λ _ e. e ≡ NoMemory };

    fn from(_e: AllocFailed<T>) -> ViewError {
        ViewError::NoMemory
    }
}
