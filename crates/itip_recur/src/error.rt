//! Why occurrences are refused.
ghost use Rattle.std.specs.Prelude.{◌≡◌};
ghost use Rattle.itip_recur.specs.declared.error.RecurError.TheVariants.{NoMemory};

use std::alloc::{AllocError, AllocFailed};
use thiserror::Error;

/// Why occurrences are refused.
#[derive(Clone, Copy, PartialEq, Eq, Debug, Drop, Error)]
pub enum RecurError {
    /// There are more than 100,000 occurrences in the window (our own limit).
    #[error("more than 100,000 occurrences")]
    TooMany,
    /// An allocation failed.
    #[error("no memory to list occurrences")]
    NoMemory,
}

impl From<AllocError> for RecurError {
    ghost from_gives = { λ _ e. e ≡ NoMemory };

    fn from(_: AllocError) -> RecurError {
        RecurError::NoMemory
    }
}

impl<T: Drop> From<AllocFailed<T>> for RecurError {
    ghost from_gives = { λ _ e. e ≡ NoMemory };

    fn from(_: AllocFailed<T>) -> RecurError {
        RecurError::NoMemory
    }
}
