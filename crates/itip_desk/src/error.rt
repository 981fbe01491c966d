//! Why a batch was not taken, or a desk not read.
ghost use Rattle.std.specs.Prelude.{◌≡◌};
ghost use Rattle.itip_desk.specs.declared.error.DeskError.TheVariants.{NoMemory};
ghost use Rattle.itip_desk.specs.declared.error.FileError.TheVariants as file;

use crate::refusal::FileRefusal;
use std::alloc::{AllocError, AllocFailed};
use thiserror::Error;

/// Why a batch was not taken.
#[derive(Clone, Copy, PartialEq, Eq, Debug, Drop, Error)]
pub enum DeskError {
    /// An allocation failed (20).
    #[error("no memory to take a batch")]
    NoMemory,
    /// A UID would move, but the desk is at the last tick, `u64::MAX` (21).
    #[error("the ticks are spent")]
    TicksSpent,
}

impl From<AllocError> for DeskError {
    ghost from_gives = { λ _ e. e ≡ NoMemory };

    fn from(_e: AllocError) -> DeskError {
        DeskError::NoMemory
    }
}

impl<T: Drop> From<AllocFailed<T>> for DeskError {
    ghost from_gives = { λ _ e. e ≡ NoMemory };

    fn from(_e: AllocFailed<T>) -> DeskError {
        DeskError::NoMemory
    }
}

/// Why bytes were not read as a desk.
#[derive(Clone, Copy, PartialEq, Eq, Debug, Drop, Error)]
pub enum FileError {
    /// An allocation failed (20).
    #[error("no memory to read a desk")]
    NoMemory,
    /// They are not read as the file of a desk (70, 71).
    #[error("{0}")]
    Refused(FileRefusal),
}

impl From<AllocError> for FileError {
    ghost from_gives = { λ _ e. e ≡ file.NoMemory };

    fn from(_e: AllocError) -> FileError {
        FileError::NoMemory
    }
}

impl<T: Drop> From<AllocFailed<T>> for FileError {
    ghost from_gives = { λ _ e. e ≡ file.NoMemory };

    fn from(_e: AllocFailed<T>) -> FileError {
        FileError::NoMemory
    }
}
