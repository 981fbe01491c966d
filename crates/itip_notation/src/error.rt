//! Why a value can't be read from a text, or written as one.

use std::alloc::{AllocError, AllocFailed};

/// Why a value can't be read from a text, or written as one.
#[derive(Clone, Copy, Debug, Drop)]
pub enum NotationError {
    /// An allocation failed.
    NoMemory,
    /// The text spells no value of the type.
    NoValue,
}

impl From<AllocError> for NotationError {
    fn from(_: AllocError) -> NotationError {
        NotationError::NoMemory
    }
}

impl<T: Drop> From<AllocFailed<T>> for NotationError {
    fn from(_: AllocFailed<T>) -> NotationError {
        NotationError::NoMemory
    }
}
