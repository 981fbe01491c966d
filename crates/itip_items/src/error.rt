//! Why no items could be made from the to-dos of a message.
ghost use Rattle.std.specs.Prelude.{◌≡◌};
ghost use Rattle.itip_items.specs.Given.{error_of_todo};
ghost use Rattle.itip_items.specs.declared.error.FormError.TheVariants.{NoMemory};
ghost use Rattle.itip_items.specs.declared.error.ItemError.TheVariants as item_error;

use itip_todo::PropertyName;
use std::alloc::{AllocError, AllocFailed};
use thiserror::Error;

/// What a to-do has or lacks, against the rules of its method (our own rule).
#[derive(Clone, Copy, PartialEq, Eq, Debug, Drop, Error)]
pub enum MethodCause {
    /// The property is required, and is missing.
    #[error("{0} is missing")]
    Missing(PropertyName),
    /// The property may appear once, and appears again.
    #[error("{0} stands twice")]
    Twice(PropertyName),
    /// Attendees are removed from an instance and all after it.
    #[error("RECURRENCE-ID has a RANGE that is not read")]
    Range,
    /// An ADD has RECURRENCE-ID, RRULE or RDATE.
    #[error("an added instance recurs")]
    AddForm,
}

/// Why an item was not made.
#[derive(Debug, Drop)]
pub(crate) enum ItemError {
    /// An allocation failed.
    NoMemory,
    /// The canonical form has more than 262,144 octets or 20,000 lines.
    TooLarge,
}

impl ItemError {
    /// The error for a message, if this is that of its to-do with this number, from 1.
    pub(crate) fn of_todo(self, todo: usize) -> FormError
        ensures { result ≡ error_of_todo self todo }
    {
        match self {
            ItemError::NoMemory => FormError::NoMemory,
            ItemError::TooLarge => FormError::TooLarge { todo },
        }
    }
}

impl From<AllocError> for ItemError {
    ghost from_gives = { λ _ e. e ≡ item_error.NoMemory };

    fn from(_e: AllocError) -> ItemError {
        ItemError::NoMemory
    }
}

impl<T: Drop> From<AllocFailed<T>> for ItemError {
    ghost from_gives = { λ _ e. e ≡ item_error.NoMemory };

    fn from(_e: AllocFailed<T>) -> ItemError {
        ItemError::NoMemory
    }
}

/// Why no items were made.
#[derive(Debug, Drop, Error)]
pub enum FormError {
    /// An allocation failed.
    #[error("no memory to make items")]
    NoMemory,
    /// A canonical form of the to-do with this number, from 1, has more than 262,144 octets or 20,000 lines.
    #[error("a canonical form has more than 262,144 octets or 20,000 lines")]
    TooLarge { todo: usize },
}

impl From<AllocError> for FormError {
    ghost from_gives = { λ _ e. e ≡ NoMemory };

    fn from(_e: AllocError) -> FormError {
        FormError::NoMemory
    }
}

impl<T: Drop> From<AllocFailed<T>> for FormError {
    ghost from_gives = { λ _ e. e ≡ NoMemory };

    fn from(_e: AllocFailed<T>) -> FormError {
        FormError::NoMemory
    }
}
