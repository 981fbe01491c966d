//! Why lines are not a to-do, and where.
ghost use Rattle.std.specs.Prelude.{◌≡◌};
ghost use Rattle.itip_todo.specs.Causes.{error_at};
ghost use Rattle.itip_todo.specs.declared.error.TodoError.TheVariants.{NoMemory};
ghost use Rattle.itip_todo.specs.declared.error.CauseError.TheVariants as cause_error;

use crate::property_name::PropertyName;
use std::alloc::{AllocError, AllocFailed};
use std::fmt;
use thiserror::Error;

/// What is wrong with the lines of a to-do.
#[derive(Clone, Copy, PartialEq, Eq, Debug, Drop, Error)]
pub enum TodoCause {
    /// The property is required, and is missing.
    #[error("{0} is missing")]
    Missing(PropertyName),
    /// The property may appear once, and appears again.
    #[error("{0} stands twice")]
    Twice(PropertyName),
    /// The value is not one that the property may have.
    #[error("{0} has a bad value")]
    BadValue(PropertyName),
    /// RECURRENCE-ID has a RANGE other than THISANDFUTURE.
    #[error("RECURRENCE-ID has a RANGE other than THISANDFUTURE")]
    Range,
    /// There are more than 2,000 attendees (our own limit).
    #[error("there are too many attendees")]
    TooMany,
    /// Two attendees have the same address, ignoring ASCII case.
    #[error("two attendees have one address")]
    SameAttendee,
}

/// Why lines are refused: what is wrong, and where. The first faulty line decides; if there is none, what is missing.
#[derive(Clone, Copy, PartialEq, Eq, Debug)]
pub struct TodoRefusal {
    /// What is wrong.
    pub cause: TodoCause,
    /// The number of the first faulty line. `None` exactly for `Missing`.
    pub line: Option<usize>,
}

/// The cause alone.
impl fmt::Display for TodoRefusal {
    fn fmt<W: fmt::Write>(&self, f: &mut fmt::Formatter<W>) -> fmt::Result {
        fmt::Display::fmt(&self.cause, f)
    }
}

impl std::error::Error for TodoRefusal {}

/// Why no to-do could be read.
#[derive(Debug, Drop, Error)]
pub enum TodoError {
    /// An allocation failed.
    #[error("no memory to read a to-do")]
    NoMemory,
    /// The lines were refused, for this cause and in this place.
    #[error("{0}")]
    Refused(TodoRefusal),
}

/// Why a line was not taken. The caller knows its place.
#[derive(Drop)]
pub(crate) enum CauseError {
    NoMemory,
    Cause(TodoCause),
}

impl CauseError {
    /// The error as that of the line with this number.
    pub(crate) fn at(self, line: usize) -> TodoError
        ensures { result ≡ error_at line self }
    {
        match self {
            CauseError::NoMemory => TodoError::NoMemory,
            CauseError::Cause(cause) => TodoError::Refused(TodoRefusal {
                cause,
                line: Some(line),
            }),
        }
    }
}

impl From<AllocError> for TodoError {
    ghost from_gives = { λ _ e. e ≡ NoMemory };

    fn from(_e: AllocError) -> TodoError {
        TodoError::NoMemory
    }
}

impl<T: Drop> From<AllocFailed<T>> for TodoError {
    ghost from_gives = { λ _ e. e ≡ NoMemory };

    fn from(_e: AllocFailed<T>) -> TodoError {
        TodoError::NoMemory
    }
}

impl From<AllocError> for CauseError {
    ghost from_gives = { λ _ e. e ≡ cause_error.NoMemory };

    fn from(_e: AllocError) -> CauseError {
        CauseError::NoMemory
    }
}

impl<T: Drop> From<AllocFailed<T>> for CauseError {
    ghost from_gives = { λ _ e. e ≡ cause_error.NoMemory };

    fn from(_e: AllocFailed<T>) -> CauseError {
        CauseError::NoMemory
    }
}
