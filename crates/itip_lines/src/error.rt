//! Why a text is refused, and where.
ghost use Rattle.std.specs.Prelude.{◌≡◌};
ghost use Rattle.itip_lines.specs.declared.error.LineError.TheVariants.{NoMemory};

use std::alloc::{AllocError, AllocFailed};
use std::fmt;
use thiserror::Error;

/// What is wrong with a text.
#[derive(Clone, Copy, PartialEq, Eq, Debug, Drop, Error)]
pub enum LineCause {
    /// The text has more than 1,048,576 octets.
    #[error("the text has more than 1,048,576 octets")]
    TooLong,
    /// The text has more than 20,000 lines, empty ones not counted, or an unfolded line has more than 65,536 octets.
    #[error("the text has more than 20,000 lines, or a line of more than 65,536 octets")]
    TooMany,
    /// A line does not match the grammar (RFC 5545 3.1).
    #[error("a line is no content line")]
    BadLine,
    /// A line is not UTF-8.
    #[error("a line is not UTF-8")]
    NotUtf8,
}

/// Why a text is refused: what is wrong, and where.
#[derive(Clone, Copy, PartialEq, Eq, Debug)]
pub struct LineRefusal {
    /// What is wrong.
    pub cause: LineCause,
    /// The number, from 1, of the physical line where the first faulty line begins; folded and empty ones count.
    /// `None` exactly for `TooLong`.
    pub line: Option<usize>,
}

/// The cause, and the line if there is one, as in `line 7 is no content line`.
impl fmt::Display for LineRefusal {
    fn fmt<W: fmt::Write>(&self, f: &mut fmt::Formatter<W>) -> fmt::Result {
        let LineRefusal { cause, line } = *self;
        match (cause, line) {
            (LineCause::BadLine, Some(line)) => write!(f, "line {line} is no content line"),
            (LineCause::NotUtf8, Some(line)) => write!(f, "line {line} is not UTF-8"),
            (_, Some(line)) => write!(f, "{cause}, line {line}"),
            (_, None) => write!(f, "{cause}"),
        }
    }
}

impl std::error::Error for LineRefusal {}

/// Why lines could not be read.
#[derive(Debug, Drop, Error)]
pub enum LineError {
    /// An allocation failed.
    #[error("no memory to read lines")]
    NoMemory,
    /// The text was refused, for this cause and in this place.
    #[error("{0}")]
    Refused(LineRefusal),
}

impl From<AllocError> for LineError {
    ghost from_gives = { λ _ e. e ≡ NoMemory };

    fn from(_: AllocError) -> LineError {
        LineError::NoMemory
    }
}

impl<T: Drop> From<AllocFailed<T>> for LineError {
    ghost from_gives = { λ _ e. e ≡ NoMemory };

    fn from(_: AllocFailed<T>) -> LineError {
        LineError::NoMemory
    }
}
