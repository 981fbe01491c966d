//! Why nothing is written.
ghost use Rattle.std.specs.Prelude.{◌≡◌};
ghost use Rattle.itip_writing.specs.declared.error.WritingError.TheVariants.{NoMemory};

use itip_message::MessageRefusal;
use std::alloc::{AllocError, AllocFailed};
use thiserror::Error;

/// Why a message can't be written. If several causes apply, the first in this order is returned, or `NoMemory` in place of any of them.
#[derive(Clone, Copy, PartialEq, Eq, Debug, Drop, Error)]
pub enum WritingError {
    /// There is no row in question: the to-do or the instance isn't known or is cancelled, or the to-do has no such occurrence. For a
    /// resend: no series item is live.
    #[error("nothing stands there")]
    NothingStands,
    /// The row in question shows no attendee with an address that was given, or a removal was given no address.
    #[error("no such attendee")]
    NoSuchAttendee,
    /// The greatest SEQUENCE, 2147483647, has been used.
    #[error("no sequence is left")]
    NoSequenceLeft,
    /// An attendee to be removed has sent an answer with a greater SEQUENCE, which would overtake the removal.
    #[error("an answer of theirs has a greater sequence")]
    AnswerOvertakes,
    /// Two to-dos of a draft have the same key.
    #[error("two to-dos of one key")]
    TwoOfOneKey,
    /// DTSTAMP would have to be after 99991231T235959Z.
    #[error("no time is left")]
    NoTimeLeft,
    /// The message would be refused with this refusal when it is read back, for example because it is too long.
    #[error("a message as long as this is not read")]
    Unreadable(MessageRefusal),
    /// An allocation failed.
    #[error("no memory to write a message")]
    NoMemory,
}

impl WritingError {
    ghost use Rattle.itip_writing.specs.Causes.{number_of};

    /// The number under which the error is shown: 80 to 85, the number of the refusal for `Unreadable`, and 40 for `NoMemory`.
    pub fn number(self) -> u32
        ensures { result ≡ number_of self }
    {
        match self {
            WritingError::NothingStands => 80,
            WritingError::NoSuchAttendee => 81,
            WritingError::NoSequenceLeft => 82,
            WritingError::AnswerOvertakes => 83,
            WritingError::TwoOfOneKey => 84,
            WritingError::NoTimeLeft => 85,
            WritingError::Unreadable(refusal) => refusal.number(),
            WritingError::NoMemory => 40,
        }
    }
}

impl From<AllocError> for WritingError {
    ghost from_gives = { λ _ e. e ≡ NoMemory };

    fn from(_e: AllocError) -> WritingError {
        WritingError::NoMemory
    }
}

impl<T: Drop> From<AllocFailed<T>> for WritingError {
    ghost from_gives = { λ _ e. e ≡ NoMemory };

    fn from(_e: AllocFailed<T>) -> WritingError {
        WritingError::NoMemory
    }
}
