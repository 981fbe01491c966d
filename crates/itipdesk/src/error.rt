//! Why a call failed.
ghost use Rattle.std.specs.Prelude.{◌≡◌};
ghost use Rattle.itipdesk.specs.declared.error.Error.TheVariants as gives;

use itip_desk::{DeskError, FileError, Refusal};
use itip_message::{MessageRefusal, ReadError};
use itip_moment::BadText;
use itip_office::OfficeError;
use itip_running::{LiveError, NotSubmitted, PassError};
use itip_streams::StreamFault;
use itip_view::{BadWindow, ViewError};
use itip_world::Cause;
use itip_writing::WritingError;
use std::alloc::{AllocError, AllocFailed};
use std::fmt;

/// Why a call failed: what is wrong, with its number.
#[derive(Clone, Copy, PartialEq, Eq, Debug)]
pub enum Error {
    /// A message, a list, a script, the file of a desk, or what a desk or a packet was asked for is refused (1 to 15, 21, 31, 50, 51,
    /// 60 to 62, 70 to 72).
    Refused(Refusal),
    /// A count is spent: the ticks of a desk, or the batches of a running desk or of an office (21).
    Spent,
    /// The days are no window: there are none, or more than 3,660 (30).
    Window,
    /// A text is no day, or no date-time in UTC (33).
    Text,
    /// An allocation failed, or a running desk has `usize::MAX` batches pending (40).
    NoMemory,
    /// A thread could not be made, or a running desk had no place for a reader, or was to have none or more than eight (41).
    NoPlace,
    /// A running desk refused entry (45).
    NoEntry,
    /// An office ended early (42 to 44).
    Office(OfficeError),
    /// A read or a write failed (46).
    Stream(StreamFault),
    /// What was asked for can't be written (80 to 85).
    Writing(WritingError),
}

impl Error {
    ghost use Rattle.itipdesk.specs.Errors.{number_of};

    /// The number under which it is shown.
    pub fn number(self) -> u32
        ensures { result ≡ number_of self }
    {
        match self {
            Error::Refused(refusal) => refusal.number(),
            Error::Spent => 21,
            Error::Window => 30,
            Error::Text => 33,
            Error::NoMemory => 40,
            Error::NoPlace => 41,
            Error::NoEntry => 45,
            Error::Office(error) => error.number(),
            Error::Stream(_) => 46,
            Error::Writing(error) => error.number(),
        }
    }
}

/// What is wrong, and where: `DUE has a bad value in to-do 2, line 14`.
impl fmt::Display for Error {
    fn fmt<W: fmt::Write>(&self, f: &mut fmt::Formatter<W>) -> fmt::Result {
        match self {
            Error::Refused(refusal) => write!(f, "{refusal}"),
            Error::Spent => f.write_str("a count is spent"),
            Error::Window => f.write_str("the window has no day, or more than 3,660"),
            Error::Text => f.write_str("the text is no day, or no date-time in UTC"),
            Error::NoMemory => f.write_str("memory was refused"),
            Error::NoPlace => f.write_str(
                "no thread, no place at a running desk, or not one to eight passes",
            ),
            Error::NoEntry => f.write_str("no entry to a running desk"),
            Error::Office(error) => write!(f, "{error}"),
            Error::Stream(fault) => write!(f, "{fault}"),
            Error::Writing(error) => write!(f, "{error}"),
        }
    }
}

impl std::error::Error for Error {}

impl From<AllocError> for Error {
    ghost from_gives = { λ _ e. e ≡ gives.NoMemory };

    fn from(_e: AllocError) -> Error {
        Error::NoMemory
    }
}

impl<T: Drop> From<AllocFailed<T>> for Error {
    ghost from_gives = { λ _ e. e ≡ gives.NoMemory };

    fn from(_e: AllocFailed<T>) -> Error {
        Error::NoMemory
    }
}

impl From<NotSubmitted> for Error {
    ghost from_gives = { λ _ e. e ≡ gives.NoMemory };

    fn from(_e: NotSubmitted) -> Error {
        Error::NoMemory
    }
}

impl From<BadWindow> for Error {
    ghost from_gives = { λ _ e. e ≡ gives.Window };

    fn from(_e: BadWindow) -> Error {
        Error::Window
    }
}

impl From<BadText> for Error {
    ghost from_gives = { λ _ e. e ≡ gives.Text };

    fn from(_e: BadText) -> Error {
        Error::Text
    }
}

impl From<Refusal> for Error {
    ghost from_gives = { λ refusal e. e ≡ gives.Refused refusal };

    fn from(refusal: Refusal) -> Error {
        Error::Refused(refusal)
    }
}

impl From<MessageRefusal> for Error {
    ghost use Rattle.itipdesk.specs.Errors.{of_message};

    ghost from_gives = { λ refusal e. e ≡ of_message refusal };

    fn from(refusal: MessageRefusal) -> Error {
        Error::Refused(Refusal::Message(refusal))
    }
}

impl From<ReadError> for Error {
    ghost use Rattle.itipdesk.specs.Errors.{of_reading};

    ghost from_gives = { λ error e. e ≡ of_reading error };

    fn from(error: ReadError) -> Error {
        match error {
            ReadError::NoMemory => Error::NoMemory,
            ReadError::Refused(refusal) => Error::Refused(Refusal::Message(refusal)),
        }
    }
}

impl From<DeskError> for Error {
    ghost use Rattle.itipdesk.specs.Errors.{of_desk};

    ghost from_gives = { λ error e. e ≡ of_desk error };

    fn from(error: DeskError) -> Error {
        match error {
            DeskError::NoMemory => Error::NoMemory,
            DeskError::TicksSpent => Error::Spent,
        }
    }
}

impl From<FileError> for Error {
    ghost use Rattle.itipdesk.specs.Errors.{of_file};

    ghost from_gives = { λ error e. e ≡ of_file error };

    fn from(error: FileError) -> Error {
        match error {
            FileError::NoMemory => Error::NoMemory,
            FileError::Refused(refusal) => Error::Refused(Refusal::File(refusal)),
        }
    }
}

impl From<StreamFault> for Error {
    ghost use Rattle.itipdesk.specs.Errors.{of_stream};

    ghost from_gives = { λ fault e. e ≡ of_stream fault };

    fn from(fault: StreamFault) -> Error {
        match fault {
            StreamFault::Memory => Error::NoMemory,
            StreamFault::Read | StreamFault::Write => Error::Stream(fault),
        }
    }
}

impl From<ViewError> for Error {
    ghost use Rattle.itipdesk.specs.Errors.{of_view};

    ghost from_gives = { λ error e. e ≡ of_view error };

    fn from(error: ViewError) -> Error {
        match error {
            ViewError::NoMemory => Error::NoMemory,
            ViewError::TooManyRows => Error::Refused(Refusal::TooManyRows),
        }
    }
}

impl From<Cause> for Error {
    ghost use Rattle.itipdesk.specs.Errors.{of_world};

    ghost from_gives = { λ cause e. e ≡ of_world cause };

    fn from(cause: Cause) -> Error {
        match cause {
            Cause::NoMemory => Error::NoMemory,
            Cause::Refused(refusal) => Error::Refused(refusal),
        }
    }
}

impl From<LiveError> for Error {
    ghost use Rattle.itipdesk.specs.Errors.{of_live};

    ghost from_gives = { λ error e. e ≡ of_live error };

    fn from(error: LiveError) -> Error {
        match error {
            LiveError::NoMemory => Error::NoMemory,
            LiveError::NoPlace => Error::NoPlace,
            LiveError::BatchesSpent => Error::Spent,
        }
    }
}

impl From<PassError> for Error {
    ghost use Rattle.itipdesk.specs.Errors.{of_pass};

    ghost from_gives = { λ error e. e ≡ of_pass error };

    fn from(error: PassError) -> Error {
        match error {
            PassError::TooManyRows => Error::Refused(Refusal::TooManyRows),
            PassError::NoListMemory | PassError::NoMemory => Error::NoMemory,
            PassError::NoEntry => Error::NoEntry,
        }
    }
}

impl From<OfficeError> for Error {
    ghost use Rattle.itipdesk.specs.Errors.{of_office};

    ghost from_gives = { λ error e. e ≡ of_office error };

    fn from(error: OfficeError) -> Error {
        match error {
            OfficeError::CountSpent => Error::Spent,
            OfficeError::NoMemory => Error::NoMemory,
            OfficeError::NoPlace => Error::NoPlace,
            OfficeError::NoEntry => Error::NoEntry,
            OfficeError::GateClosed | OfficeError::ChannelClosed | OfficeError::StrangeDone => {
                Error::Office(error)
            }
        }
    }
}

impl From<WritingError> for Error {
    ghost use Rattle.itipdesk.specs.Errors.{of_writing};

    ghost from_gives = { λ error e. e ≡ of_writing error };

    fn from(error: WritingError) -> Error {
        match error {
            WritingError::NoMemory => Error::NoMemory,
            WritingError::Unreadable(refusal) => Error::Refused(Refusal::Message(refusal)),
            WritingError::NothingStands
            | WritingError::NoSuchAttendee
            | WritingError::NoSequenceLeft
            | WritingError::AnswerOvertakes
            | WritingError::TwoOfOneKey
            | WritingError::NoTimeLeft => Error::Writing(error),
        }
    }
}
