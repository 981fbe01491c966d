//! Why a call returns no value.

use hex::FromHexError;
use itip_desk::{DeskError, Refusal};
use itip_message::ReadError;
use itip_notation::NotationError;
use itip_office::OfficeError;
use itip_running::{LiveError, NotSubmitted, PassError};
use itip_view::{BadWindow, ViewError};
use itip_world::Cause;
use std::alloc::{AllocError, AllocFailed, Global};
use std::io;

/// Why a call returns no value: a fault, which is its answer, or what ends the run.
///
/// Only the names of the errors of the crates below are kept. To keep the errors would have their drops proved again here.
#[derive(Clone, Copy)]
pub(crate) enum CallError {
    NoMemory,
    Io,
    /// A line is no call in hexadecimal.
    Line,
    /// No call has this word, or it does not take these arguments.
    NoSuchCall,
    /// A refusal changed something.
    Changed,
    /// A call in which an allocation failed returned nothing when it was made once more, with memory.
    NothingOnceMore,
    BadMessage,
    BadWindow,
    TicksSpent,
    NoDesk,
    NoPacket,
    TooManyRows,
    NoPlace,
    NoEntry,
    BatchesSpent,
    CountSpent,
    GateClosed,
    ChannelClosed,
    StrangeDone,
}

impl CallError {
    pub(crate) fn text(self) -> &'static str {
        match self {
            CallError::NoMemory => "no memory",
            CallError::Io => "reading or writing failed",
            CallError::Line => "a line is no call in hexadecimal",
            CallError::NoSuchCall => "no such call",
            CallError::Changed => "a refusal changed something",
            CallError::NothingOnceMore => "made once more, the call gave nothing",
            CallError::BadMessage => "BadMessage",
            CallError::BadWindow => "BadWindow",
            CallError::TicksSpent => "TicksSpent",
            CallError::NoDesk => "NoDesk",
            CallError::NoPacket => "NoPacket",
            CallError::TooManyRows => "TooManyRows",
            CallError::NoPlace => "NoPlace",
            CallError::NoEntry => "NoEntry",
            CallError::BatchesSpent => "BatchesSpent",
            CallError::CountSpent => "CountSpent",
            CallError::GateClosed => "GateClosed",
            CallError::ChannelClosed => "ChannelClosed",
            CallError::StrangeDone => "StrangeDone",
        }
    }

    /// The fault as an answer. What ends the run is returned as the error.
    pub(crate) fn into_answer(self, alloc: Global) -> Result<Vec<u8>, CallError> {
        match self {
            CallError::NoMemory | CallError::Io | CallError::Line => Err(self),
            fault => Ok(Vec::from_slice(alloc, fault.text().as_bytes())?),
        }
    }
}

impl From<AllocError> for CallError {
    fn from(_: AllocError) -> CallError {
        CallError::NoMemory
    }
}

impl<T: Drop> From<AllocFailed<T>> for CallError {
    fn from(_: AllocFailed<T>) -> CallError {
        CallError::NoMemory
    }
}

impl From<io::Error> for CallError {
    fn from(error: io::Error) -> CallError {
        match error.kind() {
            io::ErrorKind::OutOfMemory => CallError::NoMemory,
            _ => CallError::Io,
        }
    }
}

impl From<FromHexError> for CallError {
    fn from(error: FromHexError) -> CallError {
        match error {
            FromHexError::OutOfMemory => CallError::NoMemory,
            _ => CallError::Line,
        }
    }
}

impl From<NotationError> for CallError {
    fn from(error: NotationError) -> CallError {
        match error {
            NotationError::NoMemory => CallError::NoMemory,
            NotationError::NoValue => CallError::NoSuchCall,
        }
    }
}

impl From<ReadError> for CallError {
    fn from(error: ReadError) -> CallError {
        match error {
            ReadError::NoMemory => CallError::NoMemory,
            ReadError::Refused(_) => CallError::BadMessage,
        }
    }
}

impl From<DeskError> for CallError {
    fn from(error: DeskError) -> CallError {
        match error {
            DeskError::NoMemory => CallError::NoMemory,
            DeskError::TicksSpent => CallError::TicksSpent,
        }
    }
}

impl From<Cause> for CallError {
    fn from(cause: Cause) -> CallError {
        match cause {
            Cause::NoMemory => CallError::NoMemory,
            Cause::Refused(refusal) => CallError::from(refusal),
        }
    }
}

impl From<Refusal> for CallError {
    fn from(refusal: Refusal) -> CallError {
        match refusal {
            Refusal::Message(_) => CallError::BadMessage,
            Refusal::TicksSpent { .. } => CallError::TicksSpent,
            Refusal::TooManyRows => CallError::TooManyRows,
            Refusal::NoDesk(_) => CallError::NoDesk,
            Refusal::NoPacket(_) => CallError::NoPacket,
            Refusal::NoCommand | Refusal::LongScript | Refusal::LongDelta | Refusal::File(_) =>
                CallError::NoSuchCall,
        }
    }
}

impl From<BadWindow> for CallError {
    fn from(_: BadWindow) -> CallError {
        CallError::BadWindow
    }
}

impl From<ViewError> for CallError {
    fn from(error: ViewError) -> CallError {
        match error {
            ViewError::NoMemory => CallError::NoMemory,
            ViewError::TooManyRows => CallError::TooManyRows,
        }
    }
}

impl From<NotSubmitted> for CallError {
    fn from(_: NotSubmitted) -> CallError {
        CallError::NoMemory
    }
}

impl From<LiveError> for CallError {
    fn from(error: LiveError) -> CallError {
        match error {
            LiveError::NoMemory => CallError::NoMemory,
            LiveError::NoPlace => CallError::NoPlace,
            LiveError::BatchesSpent => CallError::BatchesSpent,
        }
    }
}

impl From<PassError> for CallError {
    fn from(error: PassError) -> CallError {
        match error {
            PassError::NoMemory | PassError::NoListMemory => CallError::NoMemory,
            PassError::TooManyRows => CallError::TooManyRows,
            PassError::NoEntry => CallError::NoEntry,
        }
    }
}

impl From<OfficeError> for CallError {
    fn from(error: OfficeError) -> CallError {
        match error {
            OfficeError::CountSpent => CallError::CountSpent,
            OfficeError::NoMemory => CallError::NoMemory,
            OfficeError::NoPlace => CallError::NoPlace,
            OfficeError::GateClosed => CallError::GateClosed,
            OfficeError::ChannelClosed => CallError::ChannelClosed,
            OfficeError::StrangeDone => CallError::StrangeDone,
            OfficeError::NoEntry => CallError::NoEntry,
        }
    }
}
