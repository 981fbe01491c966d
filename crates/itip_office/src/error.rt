//! Why an office, or the run of a script on one, ended early.
ghost use Rattle.std.specs.Prelude.{◌≡◌, ◌≢◌, ◌⊎◌};
ghost use Rattle.itip_office.specs.declared.error.OfficeError.TheVariants.{NoMemory, ChannelClosed};
ghost use Rattle.itip_office.specs.declared.error.ScriptError.TheVariants.{Stream, Office};
ghost use Rattle.itip_streams.specs.declared.fault.StreamFault.TheVariants.{Memory};

use itip_streams::StreamFault;
use std::alloc::{AllocError, AllocFailed};
use thiserror::Error;

/// Why an office ended early, without outcomes.
#[derive(Clone, Copy, PartialEq, Eq, Debug, Drop, Error)]
pub enum OfficeError {
    /// A UID would move at the last tick of a desk, or the number of batches that a desk published would exceed `u64::MAX` (21).
    #[error("a count of an office is spent")]
    CountSpent,
    /// An allocation failed (40).
    #[error("no memory for an office")]
    NoMemory,
    /// A thread could not be made, a running desk had no place for a reader, or a worker has no keeper for a desk (41).
    #[error("no place in an office")]
    NoPlace,
    /// The gate was closed (42).
    #[error("the gate of an office was closed")]
    GateClosed,
    /// A keeper takes nothing more from a worker (43). An office never ends with this: a keeper that ends early says why.
    #[error("a channel of an office was closed")]
    ChannelClosed,
    /// A job number appears twice. Or, which happens in no run: an outcome is of a job that was not handed in or came from the keeper of
    /// another desk, a keeper merged a job that names a desk that isn't there, a job has no outcome, a look or carry had seen what was not
    /// published, a carry came to a keeper without a running desk, desks are missing at the end, or a channel closed by itself (44).
    #[error("an outcome belongs to no job")]
    StrangeDone,
    /// A running desk refused entry to a pass, or a worker has no pass of a desk (45).
    #[error("no entry to a desk of an office")]
    NoEntry,
}

impl OfficeError {
    ghost use Rattle.itip_office.specs.Numbers.{number_of};

    /// The number under which the error is shown: 21, or 40 to 45.
    pub fn number(self) -> u32
        ensures { result ≡ number_of self }
    {
        match self {
            OfficeError::CountSpent => 21,
            OfficeError::NoMemory => 40,
            OfficeError::NoPlace => 41,
            OfficeError::GateClosed => 42,
            OfficeError::ChannelClosed => 43,
            OfficeError::StrangeDone => 44,
            OfficeError::NoEntry => 45,
        }
    }

    /// Of two errors of loops, the one with the lower number. A closed channel gives way to any other error, which says why it was closed.
    pub(crate) fn or(self, other: OfficeError) -> OfficeError
        ensures { (result ≡ self) ⊎ (result ≡ other) }
    {
        if self == OfficeError::ChannelClosed {
            return other;
        }
        if other == OfficeError::ChannelClosed || self.number() <= other.number() {
            self
        } else {
            other
        }
    }

    /// The error of an office once all its threads have returned: a channel that closed without any other error is `StrangeDone`.
    pub(crate) fn of_all(self) -> OfficeError
        ensures error { (result ≡ self) ⊎ (result ≡ OfficeError.StrangeDone) }
        ensures channel { result ≢ ChannelClosed }
    {
        match self {
            OfficeError::ChannelClosed => OfficeError::StrangeDone,
            error => error,
        }
    }
}

impl From<AllocError> for OfficeError {
    ghost from_gives = { λ _ e. e ≡ NoMemory };

    fn from(_: AllocError) -> OfficeError {
        OfficeError::NoMemory
    }
}

impl<T: Drop> From<AllocFailed<T>> for OfficeError {
    ghost from_gives = { λ _ e. e ≡ NoMemory };

    fn from(_: AllocFailed<T>) -> OfficeError {
        OfficeError::NoMemory
    }
}

/// Why the jobs of a script were not all run, or their output not all written.
#[derive(Clone, Copy, PartialEq, Eq, Debug, Drop, Error)]
pub enum ScriptError {
    /// The script could not be read, its output could not be written, or an allocation failed.
    #[error("{0}")]
    Stream(StreamFault),
    /// The office ended early. Nothing was written.
    #[error("{0}")]
    Office(OfficeError),
}

impl From<StreamFault> for ScriptError {
    ghost from_gives = { λ fault e. e ≡ Stream fault };

    fn from(fault: StreamFault) -> ScriptError {
        ScriptError::Stream(fault)
    }
}

impl From<OfficeError> for ScriptError {
    ghost from_gives = { λ error e. e ≡ Office error };

    fn from(error: OfficeError) -> ScriptError {
        ScriptError::Office(error)
    }
}

impl From<AllocError> for ScriptError {
    ghost from_gives = { λ _ e. e ≡ Stream Memory };

    fn from(_: AllocError) -> ScriptError {
        ScriptError::Stream(StreamFault::Memory)
    }
}
