//! Why reading or writing ends early.
ghost use Rattle.std.specs.Prelude.{◌≡◌};
ghost use Rattle.itip_streams.specs.declared.fault.StreamFault.TheVariants.{Memory};

use std::alloc::{AllocError, AllocFailed};
use thiserror::Error;

/// Why something was not read or written to its end. What has been written by then is a prefix of the output.
#[derive(Clone, Copy, Debug, PartialEq, Eq, Error)]
pub enum StreamFault {
    /// A read failed, or there were too many.
    #[error("read failed")]
    Read,
    /// A write failed or accepted no bytes, a flush failed, or a file couldn't be replaced.
    #[error("write failed")]
    Write,
    /// An allocation failed.
    #[error("no memory")]
    Memory,
}

impl From<AllocError> for StreamFault {
    ghost from_gives = { λ _ e. e ≡ Memory };

    fn from(_: AllocError) -> StreamFault {
        StreamFault::Memory
    }
}

impl<T: Drop> From<AllocFailed<T>> for StreamFault {
    ghost from_gives = { λ _ e. e ≡ Memory };

    fn from(_: AllocFailed<T>) -> StreamFault {
        StreamFault::Memory
    }
}
