//! Why a keeper, a pass or a pair refused.
ghost use Rattle.std.specs.Prelude.{◌≡◌};
ghost use Rattle.itip_running.specs.declared.error.LiveError.TheVariants as live;
ghost use Rattle.itip_running.specs.declared.error.PassError.TheVariants as pass;

use itip_desk::Batch;
use itip_view::ViewError;
use std::alloc::AllocError;
use thiserror::Error;

/// Why a keeper published nothing, a pair was not made, or a pair that was taken apart gave no desk.
#[derive(Clone, Copy, PartialEq, Eq, Debug, Drop, Error)]
pub enum LiveError {
    /// An allocation failed (40).
    #[error("no memory for a running desk")]
    NoMemory,
    /// The pair gave no place to a reader, or there were not one to eight passes; or a pass is ahead of its keeper, or a group can't be
    /// added to the history, which no run of one pair meets (41).
    #[error("no place at a running desk, or not one to eight passes")]
    NoPlace,
    /// The number of published batches would exceed `u64::MAX` (21).
    #[error("no further batch can be counted")]
    BatchesSpent,
}

/// A batch that a keeper didn't take: an allocation failed, or `usize::MAX` batches are pending (40).
#[derive(Debug, Drop, Error)]
#[error("no memory for a further batch")]
pub struct NotSubmitted {
    /// The batch that was passed in.
    pub batch: Batch,
}

/// Why a pass has no answer.
#[derive(Clone, Copy, PartialEq, Eq, Debug, Drop, Error)]
pub enum PassError {
    /// More than 100,000 rows in the window are asked for (31).
    #[error("there are too many rows")]
    TooManyRows,
    /// An allocation failed for a list or for rows (32).
    #[error("no memory to list")]
    NoListMemory,
    /// An allocation failed for a delta or for kept items (40).
    #[error("no memory for a delta or for kept items")]
    NoMemory,
    /// The pair refused entry, as it does once it is taken apart, or showed less than the pass has seen, which no run of one pair meets
    /// (45).
    #[error("no entry to a running desk")]
    NoEntry,
}

impl From<AllocError> for LiveError {
    ghost from_gives = { λ _ e. e ≡ live.NoMemory };

    fn from(_e: AllocError) -> LiveError {
        LiveError::NoMemory
    }
}

impl From<NotSubmitted> for LiveError {
    ghost from_gives = { λ _ e. e ≡ live.NoMemory };

    fn from(_refused: NotSubmitted) -> LiveError {
        LiveError::NoMemory
    }
}

impl From<AllocError> for PassError {
    ghost from_gives = { λ _ e. e ≡ pass.NoMemory };

    fn from(_e: AllocError) -> PassError {
        PassError::NoMemory
    }
}

impl From<ViewError> for PassError {
    ghost use Rattle.itip_running.specs.Refusals.{of_view};

    ghost from_gives = { λ fault e. e ≡ of_view fault };

    fn from(fault: ViewError) -> PassError {
        match fault {
            ViewError::TooManyRows => PassError::TooManyRows,
            ViewError::NoMemory => PassError::NoListMemory,
        }
    }
}
