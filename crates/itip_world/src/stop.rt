//! Why an event was not done.
ghost use Rattle.std.specs.Prelude.{◌≡◌};
ghost use Rattle.itip_world.specs.declared.stop.Cause.TheVariants.{NoMemory};

use crate::event::Outcome;
use crate::world::World;
use itip_desk::Refusal;
use std::alloc::{AllocError, AllocFailed};
use thiserror::Error;

/// Why an event was not done.
#[derive(Clone, Copy, PartialEq, Eq, Debug, Drop, Error)]
pub enum Cause {
    /// An allocation failed (20).
    #[error("no memory for an event")]
    NoMemory,
    /// No desk (50) or no packet (51) has this number, or a UID would move at the last tick (21).
    #[error("{0}")]
    Refused(Refusal),
}

/// A run that stopped: how many events were done, the world after them, what came of each, and why the next was not done.
#[derive(Debug, Drop)]
pub struct Stopped {
    pub done: usize,
    pub world: World,
    pub outcomes: Vec<Outcome>,
    pub cause: Cause,
}

impl From<AllocError> for Cause {
    ghost from_gives = { λ _ e. e ≡ NoMemory };

    fn from(_e: AllocError) -> Cause {
        Cause::NoMemory
    }
}

impl<T: Drop> From<AllocFailed<T>> for Cause {
    ghost from_gives = { λ _ e. e ≡ NoMemory };

    fn from(_e: AllocFailed<T>) -> Cause {
        Cause::NoMemory
    }
}
