//! What readers look at.
ghost use Rattle.std.specs.Prelude.{◌≡◌, []};
ghost use Rattle.itip_desk.specs.Desk.{IsDeskOf};

use crate::front::Front;
use crate::history::History;
use itip_desk::{Batch, Desk};
use left_right::Absorb;
use std::alloc::{AllocError, Global};

/// A desk, the batches that it is the desk of, and their history.
#[derive(Drop)]
pub(crate) struct Published {
    pub(crate) desk: Desk,
    pub(crate) history: History,
    pub(crate) front: Front,
    ghost is: { ∥ IsDeskOf history 0 desk ∥₁ },
}

impl Published {
    /// A desk that has heard nothing, at tick 0.
    pub(crate) fn empty(alloc: Global, front: &Front) -> Published
        ensures { (result.history ≡ []) × (result.front.seen ≡ front.now.seen) }
    {
        Published {
            desk: Desk::empty_at(alloc, 0),
            history: History::empty(),
            front: front.again(),
        }
    }
}

/// What a seat of the pair, a keeper's or a pass's, knows: which history it is. No value of this type is made.
pub(crate) struct KnownHistory {
    /// Whether it knows any.
    pub known: bool,
    /// The number of the history's book (`logbook`).
    pub number: u64,
    /// The name of the book's list.
    pub log_name: u64,
    /// The name of the book's words.
    pub cells_name: u64,
}

/// What the keeper hands to both copies: a batch, or the history of all batches that were handed over before.
#[derive(Drop)]
pub(crate) enum Op {
    /// The desk takes a batch.
    Take(Batch),
    /// These are the groups of all that was handed over before.
    Mark(Front),
}

impl Absorb<Op> for Published {
    ghost use Rattle.itip_running.specs.Pair.{state_of, applied_to};

    type State = ([Batch; 0], KnownHistory, [History; 0]);

    ghost state = { λ s. state_of s };

    ghost applied = { λ s op. applied_to s op };

    fn absorb_first(&mut self, operation: &Op, _other: &Self) -> Result<(), AllocError> {
        match operation {
            // The ticks are never spent here: a batch raises the tick by at most one, and no more than u64::MAX batches are
            // published.
            Op::Take(batch) => match self.desk.take(batch) {
                Ok(_) => {
                    self.history = self.history.followed_by(batch);
                    Ok(())
                }
                Err(_) => Err(AllocError),
            },
            Op::Mark(front) => {
                self.front = front.again();
                Ok(())
            }
        }
    }
}
