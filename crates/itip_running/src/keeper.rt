//! The keeper of a desk.
ghost use Rattle.std.specs.Prelude.{◌≡◌, ◌↔◌, ◌+◌, ◌<◌, [], ◌∷◌, ◌++◌, length, IsSome};
ghost use Rattle.std.specs.Prelude.{MatchResult, OnErr, OnOk, IfOk, IsErrOf, IsTrue};
ghost use mathlib.Core.List.{IsPrefix};

use crate::error::{LiveError, NotSubmitted};
use crate::receipt::Receipt;
use crate::write_end::WriteEnd;
use itip_desk::Batch;
use std::mem;
use std::sync::Wait;

/// Merges batches into a running desk. Contracts see two lists of batches, the published and the pending ones, and the groups in which
/// the published ones were published, each at once.
///
/// It isn't `Drop`, since taking it apart waits for readers: pass it to [`meet`](crate::meet).
pub struct Keeper {
    pub(crate) end: Option<WriteEnd>,
    ghost there: { IsSome end },
}

impl Keeper {
    ghost use Rattle.itip_running.specs.ContractViews.{publishes, published, pending, calls, fresh, keeper_pair};
    ghost use Rattle.itip_running.specs.ContractViews.{publishes_told, told, receipt_pair};
    ghost use Rattle.itip_running.specs.ContractViews.{IsShownCall, IsRefusedCall};

    /// Adds a batch after those that are pending.
    ///
    /// Refused if an allocation fails, or if `usize::MAX` batches are pending: the error has the batch, and nothing has changed.
    pub fn submit(&mut self, batch: Batch) -> Result<(), NotSubmitted>
        ensures published { published self.new ≡ published self.old }
        ensures pending { MatchResult result (λ _. pending self.new ≡ pending self.old ++ batch ∷ [])
            (λ refused. (refused.batch ≡ batch) × (pending self.new ≡ pending self.old)) }
        ensures publishes { (publishes self.new ≡ publishes self.old) × (calls self.new ≡ calls self.old) }
        ensures fresh { MatchResult result (λ _. fresh self.new ≡ fresh self.old ++ batch ∷ []) (λ _. fresh self.new ≡ fresh self.old) }
        ensures pair { keeper_pair self.new ≡ keeper_pair self.old }
    {
        match &mut self.end {
            Some(end) => match end.submit(batch) {
                Ok(()) => Ok(()),
                Err(batch) => Err(NotSubmitted { batch }),
            },
            None => Err(NotSubmitted { batch }),
        }
    }

    /// The number of pending batches.
    pub fn pending(&self) -> usize
        ensures { result ≡ length (pending self.now) }
    {
        match &self.end {
            Some(end) => end.pending,
            None => 0,
        }
    }

    /// Whether all that a receipt tells is published. In every run it is: `false` would mean that the receipt is ahead of the keeper.
    #[tactic(auto, using(crate::proofs::Groups::prefix_batches))]
    pub fn has_published(&self, receipt: &Receipt) -> bool
        requires pair { receipt_pair receipt.now ≡ keeper_pair self.now }
        ensures { IsTrue result →
            IsPrefix (publishes_told receipt.now) (publishes self.now) × IsPrefix (told receipt.now) (published self.now) }
    {
        match &self.end {
            Some(end) => receipt.front.begins(&end.writer.published().front),
            None => false,
        }
    }

    /// Publishes all that is pending at once, and returns a receipt of all that is then published. Waits first for passes that still read
    /// what the publish before it replaced. What is pending is one group of batches, preceded by those of calls that were refused; no pass
    /// ever sees a part of a group.
    ///
    /// Fails with [`LiveError::NoMemory`] (40) if an allocation fails, with [`LiveError::BatchesSpent`] (21) exactly if the number of
    /// published batches would exceed `u64::MAX`, and with [`LiveError::NoPlace`] (41) if the group can't be added to the history, which
    /// no run meets. Then nothing more is published, and what was pending still is.
    pub fn publish<R: Wait>(&mut self, rt: &R) -> Result<Receipt, LiveError>
        ensures whole { OnOk result ((published self.new ≡ published self.old ++ pending self.old) × (pending self.new ≡ [])) }
        ensures at_once { OnOk result (IsShownCall (publishes self.old) (calls self.old) (fresh self.old)
            (publishes self.new) (calls self.new) (fresh self.new)) }
        ensures receipt { IfOk result (λ r. (told r ≡ published self.new) × (receipt_pair r ≡ keeper_pair self.old)) }
        ensures told { IfOk result (λ r. publishes_told r ≡ publishes self.new) }
        ensures err { OnErr result ((published self.new ≡ published self.old) × (pending self.new ≡ pending self.old)) }
        ensures refused { OnErr result (IsRefusedCall (publishes self.old) (calls self.old) (fresh self.old)
            (publishes self.new) (calls self.new) (fresh self.new)) }
        ensures spent { IsErrOf result LiveError.BatchesSpent ↔ (u64.MAX < length (published self.old) + length (pending self.old)) }
        ensures pair { keeper_pair self.new ≡ keeper_pair self.old }
    {
        let end = self.end.take().unwrap();
        let (end, done) = end.publish(rt);
        match mem::replace(&mut self.end, Some(end)) {
            None => {}
            Some(old) => {
                let _ = old.close(rt);
            }
        }
        done
    }
}
