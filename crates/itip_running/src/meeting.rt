//! Taking a pair apart.
ghost use Rattle.std.specs.Prelude.{◌≡◌, ◌⊎◌, length, map, Some, IfOk, IfErr, All};
ghost use mathlib.Core.List.{IsPrefix};
ghost use Rattle.itip_desk.specs.Desk.{IsDeskOf};
ghost use Rattle.itip_running.specs.ContractViews.{publishes, published, keeper_pair, publishes_seen, seen, pass_pair};

use crate::error::LiveError;
use crate::front::Front;
use crate::keeper::Keeper;
use crate::pass::Pass;
use itip_desk::Desk;
use std::alloc::Global;
use std::sync::Wait;

/// What was published in the end, and how much of it each pass had seen.
#[derive(Drop)]
pub struct Met {
    /// The published desk.
    pub desk: Desk,
    /// How many batches were published.
    pub published: u64,
    /// How many of them each pass had seen, in the order of the passes.
    pub seen: Vec<u64>,
}

/// How many batches each pass has seen, in the order of the passes. Refused if an allocation fails (40), or if a pass has seen more than
/// the front (41).
fn counts(alloc: Global, front: &Front, passes: &[Pass]) -> Result<Vec<u64>, LiveError>
    requires pair { All (λ p. pass_pair p ≡ Some front.now.seen.book) passes.now }
    ensures counts { IfOk result (λ v. v.items ≡ map (λ p. length (seen p)) passes.now) }
    ensures within { IfOk result (λ v. All (λ p. IsPrefix (publishes_seen p) front.now.seen.log) passes.now) }
    ensures causes { IfErr result (λ e. (e ≡ LiveError.NoMemory) ⊎ (e ≡ LiveError.NoPlace)) }
{
    let mut all = Vec::new(alloc);
    for pass in passes {
        if !pass.is_within(front) {
            return Err(LiveError::NoPlace);
        }
        if all.push(pass.seen()).is_err() {
            return Err(LiveError::NoMemory);
        }
    }
    Ok(all)
}

/// Takes a pair apart, once the threads have returned: a keeper and any of its passes, possibly none. What is still pending is dropped.
///
/// The desk is that of all published batches, from tick 0. What each pass had seen is a beginning of these, of whole groups. Fails with
/// [`LiveError::NoMemory`] (40) if an allocation fails, and with [`LiveError::NoPlace`] (41) if a pass has seen more batches than were
/// published, which no run of one pair meets. The pair is taken apart all the same.
pub fn meet<R: Wait>(rt: &R, keeper: Keeper, passes: Vec<Pass>) -> Result<Met, LiveError>
    requires pair { All (λ p. pass_pair p ≡ keeper_pair keeper) passes.items }
    ensures desk { IfOk result (λ m. IsDeskOf (published keeper) 0 m.desk) }
    ensures published { IfOk result (λ m. m.published ≡ length (published keeper)) }
    ensures counts { IfOk result (λ m. m.seen.items ≡ map (λ p. length (seen p)) passes.items) }
    ensures within { IfOk result (λ m. All (λ p. IsPrefix (seen p) (published keeper)) passes.items) }
    ensures whole { IfOk result (λ m. All (λ p. IsPrefix (publishes_seen p) (publishes keeper)) passes.items) }
    ensures causes { IfErr result (λ e. (e ≡ LiveError.NoMemory) ⊎ (e ≡ LiveError.NoPlace)) }
{
    let alloc = *passes.allocator();
    let Keeper { end } = keeper;
    let end = end.unwrap();
    let front = end.writer.published().front.again();
    let counted = counts(alloc, &front, passes.as_slice());
    let shown = Box::into_inner(end.close(rt));
    let seen = counted?;
    Ok(Met {
        desk: shown.desk,
        published: front.batches,
        seen,
    })
}
