//! A running desk for the length of a call.
ghost use Rattle.std.specs.Prelude.{◌≡◌, [], length, Ok, All, IfOk};
ghost use Rattle.std.specs.Fn.{FnOnceReturnsAtMut};
ghost use Rattle.itip_desk.specs.Desk.{IsDeskOf};
ghost use Rattle.itip_running.specs.ContractViews.{publishes, published, pending, keeper_pair, publishes_seen, pass_pair};
ghost use Rattle.itip_running.specs.declared.scope.OpenDesk.{OpenDesk};

use crate::error::LiveError;
use crate::keeper::Keeper;
use crate::meeting::{Met, meet};
use crate::pass::Pass;
use crate::start::start_desk;
use std::sync::Wait;

/// A keeper and its passes, which [`with_desk`] takes apart.
pub struct OpenDesk {
    pub keeper: Keeper,
    pub passes: Vec<Pass>,
}

/// Starts a desk with `passes` passes, does some work with it, and takes the pair apart, whatever the work returns. The work may use `?`,
/// which code that owns a keeper may not. Returns what the work returned, and the desk of all that was published in the end, in a [`Met`]
/// whose `seen` is empty.
///
/// Fails with [`LiveError::NoMemory`] (40) if an allocation fails, and with [`LiveError::NoPlace`] (41) if the pair gives no place to a
/// reader or `passes` isn't 1 to 8. An error of the work comes before one of taking the pair apart.
pub fn with_desk<
    R: AllocGlobal + Wait,
    T: Drop,
    E: From<LiveError> + Drop,
    F: FnOnce(&mut OpenDesk) -> Result<T, E>,
>(rt: &R, passes: usize, work: F) -> Result<(T, Met), E>
    requires { F.IsAlwaysCallable work }
    ensures { IfOk result (λ r. (before : OpenDesk) × (after : OpenDesk) × FnOnceReturnsAtMut F.FnOnce work before (Ok r.0) after
        × (publishes before.keeper ≡ []) × (pending before.keeper ≡ []) × (length before.passes.items ≡ passes)
        × All (λ p. (publishes_seen p ≡ []) × (pass_pair p ≡ keeper_pair before.keeper)) before.passes.items
        × IsDeskOf (published after.keeper) 0 r.1.desk × (r.1.published ≡ length (published after.keeper))) }
{
    if passes < 1 || passes > 8 {
        return Err(E::from(LiveError::NoPlace));
    }
    let (keeper, all) = match start_desk(rt, passes) {
        Ok(started) => started,
        Err(refused) => return Err(E::from(refused)),
    };
    let mut desk = OpenDesk {
        keeper,
        passes: all,
    };
    let done = work(&mut desk);
    let OpenDesk { keeper, passes } = desk;
    drop(passes);
    let met = meet(rt, keeper, Vec::new(rt.alloc()));
    match done {
        Ok(value) => match met {
            Ok(met) => Ok((value, met)),
            Err(refused) => Err(E::from(refused)),
        },
        Err(error) => Err(error),
    }
}
