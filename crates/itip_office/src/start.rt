//! Starting the desks of an office.
ghost use Rattle.std.specs.Prelude.{◌≡◌, ◌≤◌, Option, map, All, IfOk, IfErr};
ghost use Rattle.logbook.specs.Pages.{Book};
ghost use Rattle.itip_office.specs.Exchanged.{AreNoLoops};
ghost use Rattle.itip_office.specs.Pairs.{pair_of, pair_at, IsStarted};

use crate::error::OfficeError;
use crate::owned_keeper::OwnedKeeper;
use itip_desk::Desk;
use itip_running::{LiveError, Pass, start_desk};
use std::alloc::AllocError;
use std::sync::Wait;

/// The number of a desk, what its keeper is to own and, if the desk is read, the passes of its running desk, one for each worker.
#[derive(Drop)]
pub(crate) struct Started<R: AllocGlobal + Wait + Copy> {
    pub(crate) desk: u64,
    pub(crate) held: OwnedKeeper<R>,
    pub(crate) passes: Vec<Pass>,
}

/// Starts `desks` desks, in order, with passes for `workers` workers if they are read. If they are not, each desk appears as often as there
/// are workers for it, at least once, and all desks appear once before one appears again.
pub(crate) fn start_desks<R: AllocGlobal + Wait + Copy>(
    rt: &R,
    desks: usize,
    workers: usize,
    are_read: bool,
) -> Result<Vec<Started<R>>, OfficeError>
    requires workers { (1 ≤ workers) × (workers ≤ 8) }
    ensures started { IfOk result (λ all. All (λ s. IsStarted (pair_at (map (λ x. x.held.shown) all.items) s.desk)
        s.held.texts s.held.shown s.passes.items) all.items) }
    ensures causes { IfErr result AreNoLoops }
{
    if are_read {
        return read_desks(rt, desks, workers);
    }
    Ok(unread_desks(rt, desks, shares(desks, workers))?)
}

// How many keepers a desk has: as many as there are workers for it, and at least one.
fn shares(desks: usize, workers: usize) -> usize {
    if desks == 0 || workers < desks {
        return 1;
    }
    workers / desks
}

fn read_desks<R: AllocGlobal + Wait + Copy>(
    rt: &R,
    desks: usize,
    workers: usize,
) -> Result<Vec<Started<R>>, OfficeError>
    requires workers { (1 ≤ workers) × (workers ≤ 8) }
    ensures started { IfOk result (λ all. All (λ s. IsStarted (pair_at (map (λ x. x.held.shown) all.items) s.desk)
        s.held.texts s.held.shown s.passes.items) all.items) }
    ensures causes { IfErr result AreNoLoops }
{
    let mut all = Vec::new(rt.alloc());
    for desk in 0..desks {
        let started = read_desk(rt, desk as u64, workers)?;
        all.push(started)?;
    }
    Ok(all)
}

fn read_desk<R: AllocGlobal + Wait + Copy>(
    rt: &R,
    desk: u64,
    passes: usize,
) -> Result<Started<R>, OfficeError>
    requires passes { (1 ≤ passes) × (passes ≤ 8) }
    ensures desk { IfOk result (λ s. s.desk ≡ desk) }
    ensures started { IfOk result (λ s. IsStarted (pair_of s.held.shown) s.held.texts s.held.shown s.passes.items) }
    ensures causes { IfErr result AreNoLoops }
{
    let texts = Desk::empty_at(rt.alloc(), 0);
    match start_desk(rt, passes) {
        Ok((keeper, passes)) => {
            let held = OwnedKeeper {
                texts,
                shown: Some(keeper),
                rt: *rt,
            };
            Ok(Started { desk, held, passes })
        }
        Err(refused) => Err(live_error(refused)),
    }
}

fn unread_desks<R: AllocGlobal + Wait + Copy>(
    rt: &R,
    desks: usize,
    shares: usize,
) -> Result<Vec<Started<R>>, AllocError>
    ensures started { IfOk result (λ all. All (λ s. (pair : Option Book) → IsStarted pair s.held.texts s.held.shown s.passes.items)
        all.items) }
{
    let mut all = Vec::new(rt.alloc());
    for _ in 0..shares {
        for desk in 0..desks {
            all.push(unread_desk(rt, desk as u64))?;
        }
    }
    Ok(all)
}

fn unread_desk<R: AllocGlobal + Wait + Copy>(rt: &R, desk: u64) -> Started<R>
    ensures { (pair : Option Book) → IsStarted pair result.held.texts result.held.shown result.passes.items }
{
    let held = OwnedKeeper {
        texts: Desk::empty_at(rt.alloc(), 0),
        shown: None,
        rt: *rt,
    };
    Started {
        desk,
        held,
        passes: Vec::new(rt.alloc()),
    }
}

/// Why an office ends if a running desk refuses.
pub(crate) fn live_error(refused: LiveError) -> OfficeError
    ensures { AreNoLoops result }
{
    match refused {
        LiveError::NoMemory => OfficeError::NoMemory,
        LiveError::NoPlace => OfficeError::NoPlace,
        LiveError::BatchesSpent => OfficeError::CountSpent,
    }
}
