//! The desks of an office, once its threads have returned.
ghost use Rattle.std.specs.Prelude.{◌≡◌, ◌<◌, ℕ, List, length, map, All, Ok, IfOk, IfErr, slice_index_or};
ghost use Rattle.std.specs.List.{AllZip};
ghost use Rattle.itip_items.specs.declared.item.Item.{Item};
ghost use Rattle.itip_state.specs.Kept.{AreKept};
ghost use Rattle.itip_desk.specs.Desk.{IsDeskOf};
ghost use Rattle.itip_office.specs.Ended.{all_heard, IsSomeDesk};
ghost use Rattle.itip_office.specs.Exchanged.{GivesDelta, TakesAll, AreNoLoops};

use crate::error::OfficeError;
use itip_desk::{Batch, Desk, DeskError};
use std::alloc::{AllocError, Global};
use std::thread;
use std::thread::Threads;

/// The first `desks` of these desks, once each has taken what all of them keep, each on a thread of its own. A single desk is left as it
/// is. Fails with 44 if there are fewer, with 40 if an allocation fails, and with 21 if a UID would move at the last tick.
pub(crate) fn exchange<R: Threads + Sync>(
    rt: &R,
    alloc: Global,
    parts: Vec<Desk>,
    desks: usize,
) -> Result<Vec<Desk>, OfficeError>
    ensures count { IfOk result (λ ended. length ended.items ≡ desks) }
    ensures kept { (histories : List (List (List Item))) → AllZip (λ batches desk. IsDeskOf batches 0 desk) histories parts.items
        → IfOk result (λ ended. All (λ desk. AreKept desk.kept (all_heard histories)) ended.items) }
    ensures each { (histories : List (List (List Item))) → AllZip (λ batches desk. IsDeskOf batches 0 desk) histories parts.items
        → IfOk result (λ ended. All IsSomeDesk ended.items) }
    ensures causes { IfErr result AreNoLoops }
{
    if parts.len() < desks {
        return Err(OfficeError::StrangeDone);
    }
    if parts.len() < 2 && parts.len() == desks {
        return Ok(parts);
    }
    let given = deltas(rt, alloc, parts.as_slice())?;
    let deltas = all_ok(alloc, given)?;
    let mut first = parts;
    first.truncate(desks);
    let taken = with_deltas(rt, first, deltas.as_slice())?;
    let ended = all_ok(alloc, taken)?;
    Ok(ended)
}

// What each desk keeps, as a delta.
fn deltas<R: Threads + Sync>(
    rt: &R,
    alloc: Global,
    desks: &[Desk],
) -> Result<Vec<Result<Batch, OfficeError>>, AllocError>
    ensures count { IfOk result (λ all. length all.items ≡ length desks.now) }
    ensures each { IfOk result (λ all. (i : ℕ) (desk : _) (given : _) → i < length desks.now
        → GivesDelta (slice_index_or desks.now i desk) (slice_index_or all.items i given)) }
{
    thread::map_indices(rt, alloc, desks.len(), &|i| delta_of(&desks[i]))
}

fn delta_of(desk: &Desk) -> Result<Batch, OfficeError>
    ensures { GivesDelta desk.now result }
{
    match desk.delta_since(0) {
        Ok(delta) => Ok(delta),
        Err(_) => Err(OfficeError::NoMemory),
    }
}

// Each desk after it has taken all deltas.
fn with_deltas<R: Threads + Sync>(
    rt: &R,
    desks: Vec<Desk>,
    deltas: &[Batch],
) -> Result<Vec<Result<Desk, OfficeError>>, AllocError>
    ensures count { IfOk result (λ all. length all.items ≡ length desks.items) }
    ensures each { IfOk result (λ all. (i : ℕ) (desk : _) (ended : _) → i < length desks.items
        → TakesAll deltas.now (slice_index_or desks.items i desk) (slice_index_or all.items i ended)) }
{
    thread::map_vec(rt, desks, &|desk| with_all(desk, deltas))
}

fn with_all(desk: Desk, deltas: &[Batch]) -> Result<Desk, OfficeError>
    ensures { TakesAll deltas.now desk result }
{
    let mut desk = desk;
    for delta in deltas {
        match desk.take(delta) {
            Ok(_) => {}
            Err(DeskError::NoMemory) => return Err(OfficeError::NoMemory),
            Err(DeskError::TicksSpent) => return Err(OfficeError::CountSpent),
        }
    }
    Ok(desk)
}

// The values, if none of these is an error; else the first error.
fn all_ok<T: Drop>(alloc: Global, all: Vec<Result<T, OfficeError>>) -> Result<Vec<T>, OfficeError>
    ensures all { IfOk result (λ values. all.items ≡ map Ok values.items) }
    ensures cause { All (λ one. IfErr one AreNoLoops) all.items → IfErr result AreNoLoops }
{
    let mut values = Vec::with_capacity(alloc, all.len())?;
    for one in all {
        let value = one?;
        values.push(value)?;
    }
    Ok(values)
}
