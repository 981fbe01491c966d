//! Whether two to-dos of a draft have the same key.
ghost use Rattle.std.specs.Prelude.{◌≡◌, IfOk, map};
ghost use Rattle.std.specs.List.{IsAllAdjacentAnswer};
ghost use Rattle.std.specs.Ordering.{is_lt};
ghost use Rattle.itip_writing.specs.Requesting.{has_twins, twin_cmp};

use crate::NoMemory;
use itip_todo::Todo;
use std::alloc::Global;
use std::cmp::Ordering;

/// Whether two to-dos have the same key. A program may give any number of them, so they are sorted, and each is compared with the next
/// alone.
pub(crate) fn has_twins(alloc: Global, draft: &[Todo]) -> Result<bool, NoMemory>
    ensures { IfOk result (λ twins. twins ≡ has_twins draft.now) }
{
    let mut all = each_of(alloc, draft)?;
    all.sort_by(|todo, other| compare(todo, other))?;
    Ok(!are_rising(&all))
}

/// References to these, in their order.
fn each_of<'a>(alloc: Global, draft: &'a [Todo]) -> Result<Vec<&'a Todo>, NoMemory>
    ensures { IfOk result (λ all. map (λ todo. todo.now) all.items ≡ draft.now) }
{
    let mut all = Vec::with_capacity(alloc, draft.len())?;
    for todo in draft {
        all.push(todo)?;
    }
    Ok(all)
}

/// Whether each is less than the next.
fn are_rising(all: &[&Todo]) -> bool
    ensures { IsAllAdjacentAnswer (λ todo next less. less ≡ is_lt (twin_cmp todo.now next.now)) all.now result }
{
    all.is_sorted_by(|todo, next| compare(todo, next).is_lt())
}

/// Compares by UID, RECURRENCE-ID and RANGE, which only the to-do of an instance can have. To-dos with the same key compare as equal, and
/// no others do.
fn compare(todo: &Todo, other: &Todo) -> Ordering
    ensures { result ≡ twin_cmp todo.now other.now }
{
    todo.uid
        .cmp(&other.uid)
        .then(todo.rid.cmp(&other.rid))
        .then(todo.range.cmp(&other.range))
}
