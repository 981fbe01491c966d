//! The sequences of the series to-dos of a message.
ghost use Rattle.std.specs.Prelude.{◌≡◌, ℕ, nat_eq, max, cond, List, map, unwrap_or, IfOk, OnOk};
ghost use Rattle.std.specs.BTreeMap.{get};
ghost use Rattle.std.specs.Cmp.Lexicographic.{pointwise, slice_cmp};
ghost use Rattle.std.specs.Ordering.{nat_cmp};
ghost use Rattle.itip_todo.specs.PartsOf.{parts_of};
ghost use Rattle.itip_items.specs.Items.{kind_of, is_task, is_series, series_sequence};

use crate::kind::{Kind, Method};
use crate::method_needs::removes;
use itip_lines::NoMemory;
use itip_todo::{Todo, Uid};
use std::alloc::Global;
use std::collections::BTreeMap;

/// The greatest SEQUENCE of the series to-dos of each UID; a UID without one is not in the map.
pub(crate) fn series_sequences(
    alloc: Global,
    method: Method,
    all: &[Todo],
) -> Result<BTreeMap<Uid, u32>, NoMemory>
    ensures { IfOk result (λ greatest. (uid : List ℕ) → unwrap_or (get (slice_cmp nat_cmp) greatest uid) 0
        ≡ series_sequence method uid (map parts_of all.now)) }
{
    let mut greatest = BTreeMap::new(alloc);
    for todo in all {
        if is_series(method, todo) {
            raise(&mut greatest, todo)?;
        }
    }
    Ok(greatest)
}

/// Raises the sequence of a to-do's UID to that of the to-do, if it is greater.
fn raise(greatest: &mut BTreeMap<Uid, u32>, todo: &Todo) -> Result<(), NoMemory>
    ensures { OnOk result ((uid : List ℕ) → unwrap_or (get (slice_cmp nat_cmp) greatest.new uid) 0
        ≡ max (unwrap_or (get (slice_cmp nat_cmp) greatest.old uid) 0) (cond (pointwise nat_eq todo.now.uid uid) todo.now.seq 0)) }
{
    let seq = sequence_in(greatest, &todo.uid).max(todo.seq);
    greatest.insert(todo.uid.clone()?, seq)?;
    Ok(())
}

/// The sequence of a UID, 0 if it is not in the map.
pub(crate) fn sequence_in(greatest: &BTreeMap<Uid, u32>, uid: &Uid) -> u32
    ensures { result ≡ unwrap_or (get (slice_cmp nat_cmp) greatest.now uid.now) 0 }
{
    greatest.get(uid).copied().unwrap_or(0)
}

/// Whether a to-do is a series to-do: one without RECURRENCE-ID in a REQUEST, or in a CANCEL that removes no attendee.
fn is_series(method: Method, todo: &Todo) -> bool
    ensures { result ≡ is_series method (parts_of todo.now) }
{
    todo.rid.is_none() && is_task(kind_of(method, todo))
}

/// Whether items of this kind speak of the to-do, or of an instance or range that RECURRENCE-ID names, as a whole.
fn is_task(kind: Kind) -> bool
    ensures { result ≡ is_task kind }
{
    matches!(kind, Kind::Request | Kind::Cancel)
}

/// The kind of a to-do's items. A CANCEL without STATUS that names attendees removes them.
pub(crate) fn kind_of(method: Method, todo: &Todo) -> Kind
    ensures { result ≡ kind_of method (parts_of todo.now) }
{
    match method {
        Method::Request => Kind::Request,
        Method::Add => Kind::Add,
        Method::Cancel => {
            if removes(todo) {
                Kind::Remove
            } else {
                Kind::Cancel
            }
        }
        Method::Reply => Kind::Reply,
        Method::Refresh => Kind::Refresh,
    }
}
