//! How a map by UID hears items: in place, and with notes by which this is undone if an allocation fails on the way.
//!
//! A series item of a UID of which something is held may make others dead, which could not be put back without memory. So among several
//! items those are heard last, once nothing can fail any more.
ghost use Rattle.std.specs.Prelude.{◌≡◌, ◌↔◌, ◌++◌, ◌∷◌, ◌⊎◌, [], ℕ, List, Some, None, false, map, IsTrue, IfOk, OnOk, OnErr, IsOk};
ghost use Rattle.std.specs.Ordering.{nat_cmp, is_eq};
ghost use Rattle.std.specs.Cmp.Lexicographic.{slice_cmp};
ghost use Rattle.itip_items.specs.KeyParts.{uid_of};
ghost use Rattle.itip_items.specs.declared.item.Item.{Item};
ghost use Rattle.itip_state.specs.Held.{UidState, at, alone, is_series, items_of, AreOrdered, AreHeld, HoldKept};
ghost use Rattle.itip_state.specs.Joined.{IsJoinedAt};
ghost use Rattle.itip_state.specs.Undone.{IsNoted, IsUndone, AreUndone};
ghost use Rattle.itip_state.specs.Newer.{IsNewerOf, IsTakenIn, AreAwaited, newer_items};
ghost use Rattle.itip_state.specs.Told.{AreOutdone};

use crate::NoMemory;
use crate::held::Held;
use crate::held_of_uid::{of_nothing, put_back};
use crate::latest_revision::Best;
use crate::shared::SharedItem;
use crate::slot::Slot;
use crate::told::outdoes_all;
use itip_join::{Exact, Greatest, Join};
use itip_todo::Uid;
use std::alloc::Global;

/// What was held of a UID before an item was heard, as far as hearing it changes that.
#[derive(Drop)]
enum Before<'a> {
    /// Nothing was held of the UID.
    Absent,
    /// This, or nothing, was held at the place of the item, and something of its UID. The item is not a series item, so all else stays.
    Entry(&'a Slot, Option<Best>),
}

/// An item that was heard, or could not be for lack of memory, and what was held before.
#[derive(Drop)]
struct Hearing<'a> {
    item: &'a SharedItem,
    before: Before<'a>,
}

/// A series item that is heard last, and its UID.
#[derive(Drop)]
struct Newer<'a> {
    uid: &'a Uid,
    best: Best,
}

/// Joins in what is kept of one item, in place. On an error nothing changes.
pub(crate) fn hear(held: &mut Held, item: &SharedItem) -> Result<(), NoMemory>
    ensures kept { OnOk result ((heard : List Item) → HoldKept heard held.old → HoldKept (heard ++ item.now ∷ []) held.new) }
    ensures err { OnErr result (held.new ≡ held.old) }
{
    match newer_of(held, item)? {
        None => held.join_one(item),
        Some(best) => {
            held.raise(item.uid(), best);
            Ok(())
        }
    }
}

/// The revision of a series item, if something of its UID is held; `None` for every other item.
fn newer_of(held: &Held, item: &SharedItem) -> Result<Option<Best>, NoMemory>
    ensures { IfOk result (IsNewerOf (at held.now (uid_of item.now.key)) item.now) }
{
    if item.slot().is_some() {
        return Ok(None);
    }
    match held.get(item.uid()) {
        None => Ok(None),
        Some(_) => Ok(Some(Greatest {
            value: item.revision().copy()?,
        })),
    }
}

/// Joins in what is kept of these items, in place. On an error nothing changes. If none of them is news, it succeeds.
pub(crate) fn hear_all(
    held: &mut Held,
    alloc: Global,
    items: &[&SharedItem],
) -> Result<(), NoMemory>
    ensures ok { OnOk result ((heard : List Item)
        → HoldKept heard held.old → HoldKept (heard ++ map (λ item. item.now) items.now) held.new) }
    ensures succeeds { AreHeld held.old → AreOutdone (items_of held.old) (map (λ item. item.now) items.now) → IsOk result }
    ensures err { OnErr result (held.new ≡ held.old) }
{
    match hear_each(held, alloc, items) {
        Ok(()) => Ok(()),
        Err(refused) => {
            // An allocation may have failed though none of the items is news.
            if outdoes_all(held, items) {
                return Ok(());
            }
            Err(refused)
        }
    }
}

/// Joins in what is kept of these items, in place. On an error what was changed is changed back. A single item needs no note: hearing it
/// is all or nothing.
fn hear_each(held: &mut Held, alloc: Global, items: &[&SharedItem]) -> Result<(), NoMemory>
    ensures ok { OnOk result ((heard : List Item)
        → HoldKept heard held.old → HoldKept (heard ++ map (λ item. item.now) items.now) held.new) }
    ensures err { OnErr result (held.new ≡ held.old) }
{
    if let [item] = items {
        return hear(held, item);
    }
    let mut changes = Vec::new(alloc);
    let mut newer = Vec::new(alloc);
    for item in items {
        if let Err(refused) = hear_noted(held, item, &mut changes, &mut newer) {
            take_back(held, alloc, changes);
            return Err(refused);
        }
    }
    raise_all(held, newer);
    Ok(())
}

/// Joins in what is kept of one item and notes how to undo that, or adds the item to those that are heard last. Even if an allocation
/// fails, the notes undo everything.
fn hear_noted<'a>(
    held: &mut Held,
    item: &'a SharedItem,
    changes: &mut Vec<Hearing<'a>>,
    newer: &mut Vec<Newer<'a>>,
) -> Result<(), NoMemory>
    ensures taken { OnOk result (IsTakenIn held.old held.new item.now newer.old.items newer.new.items) }
    ensures noted { (start : List (List ℕ × UidState))
        → AreUndone changes.old.items held.old start → AreUndone changes.new.items held.new start }
{
    if let Some(best) = newer_of(held, item)? {
        let uid = item.uid();
        newer.push(Newer { uid, best })?;
        return Ok(());
    }
    let before = note(held, item)?;
    changes.push(Hearing { item, before })?;
    held.join_one(item)
}

/// The note by which the hearing of an item is undone. If something is held of its UID, it must not be a series item.
fn note<'a>(held: &Held, item: &'a SharedItem) -> Result<Before<'a>, NoMemory>
    requires { (is_series item.now.key ≡ false) ⊎ (at held.now (uid_of item.now.key) ≡ None) }
    ensures noted { IfOk result (λ before. IsNoted before item.now (at held.now (uid_of item.now.key))) }
    ensures ordered { AreOrdered held.now }
{
    let Some(series) = held.get(item.uid()) else {
        return Ok(Before::Absent);
    };
    match item.slot() {
        None => Ok(Before::Absent),
        Some(slot) => match series.entries.get(slot) {
            None => Ok(Before::Entry(slot, None)),
            Some(best) => Ok(Before::Entry(slot, Some(best.copy()?))),
        },
    }
}

/// Hears the series items that are heard last.
fn raise_all(held: &mut Held, newer: Vec<Newer<'_>>)
    ensures { AreAwaited held.old newer.entry.items → (heard : List Item)
        → HoldKept heard held.old → HoldKept (heard ++ newer_items newer.entry.items) held.new }
{
    for Newer { uid, best } in newer {
        held.raise(uid, best);
    }
}

/// Undoes changes, the last first. Allocates nothing.
fn take_back(held: &mut Held, alloc: Global, changes: Vec<Hearing<'_>>)
    requires { (start : List (List ℕ × UidState)) × AreUndone changes.items held.old start }
    ensures { (start : List (List ℕ × UidState)) → AreUndone changes.entry.items held.old start → held.new ≡ start }
{
    let mut changes = changes;
    while let Some(change) = changes.pop() {
        undo(held, alloc, change);
    }
}

/// Undoes one change. Allocates nothing.
fn undo(held: &mut Held, alloc: Global, change: Hearing<'_>)
    requires { (old : List (List ℕ × UidState)) × IsUndone change held.old old }
    ensures { (old : List (List ℕ × UidState)) → IsUndone change.entry held.old old → held.new ≡ old }
{
    let Hearing { item, before } = change;
    let uid = item.uid();
    match before {
        Before::Absent => held.remove(uid),
        Before::Entry(slot, best) => {
            // The value is taken out for this, so that it is not copied; an empty one keeps its place.
            if let Some(series) = held.replace(uid, of_nothing(alloc)) {
                held.replace(uid, put_back(series, slot, best));
            }
        }
    }
}
