//! Which items of a UID a newer series item makes dead, and a set by which these are found without looking at all others.
ghost use Rattle.std.specs.Prelude.{◌≡◌, ◌≤◌, ◌⊎◌, ◌++◌, ℕ, Some, None, true, option_map, IfSome, IfNone, IfOk, OnOk, IsTrue};
ghost use Rattle.std.specs.Option.{option_copied};
ghost use Rattle.std.specs.List.{Contains, AllByRecursion};
ghost use Rattle.itip_items.specs.declared.item.Item.{Item};
ghost use Rattle.itip_items.specs.declared.key.Key.{Key};
ghost use Rattle.itip_join.specs.KeyByKey.{value_at};
ghost use Rattle.itip_join.specs.Optional.{alive_part};
ghost use Rattle.itip_state.specs.Slots.{slot_cmp};
ghost use Rattle.itip_state.specs.Held.{Best as HeldBest, is_killed, can_die as key_can_die, IsEntryAt, IsPlaceOf};
ghost use Rattle.itip_state.specs.Due.{has, IsDue, AreDue, AreDueIn, sequence_of, IsLeft, AreAlive, item_under, items_under, AddsUnder};

use crate::NoMemory;
use crate::held_of_uid::{can_die, is_dead_below};
use crate::latest_revision::Best;
use crate::shared::SharedItem;
use crate::slot::Slot;
use itip_join::{Exact, Keyed, Lift, UnderGuard};
use std::alloc::Global;
use std::collections::BTreeSet;

/// The slots of items that can die, the least effective sequence first. A slot is filed under the sequence that its item had when the slot
/// was put in, which is not above that of a later revision.
pub(crate) type Due = BTreeSet<(u32, Slot)>;

/// Up to this many items of a UID, besides the series item, get no set: they are looked at one by one.
const FEW: usize = 32;

/// Adds the slot of an item with this effective sequence, if the item can die.
pub(crate) fn put(due: &mut Due, slot: &Slot, sequence: u32) -> Result<(), NoMemory>
    ensures put { OnOk result (key_can_die slot.now ≡ true → has due.new (sequence, slot.now) ≡ true) }
    ensures keeps { (pair : ℕ × Key) → has due.old pair ≡ true → has due.new pair ≡ true }
{
    if can_die(slot.key()) {
        due.insert((sequence, slot.copy()?))?;
    }
    Ok(())
}

/// Removes those of these items that the series item kills.
///
/// Returns the set to pass in the next time. It is made if there are many items; without the memory for it all items are looked at.
pub(crate) fn drop_dead(
    alloc: Global,
    entries: &mut Keyed<Slot, Best>,
    due: Option<Due>,
    series: &Lift<Best>,
) -> Option<Due>
    requires { AreDueIn due entries.old.map }
    ensures due { AreDueIn result entries.new.map }
    ensures alive { (q : Key)
        → value_at slot_cmp entries.new.map q ≡ alive_part (is_killed series.now q) (value_at slot_cmp entries.old.map q) }
{
    if let Some(due) = begun(alloc, entries, due) {
        if let Some(due) = drop_due(entries, due, series) {
            return Some(due);
        }
    }
    drop_each(entries, series);
    None
}

/// The set that there is, or a new one if there are many items and the memory for it.
fn begun(alloc: Global, entries: &Keyed<Slot, Best>, due: Option<Due>) -> Option<Due>
    requires { AreDueIn due entries.now.map }
    ensures { AreDueIn result entries.now.map }
{
    match due {
        Some(due) => Some(due),
        None => {
            if entries.map.len() <= FEW {
                return None;
            }
            match all_due(alloc, entries) {
                Ok(due) => Some(due),
                Err(_) => None,
            }
        }
    }
}

fn all_due(alloc: Global, entries: &Keyed<Slot, Best>) -> Result<Due, NoMemory>
    ensures { IfOk result (λ due. AreDue due entries.now.map) }
{
    let mut due = BTreeSet::new(alloc);
    for (slot, best) in entries.map.iter() {
        put(&mut due, slot, best.value.item().eff)?;
    }
    Ok(due)
}

/// Looks at the items of the set in turn, as long as they can be dead. `None` if an allocation fails: then some of the dead may be left.
fn drop_due(entries: &mut Keyed<Slot, Best>, due: Due, series: &Lift<Best>) -> Option<Due>
    requires { AreDue due entries.old.map }
    ensures due { IfSome result (λ due. AreDue due entries.new.map) }
    ensures alive { IfSome result (λ _. AreAlive series.now entries.new.map) }
    ensures left { (q : Key) → IsLeft series.now q (value_at slot_cmp entries.old.map q) (value_at slot_cmp entries.new.map q) }
{
    let mut due = due;
    let below = sequence_of(series);
    // It ends when no sequence is below that of the series item.
    for _ in 0..usize::MAX {
        let Some((_, slot)) = pop_below(&mut due, below) else {
            return Some(due);
        };
        if !settle(entries, &mut due, slot, series) {
            return None;
        }
    }
    None
}

/// The effective sequence of the series item, or 0 if there is none.
fn sequence_of(series: &Lift<Best>) -> u32
    ensures { result ≡ sequence_of series.now }
{
    match series {
        Lift::Nothing => 0,
        Lift::Known(best) => best.value.item().eff,
    }
}

/// Removes and returns the first slot of the set, if its sequence is below this one.
fn pop_below(due: &mut Due, below: u32) -> Option<(u32, Slot)>
    ensures popped { IfSome result (λ popped. (pair : ℕ × Key)
        → has due.old pair ≡ true → (pair ≡ popped) ⊎ (has due.new pair ≡ true)) }
    ensures none { IfNone result ((pair : ℕ × Key) → has due.old pair ≡ true → below ≤ pair.0) }
    ensures same { IfNone result (due.new ≡ due.old) }
{
    let first = due.first()?;
    if first.0 >= below {
        return None;
    }
    due.pop_first()
}

/// Removes the item of a slot that was in the set, if the series item kills it. If it doesn't, the slot is put back under the sequence of
/// the item. Returns false if the memory for that is missing. If there is no item at the slot, nothing is done.
fn settle(entries: &mut Keyed<Slot, Best>, due: &mut Due, slot: Slot, series: &Lift<Best>) -> bool
    requires { (key : Key) (best : HeldBest) → value_at slot_cmp entries.old.map key ≡ Some best → key_can_die key ≡ true
        → (key ≡ slot) ⊎ IsDue due.old key best }
    ensures due { IsTrue result → AreDue due.new entries.new.map }
    ensures left { (q : Key) → IsLeft series.now q (value_at slot_cmp entries.old.map q) (value_at slot_cmp entries.new.map q) }
{
    let Some(best) = entries.get(&slot) else {
        return true;
    };
    let item = best.value.item();
    if is_dead_below(series, slot.key(), item) {
        entries.remove(&slot);
        return true;
    }
    let sequence = item.eff;
    due.insert((sequence, slot)).is_ok()
}

fn drop_each(entries: &mut Keyed<Slot, Best>, series: &Lift<Best>)
    ensures { (q : Key) → value_at slot_cmp entries.new.map q ≡ alive_part (is_killed series.now q) (value_at slot_cmp entries.old.map q) }
{
    entries.drop_dead(series);
}

/// Appends those of these items of one UID that a series item with this effective sequence makes dead.
pub(crate) fn share_under(
    entries: &Keyed<Slot, Best>,
    due: Option<&Due>,
    sequence: u32,
    items: &mut Vec<SharedItem>,
) -> Result<(), NoMemory>
    requires due { AreDueIn (option_copied due) entries.now.map }
    requires placed { (key : Key) (best : HeldBest)
        → value_at slot_cmp entries.now.map key ≡ Some best → IsPlaceOf (Some key) best.value.key }
    ensures { OnOk result (AddsUnder sequence entries.now.map items.old.items items.new.items) }
{
    match due {
        Some(due) => share_due(entries, due, sequence, items),
        None => share_each(entries, sequence, items),
    }
}

fn share_each(
    entries: &Keyed<Slot, Best>,
    sequence: u32,
    items: &mut Vec<SharedItem>,
) -> Result<(), NoMemory>
    requires { (key : Key) (best : HeldBest) → value_at slot_cmp entries.now.map key ≡ Some best → IsPlaceOf (Some key) best.value.key }
    ensures { OnOk result (AddsUnder sequence entries.now.map items.old.items items.new.items) }
{
    for (slot, best) in entries.map.iter() {
        share_if_under(slot, best, sequence, items)?;
    }
    Ok(())
}

/// Like `share_each`, but by the set: it stops at the first sequence that is not below this one.
fn share_due(
    entries: &Keyed<Slot, Best>,
    due: &Due,
    sequence: u32,
    items: &mut Vec<SharedItem>,
) -> Result<(), NoMemory>
    requires due { AreDue due.now entries.now.map }
    requires placed { (key : Key) (best : HeldBest)
        → value_at slot_cmp entries.now.map key ≡ Some best → IsPlaceOf (Some key) best.value.key }
    ensures { OnOk result (AddsUnder sequence entries.now.map items.old.items items.new.items) }
{
    for pair in due {
        if pair.0 >= sequence {
            return Ok(());
        }
        if let Some(best) = entries.get(&pair.1) {
            share_if_under(&pair.1, best, sequence, items)?;
        }
    }
    Ok(())
}

/// Appends the item at this slot, if a series item with this effective sequence makes it dead.
fn share_if_under(
    slot: &Slot,
    best: &Best,
    sequence: u32,
    items: &mut Vec<SharedItem>,
) -> Result<(), NoMemory>
    requires { IsPlaceOf (Some slot.now) best.now.value.key }
    ensures { OnOk result (items.new.items ≡ items.old.items ++ item_under sequence slot.now best.now) }
{
    if can_die(slot.key()) && best.value.item().eff < sequence {
        items.push(SharedItem::held_at(Some(slot), &best.value)?)?;
    }
    Ok(())
}
