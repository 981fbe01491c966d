//! What a state holds of one UID.
ghost use Rattle.std.specs.Prelude.{◌≡◌, ◌↔◌, ◌++◌, [], ℕ, List, cond, IfOk, OnOk, IsTrue};
ghost use Rattle.itip_join.specs.declared.lift.Lift.TheVariants.{Nothing};
ghost use Rattle.itip_state.specs.Held.{can_die as key_can_die, is_below as item_is_below, kills as series_kills};
ghost use Rattle.itip_state.specs.Held.{alone, best as one_best, UidState};
ghost use Rattle.itip_state.specs.Held.{uid_state_items, IsPlaced, series_alone, items_at_key, IsHeldAs};
ghost use Rattle.itip_state.specs.UidStates.{uid_state};
ghost use Rattle.std.specs.Ordering.{is_eq};
ghost use Rattle.itip_join.specs.KeyByKey.{value_at};
ghost use Rattle.itip_items.specs.declared.key.Key.{Key};
ghost use Rattle.itip_state.specs.Slots.{slot_cmp};
ghost use Rattle.itip_state.specs.Changes.{IsBackAt, in_place_of};
ghost use Rattle.itip_state.specs.DyingLaws.{kills_below, kills_more};
ghost use Rattle.itip_state.specs.Due.{AreDueIn};
ghost use Rattle.itip_state.specs.Joined.{IsJoined};

use crate::NoMemory;
use crate::due::{Due, drop_dead};
use crate::latest_revision::Best;
use crate::shared::SharedItem;
use crate::slot::Slot;
use itip_items::{Item, Key};
use itip_join::{Exact, Greatest, Guard, Guarded, Join, Keyed, Lift};
use std::alloc::Global;

/// The kept items of one UID: the best series item, or none, and under it the best items of the other keys. The series item makes those
/// dead that are below it.
pub(crate) type HeldOfUid = Guarded<Lift<Best>, Keyed<Slot, Best>>;

/// A series item kills what can die and is below it.
impl Guard<Slot, Best> for Lift<Best> {
    ghost is_dead = { λ s k v. series_kills s k v.value };

    ghost below_dead = { λ s k v w. kills_below s k v.value w.value };

    ghost dead_stays_dead = { λ s t k v. kills_more s t k v.value };

    fn kills(&self, key: &Slot, value: &Best) -> bool {
        is_dead_below(self, key.key(), value.value.item())
    }
}

/// Whether items of this key can die.
pub(crate) fn can_die(key: &Key) -> bool
    ensures { result ≡ key_can_die key.now }
{
    match key {
        Key::Instance(_, _) | Key::Range(_, _) | Key::Answer(_, None, _) => true,
        Key::Series(_) | Key::Answer(_, Some(_), _) | Key::Refresh(_, _, _) => false,
    }
}

/// Whether `item` is dead if `series` is the best series item.
pub(crate) fn is_below(series: &Item, item: &Item) -> bool
    ensures { result ≡ item_is_below series.now item.now }
{
    can_die(&item.key) && series.key.uid().cmp(item.key.uid()).is_eq() && item.eff < series.eff
}

/// Whether the series item, if there is one, makes an item of this key dead.
pub(crate) fn is_dead_below(series: &Lift<Best>, key: &Key, item: &Item) -> bool
    ensures { result ≡ series_kills series.now key.now item.now }
{
    match series {
        Lift::Nothing => false,
        Lift::Known(series) => can_die(key) && item.eff < series.value.item().eff,
    }
}

/// No items. Allocates nothing.
pub(crate) fn of_nothing(alloc: Global) -> HeldOfUid
    ensures series { result.guard ≡ Nothing }
    ensures entries { result.entries.map ≡ [] }
{
    Guarded {
        guard: Lift::Nothing,
        entries: Keyed::empty(alloc),
    }
}

/// What is held if this item alone was heard.
pub(crate) fn of_item(alloc: Global, item: &SharedItem) -> Result<HeldOfUid, NoMemory>
    ensures { IfOk result (λ one. uid_state one ≡ alone item.now) }
{
    let best = Greatest {
        value: item.revision().copy()?,
    };
    match item.slot() {
        None => Ok(Guarded {
            guard: Lift::Known(best),
            entries: Keyed::empty(alloc),
        }),
        Some(slot) => Ok(Guarded {
            guard: Lift::Nothing,
            entries: Keyed::of_one(alloc, slot.copy()?, best)?,
        }),
    }
}

/// What is held of one UID once a series item was heard: `best` is now its series item, unless the one it has is no earlier, and what
/// `best` kills is gone. `due` is the set of those that can die, if there is one; returned with the result is the set for that.
///
/// It needs no memory, but is slower if an allocation fails.
pub(crate) fn raised(
    alloc: Global,
    held: HeldOfUid,
    due: Option<Due>,
    best: Best,
) -> (HeldOfUid, Option<Due>)
    requires { AreDueIn due held.entries.map }
    ensures joined { IsJoined (uid_state held) (series_alone best) (uid_state result.0) }
    ensures due { AreDueIn result.1 result.0.entries.map }
{
    let Guarded { guard, mut entries } = held;
    let newer = Lift::Known(best);
    if newer.below(&guard) {
        drop(newer);
        return (Guarded { guard, entries }, due);
    }
    let due = drop_dead(alloc, &mut entries, due, &newer);
    drop(guard);
    let held = Guarded {
        guard: newer,
        entries,
    };
    (held, due)
}

/// Whether an item is what is held at its key.
pub(crate) fn holds(held: &HeldOfUid, item: &SharedItem) -> bool
    ensures { IsTrue result ↔ IsHeldAs (uid_state held.now) item.now }
{
    match item.slot() {
        None => match &held.guard {
            Lift::Nothing => false,
            Lift::Known(best) => is_same(best, item),
        },
        Some(slot) => match held.entries.get(slot) {
            None => false,
            Some(best) => is_same(best, item),
        },
    }
}

fn is_same(best: &Best, item: &SharedItem) -> bool
    ensures { IsTrue result ↔ (best.now ≡ one_best item.now) }
{
    best.value == *item.revision()
}

/// Appends what is held at the key of an item, if anything is.
pub(crate) fn share_at(
    held: &HeldOfUid,
    item: &SharedItem,
    items: &mut Vec<SharedItem>,
) -> Result<(), NoMemory>
    requires { (uid : List ℕ) × IsPlaced uid (uid_state held.now) }
    ensures { OnOk result (items.new.items ≡ items.old.items ++ items_at_key (uid_state held.now) item.now.key) }
{
    match item.slot() {
        None => {
            if let Lift::Known(best) = &held.guard {
                items.push(SharedItem::held_at(None, &best.value)?)?;
            }
        }
        Some(slot) => {
            if let Some(best) = held.entries.get(slot) {
                items.push(SharedItem::held_at(Some(slot), &best.value)?)?;
            }
        }
    }
    Ok(())
}

/// Appends the items of one UID, the series item first.
pub(crate) fn share(series: &HeldOfUid, items: &mut Vec<SharedItem>) -> Result<(), NoMemory>
    requires { (uid : List ℕ) × IsPlaced uid (uid_state series.now) }
    ensures { OnOk result (items.new.items ≡ items.old.items ++ uid_state_items (uid_state series.now)) }
{
    if let Lift::Known(best) = &series.guard {
        items.push(SharedItem::held_at(None, &best.value)?)?;
    }
    for (slot, best) in series.entries.map.iter() {
        items.push(SharedItem::held_at(Some(slot), &best.value)?)?;
    }
    Ok(())
}

/// What is held of one UID, with what was at a key before put back.
pub(crate) fn put_back(series: HeldOfUid, slot: &Slot, before: Option<Best>) -> HeldOfUid
    requires { (old : UidState) × IsBackAt slot.now before (uid_state series) old }
    ensures { (old : UidState) → IsBackAt slot.now before (uid_state series) old
        → uid_state result ≡ old }
{
    let Guarded { guard, mut entries } = series;
    put_entry(&mut entries, slot, before);
    Guarded { guard, entries }
}

/// Replaces the entry at a slot, or removes it if `entry` is `None`. If there is no entry at the slot, nothing changes.
fn put_entry(entries: &mut Keyed<Slot, Best>, slot: &Slot, entry: Option<Best>)
    ensures { (q : Key) → value_at slot_cmp entries.new.map q
        ≡ cond (is_eq (slot_cmp slot.now q)) (in_place_of (value_at slot_cmp entries.old.map slot.now) entry)
        (value_at slot_cmp entries.old.map q) }
{
    match entry {
        None => {
            entries.remove(slot);
        }
        Some(best) => {
            entries.replace(slot, best);
        }
    }
}
