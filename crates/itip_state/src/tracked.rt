//! The sets by which a map by UID finds what can die, and how they change when an item is heard.
ghost use Rattle.std.specs.Prelude.{◌≡◌, ◌⊎◌, ℕ, List, Some, None, true, false, option_map};
ghost use Rattle.std.specs.BTreeMap.{get};
ghost use Rattle.std.specs.Ordering.{nat_cmp, is_eq};
ghost use Rattle.std.specs.Cmp.Lexicographic.{slice_cmp};
ghost use Rattle.itip_items.specs.KeyParts.{uid_of};
ghost use Rattle.itip_join.specs.KeyByKey.{value_at};
ghost use Rattle.itip_state.specs.UidStates.{uid_state};
ghost use Rattle.itip_state.specs.Due.{IsFollowed};

use crate::due::{Due, put};
use crate::held_of_uid::HeldOfUid;
use crate::shared::SharedItem;
use itip_join::Keyed;
use itip_todo::Uid;
use std::collections::BTreeMap;

/// Adds the slot of an item that is to be heard to the set of its UID, if there is one. Without the memory for this, or if nothing is held
/// of the UID, the set is dropped.
pub(crate) fn follow(due: &mut BTreeMap<Uid, Due>, map: &Keyed<Uid, HeldOfUid>, item: &SharedItem)
    ensures followed { IsFollowed (option_map uid_state (value_at (slice_cmp nat_cmp) map.now.map (uid_of item.now.key))) item.now
        (get (slice_cmp nat_cmp) due.old (uid_of item.now.key)) (get (slice_cmp nat_cmp) due.new (uid_of item.now.key)) }
    ensures others { (q : List ℕ) → is_eq (slice_cmp nat_cmp (uid_of item.now.key) q) ≡ false
        → get (slice_cmp nat_cmp) due.new q ≡ get (slice_cmp nat_cmp) due.old q }
{
    let uid = item.uid();
    let Some(set) = due.remove(uid) else {
        return;
    };
    let Some(held) = map.get(uid) else {
        drop(set);
        return;
    };
    let set = grown(set, held, item);
    keep(due, uid, set);
}

/// The set with the slot of an item that is to be heard, if the slot is new. `None` if an allocation fails.
fn grown(set: Due, held: &HeldOfUid, item: &SharedItem) -> Option<Due>
    ensures { IsFollowed (Some (uid_state held.now)) item.now (Some set) result }
{
    let mut set = set;
    let Some(slot) = item.slot() else {
        return Some(set);
    };
    if held.entries.get(slot).is_some() {
        return Some(set);
    }
    match put(&mut set, slot, item.item().eff) {
        Ok(()) => Some(set),
        Err(_) => None,
    }
}

/// Keeps `set`, if there is one, as that of a UID. Without the memory for this it is dropped.
pub(crate) fn keep(due: &mut BTreeMap<Uid, Due>, uid: &Uid, set: Option<Due>)
    ensures here { (get (slice_cmp nat_cmp) due.new uid.now ≡ set) ⊎
        (get (slice_cmp nat_cmp) due.new uid.now ≡ get (slice_cmp nat_cmp) due.old uid.now) }
    ensures others { (q : List ℕ) → is_eq (slice_cmp nat_cmp uid.now q) ≡ false
        → get (slice_cmp nat_cmp) due.new q ≡ get (slice_cmp nat_cmp) due.old q }
{
    let Some(set) = set else {
        return;
    };
    if let Ok(uid) = uid.clone() {
        drop(due.insert(uid, set));
    }
}
