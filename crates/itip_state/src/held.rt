//! What a state holds of each UID.
ghost use Rattle.std.specs.Prelude.{◌≡◌, ℕ, List, [], Some, None, false, cond, length, min, map, option_map, IsTrue, IfOk, OnOk, OnErr};
ghost use Rattle.std.specs.Prelude.{IsOk, ◌↔◌};
ghost use Rattle.std.specs.Map.{keys_of};
ghost use Rattle.std.specs.Option.{option_copied};
ghost use Rattle.std.specs.Ordering.{nat_cmp, is_eq};
ghost use Rattle.std.specs.Cmp.Lexicographic.{slice_cmp};
ghost use Rattle.itip_items.specs.KeyParts.{uid_of};
ghost use Rattle.itip_join.specs.Changes.{replaced};
ghost use Rattle.itip_state.specs.Held.{at, alone, AreOrdered, AreSound, items_of, series_list};
ghost use Rattle.itip_state.specs.UidStates.{uid_state};
ghost use Rattle.itip_state.specs.Joined.{IsJoinedAt, AreBelow};
ghost use Rattle.itip_state.specs.Due.{AddsUnderAt};
ghost use Rattle.itip_state.specs.Raised.{IsRaisedAt};

use crate::NoMemory;
use crate::due::{Due, share_under};
use crate::held_of_uid::{HeldOfUid, of_item, of_nothing, raised, share};
use crate::latest_revision::Best;
use crate::shared::SharedItem;
use crate::tracked::{follow, keep};
use itip_items::Item;
use itip_join::{Join, Keyed, Lift};
use itip_todo::Uid;
use std::alloc::Global;
use std::collections::BTreeMap;
use std::marker::Model;

/// A map by UID. Contracts see it as what it holds of each UID: the series item, and the other items by their keys.
#[derive(Debug, Drop)]
pub(crate) struct Held {
    alloc: Global,
    map: Keyed<Uid, HeldOfUid>,
    /// For UIDs with many items, the slots of those that can die.
    due: BTreeMap<Uid, Due>,
}

impl Model for Held {
    ghost use Rattle.std.specs.Prelude.{List, ℕ};
    ghost use Rattle.itip_state.specs.Held.{UidState};
    ghost use Rattle.itip_state.specs.UidStates.{uid_state, uid_states};

    ghost Value = { List (List ℕ × UidState) };

    ghost use Rattle.std.specs.Coded.{codes};
    ghost use Rattle.itip_items.specs.contracts.item.Item as item;
    ghost use Rattle.itip_items.specs.contracts.key.Key as key;

    ghost coded = { Prim.hlevel (codes, item.the_row.coded, key.the_row.coded) };

    ghost view = { λ h. uid_states h.map.map uid_state };

    ghost use Rattle.itip_state.specs.Due.{AreTracked};

    ghost invariant = { λ h. AreTracked h.due (uid_states h.map.map uid_state) };
}

impl Held {
    /// A map that holds nothing. Allocates nothing.
    pub(crate) fn empty(alloc: Global) -> Held
        ensures { result ≡ [] }
    {
        Held {
            alloc,
            map: Keyed::empty(alloc),
            due: BTreeMap::new(alloc),
        }
    }

    /// What is held of a UID, if anything.
    pub(crate) fn get(&self, uid: &Uid) -> Option<&HeldOfUid>
        ensures found { option_map uid_state (option_copied result) ≡ at self.now uid.now }
        ensures ordered { AreOrdered self.now }
    {
        self.map.get(uid)
    }

    /// Joins in what is held if this item alone was heard, in place. On an error nothing changes.
    pub(crate) fn join_one(&mut self, item: &SharedItem) -> Result<(), NoMemory>
        ensures joined { OnOk result (IsJoinedAt (at self.old (uid_of item.now.key)) (Some (alone item.now))
            (at self.new (uid_of item.now.key))) }
        ensures others { (q : List ℕ) → is_eq (slice_cmp nat_cmp (uid_of item.now.key) q) ≡ false → at self.new q ≡ at self.old q }
        ensures ordered { AreOrdered self.new }
        ensures err { OnErr result (self.new ≡ self.old) }
    {
        let one = of_item(self.alloc, item)?;
        follow(&mut self.due, &self.map, item);
        self.map.join_one(item.uid(), &one)
    }

    /// Hears a series item of a UID of which something is held; if nothing is, nothing changes. It needs no memory. With a set for the UID
    /// in `due`, and the memory to update it, only items that may be dead are looked at.
    pub(crate) fn raise(&mut self, uid: &Uid, best: Best)
        ensures raised { IsRaisedAt (at self.old uid.now) best (at self.new uid.now) }
        ensures others { (q : List ℕ) → is_eq (slice_cmp nat_cmp uid.now q) ≡ false → at self.new q ≡ at self.old q }
        ensures ordered { AreOrdered self.new }
    {
        let due = self.due.remove(uid);
        // The value is taken out for this, so that it is not copied; an empty one keeps its place.
        let Some(held) = self.map.replace(uid, of_nothing(self.alloc)) else {
            return;
        };
        let (held, due) = raised(self.alloc, held, due, best);
        keep(&mut self.due, uid, due);
        self.map.replace(uid, held);
    }

    /// Removes what is held of a UID. Allocates nothing.
    pub(crate) fn remove(&mut self, uid: &Uid)
        ensures without { (q : List ℕ) → at self.new q ≡ cond (is_eq (slice_cmp nat_cmp uid.now q)) None (at self.old q) }
        ensures ordered { AreOrdered self.new }
    {
        self.map.remove(uid);
    }

    /// Replaces what is held of a UID with `series`, and returns the old value; changes nothing if nothing is held. Allocates nothing.
    pub(crate) fn replace(&mut self, uid: &Uid, series: HeldOfUid) -> Option<HeldOfUid>
        ensures before { option_map uid_state result ≡ at self.old uid.now }
        ensures with { (q : List ℕ) → at self.new q
            ≡ cond (is_eq (slice_cmp nat_cmp uid.now q)) (replaced (at self.old uid.now) (uid_state series)) (at self.old q) }
        ensures ordered { AreOrdered self.new }
    {
        self.due.remove(uid);
        self.map.replace(uid, series)
    }

    /// Joins another map in, UID by UID. If an allocation fails, nothing changes.
    ///
    /// If the other map tells nothing new, it allocates nothing and succeeds.
    pub(crate) fn join(&mut self, other: &Held) -> Result<(), NoMemory>
        ensures joined { OnOk result ((q : List ℕ) → IsJoinedAt (at self.old q) (at other.now q) (at self.new q)) }
        ensures ordered { AreOrdered self.new }
        ensures succeeds { AreBelow other.now self.old → IsOk result }
        ensures err { OnErr result (self.new ≡ self.old) }
    {
        self.due.clear();
        self.map.join(&other.map)
    }

    /// Whether another map tells all that this one tells.
    pub(crate) fn below(&self, other: &Held) -> bool
        ensures { IsTrue result ↔ AreBelow self.now other.now }
    {
        self.map.below(&other.map)
    }

    /// The number of UIDs.
    pub(crate) fn len(&self) -> usize
        ensures { result ≡ length self.now }
    {
        self.map.map.len()
    }

    /// The UIDs, in order. Allocates nothing if there are none.
    pub(crate) fn uids(&self, alloc: Global) -> Result<Vec<&Uid>, NoMemory>
        ensures uids { IfOk result (λ uids. map (λ uid. uid.now) uids.items ≡ keys_of self.now) }
        ensures succeeds { keys_of self.now ≡ [] → IsOk result }
    {
        let mut uids = Vec::new(alloc);
        for (uid, _) in self.map.map.iter() {
            uids.push(uid)?;
        }
        Ok(uids)
    }

    /// The series items, in the order of their UIDs. Allocates nothing if there are none.
    pub(crate) fn series(&self, alloc: Global) -> Result<Vec<&Item>, NoMemory>
        ensures series { IfOk result (λ series. map (λ item. item.now) series.items ≡ series_list self.now) }
        ensures succeeds { series_list self.now ≡ [] → IsOk result }
    {
        let mut items = Vec::new(alloc);
        for (_, series) in self.map.map.iter() {
            if let Lift::Known(newest) = &series.guard {
                items.push(newest.value.item())?;
            }
        }
        Ok(items)
    }

    /// All items, shared with this map. Allocates nothing if the map is empty.
    pub(crate) fn shared_items(&self, alloc: Global) -> Result<Vec<SharedItem>, NoMemory>
        requires { AreSound self.now }
        ensures items { IfOk result (λ items. items.items ≡ items_of self.now) }
        ensures succeeds { items_of self.now ≡ [] → IsOk result }
    {
        let mut items = Vec::new(alloc);
        for (_, series) in self.map.map.iter() {
            share(series, &mut items)?;
        }
        Ok(items)
    }

    /// Appends the items of a UID that a series item with this effective sequence makes dead. If there is a set for the UID, only items
    /// that may be dead are looked at.
    pub(crate) fn share_under(
        &self,
        uid: &Uid,
        sequence: u32,
        items: &mut Vec<SharedItem>,
    ) -> Result<(), NoMemory>
        requires { AreSound self.now }
        ensures { OnOk result (AddsUnderAt sequence (at self.now uid.now) items.old.items items.new.items) }
    {
        match self.map.get(uid) {
            None => Ok(()),
            Some(held) => share_under(&held.entries, self.due.get(uid), sequence, items),
        }
    }

    /// The number of items, or `usize::MAX` if there are more. Each UID is looked at once.
    pub(crate) fn count(&self) -> usize
        ensures { result ≡ min (length (items_of self.now)) usize.MAX }
    {
        let mut count: usize = 0;
        for (_, series) in self.map.map.iter() {
            count = count.saturating_add(series.entries.map.len());
            if let Lift::Known(_) = &series.guard {
                count = count.saturating_add(1);
            }
        }
        count
    }
}
