//! The state of a desk.
ghost use Rattle.std.specs.Prelude.{◌≡◌, ◌↔◌, ℕ, List, [], ◌++◌, IsTrue, IfOk, OnOk, OnErr, IsOk, MatchBool, length, min, map};
ghost use Rattle.std.specs.List.{Contains};
ghost use Rattle.std.specs.Option.{option_copied};
ghost use Rattle.itip_items.specs.KeyParts.{uid_of};
ghost use Rattle.itip_items.specs.declared.item.Item.{Item};
ghost use Rattle.itip_state.specs.Held.{uid_state_items};
ghost use Rattle.itip_state.specs.UidStates.{uid_state};
ghost use Rattle.itip_state.specs.Greatest.{AreNotedWith};
ghost use Rattle.std.specs.List.Sorted.{IsStrictlySortedBy};
ghost use Rattle.std.specs.Map.{keys_of};
ghost use Rattle.std.specs.Ordering.{nat_cmp};
ghost use Rattle.std.specs.Cmp.Lexicographic.{slice_cmp};

use crate::NoMemory;
use crate::hear::{hear, hear_all};
use crate::held::Held;
use crate::held_of_uid::{HeldOfUid, holds, share, share_at};
use crate::items_of_uid::ItemsOfUid;
use crate::organizers::greatest;
use crate::shared::{SharedItem, by_octets};
use crate::told::outdoes;
use itip_items::Item;
use itip_join::{Lift, OrderedMap};
use itip_todo::Uid;
use std::alloc::Global;
use std::marker::Model;

/// Notes the effective sequence of an item, if it is a series item and the greatest of its UID so far.
fn note_greatest(greatest: &mut OrderedMap<Uid, u32>, item: &SharedItem) -> Result<(), NoMemory>
    requires { IsStrictlySortedBy (slice_cmp nat_cmp) (keys_of greatest.old) }
    ensures sorted { IsStrictlySortedBy (slice_cmp nat_cmp) (keys_of greatest.new) }
    ensures noted { OnOk result (AreNotedWith greatest.old item.now greatest.new) }
{
    if item.slot().is_some() {
        return Ok(());
    }
    let sequence = item.item().eff;
    if let Some(before) = greatest.get(item.uid()) {
        if *before >= sequence {
            return Ok(());
        }
    }
    greatest.insert(item.uid().clone()?, sequence)?;
    Ok(())
}

/// Appends the items of one UID, the series item first.
fn show<'a>(series: &'a HeldOfUid, items: &mut Vec<&'a Item>) -> Result<(), NoMemory>
    ensures { OnOk result (map (λ item. item.now) items.new.items
        ≡ map (λ item. item.now) items.old.items ++ uid_state_items (uid_state series.now)) }
{
    if let Lift::Known(best) = &series.guard {
        items.push(best.value.item())?;
    }
    for (_, best) in series.entries.map.iter() {
        items.push(best.value.item())?;
    }
    Ok(())
}

/// The kept items of a set: the best of each key, without the dead. Contracts see it as the list of these items, each once.
#[derive(Debug, Drop)]
pub struct State {
    alloc: Global,
    held: Held,
}

impl Model for State {
    ghost use Rattle.std.specs.Prelude.{List};
    ghost use Rattle.itip_items.specs.declared.item.Item.{Item};

    ghost Value = { List Item };

    ghost use Rattle.std.specs.Coded.{coded_list};
    ghost use Rattle.itip_items.specs.contracts.item.Item as item;

    ghost coded = { coded_list item.the_row.coded };

    ghost use Rattle.itip_state.specs.Held.{items_of, AreHeld};

    ghost view = { λ s. items_of s.held };

    ghost invariant = { λ s. AreHeld s.held };
}

impl State {
    ghost use Rattle.itip_state.specs.Kept.{AreKept, ArePart, ArePartOf, IsItemsOf, AreSeriesOf, AreUidsOf, SameItems, HasEachOnce};
    ghost use Rattle.itip_state.specs.Order.{IsState, IsBelow, IsLeastUpperBound};
    ghost use Rattle.itip_state.specs.Organizers.{IsLastUsed};
    ghost use Rattle.itip_state.specs.Told.{AreNews};
    ghost use Rattle.itip_state.specs.Giving.{AreGivingWay};

    /// The state in which nothing was heard. Allocates nothing.
    pub fn empty(alloc: Global) -> State
        ensures { result ≡ [] }
    {
        State {
            alloc,
            held: Held::empty(alloc),
        }
    }

    /// What is kept of these items, which are copied. Fails if an allocation fails; allocates nothing if there are no items.
    pub fn of_items(alloc: Global, items: &[Item]) -> Result<State, NoMemory>
        ensures kept { IfOk result (λ state. AreKept state items.now) }
        ensures succeeds { items.now ≡ [] → IsOk result }
    {
        let mut held = Held::empty(alloc);
        for item in items {
            let item = SharedItem::new(alloc, item.clone()?)?;
            hear(&mut held, &item)?;
        }
        Ok(State { alloc, held })
    }

    /// What is kept of these items, which are shared, not copied. Fails if an allocation fails; allocates nothing if there are no items.
    pub fn of_shared(alloc: Global, items: &[SharedItem]) -> Result<State, NoMemory>
        ensures kept { IfOk result (λ state. AreKept state items.now) }
        ensures succeeds { items.now ≡ [] → IsOk result }
    {
        let mut kept = Held::empty(alloc);
        for item in items {
            hear(&mut kept, item)?;
        }
        Ok(State { alloc, held: kept })
    }

    /// The news among these items: those that this state doesn't tell already and that are not dead beside it.
    ///
    /// Fails if an allocation fails. If none of the items is news, it allocates nothing and succeeds.
    pub fn news<'a>(&self, items: &'a [SharedItem]) -> Result<Vec<&'a SharedItem>, NoMemory>
        ensures news { IfOk result (λ news. AreNews self.now items.now (map (λ item. item.now) news.items)) }
        ensures state { OnOk result (IsState self.now) }
        ensures succeeds { IsBelow items.now self.now → IsOk result }
    {
        let mut news = Vec::new(self.alloc);
        for item in items {
            if outdoes(&self.held, item) {
                continue;
            }
            news.push(item)?;
        }
        Ok(news)
    }

    /// Hears these items. Fails only if an allocation failed, and then nothing changes. If none of the items is news, it succeeds.
    pub fn hear(&mut self, items: &[&SharedItem]) -> Result<(), NoMemory>
        ensures ok { OnOk result (AreKept self.new (self.old ++ map (λ item. item.now) items.now)) }
        ensures succeeds { IsBelow (map (λ item. item.now) items.now) self.old → IsOk result }
        ensures err { OnErr result (self.new ≡ self.old) }
    {
        hear_all(&mut self.held, self.alloc, items)
    }

    /// The kept items that can give way to these, shared with this state: those at their keys, and those that are dead below them. They
    /// come in no particular order, perhaps more than once, and perhaps with other kept items. Of a UID with many items, all are looked
    /// at only if there is no set yet of those that can die.
    ///
    /// Fails if an allocation fails.
    pub fn giving_way(&self, news: &[&SharedItem]) -> Result<Vec<SharedItem>, NoMemory>
        ensures { IfOk result (λ items. AreGivingWay self.now (map (λ item. item.now) news.now) items.items) }
    {
        let mut items = Vec::new(self.alloc);
        let mut greatest = OrderedMap::new(self.alloc);
        for item in news {
            if let Some(held) = self.held.get(item.uid()) {
                share_at(held, item, &mut items)?;
                note_greatest(&mut greatest, item)?;
            }
        }
        for (uid, sequence) in greatest.iter() {
            self.held.share_under(uid, *sequence, &mut items)?;
        }
        Ok(items)
    }

    /// Whether an item is kept. Allocates nothing.
    pub fn has(&self, item: &SharedItem) -> bool
        ensures { IsTrue result ↔ Contains self.now item.now }
    {
        match self.held.get(item.uid()) {
            None => false,
            Some(held) => holds(held, item),
        }
    }

    /// Merges another state in: this state becomes the least upper bound of both. If an allocation fails, nothing changes.
    ///
    /// If the other state has no news, it allocates nothing and succeeds.
    pub fn merge(&mut self, other: &State) -> Result<(), NoMemory>
        ensures ok { OnOk result (AreKept self.new (self.old ++ other.now)) }
        ensures least { OnOk result (IsLeastUpperBound self.old other.now self.new) }
        ensures succeeds { IsBelow other.now self.old → IsOk result }
        ensures err { OnErr result (self.new ≡ self.old) }
    {
        self.held.join(&other.held)
    }

    /// The kept items of these UIDs, shared with this state, in no particular order, and perhaps more than once. Each UID is looked up,
    /// and no others are looked at.
    ///
    /// Fails if an allocation fails. If nothing is kept of these UIDs, it allocates nothing and succeeds.
    pub fn shared_of(&self, uids: &[&Uid]) -> Result<Vec<SharedItem>, NoMemory>
        ensures part { IfOk result (λ items. ArePartOf items.items self.now (map (λ uid. uid.now) uids.now)) }
        ensures succeeds { ArePartOf [] self.now (map (λ uid. uid.now) uids.now) → IsOk result }
    {
        let mut items = Vec::new(self.alloc);
        for uid in uids {
            if let Some(series) = self.held.get(uid) {
                share(series, &mut items)?;
            }
        }
        Ok(items)
    }

    /// Copies of the kept items, sorted by canonical bytes, each once. Fails if an allocation fails; allocates nothing if nothing is kept.
    pub fn items(&self) -> Result<Vec<Item>, NoMemory>
        ensures items { IfOk result (λ items. IsItemsOf items.items self.now) }
        ensures succeeds { self.now ≡ [] → IsOk result }
    {
        let shared = self.shared_items()?;
        let mut items = Vec::new(self.alloc);
        for item in &shared {
            items.push(item.item().clone()?)?;
        }
        Ok(items)
    }

    /// The kept items, shared with this state, sorted by canonical bytes, each once. Fails if an allocation fails; allocates nothing if
    /// nothing is kept.
    pub fn shared_items(&self) -> Result<Vec<SharedItem>, NoMemory>
        ensures items { IfOk result (λ items. IsItemsOf items.items self.now) }
        ensures succeeds { self.now ≡ [] → IsOk result }
    {
        by_octets(self.held.shared_items(self.alloc)?)
    }

    /// The kept series items, sorted by UID, each once. Fails if an allocation fails; allocates nothing if none is kept.
    pub fn series(&self) -> Result<Vec<&Item>, NoMemory>
        ensures series { IfOk result (λ series. AreSeriesOf (map (λ item. item.now) series.items) self.now) }
        ensures succeeds { AreSeriesOf [] self.now → IsOk result }
    {
        self.held.series(self.alloc)
    }

    /// The UIDs of which something is kept, sorted by bytes, each once. Fails if an allocation fails; allocates nothing if nothing is kept.
    pub fn uids(&self) -> Result<Vec<&Uid>, NoMemory>
        ensures uids { IfOk result (λ uids. AreUidsOf (map (λ uid. uid.now) uids.items) self.now) }
        ensures succeeds { self.now ≡ [] → IsOk result }
        ensures state { OnOk result (IsState self.now) }
    {
        self.held.uids(self.alloc)
    }

    /// The number of UIDs of which something is kept. Allocates nothing.
    pub fn uid_count(&self) -> usize
        ensures { (uids : List (List ℕ)) → AreUidsOf uids self.now → length uids ≡ result }
    {
        self.held.len()
    }

    /// Whether an item of this UID is kept. Allocates nothing.
    pub fn keeps(&self, uid: &Uid) -> bool
        ensures { MatchBool result ((item : Item) × Contains self.now item × (uid_of item.key ≡ uid.now)) (ArePart uid.now [] self.now) }
    {
        match self.held.get(uid) {
            Some(_) => true,
            None => false,
        }
    }

    /// The kept items of a UID. No other UID is looked at. Fails if an allocation fails; allocates nothing if nothing is kept of it.
    pub fn of_uid<'a>(&'a self, uid: &'a Uid) -> Result<ItemsOfUid<'a>, NoMemory>
        ensures uid { IfOk result (λ part. part.uid ≡ uid.now) }
        ensures items { IfOk result (λ part. ArePart uid.now part.items self.now) }
        ensures succeeds { ArePart uid.now [] self.now → IsOk result }
    {
        let mut items = Vec::new(self.alloc);
        let Some(held) = self.held.get(uid) else {
            return Ok(ItemsOfUid::new(uid, items));
        };
        show(held, &mut items)?;
        Ok(ItemsOfUid::new(uid, items))
    }

    /// The greatest effective sequence of the kept items that the organizer of a UID has sent, if there are any. Allocates nothing.
    pub fn last_used(&self, uid: &Uid) -> Option<u32>
        ensures { IsLastUsed self.now uid.now result }
    {
        match self.held.get(uid) {
            None => None,
            Some(series) => greatest(series),
        }
    }

    /// Whether both states keep the same items. Allocates nothing.
    pub fn equal(&self, other: &State) -> bool
        ensures { IsTrue result ↔ SameItems self.now other.now }
    {
        self.held.below(&other.held) && other.held.below(&self.held)
    }

    /// The number of kept items, or `usize::MAX` if there are more. Each UID is looked at once.
    pub fn entries(&self) -> usize
        ensures number { result ≡ min (length self.now) usize.MAX }
        ensures once { HasEachOnce self.now }
    {
        self.held.count()
    }

    /// States what is true of every state: it keeps each of its items, and has each once. It does nothing; a proof calls it to learn this.
    pub fn lawful(&self)
        ensures state { IsState self.now }
        ensures once { HasEachOnce self.now }
    {
        let _ = &self.held;
    }
}
