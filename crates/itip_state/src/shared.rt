//! Items that many holders can share.
ghost use Rattle.std.specs.Prelude.{◌≡◌, [], IfOk, IsOk, map, refl};
ghost use Rattle.std.specs.Option.{option_copied};
ghost use Rattle.std.specs.Cmp.{partial_order_from_total, partial_equiv_from_equiv, eq_by_cmp_equiv};
ghost use Rattle.std.specs.Ordering.{as_partial_cmp, eq_by_cmp};
ghost use Rattle.itip_items.specs.KeyParts.{uid_of};
ghost use Rattle.itip_items.specs.OctetOrder.{octets_cmp, octets_total};
ghost use Rattle.itip_state.specs.Held.{IsPlaceOf};
ghost use Rattle.itip_state.specs.Kept.{IsItemsOf, AreUidsOf};

use crate::NoMemory;
use crate::latest_revision::Revision;
use crate::slot::Slot;
use itip_items::{Item, Key};
use itip_join::Exact;
use itip_todo::Uid;
use std::alloc::Global;
use std::cmp::Ordering;
use std::marker::Model;
use std::ops::Deref;

/// An item that many holders can share: cloning it raises a count, and allocates nothing. Contracts see it as the item.
#[derive(Debug, Drop)]
pub struct SharedItem {
    revision: Revision,
    /// Where a state holds it among the items of its UID; `None` for a series item, which needs no such place.
    slot: Option<Slot>,
}

impl Model for SharedItem {
    ghost use Rattle.itip_items.specs.declared.item.Item.{Item};
    ghost use Rattle.itip_state.specs.Held.{IsPlaceOf};

    ghost Value = { Item };

    ghost use Rattle.itip_items.specs.contracts.item.Item as item;

    ghost coded = { item.the_row.coded };

    ghost view = { λ s. s.revision };

    ghost invariant = { λ s. IsPlaceOf s.slot s.revision.key };
}

impl SharedItem {
    /// Makes an item one that can be shared. If an allocation fails, the item is dropped.
    pub fn new(alloc: Global, item: Item) -> Result<SharedItem, NoMemory>
        ensures { IfOk result (λ shared. shared ≡ item) }
    {
        let slot = match slot_of(alloc, &item.key) {
            Ok(slot) => slot,
            Err(refused) => {
                // Dropped by a call: an implicit drop is proved anew, field by field and case by case.
                drop(item);
                return Err(refused);
            }
        };
        let revision = Revision::new(alloc, item)?;
        Ok(SharedItem { revision, slot })
    }

    /// The item of a revision that a state holds at this slot, or as a series item if there is no slot.
    pub(crate) fn held_at(slot: Option<&Slot>, revision: &Revision) -> Result<SharedItem, NoMemory>
        requires { IsPlaceOf (option_copied slot) revision.now.key }
        ensures { IfOk result (λ shared. shared ≡ revision.now) }
    {
        let slot = match slot {
            None => None,
            Some(slot) => Some(slot.copy()?),
        };
        Ok(SharedItem {
            revision: revision.copy()?,
            slot,
        })
    }

    /// The item.
    pub fn item(&self) -> &Item
        ensures { result.now ≡ self.now }
    {
        self.revision.item()
    }

    /// Its key.
    pub(crate) fn key(&self) -> &Key
        ensures { result.now ≡ self.now.key }
    {
        &self.item().key
    }

    /// The UID that it is about.
    pub(crate) fn uid(&self) -> &Uid
        ensures { result.now ≡ uid_of self.now.key }
    {
        self.key().uid()
    }

    /// The item in the order of revisions.
    pub fn revision(&self) -> &Revision
        ensures { result.now ≡ self.now }
    {
        &self.revision
    }

    /// The item in the order of revisions. Allocates nothing.
    pub fn into_revision(self) -> Revision
        ensures { result ≡ self }
    {
        let SharedItem { revision, slot } = self;
        drop(slot);
        revision
    }

    /// Where a state holds it among the items of its UID, or `None` if it is a series item.
    pub(crate) fn slot(&self) -> Option<&Slot>
        ensures { IsPlaceOf (option_copied result) self.now.key }
    {
        self.slot.as_ref()
    }
}

impl Deref for SharedItem {
    type Target = Item;

    ghost deref_gives = { λ shared item. item ≡ shared };

    fn deref(&self) -> &Item {
        self.item()
    }
}

impl Clone for SharedItem {
    ghost is_clone = { λ item copy. copy ≡ item };

    fn clone(&self) -> Result<SharedItem, NoMemory> {
        SharedItem::held_at(self.slot(), &self.revision)
    }
}

impl PartialEq for SharedItem {
    ghost eq = { eq_by_cmp octets_cmp };

    ghost laws = { partial_equiv_from_equiv (eq_by_cmp_equiv octets_total) };

    fn eq(&self, other: &SharedItem) -> bool {
        self.cmp(other) == Ordering::Equal
    }
}

impl Eq for SharedItem {
    ghost laws = { eq_by_cmp_equiv octets_total };
}

impl PartialOrd for SharedItem {
    ghost partial_cmp = { as_partial_cmp octets_cmp };

    ghost laws = { partial_order_from_total octets_total };

    fn partial_cmp(&self, other: &SharedItem) -> Option<Ordering> {
        Some(self.cmp(other))
    }
}

/// By canonical bytes.
impl Ord for SharedItem {
    ghost cmp = { octets_cmp };

    ghost total = { octets_total };

    ghost matches_partial_cmp = { λ x y. refl };

    ghost matches_eq = { λ x y. refl };

    fn cmp(&self, other: &SharedItem) -> Ordering {
        self.item().cmp(other.item())
    }
}

/// The slot of an item of this key, or `None` for a series item.
fn slot_of(alloc: Global, key: &Key) -> Result<Option<Slot>, NoMemory>
    ensures { IfOk result (λ slot. IsPlaceOf slot key.now) }
{
    let slot = match key {
        Key::Series(_) => None,
        key => Some(Slot::new(alloc, key.clone()?)?),
    };
    Ok(slot)
}

/// These items, sorted by canonical bytes, each once. If an allocation fails, they are dropped. Allocates nothing if there are no items.
pub fn by_octets(items: Vec<SharedItem>) -> Result<Vec<SharedItem>, NoMemory>
    ensures items { IfOk result (λ sorted. IsItemsOf sorted.items items.items) }
    ensures succeeds { items.items ≡ [] → IsOk result }
{
    let mut items = items;
    items.sort()?;
    items.dedup();
    Ok(items)
}

/// The UIDs that items are about, sorted by bytes, each once. Fails if an allocation fails; allocates nothing if there are no items.
pub fn uids<'a>(alloc: Global, items: &[&'a SharedItem]) -> Result<Vec<&'a Uid>, NoMemory>
    ensures uids { IfOk result (λ uids. AreUidsOf (map (λ uid. uid.now) uids.items) (map (λ item. item.now) items.now)) }
    ensures succeeds { items.now ≡ [] → IsOk result }
{
    let mut uids = Vec::with_capacity(alloc, items.len())?;
    for item in items {
        uids.push(item.uid())?;
    }
    uids.sort()?;
    uids.dedup();
    Ok(uids)
}
