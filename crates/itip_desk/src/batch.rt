//! What a desk takes in one step.
ghost use Rattle.std.specs.Prelude.{◌≡◌, [], IfOk, IsOk};

use itip_items::Item;
use itip_state::{SharedItem, by_octets};
use std::alloc::{AllocError, Global};
use std::marker::Model;

/// A finite set of items, sorted by canonical bytes, each once.
#[derive(Debug, Drop)]
pub struct Batch {
    items: Vec<SharedItem>,
}

impl Model for Batch {
    ghost use Rattle.std.specs.Prelude.{List};
    ghost use Rattle.itip_items.specs.declared.item.Item.{Item};

    ghost Value = { List Item };

    ghost use Rattle.std.specs.Coded.{coded_list};
    ghost use Rattle.itip_items.specs.contracts.item.Item as item;

    ghost coded = { coded_list item.the_row.coded };

    ghost use Rattle.itip_desk.specs.Octets.{AscendOctets};

    ghost view = { λ b. b.items.items };

    ghost invariant = { λ b. AscendOctets b.items.items };
}

impl Batch {
    ghost use Rattle.itip_state.specs.Kept.{IsItemsOf};
    ghost use Rattle.itip_desk.specs.Octets.{AscendOctets};

    /// The batch of these items. If an allocation fails, they are dropped. Allocates nothing if there are no items.
    pub fn of_items(items: Vec<Item>) -> Result<Batch, AllocError>
        ensures items { IfOk result (λ batch. IsItemsOf batch items.items) }
        ensures succeeds { items.items ≡ [] → IsOk result }
    {
        let alloc = *items.allocator();
        let mut shared = Vec::with_capacity(alloc, items.len())?;
        for item in items {
            shared.push(SharedItem::new(alloc, item)?)?;
        }
        // Comparing two items that share a front goes over all of it, so items are first put in order by what follows the front.
        shared.sort_unstable_by(|one, other| one.bytes.own().cmp(other.bytes.own()));
        Batch::of_shared(shared)
    }

    /// Like [`Batch::of_items`], but of items that are already shared.
    pub(crate) fn of_shared(items: Vec<SharedItem>) -> Result<Batch, AllocError>
        ensures items { IfOk result (λ batch. IsItemsOf batch items.items) }
        ensures succeeds { items.items ≡ [] → IsOk result }
    {
        Ok(Batch {
            items: by_octets(items)?,
        })
    }

    /// The items, sorted by canonical bytes, each once.
    pub fn as_slice(&self) -> &[SharedItem]
        ensures items { result.now ≡ self.now }
        ensures ascend { AscendOctets self.now }
    {
        self.items.as_slice()
    }

    /// States what is true of every batch: its items ascend by canonical bytes. It does nothing; a proof calls it to learn this.
    pub fn lawful(&self)
        ensures { AscendOctets self.now }
    {
        let _ = &self.items;
    }
}
