//! Items on their way to shards.
ghost use Rattle.std.specs.Prelude.{◌≡◌, ◌<◌};
ghost use Rattle.itip_items.specs.KeyParts.{uid_of};
ghost use Rattle.itip_inbox.specs.ShardOf.{number_of, shard_of};

use crate::shard::{number_of, shard_of};
use itip_state::SharedItem;
use std::marker::Model;

/// An item on its way to one of several shards, with a number made from its UID, so that each shard finds its own items without looking
/// at the others. Contracts see it as the item.
#[derive(Drop)]
pub(crate) struct Numbered {
    shared: SharedItem,
    /// `None` if there is one shard, which hears all items: a UID can be long.
    number: Option<u64>,
}

impl Model for Numbered {
    ghost use Rattle.std.specs.Prelude.{◌≡◌, IfSome};
    ghost use Rattle.itip_items.specs.declared.item.Item.{Item};
    ghost use Rattle.itip_items.specs.KeyParts.{uid_of};
    ghost use Rattle.itip_inbox.specs.ShardOf.{number_of};

    ghost Value = { Item };

    ghost use Rattle.itip_items.specs.contracts.item.Item as item;

    ghost coded = { item.the_row.coded };

    ghost view = { λ s. s.shared };

    ghost invariant = { λ s. IfSome s.number (λ number. number ≡ number_of (uid_of s.shared.key)) };
}

impl Numbered {
    /// An item on its way to one of `count` shards.
    pub(crate) fn new(shared: SharedItem, count: usize) -> Numbered
        ensures { result ≡ shared }
    {
        let number = if count > 1 {
            Some(number_of(shared.key.uid().as_str().as_bytes()))
        } else {
            None
        };
        Numbered { shared, number }
    }

    /// The item.
    pub(crate) fn item(&self) -> &SharedItem
        ensures { result.now ≡ self.now }
    {
        &self.shared
    }

    /// The number of the shard that hears it, if there are `count` shards.
    pub(crate) fn shard(&self, count: usize) -> usize
        requires { 0 < count }
        ensures { result ≡ shard_of count (uid_of self.now.key) }
    {
        match self.number {
            Some(number) => (number % count as u64) as usize,
            None => shard_of(self.shared.key.uid(), count),
        }
    }
}
