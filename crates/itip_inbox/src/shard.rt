//! What is kept of the UIDs of one shard.
ghost use Rattle.std.specs.Prelude.{◌≡◌, ◌<◌, ◌++◌, [], false, nat_eq, OnOk};
ghost use Rattle.itip_items.specs.KeyParts.{uid_of};
ghost use Rattle.itip_state.specs.Kept.{AreKept};
ghost use Rattle.itip_inbox.specs.ShardOf.{AreOfShard, number_of, of_shard, shard_of};

use crate::numbered::Numbered;
use itip_state::State;
use itip_todo::Uid;
use std::alloc::{AllocError, Global};

/// What is kept of the UIDs whose number is that of this shard.
#[derive(Drop)]
pub(crate) struct Shard {
    pub(crate) state: State,
    /// Whether an allocation failed when it last heard. Then some of those items were not heard.
    pub(crate) is_refused: bool,
}

impl Shard {
    /// A shard that keeps nothing.
    pub(crate) fn empty(alloc: Global) -> Shard
        ensures { result.state ≡ [] }
    {
        Shard {
            state: State::empty(alloc),
            is_refused: false,
        }
    }

    /// Hears the items whose UIDs are of shard `number` of `count`.
    pub(crate) fn hear(&mut self, number: usize, count: usize, items: &[Numbered])
        requires { 0 < count }
        ensures hears { self.new.is_refused ≡ false → AreKept self.new.state (self.old.state ++ of_shard count number items.now) }
        ensures stays { AreOfShard count number self.old.state → AreOfShard count number self.new.state }
    {
        self.is_refused = hear_at(&mut self.state, number, count, items).is_err();
    }
}

/// Hears the items whose UIDs are of shard `number` of `count`, one after another. If an allocation fails, some of them may have been
/// heard.
fn hear_at(
    state: &mut State,
    number: usize,
    count: usize,
    items: &[Numbered],
) -> Result<(), AllocError>
    requires { 0 < count }
    ensures hears { OnOk result (AreKept state.new (state.old ++ of_shard count number items.now)) }
    ensures stays { AreOfShard count number state.old → AreOfShard count number state.new }
{
    state.lawful();
    for item in items {
        if is_of(item, number, count) {
            state.hear(&[item.item()])?;
        }
    }
    Ok(())
}

/// Whether the UID of an item is of shard `number` of `count`.
fn is_of(item: &Numbered, number: usize, count: usize) -> bool
    requires { 0 < count }
    ensures { result ≡ nat_eq (shard_of count (uid_of item.now.key)) number }
{
    item.shard(count) == number
}

/// The number of the shard of a UID, if there are `count` shards.
pub(crate) fn shard_of(uid: &Uid, count: usize) -> usize
    requires { 0 < count }
    ensures number { result ≡ shard_of count uid.now }
    ensures below { result < count }
{
    if count == 1 {
        return 0;
    }
    (number_of(uid.as_str().as_bytes()) % count as u64) as usize
}

/// A number made from some bytes, below 2^32.
pub(crate) fn number_of(octets: &[u8]) -> u64
    ensures number { result ≡ number_of octets.now }
    ensures small { result < 4294967296 }
{
    let mut number = 0u64;
    for octet in octets {
        number = (number * 31 + u64::from(*octet)) % 4_294_967_296;
    }
    number
}
