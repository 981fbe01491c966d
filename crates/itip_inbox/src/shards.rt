//! What is kept, split into shards by UID. What is kept of a UID depends on the items of that UID alone, so each shard hears on a thread
//! of its own.
ghost use Rattle.std.specs.Prelude.{◌≡◌, ◌↔◌, ◌<◌, ◌++◌, [], HoldsAt, length, map, IfOk, OnOk, IfErr, IsTrue};
ghost use Rattle.std.specs.List.{list_any};
ghost use Rattle.itip_state.specs.Kept.{AreKept, IsItemsOf, SameItems};
ghost use Rattle.itip_state.specs.Told.{AreNews, IsOutdone};
ghost use Rattle.itip_inbox.specs.Ranges.{EachAscends, items_in};
ghost use Rattle.itip_inbox.specs.Shards.{kept_in, HearsShard};

use crate::merged_ranges::merged;
use crate::numbered::Numbered;
use crate::shard::{Shard, shard_of};
use itip_state::{SharedItem, State};
use std::alloc::{AllocError, Global};
use std::marker::Model;
use std::thread::Threads;
use std::{slice, thread};

// The fewest items that are worth a thread.
const LEAST: usize = 64;

/// The kept items, split into one shard per thread. Contracts see it as the list of its items.
#[derive(Drop)]
pub(crate) struct Shards {
    shards: Vec<Shard>,
}

impl Model for Shards {
    ghost use Rattle.std.specs.Prelude.{List};
    ghost use Rattle.itip_items.specs.declared.item.Item.{Item};

    ghost Value = { List Item };

    ghost use Rattle.std.specs.Coded.{coded_list};
    ghost use Rattle.itip_items.specs.contracts.item.Item as item;

    ghost coded = { coded_list item.the_row.coded };

    ghost use Rattle.itip_inbox.specs.Shards.{kept_in, AreSharded};

    ghost view = { λ s. kept_in s.shards.items };

    ghost invariant = { λ s. AreSharded s.shards.items };
}

impl Shards {
    /// Keeps nothing yet, in `count` shards, or in one if `count` is 0.
    pub(crate) fn empty(alloc: Global, count: usize) -> Result<Shards, AllocError>
        ensures { IfOk result (λ shards. shards ≡ []) }
    {
        let mut shards = Vec::new(alloc);
        shards.push(Shard::empty(alloc))?;
        for _ in 1..count {
            shards.push(Shard::empty(alloc))?;
        }
        Ok(Shards { shards })
    }

    /// The items that would change what is kept.
    pub(crate) fn news<'a>(
        &self,
        alloc: Global,
        items: &'a [SharedItem],
    ) -> Result<Vec<&'a SharedItem>, AllocError>
        ensures { IfOk result (λ news. AreNews self.now items.now (map (λ item. item.now) news.items)) }
    {
        let mut news = Vec::new(alloc);
        for item in items {
            if self.is_outdone(item)? {
                continue;
            }
            news.push(item)?;
        }
        Ok(news)
    }

    /// Whether hearing an item changes nothing.
    fn is_outdone(&self, item: &SharedItem) -> Result<bool, AllocError>
        ensures { IfOk result (λ is_outdone. IsTrue is_outdone ↔ IsOutdone self.now item.now) }
    {
        let number = shard_of(item.key.uid(), self.shards.len());
        let news = self.shards[number].state.news(slice::from_ref(item))?;
        Ok(news.is_empty())
    }

    /// An item on its way to its shard.
    pub(crate) fn numbered(&self, item: SharedItem) -> Numbered
        ensures { result ≡ item }
    {
        Numbered::new(item, self.shards.len())
    }

    /// Hears items, each shard those of its UIDs, and many items on several threads. If an allocation fails, some may have been heard.
    pub(crate) fn hear<R: Threads + Sync>(
        &mut self,
        rt: &R,
        items: &[Numbered],
    ) -> Result<(), AllocError>
        ensures { OnOk result (AreKept self.new (self.old ++ items.now)) }
    {
        let count = self.shards.len();
        let threads = (items.len() / LEAST).min(count).max(1);
        let one = move |number: usize, shard: &mut Shard|
            requires { 0 < count }
            ensures { HearsShard count number items.entry.now shard.old shard.new }
        { shard.hear(number, count, items) };
        thread::for_each_mut(rt, self.shards.as_mut_slice(), threads, &one);
        if is_one_refused(self.shards.as_slice()) {
            return Err(AllocError);
        }
        Ok(())
    }

    /// The items, sorted by canonical bytes, each once. Each shard is sorted on a thread of its own; then the results are merged on as
    /// many threads as there are shards.
    pub(crate) fn by_octets<R: Threads + Sync>(&self, rt: &R) -> Result<Vec<SharedItem>, AllocError>
        ensures { IfOk result (λ items. IsItemsOf items.items self.now) }
    {
        let alloc = *self.shards.allocator();
        let lists = sorted_each(rt, alloc, self.shards.as_slice())?;
        merged(rt, lists, self.shards.len())
    }

    /// Drops items, many of them on up to as many threads as there are shards.
    pub(crate) fn let_go_of<R: Threads + Sync, T: Drop + Send>(&self, rt: &R, items: Vec<T>) {
        let count = (items.len() / LEAST).min(self.shards.len());
        if count > 1 {
            if let Ok(parts) = in_parts(items, count) {
                let _ = thread::map_vec(rt, parts, &|part: Vec<T>| drop(part));
            }
        }
    }

    /// Drops what is kept, each shard on a thread of its own.
    pub(crate) fn let_go<R: Threads + Sync>(self, rt: &R) {
        let Shards { shards } = self;
        let _ = thread::map_vec(rt, shards, &|shard: Shard| drop(shard));
    }

    /// All shards in one state.
    pub(crate) fn whole(self) -> Result<State, AllocError>
        ensures { IfOk result (λ state. AreKept state self) }
    {
        let Shards { mut shards } = self;
        let alloc = *shards.allocator();
        let Some(last) = shards.pop() else {
            return Ok(State::empty(alloc));
        };
        let Shard { state, .. } = last;
        let mut whole = state;
        whole.lawful();
        while let Some(shard) = shards.pop() {
            whole.merge(&shard.state)?;
        }
        Ok(whole)
    }
}

/// Splits items into at most `count` lists of about the same length.
fn in_parts<T: Drop>(items: Vec<T>, count: usize) -> Result<Vec<Vec<T>>, AllocError>
    requires { 0 < count }
{
    let mut parts = Vec::new(*items.allocator());
    let mut rest = items;
    let size = rest.len() / count + 1;
    for _ in 1..count {
        if rest.len() > size {
            let last = rest.split_off(rest.len() - size)?;
            parts.push(last)?;
        }
    }
    parts.push(rest)?;
    Ok(parts)
}

/// Whether an allocation failed in one of these shards.
fn is_one_refused(shards: &[Shard]) -> bool
    ensures { result ≡ list_any (λ shard. shard.is_refused) shards.now }
{
    shards.iter().any(|shard| shard.is_refused)
}

/// The items of each shard, sorted by canonical bytes, each once. Each shard is sorted on a thread of its own.
fn sorted_each<R: Threads + Sync>(
    rt: &R,
    alloc: Global,
    shards: &[Shard],
) -> Result<Vec<Vec<SharedItem>>, AllocError>
    ensures ascend { IfOk result (λ lists. EachAscends lists.items) }
    ensures same { IfOk result (λ lists. SameItems (items_in lists.items) (kept_in shards.now)) }
{
    let one = move |number: usize| -> Result<Vec<SharedItem>, AllocError>
        requires { number < length shards.now }
        ensures { IfOk result (λ items. HoldsAt (λ shard. IsItemsOf items.items shard.state) shards.entry.now number) }
    { shards[number].state.shared_items() };
    let sorted = thread::map_indices(rt, alloc, shards.len(), &one)?;
    let mut lists = Vec::with_capacity(alloc, sorted.len())?;
    for list in sorted {
        lists.push(list?)?;
    }
    Ok(lists)
}
