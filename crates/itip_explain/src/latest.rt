//! The latest told item of each key.
ghost use Rattle.std.specs.Prelude.{◌≡◌, ◌↔◌, IfOk, IsTrue, Some, map};
ghost use Rattle.std.specs.Option.{option_copied};
ghost use Rattle.std.specs.List.{Contains};
ghost use Rattle.std.specs.List.Sorted.{IsSortedBy};
ghost use Rattle.itip_state.specs.Kept.{AreKept};
ghost use Rattle.itip_explain.specs.Latest.{told_cmp, is_before, AreLatestFirst, IsInOrder, ArePicked, items_in};
ghost use Rattle.itip_explain.specs.Told.{heard_of, IsBestTold};

use crate::NoMemory;
use crate::told::ToldItem;
use itip_items::{Item, Key};
use itip_report::compare_places;
use itip_state::{SharedItem, State};
use std::alloc::Global;
use std::cmp::Ordering;

/// Told items sorted by key, the latest of each key first, and equal ones in the order told.
#[derive(Drop)]
pub(crate) struct Latest<'t> {
    pub(crate) told: &'t [ToldItem],
    pub(crate) sorted: Vec<&'t ToldItem>,
}

impl<'t> Latest<'t> {
    /// Sorts these items.
    pub(crate) fn of(alloc: Global, told: &'t [ToldItem]) -> Result<Latest<'t>, NoMemory>
        ensures told { IfOk result (λ latest. latest.told.now ≡ told.now) }
        ensures order { IfOk result IsInOrder }
    {
        let given = each_of(alloc, told)?;
        let sorted = latest_first(given)?;
        Ok(Latest { told, sorted })
    }

    /// The latest told item with the key of a told item; of equal ones, the first told.
    pub(crate) fn of_key(&self, item: &Item) -> &'t ToldItem
        requires order { IsInOrder self.now }
        requires heard { Contains (heard_of self.now.told.now) item.now }
        ensures { IsBestTold self.now.told.now item.now.key result.now }
    {
        let key = &item.key;
        let place = self
            .sorted
            .partition_point(|one| compare_places(&one.item.key, key).is_lt());
        self.sorted[place]
    }

    /// What is kept of the told items.
    pub(crate) fn state(&self, alloc: Global) -> Result<State, NoMemory>
        requires { IsInOrder self.now }
        ensures { IfOk result (λ state. AreKept state (heard_of self.now.told.now)) }
    {
        // Only the latest of each key is heard, and the series item first, so that nothing that was heard gives way later.
        let latest = picked(alloc, &self.sorted)?;
        kept_of(alloc, &latest)
    }
}

/// References to these, in their order.
fn each_of<'t>(alloc: Global, told: &'t [ToldItem]) -> Result<Vec<&'t ToldItem>, NoMemory>
    ensures { IfOk result (λ given. map (λ one. one.now) given.items ≡ told.now) }
{
    let mut given = Vec::with_capacity(alloc, told.len())?;
    for one in told {
        given.push(one)?;
    }
    Ok(given)
}

fn latest_first(told: Vec<&ToldItem>) -> Result<Vec<&ToldItem>, NoMemory>
    ensures { IfOk result (λ sorted. AreLatestFirst told.entry.items sorted.items) }
{
    let mut told = told;
    told.sort_by(|a, b| compare(a, b))?;
    Ok(told)
}

/// Orders by key, the latest of each key first.
fn compare(a: &ToldItem, b: &ToldItem) -> Ordering
    ensures { result ≡ told_cmp a.now b.now }
{
    compare_places(&a.item.key, &b.item.key).then_with(|| b.item.cmp_rev(&a.item))
}

/// The first of each key.
fn picked<'t>(alloc: Global, sorted: &[&'t ToldItem]) -> Result<Vec<&'t ToldItem>, NoMemory>
    requires { IsSortedBy is_before sorted.now }
    ensures { IfOk result (λ picked. ArePicked sorted.now picked.items) }
{
    let mut picked = Vec::new(alloc);
    let mut last = None;
    for one in sorted {
        let key = &one.item.key;
        if is_at(last, key) {
            continue;
        }
        picked.push(*one)?;
        last = Some(key);
    }
    Ok(picked)
}

/// Whether the key before, if there is one, is this key.
fn is_at(before: Option<&Key>, key: &Key) -> bool
    ensures { IsTrue result ↔ (option_copied before.entry ≡ Some key.now) }
{
    match before {
        Some(before) => compare_places(before, key).is_eq(),
        None => false,
    }
}

/// What is kept of these.
fn kept_of(alloc: Global, told: &[&ToldItem]) -> Result<State, NoMemory>
    ensures { IfOk result (λ state. AreKept state (items_in told.now)) }
{
    let mut state = State::empty(alloc);
    for one in told {
        let item = SharedItem::new(alloc, one.item.clone()?)?;
        state.hear(&[&item])?;
    }
    Ok(state)
}
