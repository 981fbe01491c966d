//! The kept items, item by item as they are defined: each is compared with each. This is slow, and is what a state is tested against.
ghost use Rattle.std.specs.Prelude.{◌≡◌, ◌↔◌, ◌≢◌, IsTrue, IfOk};
ghost use Rattle.std.specs.List.{Contains, AllPairs, list_any};
ghost use Rattle.itip_items.specs.declared.item.Item.{Item};
ghost use Rattle.itip_state.specs.Kept.{AreKept};
ghost use Rattle.itip_state.specs.Plain.{outdates as item_outdates, kills as item_kills, keeps};

use crate::NoMemory;
use crate::held_of_uid::is_below;
use crate::slot::compare;
use itip_items::{Item, Key};
use std::alloc::Global;

/// Whether `later` is a later revision of the same key.
fn outdates(later: &Item, item: &Item) -> bool
    ensures { result ≡ item_outdates later.now item.now }
{
    compare(&later.key, &item.key).is_eq() && later.cmp_rev(item).is_gt()
}

/// Whether `series` is a series item below which `item` is dead.
fn kills(series: &Item, item: &Item) -> bool
    ensures { result ≡ item_kills series.now item.now }
{
    matches!(&series.key, Key::Series(_)) && is_below(series, item)
}

fn is_outdated(items: &[Item], item: &Item) -> bool
    ensures { result ≡ list_any (λ other. item_outdates other item.now) items.now }
{
    items.iter().any(|other| outdates(other, item))
}

fn is_dead(items: &[Item], item: &Item) -> bool
    ensures { result ≡ list_any (λ series. item_kills series item.now) items.now }
{
    items.iter().any(|series| kills(series, item))
}

/// Whether `item`, one of `items`, is kept of them.
fn is_kept(items: &[Item], item: &Item) -> bool
    ensures { result ≡ keeps items.now item.now }
{
    !is_outdated(items, item) && !is_dead(items, item)
}

fn has(items: &[Item], item: &Item) -> bool
    ensures { IsTrue result ↔ Contains items.now item.now }
{
    items.contains(item)
}

/// Copies of the kept items among these, each once. Fails if an allocation fails.
pub fn kept(alloc: Global, items: &[Item]) -> Result<Vec<Item>, NoMemory>
    ensures kept { IfOk result (λ kept. AreKept kept.items items.now) }
    ensures once { IfOk result (λ kept. AllPairs (λ (a b : Item). a ≢ b) kept.items) }
{
    let mut kept = Vec::new(alloc);
    for item in items {
        if !is_kept(items, item) {
            continue;
        }
        if has(&kept, item) {
            continue;
        }
        kept.push(item.clone()?)?;
    }
    Ok(kept)
}
