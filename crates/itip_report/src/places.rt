//! The places of items in a report.
ghost use Rattle.std.specs.Prelude.{◌≡◌, IfOk, map};
ghost use Rattle.itip_state.specs.Kept.{AscendKeys, SameItems};
ghost use Rattle.itip_report.specs.Lines.{place_cmp, AscendPlaces};

use crate::NoMemory;
use itip_items::{Item, Key};
use std::cmp::Ordering;

/// Compares by UID, then the to-do as a whole before its instances and ranges by moment, then by attendee, then by rank: an instance
/// before a range, and an answer before a refresh request.
pub fn compare_places(key: &Key, other: &Key) -> Ordering
    ensures { result ≡ place_cmp key.now other.now }
{
    key.uid()
        .cmp(other.uid())
        .then(key.cmp_instances(other))
        .then(key.attendee().cmp(other.attendee()))
        .then(key.rank().cmp(&other.rank()))
}

/// Sorts items by place; they have to be in the order of their keys. Fails if an allocation fails.
pub fn by_place<'a>(items: Vec<&'a Item>) -> Result<Vec<&'a Item>, NoMemory>
    requires { AscendKeys (map (λ item. item.now) items.items) }
    ensures ascend { IfOk result (λ sorted. AscendPlaces (map (λ item. item.now) sorted.items)) }
    ensures same { IfOk result (λ sorted. SameItems (map (λ item. item.now) sorted.items) (map (λ item. item.now) items.entry.items)) }
{
    let mut items = items;
    items.sort_by(|a, b| compare_places(&a.key, &b.key))?;
    Ok(items)
}
