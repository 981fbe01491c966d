//! The range items of a UID that stand.
ghost use Rattle.std.specs.Prelude.{◌≡◌, ◌<◌, IfOk, MatchOption, length, map};
ghost use Rattle.itip_moment.specs.declared.moment.Moment.{Moment};
ghost use Rattle.itip_moment.specs.Moment.{moment_zone};
ghost use Rattle.itip_state.specs.OfUid.{UidPart};
ghost use Rattle.itip_view.specs.Ruling.{AreRanges, AreRangesInOrder, RulesAt, range_cmp};
ghost use Rattle.itip_view.specs.Standing.{Rules, NoneRules};

use crate::NoMemory;
use crate::dates::have_one_form;
use crate::keyed_item::KeyedItem;
use crate::standing::stands_beside;
use itip_items::{Item, Key};
use itip_moment::Moment;
use itip_state::ItemsOfUid;
use std::alloc::Global;
use std::cmp::Ordering;
use std::marker::Model;

/// A range item, and the id from which it starts.
#[derive(Clone, Copy, Debug, Drop)]
struct RangeFrom<'a> {
    id: &'a Moment,
    item: &'a Item,
}

/// The range items of a UID that stand, sorted by the form, the zone and the moment of their ids, each with the keys of its
/// attendees.
///
/// By the invariant of the type they are exactly those among the kept items of the UID.
#[derive(Drop)]
pub struct Ranges<'v, 'a> {
    items: &'v ItemsOfUid<'a>,
    standing: Vec<RangeFrom<'a>>,
    governing: Vec<KeyedItem<'a>>,
}

impl<'v, 'a> Model for Ranges<'v, 'a> {
    ghost use Rattle.std.specs.Prelude.{◌≡◌, map};
    ghost use Rattle.itip_state.specs.OfUid.{UidPart, uid_part_code};
    ghost use Rattle.itip_view.specs.Ruling.{AreRangesInOrder};

    ghost Value = { UidPart };

    ghost coded = { uid_part_code };

    ghost view = { λ r. r.items.now };

    ghost invariant = { λ r. AreRangesInOrder r.items.now r.standing.items
        × (map (λ range. range.item.now) r.standing.items ≡ map (λ range. range.item.now) r.governing.items) };
}

impl<'v, 'a> Ranges<'v, 'a> {
    /// The range items that stand among the kept items of a UID. Fails only when out of memory.
    pub fn of(alloc: Global, items: &'v ItemsOfUid<'a>) -> Result<Ranges<'v, 'a>, NoMemory>
        ensures { IfOk result (λ ranges. ranges ≡ items.now) }
    {
        let found = standing_ranges(alloc, items)?;
        let standing = by_id(found)?;
        let governing = governing_each(alloc, &standing)?;
        Ok(Ranges {
            items,
            standing,
            governing,
        })
    }

    /// The range item that rules a moment: of those whose id has its form and zone and is not after it, the one with the greatest id;
    /// `None` if there is none. It is found by binary search, which takes no memory.
    pub(crate) fn ruling(&self, at: &Moment) -> Option<&KeyedItem<'a>>
        ensures { MatchOption result (NoneRules self.now.items self.now.uid at.now)
            (λ range. (id : Moment) × Rules self.now.items self.now.uid at.now id range.now.item.now) }
    {
        match ruling_place(self.standing.as_slice(), at) {
            Some(place) => Some(&self.governing[place]),
            None => None,
        }
    }
}

/// Range items with the keys of their attendees, in order.
fn governing_each<'a>(
    alloc: Global,
    standing: &[RangeFrom<'a>],
) -> Result<Vec<KeyedItem<'a>>, NoMemory>
    ensures { IfOk result (λ governing. map (λ range. range.item.now) standing.now ≡ map (λ range. range.item.now) governing.items) }
{
    let mut governing = Vec::with_capacity(alloc, standing.len())?;
    for range in standing {
        governing.push(KeyedItem::of(alloc, range.item)?)?;
    }
    Ok(governing)
}

/// The index, among these, of the range item that rules a moment; `None` if none rules it.
fn ruling_place(standing: &[RangeFrom<'_>], at: &Moment) -> Option<usize>
    ensures inside { MatchOption result (Unit {0}) (λ place. place < length standing.now) }
    ensures rules { (part : UidPart) → AreRangesInOrder part standing.now
        → MatchOption result (NoneRules part.items part.uid at.now) (RulesAt part standing.now at.now) }
{
    let reached = standing.partition_point(|range| !compare(range.id, at).is_gt());
    if reached == 0 {
        return None;
    }
    let id = standing[reached - 1].id;
    if have_one_form(id, at) {
        Some(reached - 1)
    } else {
        None
    }
}

/// The range items that stand among the items of a UID, in the order of the items.
fn standing_ranges<'a>(
    alloc: Global,
    items: &ItemsOfUid<'a>,
) -> Result<Vec<RangeFrom<'a>>, NoMemory>
    ensures { IfOk result (λ found. AreRanges items.now found.items) }
{
    let series = items.series();
    let mut found = Vec::new(alloc);
    for item in items.as_slice() {
        if let Key::Range(_, id) = &item.key {
            if stands_beside(series, item) {
                found.push(RangeFrom { id, item })?;
            }
        }
    }
    Ok(found)
}

/// Range items sorted by their ids.
fn by_id<'a>(found: Vec<RangeFrom<'a>>) -> Result<Vec<RangeFrom<'a>>, NoMemory>
    ensures { IfOk result (λ sorted. (part : UidPart) → AreRanges part found.entry.items → AreRangesInOrder part sorted.items) }
{
    let mut found = found;
    found.sort_by(|a, b| compare(a.id, b.id))?;
    Ok(found)
}

/// Compares by form and zone, then in the order of moments.
fn compare(id: &Moment, other: &Moment) -> Ordering
    ensures { result ≡ range_cmp id.now other.now }
{
    (id.form() as u8)
        .cmp(&(other.form() as u8))
        .then(zone(id).cmp(zone(other)))
        .then(id.cmp(other))
}

/// The name of the zone, empty if the moment is in none.
fn zone(moment: &Moment) -> &str
    ensures { result.now ≡ moment_zone moment.now }
{
    match moment {
        Moment::Zoned(zone, _) => zone.as_str(),
        _ => "",
    }
}
