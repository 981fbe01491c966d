//! What is looked for among the kept items of one UID.
ghost use Rattle.std.specs.Prelude.{◌≡◌, ◌↔◌, IfOk, IsTrue, MatchOption, Option, map};
ghost use Rattle.std.specs.Option.{option_copied};
ghost use Rattle.itip_items.specs.KeyParts.{instance_of};
ghost use Rattle.itip_items.specs.declared.item.Item.{Item};
ghost use Rattle.itip_moment.specs.declared.moment.Moment.{Moment};
ghost use Rattle.itip_report.specs.Lines.{AreReported};
ghost use Rattle.itip_report.specs.Reports.{IsStanding, IsCancellation, NoneAtInstance, IsOrphan, IsWanted, IsOfAttendee, IsRefresh};
ghost use Rattle.itip_report.specs.Sought.{IsAmong, IsOver, IsSought, IsFor};

use crate::NoMemory;
use crate::places::by_place;
use crate::report::Report;
use itip_items::{Item, Key};
use itip_moment::Moment;
use itip_state::ItemsOfUid;
use itip_view::{Ranges, governing, is_live, stands_beside};
use std::alloc::Global;

/// What is looked for among the kept items of one UID.
#[derive(Drop)]
pub(crate) enum Sought<'v, 'a> {
    /// Instance and range items that stand.
    Standing,
    /// Items that cancel the to-do, an instance, or all from one on.
    Cancelled,
    /// Answers and refresh requests that belong to nothing.
    Orphans,
    /// Refresh requests that are newer than the item that governs, which may be a range item.
    Wanted(Ranges<'v, 'a>),
}

impl<'v, 'a> Sought<'v, 'a> {
    /// What a report looks for. The range items that stand are found once, for the report that needs them.
    pub(crate) fn by(
        alloc: Global,
        report: Report,
        items: &'v ItemsOfUid<'a>,
    ) -> Result<Sought<'v, 'a>, NoMemory>
        ensures over { IfOk result (λ sought. IsOver items.now sought) }
        ensures asked { IfOk result (λ sought. IsFor report sought) }
    {
        match report {
            Report::Cancelled => Ok(Sought::Cancelled),
            Report::Orphans => Ok(Sought::Orphans),
            Report::Refresh => Ok(Sought::Wanted(Ranges::of(alloc, items)?)),
        }
    }
}

/// The kept items of a UID that are looked for, by place.
pub(crate) fn sought_items<'a>(
    alloc: Global,
    items: &ItemsOfUid<'a>,
    sought: &Sought<'_, 'a>,
) -> Result<Vec<&'a Item>, NoMemory>
    requires { IsOver items.now sought.now }
    ensures { IfOk result (λ found. AreReported (IsSought sought.now items.now) (map (λ item. item.now) found.items)) }
{
    let mut found = Vec::new(alloc);
    for item in items.as_slice() {
        if is_sought(items, sought, item) {
            found.push(*item)?;
        }
    }
    by_place(found)
}

/// Whether one of the kept items of a UID is looked for.
fn is_sought<'a>(items: &ItemsOfUid<'a>, sought: &Sought<'_, 'a>, item: &Item) -> bool
    requires over { IsOver items.now sought.now }
    requires among { IsAmong items.now item.now }
    ensures { IsTrue result ↔ IsSought sought.now items.now item.now }
{
    match sought {
        Sought::Standing => is_standing(items, item),
        Sought::Cancelled => is_cancellation(items, item),
        Sought::Orphans => is_orphan(items, item),
        Sought::Wanted(ranges) => is_wanted(items, ranges, item),
    }
}

/// Whether one of the kept items of a UID is an instance or range item that stands.
fn is_standing(items: &ItemsOfUid<'_>, item: &Item) -> bool
    requires { IsAmong items.now item.now }
    ensures { IsTrue result ↔ IsStanding items.now.items items.now.uid item.now }
{
    match &item.key {
        Key::Instance(_, _) | Key::Range(_, _) => stands_beside(items.series(), item),
        Key::Series(_) | Key::Answer(_, _, _) | Key::Refresh(_, _, _) => false,
    }
}

/// Whether one of the kept items of a UID cancels the to-do, or stands and cancels an instance or all from one on.
fn is_cancellation(items: &ItemsOfUid<'_>, item: &Item) -> bool
    requires { IsAmong items.now item.now }
    ensures { IsTrue result ↔ IsCancellation items.now.items item.now }
{
    if is_live(item.kind) {
        return false;
    }
    match &item.key {
        Key::Series(_) => true,
        _ => is_standing(items, item),
    }
}

/// Whether one of the kept items of a UID is of an attendee, and neither the to-do nor the instance that it names is known.
fn is_orphan(items: &ItemsOfUid<'_>, item: &Item) -> bool
    requires { IsAmong items.now item.now }
    ensures { IsTrue result ↔ IsOrphan items.now.items item.now }
{
    let Some(id) = sent_to(&item.key) else {
        return false;
    };
    match items.series() {
        Some(_) => false,
        None => none_at_instance(items, id),
    }
}

/// Whether no instance is named, or no instance item is kept at the one that is.
fn none_at_instance(items: &ItemsOfUid<'_>, id: &Option<Moment>) -> bool
    ensures { IsTrue result ↔ NoneAtInstance items.now.items items.now.uid id.now }
{
    match id {
        Some(at) => items.instance(at).is_none(),
        None => true,
    }
}

/// Whether one of the kept items of a UID is a refresh request that is newer than the item that governs what it names; `ranges` have
/// to be those of the same items. Allocates nothing.
pub fn is_wanted<'a>(items: &ItemsOfUid<'a>, ranges: &Ranges<'_, 'a>, item: &Item) -> bool
    requires ranges { ranges.now ≡ items.now }
    requires among { IsAmong items.now item.now }
    ensures { IsTrue result ↔ IsWanted items.now.items item.now }
{
    let Some(id) = refreshed(&item.key) else {
        return false;
    };
    match governing(items, ranges, id) {
        Some(governing) => governing.stamp.cmp(&item.stamp).is_lt(),
        None => false,
    }
}

/// What an answer or a refresh request names: an instance, or the to-do as a whole; `None` for other items.
fn sent_to(key: &Key) -> Option<&Option<Moment>>
    ensures { MatchOption (option_copied result) (¬ IsOfAttendee key.now) (λ id. IsOfAttendee key.now × (id ≡ instance_of key.now)) }
{
    match key {
        Key::Answer(_, id, _) | Key::Refresh(_, id, _) => Some(id),
        Key::Series(_) | Key::Instance(_, _) | Key::Range(_, _) => None,
    }
}

/// What a refresh request names; `None` for other items.
fn refreshed(key: &Key) -> Option<&Option<Moment>>
    ensures { MatchOption (option_copied result) (¬ IsRefresh key.now) (λ id. IsRefresh key.now × (id ≡ instance_of key.now)) }
{
    match key {
        Key::Refresh(_, id, _) => Some(id),
        Key::Series(_) | Key::Instance(_, _) | Key::Range(_, _) | Key::Answer(_, _, _) => None,
    }
}
