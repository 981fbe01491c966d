//! Which attendees the items of a UID ask.
ghost use Rattle.std.specs.Prelude.{◌≡◌, ◌↔◌, IfOk, OnOk, IsTrue, List, map};
ghost use Rattle.std.specs.List.Sorted.{IsPermutation, IsSortedBy};
ghost use Rattle.std.specs.Option.{option_copied, option_cmp};
ghost use Rattle.std.specs.Ordering.{is_lt};
ghost use Rattle.itip_items.specs.declared.item.Item.{Item};
ghost use Rattle.itip_report.specs.Lines.{place_cmp};
ghost use Rattle.itip_explain.specs.Asking.{pair_of, pair_cmp, is_of_whole, AsksBy, IsAskedBy, AreAskings, AddsAskings};
ghost use Rattle.itip_explain.specs.Asking.{AreInOrder};
ghost use Rattle.itip_explain.specs.Fates.{IsNamed};

use crate::NoMemory;
use itip_items::{Item, Key};
use itip_lines::Text;
use itip_report::compare_places;
use itip_todo::{Property, attendee_key};
use itip_view::has_rows;
use std::alloc::Global;
use std::cmp::Ordering;

/// An item, or the to-do as a whole, asks an attendee.
#[derive(Drop)]
pub(crate) struct Asking<'a> {
    /// The key of the item; `None` for the to-do as a whole.
    pub(crate) by: Option<&'a Key>,
    /// The key of the attendee.
    pub(crate) attendee: Text,
}

/// The attendees that are asked by those items of a UID that rows can come from, and by the to-do as a whole: those of the series item
/// and of the range items among these. They are sorted, so that binary search finds one.
#[derive(Drop)]
pub(crate) struct Asked<'a> {
    pub(crate) askings: Vec<Asking<'a>>,
}

impl<'a> Asked<'a> {
    /// Whom these items ask.
    pub(crate) fn by(alloc: Global, items: &[&'a Item]) -> Result<Asked<'a>, NoMemory>
        ensures { IfOk result (λ asked. AreInOrder (map (λ item. item.now) items.now) asked.askings.items) }
    {
        let found = askings(alloc, items)?;
        let askings = in_order(found)?;
        Ok(Asked { askings })
    }

    /// Whether the item with the key `by`, or the to-do as a whole for `None`, asks the attendee with this key. Allocates nothing.
    pub(crate) fn has(&self, by: Option<&Key>, attendee: &str) -> bool
        ensures { (items : List Item) → AreInOrder items self.now.askings.items
            → IsTrue result ↔ IsAskedBy items (option_copied by.entry) attendee.now }
    {
        self.askings
            .binary_search_by(|asking| compare(asking, by, attendee))
            .is_ok()
    }
}

/// Whom items ask, in no particular order.
fn askings<'a>(alloc: Global, items: &[&'a Item]) -> Result<Vec<Asking<'a>>, NoMemory>
    ensures { IfOk result (λ found. AreAskings (IsAskedBy (map (λ item. item.now) items.now)) found.items) }
{
    let mut found = Vec::new(alloc);
    for item in items {
        add_item(alloc, &mut found, *item)?;
    }
    Ok(found)
}

/// Adds the attendees that an item asks, if rows can come from it.
fn add_item<'a>(alloc: Global, found: &mut Vec<Asking<'a>>, item: &'a Item) -> Result<(), NoMemory>
    ensures { OnOk result (AddsAskings (AsksBy item.now) found.old.items found.new.items) }
{
    if !has_rows(item) {
        return Ok(());
    }
    let lines = item.todo.attendees.as_slice();
    add_lines(alloc, found, Some(&item.key), lines)?;
    if is_of_whole(&item.key) {
        add_lines(alloc, found, None, lines)?;
    }
    Ok(())
}

/// Whether items with this key also ask for the to-do as a whole.
fn is_of_whole(key: &Key) -> bool
    ensures { result ≡ is_of_whole key.now }
{
    match key {
        Key::Series(_) | Key::Range(_, _) => true,
        Key::Instance(_, _) | Key::Answer(_, _, _) | Key::Refresh(_, _, _) => false,
    }
}

/// Adds the attendees on these lines, as asked by `by`.
fn add_lines<'a>(
    alloc: Global,
    found: &mut Vec<Asking<'a>>,
    by: Option<&'a Key>,
    lines: &[Property],
) -> Result<(), NoMemory>
    ensures { OnOk result (AddsAskings (λ b attendee. (b ≡ option_copied by.entry) × IsNamed lines.now attendee)
        found.old.items found.new.items) }
{
    for line in lines {
        let attendee = attendee_key(alloc, line.value())?;
        found.push(Asking { by, attendee })?;
    }
    Ok(())
}

/// Sorts askings.
fn in_order(found: Vec<Asking<'_>>) -> Result<Vec<Asking<'_>>, NoMemory>
    ensures up { IfOk result (λ sorted. IsSortedBy (λ a b. is_lt (pair_cmp (pair_of a) (pair_of b))) sorted.items) }
    ensures same { IfOk result (λ sorted. IsPermutation found.entry.items sorted.items) }
{
    let mut found = found;
    found.sort_by(|a, b| compare(a, b.by, b.attendee.as_str()))?;
    Ok(found)
}

/// Orders the to-do as a whole first, then by the key of the item, then by attendee.
fn compare(asking: &Asking<'_>, by: Option<&Key>, attendee: &str) -> Ordering
    ensures { result ≡ pair_cmp (pair_of asking.now) (option_copied by.entry, attendee.now) }
{
    compare_keys(asking.by, by).then(asking.attendee.as_str().cmp(attendee))
}

/// Orders `None` first, then by place.
fn compare_keys(a: Option<&Key>, b: Option<&Key>) -> Ordering
    ensures { result ≡ option_cmp place_cmp (option_copied a.entry) (option_copied b.entry) }
{
    match (a, b) {
        (None, None) => Ordering::Equal,
        (None, Some(_)) => Ordering::Less,
        (Some(_), None) => Ordering::Greater,
        (Some(a), Some(b)) => compare_places(a, b),
    }
}
