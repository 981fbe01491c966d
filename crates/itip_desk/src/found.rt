//! Finding UIDs in an index.
ghost use Rattle.std.specs.Prelude.{◌≡◌, ◌≤ℤ◌, ◌<ℤ◌, ℕ, ℤ, List, [], map, true, IsTrue, ◌↔◌, IfOk, IsOk, OnOk};
ghost use Rattle.std.specs.List.{Contains};
ghost use Rattle.std.specs.BTreeMap.Range.{IsLeBy};
ghost use Rattle.std.specs.BTreeSet.{contains, keys_between};
ghost use Rattle.std.specs.declared.ops.Bound.TheVariants.{Included, Excluded};
ghost use Rattle.itip_items.specs.KeyParts.{uid_of};
ghost use Rattle.itip_items.specs.declared.item.Item.{Item};
ghost use Rattle.itip_desk.specs.declared.entry.DayEntry.{DayEntry};
ghost use Rattle.itip_desk.specs.declared.entry.NameEntry.{NameEntry};
ghost use Rattle.itip_desk.specs.declared.entry.Mark.TheVariants.{Day, Always};
ghost use Rattle.itip_desk.specs.Entries.{day_cmp, name_cmp, day_entry, name_entry, address_number};
ghost use Rattle.itip_desk.specs.Found.{NamesLine, AddsFound};

use crate::entry::{DayEntry, Mark, NameEntry};
use crate::number::attendee_number;
use itip_items::Item;
use itip_todo::Uid;
use itip_view::Window;
use std::alloc::{AllocError, Global};
use std::collections::BTreeSet;

/// The UIDs found by a day of the window, or in every window, perhaps more than once. No other entries are looked at. Allocates
/// nothing if there are no entries.
pub(crate) fn find_in<'a>(
    alloc: Global,
    days: &'a BTreeSet<DayEntry>,
    window: Window,
) -> Result<Vec<&'a Uid>, AllocError>
    ensures days { IfOk result (λ uids. (item : Item) (day : ℤ)
        → window.from ≤ℤ day → day <ℤ window.to → contains day_cmp days.now (day_entry item (Day day)) ≡ true →
        Contains (map (λ u. u.now) uids.items) (uid_of item.key)) }
    ensures always { IfOk result (λ uids. (item : Item)
        → contains day_cmp days.now (day_entry item Always) ≡ true → Contains (map (λ u. u.now) uids.items) (uid_of item.key)) }
    ensures none { days.now.keys ≡ [] → IfOk result (λ uids. uids.items ≡ []) }
    ensures succeeds { days.now.keys ≡ [] → IsOk result }
{
    let mut uids = Vec::new(alloc);
    if let Some(any) = days.first() {
        add_in(days, any, window, &mut uids)?;
    }
    Ok(uids)
}

/// Adds the UIDs that are found this way. A bound needs an item, and any item will do.
fn add_in<'a>(
    days: &'a BTreeSet<DayEntry>,
    any: &DayEntry,
    window: Window,
    uids: &mut Vec<&'a Uid>,
) -> Result<(), AllocError>
    ensures days { OnOk result ((item : Item) (day : ℤ)
        → window.from ≤ℤ day → day <ℤ window.to → contains day_cmp days.now (day_entry item (Day day)) ≡ true →
        Contains (map (λ u. u.now) uids.new.items) (uid_of item.key)) }
    ensures always { OnOk result ((item : Item)
        → contains day_cmp days.now (day_entry item Always) ≡ true → Contains (map (λ u. u.now) uids.new.items) (uid_of item.key)) }
{
    let from = any.bound(Mark::Day(window.from), 0)?;
    let to = any.bound(Mark::Day(window.to), 0)?;
    find_between(days, from, to, uids)?;
    let from = any.bound(Mark::Always, 0)?;
    let to = any.bound(Mark::Always, u32::MAX)?;
    find_between(days, from, to, uids)
}

/// The UIDs with an item that names the attendee with this address, perhaps more than once. Only entries of attendees with the same
/// number are looked at. Allocates nothing if there are no entries.
pub(crate) fn find_named<'a>(
    alloc: Global,
    names: &'a BTreeSet<NameEntry>,
    address: &str,
) -> Result<Vec<&'a Uid>, AllocError>
    ensures names { IfOk result (λ uids. (item : Item) → NamesLine address.now item
        → contains name_cmp names.now (name_entry item (address_number address.now)) ≡ true
        → Contains (map (λ u. u.now) uids.items) (uid_of item.key)) }
    ensures none { names.now.keys ≡ [] → IfOk result (λ uids. uids.items ≡ []) }
    ensures succeeds { names.now.keys ≡ [] → IsOk result }
{
    let mut uids = Vec::new(alloc);
    if let Some(any) = names.first() {
        add_named(names, any, address, &mut uids)?;
    }
    Ok(uids)
}

/// Adds the UIDs that are found this way. A bound needs an item, and any item will do.
fn add_named<'a>(
    names: &'a BTreeSet<NameEntry>,
    any: &NameEntry,
    address: &str,
    uids: &mut Vec<&'a Uid>,
) -> Result<(), AllocError>
    ensures { OnOk result ((item : Item) → NamesLine address.now item
        → contains name_cmp names.now (name_entry item (address_number address.now)) ≡ true
        → Contains (map (λ u. u.now) uids.new.items) (uid_of item.key)) }
{
    let attendee = attendee_number(address);
    let from = any.bound(attendee, 0)?;
    let to = any.bound(attendee, u32::MAX)?;
    find_naming(names, from, to, address, uids)
}

/// Adds the UIDs of the entries from `from` up to, but not including, `to`.
fn find_between<'a>(
    days: &'a BTreeSet<DayEntry>,
    from: DayEntry,
    to: DayEntry,
    uids: &mut Vec<&'a Uid>,
) -> Result<(), AllocError>
    requires { IsLeBy day_cmp from to }
    ensures { OnOk result (AddsFound (λ (e : DayEntry). e.owner.item) (λ item. Unit {0})
        (keys_between day_cmp (Included from) (Excluded to) days.now)
        (map (λ u. u.now) uids.old.items) (map (λ u. u.now) uids.new.items)) }
{
    for entry in days.range(from..to) {
        uids.push(entry.owner.item.item().key.uid())?;
    }
    Ok(())
}

/// Adds the UIDs of the entries from `from` up to, but not including, `to` whose item names the attendee with this address.
fn find_naming<'a>(
    names: &'a BTreeSet<NameEntry>,
    from: NameEntry,
    to: NameEntry,
    address: &str,
    uids: &mut Vec<&'a Uid>,
) -> Result<(), AllocError>
    requires { IsLeBy name_cmp from to }
    ensures { OnOk result (AddsFound (λ (e : NameEntry). e.item) (NamesLine address.now)
        (keys_between name_cmp (Included from) (Excluded to) names.now)
        (map (λ u. u.now) uids.old.items) (map (λ u. u.now) uids.new.items)) }
{
    for entry in names.range(from..to) {
        let item = entry.item.item();
        if names_attendee(item, address) {
            uids.push(item.key.uid())?;
        }
    }
    Ok(())
}

/// Whether an ATTENDEE line of an item names the attendee with this address.
fn names_attendee(item: &Item, address: &str) -> bool
    ensures { IsTrue result ↔ NamesLine address.now item.now }
{
    for line in item.todo.attendees.as_slice() {
        if line.value().eq_ignore_ascii_case(address) {
            return true;
        }
    }
    false
}
