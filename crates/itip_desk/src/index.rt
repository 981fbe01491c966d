//! An index of kept items, and how the entries of items are added and removed.
ghost use Rattle.std.specs.Prelude.{◌≡◌, ◌||◌, ◌&&◌, not, OnOk, OnErr, IfOk};
ghost use Rattle.itip_items.specs.KeyParts.{uid_of};
ghost use Rattle.itip_items.specs.declared.item.Item.{Item};
ghost use Rattle.itip_desk.specs.Entries.{IndexEntry, same_entry, of_day, of_name, day_entry, name_entry, owner_of, day_entries};
ghost use Rattle.itip_desk.specs.Entries.{line_entries, entries_of};
ghost use Rattle.itip_desk.specs.Index.{has, is_in, Widens, IsEmptyIndex};
ghost use Rattle.itip_desk.specs.Numbers.{uid_number};

use crate::entry::{DayEntry, Mark, NameEntry, Owner};
use crate::number::{attendee_number, uid_number};
use itip_items::Item;
use itip_join::Exact;
use itip_state::SharedItem;
use itip_view::{has_rows, row_days};
use std::alloc::{AllocError, Global};
use std::collections::BTreeSet;

/// Kept items, by the days and the attendees by which they are found.
#[derive(Debug, Drop)]
pub(crate) struct Index {
    /// By the days on which their rows can be.
    pub(crate) days: BTreeSet<DayEntry>,
    /// By the attendees that their rows can show.
    pub(crate) names: BTreeSet<NameEntry>,
}

impl Index {
    /// An empty index. Allocates nothing.
    pub(crate) fn empty(alloc: Global) -> Index
        ensures { IsEmptyIndex result }
    {
        Index {
            days: BTreeSet::new(alloc),
            names: BTreeSet::new(alloc),
        }
    }
}

/// The owner of the entries of an item.
pub(crate) fn owner_of(item: &SharedItem) -> Result<Owner, AllocError>
    ensures { IfOk result (λ owner. owner ≡ owner_of item.now) }
{
    let uid = uid_number(item.item().key.uid().as_str());
    let item = item.revision().copy()?;
    Ok(Owner { uid, item })
}

/// Adds the entries of an item. If an allocation fails, some of them may have been added.
pub(crate) fn put_in(index: &mut Index, item: &SharedItem) -> Result<(), AllocError>
    ensures ok { OnOk result ((e : IndexEntry) → has index.new e ≡ (has index.old e || is_in (entries_of item.now) e)) }
    ensures widens { Widens (is_in (entries_of item.now)) index.old index.new }
{
    if !has_rows(item.item()) {
        return Ok(());
    }
    let uid = uid_number(item.item().key.uid().as_str());
    put_day(index, item, uid)?;
    put_lines(index, item, uid)
}

/// Adds the entry of an item by day, if it has one. If an allocation fails, the index is unchanged.
fn put_day(index: &mut Index, item: &SharedItem, uid: u32) -> Result<(), AllocError>
    requires { uid ≡ uid_number (uid_of item.now.key) }
    ensures ok { OnOk result ((e : IndexEntry) → has index.new e ≡ (has index.old e || is_in (day_entries item.now) e)) }
    ensures err { OnErr result ((e : IndexEntry) → has index.new e ≡ has index.old e) }
{
    match row_days(item.item()) {
        None => Ok(()),
        Some(days) => put_mark(index, item, uid, Mark::of(days)),
    }
}

fn put_mark(index: &mut Index, item: &SharedItem, uid: u32, mark: Mark) -> Result<(), AllocError>
    requires { uid ≡ uid_number (uid_of item.now.key) }
    ensures ok { OnOk result ((e : IndexEntry) → has index.new e ≡ (has index.old e || same_entry e (of_day (day_entry item.now mark)))) }
    ensures err { OnErr result ((e : IndexEntry) → has index.new e ≡ has index.old e) }
{
    let item = item.revision().copy()?;
    let owner = Owner { uid, item };
    index.days.insert(DayEntry { mark, owner })?;
    Ok(())
}

/// Adds the entries of the ATTENDEE lines of an item. If an allocation fails, some of them may have been added.
fn put_lines(index: &mut Index, item: &SharedItem, uid: u32) -> Result<(), AllocError>
    requires { uid ≡ uid_number (uid_of item.now.key) }
    ensures ok { OnOk result ((e : IndexEntry)
        → has index.new e ≡ (has index.old e || is_in (line_entries item.now item.now.todo.attendees) e)) }
    ensures widens { Widens (is_in (line_entries item.now item.now.todo.attendees)) index.old index.new }
{
    for line in item.item().todo.attendees.as_slice() {
        put_name(index, item, uid, attendee_number(line.value()))?;
    }
    Ok(())
}

fn put_name(index: &mut Index, item: &SharedItem, uid: u32, attendee: u32) -> Result<(), AllocError>
    requires { uid ≡ uid_number (uid_of item.now.key) }
    ensures ok { OnOk result ((e : IndexEntry) →
        has index.new e ≡ (has index.old e || same_entry e (of_name (name_entry item.now attendee)))) }
    ensures err { OnErr result ((e : IndexEntry) → has index.new e ≡ has index.old e) }
{
    let item = item.revision().copy()?;
    index.names.insert(NameEntry {
        attendee,
        uid,
        item,
    })?;
    Ok(())
}

/// Removes the entries of an item. Its owner is passed in, so that nothing is allocated.
pub(crate) fn take_out(index: &mut Index, item: &Item, owner: Owner)
    requires { owner ≡ owner_of item.now }
    ensures { (e : IndexEntry) → has index.new e ≡ (has index.old e && not (is_in (entries_of item.now) e)) }
{
    if !has_rows(item) {
        drop(owner);
        return;
    }
    let owner = take_day_out(index, item, owner);
    take_lines_out(index, item, owner);
}

/// Removes the entry of an item by day, if it has one, and returns the owner.
fn take_day_out(index: &mut Index, item: &Item, owner: Owner) -> Owner
    requires { owner ≡ owner_of item.now }
    ensures owner { result ≡ owner }
    ensures out { (e : IndexEntry) → has index.new e ≡ (has index.old e && not (is_in (day_entries item.now) e)) }
{
    let Some(days) = row_days(item) else {
        return owner;
    };
    let entry = DayEntry {
        mark: Mark::of(days),
        owner,
    };
    drop_day(index, &entry);
    let DayEntry { mark: _, owner } = entry;
    owner
}

/// Removes the entries of the ATTENDEE lines of an item.
fn take_lines_out(index: &mut Index, item: &Item, owner: Owner)
    requires { owner ≡ owner_of item.now }
    ensures { (e : IndexEntry)
        → has index.new e ≡ (has index.old e && not (is_in (line_entries item.now item.now.todo.attendees) e)) }
{
    let Owner {
        uid,
        item: revision,
    } = owner;
    let mut entry = NameEntry {
        attendee: 0,
        uid,
        item: revision,
    };
    for line in item.todo.attendees.as_slice() {
        entry.attendee = attendee_number(line.value());
        drop_name(index, &entry);
    }
}

fn drop_day(index: &mut Index, entry: &DayEntry)
    ensures { (e : IndexEntry) → has index.new e ≡ (has index.old e && not (same_entry e (of_day entry.now))) }
{
    index.days.remove(entry);
}

fn drop_name(index: &mut Index, entry: &NameEntry)
    ensures { (e : IndexEntry) → has index.new e ≡ (has index.old e && not (same_entry e (of_name entry.now))) }
{
    index.names.remove(entry);
}
