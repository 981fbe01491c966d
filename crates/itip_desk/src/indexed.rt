//! A state with an index of its kept items.
ghost use Rattle.std.specs.Prelude.{◌≡◌, ◌⊎◌, ◌&&◌, not, ◌++◌, ◌∷◌, [], true, ℕ, List, map, IsTrue, IfOk, OnOk, OnErr, IsOk};
ghost use Rattle.itip_items.specs.declared.item.Item.{Item};
ghost use Rattle.itip_state.specs.Kept.{AreKept};
ghost use Rattle.std.specs.List.{Contains};
ghost use Rattle.itip_todo.specs.Table.{attendee_key};
ghost use Rattle.itip_view.specs.RowDays.{is_of_rows, HasRowsIn, NamesIn};
ghost use Rattle.itip_desk.specs.Entries.{IndexEntry, owner_of as owner_is, entries_of, IsNoted};
ghost use Rattle.itip_desk.specs.Index.{has, is_in, AreOfRows, HasGrown, HasSettled};

use crate::entry::Owner;
use crate::found::{find_in, find_named};
use crate::index::{Index, owner_of, put_in, take_out};
use itip_items::Key;
use itip_state::{SharedItem, State};
use itip_todo::Uid;
use itip_view::Window;
use std::alloc::{AllocError, Global};
use std::marker::Model;

/// The kept items, and the index that follows from them. Contracts see it as the list of these items, each once.
#[derive(Debug, Drop)]
pub(crate) struct IndexedState {
    alloc: Global,
    state: State,
    index: Index,
}

impl Model for IndexedState {
    ghost use Rattle.std.specs.Prelude.{List};
    ghost use Rattle.itip_items.specs.declared.item.Item.{Item};

    ghost Value = { List Item };

    ghost use Rattle.std.specs.Coded.{coded_list};
    ghost use Rattle.itip_items.specs.contracts.item.Item as item;

    ghost coded = { coded_list item.the_row.coded };

    ghost use Rattle.itip_desk.specs.Index.{IsIndexOf};

    ghost view = { λ s. s.state };

    ghost invariant = { λ s. IsIndexOf s.state s.index };
}

/// An item that may be added or removed, and the owner that is needed to remove its entries.
#[derive(Drop)]
struct Change {
    item: SharedItem,
    owner: Owner,
    ghost owned: { owner ≡ owner_is item },
}

impl IndexedState {
    /// The state of a desk that has heard nothing. Allocates nothing.
    pub(crate) fn empty(alloc: Global) -> IndexedState
        ensures { result ≡ [] }
    {
        IndexedState {
            alloc,
            state: State::empty(alloc),
            index: Index::empty(alloc),
        }
    }

    /// The kept items.
    pub(crate) fn state(&self) -> &State
        ensures { result.now ≡ self.now }
    {
        &self.state
    }

    /// The UIDs that can have rows in a window, perhaps more than once. Allocates nothing if nothing is kept.
    pub(crate) fn uids_in(&self, window: Window) -> Result<Vec<&Uid>, AllocError>
        ensures uids { IfOk result (λ uids. (uid : List ℕ) → HasRowsIn self.now window uid → Contains (map (λ u. u.now) uids.items) uid) }
        ensures none { self.now ≡ [] → IfOk result (λ uids. uids.items ≡ []) }
        ensures succeeds { self.now ≡ [] → IsOk result }
    {
        find_in(self.alloc, &self.index.days, window)
    }

    /// The UIDs whose rows can show the attendee with this address, perhaps more than once. Allocates nothing if nothing is kept.
    pub(crate) fn uids_naming(&self, address: &str) -> Result<Vec<&Uid>, AllocError>
        ensures uids { IfOk result (λ uids. (uid : List ℕ)
            → NamesIn self.now (attendee_key address.now) uid → Contains (map (λ u. u.now) uids.items) uid) }
        ensures none { self.now ≡ [] → IfOk result (λ uids. uids.items ≡ []) }
        ensures succeeds { self.now ≡ [] → IsOk result }
    {
        find_named(self.alloc, &self.index.names, address)
    }

    /// Hears these items. If an allocation fails, nothing changes.
    pub(crate) fn hear(&mut self, news: &[&SharedItem]) -> Result<(), AllocError>
        ensures ok { OnOk result (AreKept self.new (self.old ++ map (λ item. item.now) news.now)) }
        ensures err { OnErr result (self.new ≡ self.old) }
    {
        let found = of_rows(self.alloc, news)?;
        if found.is_empty() {
            self.hear_others(news)
        } else {
            self.hear_rows(news, &found)
        }
    }

    /// Hears items that can't govern a row. The index stays as it is.
    fn hear_others(&mut self, news: &[&SharedItem]) -> Result<(), AllocError>
        requires { AreOfRows [] (map (λ item. item.now) news.now) }
        ensures ok { OnOk result (AreKept self.new (self.old ++ map (λ item. item.now) news.now)) }
        ensures err { OnErr result (self.new ≡ self.old) }
    {
        self.state.lawful();
        self.state.hear(news)
    }

    /// Hears the news, among which `found` are the items of a to-do as a whole, of an instance or of a range.
    ///
    /// The index grows before anything is heard, and then loses the entries of what is not kept. Memory is in proportion to these
    /// items and to those that can give way to them.
    fn hear_rows(&mut self, news: &[&SharedItem], found: &[&SharedItem]) -> Result<(), AllocError>
        requires { AreOfRows (map (λ item. item.now) found.now) (map (λ item. item.now) news.now) }
        ensures ok { OnOk result (AreKept self.new (self.old ++ map (λ item. item.now) news.now)) }
        ensures err { OnErr result (self.new ≡ self.old) }
    {
        self.state.lawful();
        let giving = self.state.giving_way(found)?;
        let changes = changes_of(self.alloc, giving, found)?;
        let heard = grow_and_hear(&mut self.index, &mut self.state, news, found);
        settle(&mut self.index, &self.state, changes);
        heard
    }
}

/// The items among these that are of a to-do as a whole, of an instance or of a range, live or cancelled.
fn of_rows<'a>(alloc: Global, news: &[&'a SharedItem]) -> Result<Vec<&'a SharedItem>, AllocError>
    ensures { IfOk result (λ found. AreOfRows (map (λ item. item.now) found.items) (map (λ item. item.now) news.now)) }
{
    let mut found = Vec::new(alloc);
    for item in news {
        if is_of_rows(&item.item().key) {
            found.push(*item)?;
        }
    }
    Ok(found)
}

fn is_of_rows(key: &Key) -> bool
    ensures { result ≡ is_of_rows key.now }
{
    match key {
        Key::Series(_) | Key::Instance(_, _) | Key::Range(_, _) => true,
        Key::Answer(_, _, _) | Key::Refresh(_, _, _) => false,
    }
}

/// The items that can give way, and those that can be added.
fn changes_of(
    alloc: Global,
    giving: Vec<SharedItem>,
    found: &[&SharedItem],
) -> Result<Vec<Change>, AllocError>
    ensures giving { IfOk result (λ changes. (item : Item) → Contains giving.items item → Contains (map (λ c. c.item) changes.items) item) }
    ensures found { IfOk result (λ changes. (item : Item)
        → Contains (map (λ item. item.now) found.now) item → Contains (map (λ c. c.item) changes.items) item) }
{
    let mut changes = Vec::new(alloc);
    for item in giving {
        push_change(&mut changes, item)?;
    }
    for item in found {
        push_change(&mut changes, (*item).clone()?)?;
    }
    Ok(changes)
}

fn push_change(changes: &mut Vec<Change>, item: SharedItem) -> Result<(), AllocError>
    ensures { OnOk result (map (λ c. c.item) changes.new.items ≡ map (λ c. c.item) changes.old.items ++ item ∷ []) }
{
    let owner = owner_of(&item)?;
    changes.push(Change { item, owner })?;
    Ok(())
}

/// Adds the entries of `found`, and hears the news. If an allocation fails, nothing is heard, but entries may have been added.
fn grow_and_hear(
    index: &mut Index,
    state: &mut State,
    news: &[&SharedItem],
    found: &[&SharedItem],
) -> Result<(), AllocError>
    ensures kept { OnOk result (AreKept state.new (state.old ++ map (λ item. item.now) news.now)) }
    ensures err { OnErr result (state.new ≡ state.old) }
    ensures grown { HasGrown (map (λ item. item.now) found.now) index.old index.new }
    ensures all { OnOk result ((e : IndexEntry) → IsNoted (map (λ item. item.now) found.now) e → has index.new e ≡ true) }
{
    for item in found {
        put_in(index, item)?;
    }
    state.hear(news)
}

/// Removes the entries of the items that are not kept. Allocates nothing.
fn settle(index: &mut Index, state: &State, changes: Vec<Change>)
    ensures { HasSettled state.now (map (λ c. c.item) changes.items) index.old index.new }
{
    for change in changes {
        settle_one(index, state, change);
    }
}

fn settle_one(index: &mut Index, state: &State, change: Change)
    ensures { (Contains state.now change.item × (index.new ≡ index.old)) ⊎ ((Contains state.now change.item → ⊥) ×
        ((e : IndexEntry) → has index.new e ≡ (has index.old e && not (is_in (entries_of change.item) e)))) }
{
    if state.has(&change.item) {
        drop(change);
        return;
    }
    let Change { item: gone, owner } = change;
    take_out(index, gone.item(), owner);
}
