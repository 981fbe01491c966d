//! A desk.
ghost use Rattle.std.specs.Prelude.{◌≡◌, ◌<◌, ◌≤◌, ◌↔◌, ◌⊎◌, [], ◌++◌, ◌∷◌, length, map, min, unwrap_or, List, ℕ};
ghost use Rattle.std.specs.Prelude.{IfOk, OnOk, OnErr, IsOk, IsErrOf, MatchBool};
ghost use Rattle.itip_items.specs.declared.item.Item.{Item};
ghost use Rattle.itip_state.specs.Kept.{AreUidsOf};
ghost use Rattle.itip_view.specs.declared.row.Row.{Row};
ghost use Rattle.itip_view.specs.declared.window.Window.{Window};

use crate::batch::Batch;
use crate::error::DeskError;
use crate::indexed::IndexedState;
use crate::moved_since::MovedUids;
use itip_state::{SharedItem, State, uids};
use itip_todo::Uid;
use itip_view::{RowsByUid, ViewError, Wanted, Window, sorted_uids};
use std::alloc::{AllocError, Global};
use std::marker::Model;

/// What taking a batch changed: the tick after it, and the UIDs that moved, sorted by bytes, each once.
#[derive(Debug, Drop)]
pub struct Changed {
    pub tick: u64,
    pub uids: Vec<Uid>,
}

/// Copies of the UIDs that items are about, sorted by bytes, each once. Allocates nothing if there are no items.
fn copies_of_uids(alloc: Global, items: &[&SharedItem]) -> Result<Vec<Uid>, AllocError>
    ensures uids { IfOk result (λ copies. AreUidsOf copies.items (map (λ item. item.now) items.now)) }
    ensures succeeds { items.now ≡ [] → IsOk result }
{
    let uids = uids(alloc, items)?;
    copies(alloc, &uids)
}

fn copies(alloc: Global, uids: &[&Uid]) -> Result<Vec<Uid>, AllocError>
    ensures copies { IfOk result (λ copies. copies.items ≡ map (λ uid. uid.now) uids.now) }
    ensures succeeds { uids.now ≡ [] → IsOk result }
{
    let mut copies = Vec::with_capacity(alloc, uids.len())?;
    for uid in uids {
        copies.push((*uid).clone()?)?;
    }
    Ok(copies)
}

/// A reference to each of these items, in order.
fn shared_each(alloc: Global, items: &[SharedItem]) -> Result<Vec<&SharedItem>, AllocError>
    ensures { IfOk result (λ each. map (λ item. item.now) each.items ≡ items.now) }
{
    let mut each = Vec::with_capacity(alloc, items.len())?;
    for item in items {
        each.push(item)?;
    }
    Ok(each)
}

/// A replica: what it keeps of everything it has heard, its tick, and the UIDs that moved, each with the tick of its last move.
#[derive(Debug, Drop)]
pub struct Desk {
    kept: IndexedState,
    tick: u64,
    moves: MovedUids,
    alloc: Global,
}

impl Model for Desk {
    ghost use Rattle.itip_desk.specs.Desk.{Shown, shown_code};
    ghost use Rattle.itip_desk.specs.MovedSince.{AreTicks, AreUpTo};

    ghost Value = { Shown };

    ghost coded = { shown_code };

    ghost view = { λ d. record { kept = d.kept; tick = d.tick; changed = d.moves.carried } };

    ghost invariant = { λ d. AreTicks d.moves.carried × AreUpTo d.tick d.moves.carried };
}

impl Desk {
    ghost use Rattle.itip_state.specs.Kept.{AreKept, AreMoved, ArePartOf, Moves, HasEachOnce};
    ghost use Rattle.itip_desk.specs.Desk.{IsDeskOf, IsDeltaOf, IsCarriedOn};
    ghost use Rattle.itip_desk.specs.MovedSince.{tick_at, AreMovesTo, CarriesLast};
    ghost use Rattle.itip_desk.specs.DeskFile.{IsTold};
    ghost use Rattle.itip_desk.specs.Ticks.{TickStep};
    ghost use Rattle.itip_state.specs.Order.{IsBelow};
    ghost use Rattle.std.specs.List.{Contains};
    ghost use Rattle.itip_view.specs.ByUid.{AreAsked, AreLeft, uids_of};
    ghost use Rattle.itip_view.specs.Rows.{IsRow, AreRows, AreTooMany};
    ghost use Rattle.itip_view.specs.Showing.{Shows, AreRowsWhere, AreTooManyWhere, IsListTextFor};
    ghost use Rattle.itip_view.specs.ListText.{IsListText};

    /// A desk at this tick that has heard nothing. Allocates nothing.
    pub fn empty_at(alloc: Global, tick: u64) -> Desk
        ensures desk { IsDeskOf [] tick result }
        ensures told { tick ≡ 0 → IsTold result }
    {
        Desk {
            kept: IndexedState::empty(alloc),
            tick,
            moves: MovedUids::new(alloc),
            alloc,
        }
    }

    /// A desk at tick `last` that keeps what is kept of these items. Of several moves of a UID the last in the list is its last move.
    ///
    /// Fails if an allocation fails.
    pub(crate) fn of_parts(
        alloc: Global,
        last: u64,
        items: &Batch,
        moves: Vec<(Uid, u64)>,
    ) -> Result<Desk, AllocError>
        requires { AreMovesTo last moves.items }
        ensures kept { IfOk result (λ desk. AreKept desk.kept items.now) }
        ensures tick { IfOk result (λ desk. desk.tick ≡ last) }
        ensures changed { IfOk result (λ desk. CarriesLast moves.items desk.changed) }
    {
        let moves = MovedUids::of_moves(alloc, moves)?;
        let each = shared_each(alloc, items.as_slice())?;
        let mut kept = IndexedState::empty(alloc);
        kept.hear(each.as_slice())?;
        Ok(Desk {
            kept,
            tick: last,
            moves,
            alloc,
        })
    }

    /// The tick at which a UID last moved, or 0 if it hasn't moved.
    pub(crate) fn moved_at(&self, uid: &Uid) -> u64
        ensures { result ≡ unwrap_or (tick_at self.now.changed uid.now) 0 }
    {
        self.moves.tick_of(uid).unwrap_or(0)
    }

    /// The tick: the one that the desk began at, plus the number of steps since then that moved a UID.
    pub fn tick(&self) -> u64
        ensures { result ≡ self.now.tick }
    {
        self.tick
    }

    /// The kept items.
    pub fn state(&self) -> &State
        ensures { result.now ≡ self.now.kept }
    {
        self.kept.state()
    }

    /// The number of kept items, each counted once, or `usize::MAX` if there are more. Allocates nothing.
    pub fn entries(&self) -> usize
        ensures number { result ≡ min (length self.now.kept) usize.MAX }
        ensures once { HasEachOnce self.now.kept }
    {
        self.kept.state().entries()
    }

    /// Hears a batch. If it moves any UIDs, the tick rises by one, and they carry the new tick.
    ///
    /// Fails with [`DeskError::NoMemory`] if an allocation fails, and with [`DeskError::TicksSpent`] if a UID would move and the tick
    /// is `u64::MAX`; nothing has changed then. A batch without news, such as one that was heard before, never fails.
    pub fn take(&mut self, batch: &Batch) -> Result<Changed, DeskError>
        ensures kept { OnOk result (AreKept self.new.kept (self.old.kept ++ batch.now)) }
        ensures uids { IfOk result (λ changed. AreMoved changed.uids.items self.old.kept batch.now) }
        ensures tick { IfOk result (λ changed. changed.tick ≡ self.new.tick) }
        ensures rises { OnOk result (TickStep self.old.kept batch.now self.old.tick self.new.tick) }
        ensures carried { OnOk result (IsCarriedOn self.old self.new batch.now) }
        ensures step { OnOk result ((steps : List (List Item)) (start : ℕ)
            → IsDeskOf steps start self.old → IsDeskOf (steps ++ batch.now ∷ []) start self.new) }
        ensures told { OnOk result (IsTold self.old → IsTold self.new) }
        ensures spent { IsErrOf result DeskError.TicksSpent
            → (self.old.tick ≡ u64.MAX) × ((uid : List ℕ) × Moves self.old.kept batch.now uid) }
        ensures succeeds { IsBelow batch.now self.old.kept → IsOk result }
        ensures err { OnErr result (self.new ≡ self.old) }
    {
        let news = self.kept.state().news(batch.as_slice())?;
        let uids = copies_of_uids(self.alloc, &news)?;
        if uids.is_empty() {
            return Ok(Changed {
                tick: self.tick,
                uids,
            });
        }
        if self.tick == u64::MAX {
            return Err(DeskError::TicksSpent);
        }
        let tick = self.tick + 1;
        self.moves.lawful();
        self.moves.prepare(&uids, tick)?;
        if let Err(refused) = self.kept.hear(&news) {
            self.moves.take_places_back(&uids);
            return Err(refused.into());
        }
        self.tick = tick;
        self.moves.mark(&uids, tick);
        Ok(Changed { tick, uids })
    }

    /// The kept items of the UIDs that carry a tick above this one: an older state of this desk, at this tick, that hears them becomes
    /// what the desk keeps now. Moves up to this tick are not looked at.
    ///
    /// Fails if an allocation fails. At the tick of this desk and above, nothing has moved since, and it never fails.
    pub fn delta_since(&self, tick: u64) -> Result<Batch, AllocError>
        ensures delta { IfOk result (IsDeltaOf self.now tick) }
        ensures succeeds { self.now.tick ≤ tick → IsOk result }
    {
        if tick >= self.tick {
            return Batch::of_shared(Vec::new(self.alloc));
        }
        let uids = self.moves.after(tick)?;
        Batch::of_shared(self.kept.state().shared_of(&uids)?)
    }

    /// The UIDs that the index finds for a window, perhaps more than once. A UID that isn't among them has no row there.
    ///
    /// Fails if an allocation fails.
    pub fn uids_in(&self, window: Window) -> Result<Vec<&Uid>, AllocError>
        ensures { IfOk result (λ uids. (heard : List Item) (row : Row)
            → AreKept self.now.kept heard → IsRow heard window row → Contains (map (λ u. u.now) uids.items) row.uid) }
    {
        let found = self.kept.uids_in(window)?;
        Ok(found)
    }

    /// The UIDs that are looked at for the rows of the attendee with this address, perhaps more than once. A UID that isn't among
    /// them has no row that shows the attendee.
    ///
    /// Fails if an allocation fails.
    pub fn uids_naming(&self, address: &str) -> Result<Vec<&Uid>, AllocError>
        ensures { IfOk result (λ uids. (heard : List Item) (window : Window) (row : Row)
            → AreKept self.now.kept heard → IsRow heard window row → Shows address.now row
            → Contains (map (λ u. u.now) uids.items) row.uid) }
    {
        let found = self.kept.uids_naming(address)?;
        Ok(found)
    }

    /// What the rows of a window are made of, shared with this desk: the kept items of the UIDs that are looked at for them, in no
    /// particular order, and perhaps more than once. They have the same rows there as the desk.
    ///
    /// Fails if an allocation fails.
    pub fn items_in(&self, window: Window) -> Result<Vec<SharedItem>, AllocError>
        ensures part { IfOk result (λ items. (uids : List (List ℕ)) × ArePartOf items.items self.now.kept uids) }
        ensures rows { IfOk result (λ items. (row : Row) → IsRow items.items window row ↔ IsRow self.now.kept window row) }
    {
        let there = sorted_uids(self.kept.uids_in(window)?)?;
        self.kept.state().shared_of(&there)
    }

    /// What the rows of the attendee with this address are made of, shared with this desk: the kept items of the UIDs that are looked
    /// at for them, in no particular order, and perhaps more than once. In every window they have the same rows that show the
    /// attendee as the desk.
    ///
    /// Fails if an allocation fails.
    pub fn items_naming(&self, address: &str) -> Result<Vec<SharedItem>, AllocError>
        ensures part { IfOk result (λ items. (uids : List (List ℕ)) × ArePartOf items.items self.now.kept uids) }
        ensures rows { IfOk result (λ items. (window : Window) (row : Row)
            → Shows address.now row → IsRow items.items window row ↔ IsRow self.now.kept window row) }
    {
        let naming = sorted_uids(self.kept.uids_naming(address)?)?;
        self.kept.state().shared_of(&naming)
    }

    /// Whether there are at least as many of these as UIDs of which something is kept, and something is. Allocates nothing.
    fn are_as_many(&self, uids: &[&Uid]) -> bool
        ensures { MatchBool result
            ((all : List (List ℕ)) → AreUidsOf all self.now.kept → (0 < length all) × (length all ≤ length uids.now))
            ((all : List (List ℕ)) → AreUidsOf all self.now.kept → (length all ≡ 0) ⊎ (length uids.now < length all)) }
    {
        let all = self.kept.state().uid_count();
        if all == 0 {
            return false;
        }
        if uids.len() < all {
            return false;
        }
        true
    }

    /// The rows of the task list in a window, one UID at a time. Only UIDs that can have rows there are looked at, unless the index
    /// finds, repeats included, at least as many UIDs as there are: then all are.
    ///
    /// Fails if an allocation fails. Allocates nothing if nothing is kept.
    pub fn rows(&self, window: Window) -> Result<RowsByUid<'_, '_>, AllocError>
        ensures rows { IfOk result (λ asked. (rows : List Row) → AreLeft asked rows ↔ AreRows self.now.kept window rows) }
        ensures asked { IfOk result (AreAsked (λ row. Unit {0}) self.now.kept window) }
        ensures none { self.now.kept ≡ [] → IfOk result (λ asked. uids_of asked ≡ []) }
        ensures succeeds { self.now.kept ≡ [] → IsOk result }
    {
        let uids = self.kept.uids_in(window)?;
        let state = self.kept.state();
        let wanted = Wanted::all();
        if self.are_as_many(&uids) {
            // The UIDs of the state are in order already, and sorting these would cost more than looking at all.
            return RowsByUid::of(self.alloc, state, window, &wanted);
        }
        RowsByUid::among(self.alloc, state, uids, window, &wanted)
    }

    /// The rows in a window that show the attendee with this address, one UID at a time. Only UIDs with an item that names the
    /// attendee are looked at.
    ///
    /// Fails if an allocation fails. Allocates nothing if nothing is kept.
    pub fn rows_for<'a>(
        &'a self,
        window: Window,
        address: &'a str,
    ) -> Result<RowsByUid<'a, 'a>, AllocError>
        ensures rows { IfOk result (λ asked. (rows : List Row)
            → AreLeft asked rows ↔ AreRowsWhere (Shows address.now) self.now.kept window rows) }
        ensures asked { IfOk result (AreAsked (Shows address.now) self.now.kept window) }
        ensures none { self.now.kept ≡ [] → IfOk result (λ asked. uids_of asked ≡ []) }
        ensures succeeds { self.now.kept ≡ [] → IsOk result }
    {
        let uids = self.kept.uids_naming(address)?;
        RowsByUid::among(
            self.alloc,
            self.kept.state(),
            uids,
            window,
            &Wanted::showing(Some(address)),
        )
    }

    /// The text of the task list in a window. The UIDs that are looked at are those of [`Desk::rows`].
    ///
    /// Fails with [`ViewError::TooManyRows`] (31) if there are more than 100,000 rows in the window, and with [`ViewError::NoMemory`]
    /// (32) if an allocation fails. Never fails if nothing is kept.
    pub fn list(&self, window: Window) -> Result<Vec<u8>, ViewError>
        ensures text { IfOk result (λ text. (heard : List Item) → AreKept self.now.kept heard → IsListText heard window text.items) }
        ensures many { IsErrOf result ViewError.TooManyRows → (heard : List Item) → AreKept self.now.kept heard → AreTooMany heard window }
        ensures succeeds { self.now.kept ≡ [] → IsOk result }
    {
        let rows = self.rows(window)?;
        rows.text()
    }

    /// The text of the rows in a window that show the attendee with this address. The UIDs that are looked at are those of
    /// [`Desk::rows_for`].
    ///
    /// Fails with [`ViewError::TooManyRows`] (31) if more than 100,000 rows in the window show the attendee, and with
    /// [`ViewError::NoMemory`] (32) if an allocation fails. Never fails if nothing is kept.
    pub fn list_for(&self, window: Window, address: &str) -> Result<Vec<u8>, ViewError>
        ensures text { IfOk result (λ text. (heard : List Item)
            → AreKept self.now.kept heard → IsListTextFor address.now heard window text.items) }
        ensures many { IsErrOf result ViewError.TooManyRows
            → (heard : List Item) → AreKept self.now.kept heard → AreTooManyWhere (Shows address.now) heard window }
        ensures succeeds { self.now.kept ≡ [] → IsOk result }
    {
        let shown = self.rows_for(window, address)?;
        shown.text()
    }
}
