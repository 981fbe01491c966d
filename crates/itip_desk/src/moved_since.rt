//! The UIDs that moved, by UID and by tick, and those that moved since a tick.
ghost use Rattle.std.specs.Prelude.{◌≡◌, ◌↔◌, ◌⊎◌, ◌<◌, ℕ, List, [], Some, None, cond, true, is_some, map, IfOk, OnOk, OnErr, IsTrue};
ghost use Rattle.std.specs.List.{All, Contains};
ghost use Rattle.std.specs.List.Sorted.{IsStrictlySortedBy, IsNonDecreasingBy};
ghost use Rattle.std.specs.Map.{keys_of};
ghost use Rattle.std.specs.Ordering.{nat_cmp, is_eq};
ghost use Rattle.std.specs.Cmp.Lexicographic.{slice_cmp};
ghost use Rattle.std.specs.BTreeMap.{IsOrdered};
ghost use Rattle.itip_desk.specs.MovedSince.{is_listed, tick_at, move_tick, AreInOrder, AreTicks, AreBefore, HavePlaces, AreReady};
ghost use Rattle.itip_desk.specs.MovedSince.{CarriesLast};
ghost use Rattle.itip_desk.specs.Desk.{CarriesAfter};

use itip_todo::Uid;
use std::alloc::{AllocError, Global};
use std::collections::BTreeMap;
use std::marker::Model;

/// The UIDs that moved, each with the tick of its last move.
#[derive(Debug, Drop)]
pub(crate) struct MovedUids {
    alloc: Global,
    /// The tick that each carries, or 0 for a place that carries nothing yet.
    ticks: BTreeMap<Uid, u64>,
    /// The moves by tick, each of which shares the text of its UID in `ticks`. Earlier moves of a UID may be here too, and those of a take
    /// that was refused; they are passed over.
    order: Vec<(u64, Uid)>,
}

impl Model for MovedUids {
    ghost use Rattle.itip_desk.specs.MovedSince.{Moved, moved_code, AreMoves};

    ghost Value = { Moved };

    ghost coded = { moved_code };

    ghost view = { λ m. record { carried = m.ticks.entries; order = m.order.items } };

    ghost invariant = { λ m. AreMoves m.ticks.entries m.order.items };
}

impl MovedUids {
    /// No UIDs. Allocates nothing.
    pub(crate) fn new(alloc: Global) -> MovedUids
        ensures { result.carried ≡ [] }
    {
        MovedUids {
            alloc,
            ticks: BTreeMap::new(alloc),
            order: Vec::new(alloc),
        }
    }

    /// The UIDs of these moves, each with the tick of the last of its moves in the list.
    pub(crate) fn of_moves(alloc: Global, moves: Vec<(Uid, u64)>) -> Result<MovedUids, AllocError>
        requires { All (λ (move : List ℕ × ℕ). 0 < move.1) moves.items }
        ensures ticks { IfOk result (λ moved. AreTicks moved.carried) }
        ensures moves { IfOk result (λ moved. CarriesLast moves.items moved.carried) }
    {
        let mut ticks = BTreeMap::new(alloc);
        for (uid, tick) in moves {
            ticks.insert(uid, tick)?;
        }
        let order = moves_by_tick(alloc, &ticks)?;
        Ok(MovedUids {
            alloc,
            ticks,
            order,
        })
    }

    /// The tick that a UID carries, if it is here.
    pub(crate) fn tick_of(&self, uid: &Uid) -> Option<u64>
        ensures { result ≡ tick_at self.now.carried uid.now }
    {
        self.ticks.get(uid).copied()
    }

    /// Gives each of these UIDs a place and a move at this tick. If an allocation fails, each carries what it did before, and moves may
    /// stay in the list until the next call.
    pub(crate) fn prepare(&mut self, uids: &[Uid], tick: u64) -> Result<(), AllocError>
        requires ticks { AreTicks self.old.carried }
        requires before { AreBefore tick self.old.carried }
        ensures places { HavePlaces uids.now self.old.carried self.new.carried }
        ensures ready { OnOk result (AreReady uids.now tick self.new) }
        ensures err { OnErr result (self.new.carried ≡ self.old.carried) }
    {
        // Before the cut, so that the room of a list that a refused take has made long is freed too.
        self.make_room(uids.len());
        // A take that was refused may have left moves at this tick.
        cut_at(&mut self.order, tick);
        if let Err(refused) = put_moves(&mut self.order, &mut self.ticks, uids, tick) {
            drop_places(&mut self.ticks, uids);
            return Err(refused);
        }
        Ok(())
    }

    /// Makes the list of moves anew, without those that are passed over, if so many more would bring it above two for each UID that is
    /// here. If memory for this is refused, the list stays.
    fn make_room(&mut self, more: usize)
        ensures { self.new.carried ≡ self.old.carried }
    {
        let moves = self.order.len().saturating_add(more);
        if moves <= self.ticks.len().saturating_mul(2) {
            return;
        }
        if let Ok(order) = moves_by_tick(self.alloc, &self.ticks) {
            self.order = order;
        }
    }

    /// Takes back the places that [`MovedUids::prepare`] made: each UID carries what it did before it. The moves stay until its next call.
    pub(crate) fn take_places_back(&mut self, uids: &[Uid])
        ensures { (was : List (List ℕ × ℕ)) → IsStrictlySortedBy (slice_cmp nat_cmp) (keys_of was) → AreTicks was
            → HavePlaces uids.now was self.old.carried → self.new.carried ≡ was }
    {
        drop_places(&mut self.ticks, uids);
    }

    /// Makes these UIDs carry the tick that they were prepared for. Others carry what they did before.
    pub(crate) fn mark(&mut self, uids: &[Uid], tick: u64)
        requires { AreReady uids.now tick self.old }
        ensures { (uid : List ℕ) → tick_at self.new.carried uid ≡ cond (is_listed uids.now uid) (Some tick) (tick_at self.old.carried uid) }
    {
        for uid in uids {
            set(&mut self.ticks, uid, tick);
        }
    }

    /// The UIDs that carry a tick above `since`. Of the moves up to `since` only those that a binary search asks are looked at.
    pub(crate) fn after(&self, since: u64) -> Result<Vec<&Uid>, AllocError>
        ensures { IfOk result (λ uids. (uid : List ℕ) →
            Contains (map (λ u. u.now) uids.items) uid ↔ CarriesAfter self.now.carried since uid) }
    {
        let mut uids = Vec::new(self.alloc);
        for (tick, uid) in moves_after(&self.order, since) {
            if carries(&self.ticks, uid, *tick) {
                uids.push(uid)?;
            }
        }
        Ok(uids)
    }

    /// States what is always true: what the UIDs carry is sorted by UID, each once. It does nothing; it is called so that a proof knows
    /// this.
    pub(crate) fn lawful(&self)
        ensures { IsStrictlySortedBy (slice_cmp nat_cmp) (keys_of self.now.carried) }
    {
        let _ = &self.ticks;
    }
}

/// The last move of each UID, by tick.
fn moves_by_tick(alloc: Global, ticks: &BTreeMap<Uid, u64>) -> Result<Vec<(u64, Uid)>, AllocError>
    ensures in_order { IfOk result (λ order. AreInOrder ticks.now.entries order.items) }
    ensures by_tick { IfOk result (λ order. IsNonDecreasingBy move_tick order.items) }
{
    let mut order = Vec::with_capacity(alloc, ticks.len().saturating_mul(2))?;
    for (uid, tick) in ticks {
        order.push((*tick, uid.clone()?))?;
    }
    order.sort_unstable_by_key(|(tick, _)| *tick);
    Ok(order)
}

/// Removes the moves at this tick and at later ones.
fn cut_at(order: &mut Vec<(u64, Uid)>, tick: u64)
    requires { IsNonDecreasingBy move_tick order.old.items }
    ensures by_tick { IsNonDecreasingBy move_tick order.new.items }
    ensures before { (move : ℕ × List ℕ) → Contains order.new.items move → move.0 < tick }
    ensures keeps { (move : ℕ × List ℕ) → Contains order.old.items move → move.0 < tick → Contains order.new.items move }
{
    let end = order.partition_point(|(at, _)| *at < tick);
    order.truncate(end);
}

/// The moves after this tick.
fn moves_after(order: &[(u64, Uid)], tick: u64) -> &[(u64, Uid)]
    requires { IsNonDecreasingBy move_tick order.now }
    ensures { (move : ℕ × List ℕ) → Contains result.now move ↔ (Contains order.now move × (tick < move.0)) }
{
    let start = order.partition_point(|(at, _)| *at <= tick);
    &order[start..]
}

/// Adds moves of these UIDs at a tick, and makes a place for each of them that has none. If an allocation fails, some of both may have
/// been added.
fn put_moves(
    order: &mut Vec<(u64, Uid)>,
    ticks: &mut BTreeMap<Uid, u64>,
    uids: &[Uid],
    tick: u64,
) -> Result<(), AllocError>
    requires by_tick { IsNonDecreasingBy move_tick order.old.items }
    requires before { (move : ℕ × List ℕ) → Contains order.old.items move → move.0 < tick }
    requires ordered { IsOrdered (slice_cmp nat_cmp) ticks.old }
    ensures by_tick { IsNonDecreasingBy move_tick order.new.items }
    ensures all { OnOk result ((uid : List ℕ) → is_listed uids.now uid ≡ true → Contains order.new.items (tick, uid)) }
    ensures keeps { (move : ℕ × List ℕ) → Contains order.old.items move → Contains order.new.items move }
    ensures ordered { IsOrdered (slice_cmp nat_cmp) ticks.new }
    ensures places { HavePlaces uids.now ticks.old.entries ticks.new.entries }
    ensures placed { OnOk result ((uid : List ℕ) → is_listed uids.now uid ≡ true → is_some (tick_at ticks.new.entries uid) ≡ true) }
{
    for uid in uids {
        let own = place(ticks, uid)?;
        order.push((tick, own))?;
    }
    Ok(())
}

/// Makes a place for a UID if it has none, and returns the UID as it is in its place, so that a move holds no other text. If it fails, the
/// place may have been made.
fn place(ticks: &mut BTreeMap<Uid, u64>, uid: &Uid) -> Result<Uid, AllocError>
    requires { IsOrdered (slice_cmp nat_cmp) ticks.old }
    ensures own { IfOk result (λ own. own ≡ uid.now) }
    ensures ordered { IsOrdered (slice_cmp nat_cmp) ticks.new }
    ensures places { (uids : List (List ℕ)) (was : List (List ℕ × ℕ)) → is_listed uids uid.now ≡ true
        → HavePlaces uids was ticks.old.entries → HavePlaces uids was ticks.new.entries }
    ensures stay { (q : List ℕ) → is_some (tick_at ticks.old.entries q) ≡ true → is_some (tick_at ticks.new.entries q) ≡ true }
    ensures placed { OnOk result (is_some (tick_at ticks.new.entries uid.now) ≡ true) }
{
    if let Some((own, _)) = ticks.get_key_value(uid) {
        return Ok(own.clone()?);
    }
    ticks.insert(uid.clone()?, 0)?;
    Ok(uid.clone()?)
}

/// Removes those of these UIDs that only have a place.
fn drop_places(ticks: &mut BTreeMap<Uid, u64>, uids: &[Uid])
    requires { IsOrdered (slice_cmp nat_cmp) ticks.old }
    ensures ordered { IsOrdered (slice_cmp nat_cmp) ticks.new }
    ensures fewer { (uid : List ℕ) →
        (tick_at ticks.new.entries uid ≡ tick_at ticks.old.entries uid) ⊎ (tick_at ticks.new.entries uid ≡ None) }
    ensures without { (was : List (List ℕ × ℕ)) → IsStrictlySortedBy (slice_cmp nat_cmp) (keys_of was) → AreTicks was
        → HavePlaces uids.now was ticks.old.entries → ticks.new.entries ≡ was }
{
    for uid in uids {
        if carries(ticks, uid, 0) {
            ticks.remove(uid);
        }
    }
}

/// Whether a UID carries this tick.
fn carries(ticks: &BTreeMap<Uid, u64>, uid: &Uid, tick: u64) -> bool
    ensures { IsTrue result ↔ (tick_at ticks.now.entries uid.now ≡ Some tick) }
{
    match ticks.get(uid) {
        None => false,
        Some(carried) => *carried == tick,
    }
}

/// Makes a UID carry a tick. A UID without a place is left without one.
fn set(ticks: &mut BTreeMap<Uid, u64>, uid: &Uid, tick: u64)
    requires { IsOrdered (slice_cmp nat_cmp) ticks.old }
    ensures ordered { IsOrdered (slice_cmp nat_cmp) ticks.new }
    ensures with { (q : List ℕ) → is_some (tick_at ticks.old.entries uid.now) ≡ true
        → tick_at ticks.new.entries q ≡ cond (is_eq (slice_cmp nat_cmp uid.now q)) (Some tick) (tick_at ticks.old.entries q) }
    ensures absent { tick_at ticks.old.entries uid.now ≡ None → ticks.new.entries ≡ ticks.old.entries }
{
    if let Some(place) = ticks.get_mut(uid) {
        *place = tick;
    }
}
