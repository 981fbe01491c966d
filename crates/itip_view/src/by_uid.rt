//! Rows, one UID at a time.
ghost use Rattle.std.specs.Prelude.{◌≤◌, length, map};
ghost use Rattle.itip_view.specs.AscendingUids.{AreAscendingUids, AreAscendingUids-prop};

use crate::NoMemory;
use crate::error::ViewError;
use crate::list_within_limit::text_within_limit;
use crate::row::Row;
use crate::row_count::{RowCount, count_among};
use crate::uid_order::{rows_by_uid, sorted_uids};
use crate::wanted::Wanted;
use crate::wanted_rows::shown_rows;
use crate::window::Window;
use itip_state::State;
use itip_todo::Uid;
use std::alloc::Global;

/// The rows of a state in a window that are asked for and are still left, one UID after another.
///
/// With [`next`](RowsByUid::next) only the rows of one UID exist at a time, and the caller holds them.
#[derive(Debug, Drop)]
pub struct RowsByUid<'s, 'w> {
    alloc: Global,
    state: &'s State,
    uids: Vec<&'s Uid>,
    // How many of the UIDs are done.
    done: usize,
    window: Window,
    wanted: Wanted<'w>,
    ghost ascend: { AreAscendingUids (map (λ uid. uid.now) uids.items) } by { AreAscendingUids-prop (map (λ uid. uid.now) uids.items) },
    ghost within: { done ≤ length uids.items },
}

impl<'s, 'w> RowsByUid<'s, 'w> {
    ghost use Rattle.std.specs.Prelude.{◌≡◌, ◌↔◌, ◌<◌, List, [], IfOk, IfSome, IsOk, IsErrOf, OnErr};
    ghost use Rattle.std.specs.Option.{option_map};
    ghost use Rattle.itip_state.specs.Kept.{AscendTexts};
    ghost use Rattle.itip_view.specs.Showing.{AreRowsWhere, IsAmong};
    ghost use Rattle.itip_view.specs.Wanting.{Wants};
    ghost use Rattle.itip_view.specs.ByUid.{AreAsked, AreLeft, AreTooManyLeft, IsCountOf, IsNextOf, IsTextLeft, uids_left, uids_of};
    ghost use Rattle.itip_view.specs.declared.row.Row.{Row};

    /// The rows of all UIDs. Fails only when out of memory; if nothing is kept, no UID is left, and it takes none.
    pub fn of(
        alloc: Global,
        state: &'s State,
        window: Window,
        wanted: &Wanted<'w>,
    ) -> Result<RowsByUid<'s, 'w>, NoMemory>
        ensures rows { IfOk result (λ asked. (rows : List Row)
            → AreLeft asked rows ↔ AreRowsWhere (Wants wanted.now) state.now window rows) }
        ensures asked { IfOk result (AreAsked (Wants wanted.now) state.now window) }
        ensures none { state.now ≡ [] → IfOk result (λ asked. uids_of asked ≡ []) }
        ensures succeeds { state.now ≡ [] → IsOk result }
    {
        let uids = state.uids()?;
        Ok(RowsByUid {
            alloc,
            state,
            uids,
            done: 0,
            window,
            wanted: *wanted,
        })
    }

    /// The rows of these UIDs, given in any order and perhaps more than once. No other UID is looked at. Fails only when out of memory;
    /// without UIDs it takes none.
    pub fn among(
        alloc: Global,
        state: &'s State,
        uids: Vec<&'s Uid>,
        window: Window,
        wanted: &Wanted<'w>,
    ) -> Result<RowsByUid<'s, 'w>, NoMemory>
        ensures rows { IfOk result (λ asked. (rows : List Row) → AreLeft asked rows
            ↔ AreRowsWhere (IsAmong (map (λ uid. uid.now) uids.entry.items) (Wants wanted.now)) state.now window rows) }
        ensures asked { IfOk result (AreAsked (IsAmong (map (λ uid. uid.now) uids.entry.items) (Wants wanted.now)) state.now window) }
        ensures none { uids.entry.items ≡ [] → IfOk result (λ asked. uids_of asked ≡ []) }
        ensures succeeds { uids.entry.items ≡ [] → IsOk result }
    {
        let uids = sorted_uids(uids)?;
        Ok(RowsByUid {
            alloc,
            state,
            uids,
            done: 0,
            window,
            wanted: *wanted,
        })
    }

    /// How many rows are left and, if too many, which to-do has the most of them. No row is made. Fails only when out of memory.
    pub fn count(&self) -> Result<RowCount, NoMemory>
        ensures count { IfOk result (IsCountOf self.now) }
    {
        count_among(
            self.alloc,
            self.state,
            self.left(),
            self.window,
            &self.wanted,
        )
    }

    /// The rows of the next UID, in order, perhaps none; `None` once no UID is left, and from then on.
    ///
    /// On an error (out of memory) the same UIDs and rows are left: the next call is for the same UID.
    pub fn next(&mut self) -> Result<Option<Vec<Row>>, NoMemory>
        ensures rows { IfOk result (λ rows. IsNextOf self.old self.new (option_map (λ r. r.items) rows)) }
        ensures fewer { IfOk result (λ rows. IfSome rows (λ _. uids_left self.new < uids_left self.old)) }
        ensures err { OnErr result ((uids_of self.new ≡ uids_of self.old)
            × ((rows : List Row) → AreLeft self.new rows ↔ AreLeft self.old rows)) }
    {
        if self.done == self.uids.len() {
            return Ok(None);
        }
        let uid = self.uids[self.done];
        let rows = shown_rows(self.alloc, self.state, uid, self.window, &self.wanted)?;
        self.done += 1;
        Ok(Some(rows))
    }

    /// The text of the rows that are left. Besides the text, one row is held at a time. If no UID is left, it takes no memory.
    ///
    /// Returns [`ViewError::TooManyRows`] (31) if there are more than 100,000, and [`ViewError::NoMemory`] (32) when out of memory.
    pub fn text(&self) -> Result<Vec<u8>, ViewError>
        ensures text { IfOk result (λ text. IsTextLeft self.now text.items) }
        ensures many { IsErrOf result ViewError.TooManyRows → AreTooManyLeft self.now }
        ensures succeeds { uids_of self.now ≡ [] → IsOk result }
    {
        text_within_limit(
            self.alloc,
            self.state,
            self.left(),
            self.window,
            &self.wanted,
        )
    }

    /// The rows that are left, all at once and without a limit. Fails only when out of memory.
    pub fn to_vec(&self) -> Result<Vec<Row>, NoMemory>
        ensures { IfOk result (λ rows. AreLeft self.now rows.items) }
    {
        rows_by_uid(
            self.alloc,
            self.state,
            self.left(),
            self.window,
            &self.wanted,
        )
    }

    /// The UIDs that are left.
    fn left(&self) -> &[&'s Uid]
        ensures uids { map (λ uid. uid.now) result.now ≡ uids_of self.now }
        ensures ascend { AscendTexts (map (λ uid. uid.now) result.now) }
    {
        let all = self.uids.as_slice();
        &all[self.done..]
    }
}
