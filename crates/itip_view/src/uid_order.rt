//! UIDs in order, and the rows of several UIDs in that order.
ghost use Rattle.std.specs.Prelude.{◌≡◌, ◌↔◌, ℕ, List, [], IfOk, IsOk, map};
ghost use Rattle.std.specs.List.{Contains};
ghost use Rattle.itip_state.specs.Kept.{AscendTexts};
ghost use Rattle.itip_view.specs.Showing.{AreRowsWhere, IsAmong};
ghost use Rattle.itip_view.specs.Wanting.{Wants};

use crate::NoMemory;
use crate::row::Row;
use crate::wanted::Wanted;
use crate::wanted_rows::shown_rows;
use crate::window::Window;
use itip_state::State;
use itip_todo::Uid;
use std::alloc::Global;

/// The given UIDs, sorted by bytes, each once. Without UIDs it takes no memory. On an error (out of memory) the list is dropped.
pub fn sorted_uids<'a>(uids: Vec<&'a Uid>) -> Result<Vec<&'a Uid>, NoMemory>
    ensures ascend { IfOk result (λ sorted. AscendTexts (map (λ uid. uid.now) sorted.items)) }
    ensures same { IfOk result (λ sorted. (uid : List ℕ)
        → Contains (map (λ uid. uid.now) sorted.items) uid ↔ Contains (map (λ uid. uid.now) uids.entry.items) uid) }
    ensures succeeds { uids.entry.items ≡ [] → IsOk result }
{
    let mut uids = uids;
    uids.sort()?;
    uids.dedup();
    Ok(uids)
}

/// The rows of these UIDs in a window that are asked for, in order.
pub(crate) fn rows_by_uid(
    alloc: Global,
    state: &State,
    uids: &[&Uid],
    window: Window,
    wanted: &Wanted<'_>,
) -> Result<Vec<Row>, NoMemory>
    requires { AscendTexts (map (λ uid. uid.now) uids.now) }
    ensures { IfOk result (λ rows. AreRowsWhere
        (IsAmong (map (λ uid. uid.now) uids.now) (Wants wanted.now)) state.now window rows.items) }
{
    let mut rows = Vec::new(alloc);
    for uid in uids {
        let mut more = shown_rows(alloc, state, uid, window, wanted)?;
        rows.append(&mut more)?;
    }
    Ok(rows)
}
