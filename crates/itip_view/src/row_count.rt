//! How many rows there are, and which to-do has the most of them.
ghost use Rattle.std.specs.Prelude.{IfOk, map};
ghost use Rattle.itip_state.specs.Kept.{AscendTexts};
ghost use Rattle.itip_view.specs.UidWithMostRows.{IsCountAmong};
ghost use Rattle.itip_view.specs.Wanting.{Wants};

use crate::NoMemory;
use crate::wanted::Wanted;
use crate::wanted_rows::count_shown;
use crate::window::Window;
use itip_state::State;
use itip_todo::Uid;
use std::alloc::Global;

/// The most rows that a list may have.
pub(crate) const ROW_LIMIT: usize = 100_000;

/// The to-do with the most rows; of several, the one with the least UID by bytes.
#[derive(Debug, Drop)]
pub struct MostRows {
    pub uid: Uid,
    /// The number of its rows, at least 1.
    pub rows: usize,
}

/// How many rows there are.
#[derive(Debug, Drop)]
pub enum RowCount {
    /// This many, at most 100,000.
    Few(usize),
    /// More than 100,000, with the to-do that has the most of them.
    TooMany(MostRows),
}

/// How many of the rows of these UIDs in a window are asked for.
pub(crate) fn count_among(
    alloc: Global,
    state: &State,
    uids: &[&Uid],
    window: Window,
    wanted: &Wanted<'_>,
) -> Result<RowCount, NoMemory>
    requires { AscendTexts (map (λ uid. uid.now) uids.now) }
    ensures { IfOk result (IsCountAmong (Wants wanted.now) state.now window (map (λ uid. uid.now) uids.now)) }
{
    let mut number: usize = 0;
    let mut leader = None;
    let mut most = 0;
    for uid in uids {
        let count = count_shown(alloc, state, uid, window, wanted)?;
        number = number.saturating_add(count);
        if count > most {
            leader = Some(*uid);
            most = count;
        }
    }
    let Some(leader) = leader else {
        return Ok(RowCount::Few(0));
    };
    if number <= ROW_LIMIT {
        return Ok(RowCount::Few(number));
    }
    let uid = leader.clone()?;
    Ok(RowCount::TooMany(MostRows { uid, rows: most }))
}
