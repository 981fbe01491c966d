//! The rows of a state, all at once.
ghost use Rattle.std.specs.Prelude.{◌≤◌, IfOk, IsErrOf, length};
ghost use Rattle.std.specs.Option.{option_map};
ghost use Rattle.itip_view.specs.Rows.{AreRows, AreTooMany, row_limit};
ghost use Rattle.itip_view.specs.Showing.{ShowsNamed, AreRowsWhere, AreTooManyWhere, IsOf};

use crate::by_uid::RowsByUid;
use crate::error::ViewError;
use crate::row::Row;
use crate::row_count::{ROW_LIMIT, RowCount};
use crate::wanted::Wanted;
use crate::wanted_rows::shown_rows;
use crate::window::Window;
use itip_state::State;
use itip_todo::Uid;
use std::alloc::Global;

/// The rows of a state in a window, in order, at most 100,000. They are counted before any is made.
///
/// Returns [`ViewError::TooManyRows`] (31) if there are more, and [`ViewError::NoMemory`] (32) when out of memory.
pub fn rows(alloc: Global, state: &State, window: Window) -> Result<Vec<Row>, ViewError>
    ensures rows { IfOk result (λ rows. AreRows state.now window rows.items) }
    ensures few { IfOk result (λ rows. length rows.items ≤ row_limit) }
    ensures many { IsErrOf result ViewError.TooManyRows → AreTooMany state.now window }
{
    let asked = RowsByUid::of(alloc, state, window, &Wanted::all())?;
    match asked.count()? {
        RowCount::Few(_) => Ok(asked.to_vec()?),
        RowCount::TooMany(_) => Err(ViewError::TooManyRows),
    }
}

/// The rows of one UID in a window, in order, at most 100,000; with an address, only those that show its attendee. No other UID is
/// looked at.
///
/// Returns [`ViewError::TooManyRows`] (31) if there are more, and [`ViewError::NoMemory`] (32) when out of memory.
pub fn rows_of(
    alloc: Global,
    state: &State,
    uid: &Uid,
    window: Window,
    shown: Option<&str>,
) -> Result<Vec<Row>, ViewError>
    ensures rows { IfOk result (λ rows. AreRowsWhere
        (IsOf uid.now (ShowsNamed (option_map (λ a. a.now) shown.entry))) state.now window rows.items) }
    ensures few { IfOk result (λ rows. length rows.items ≤ row_limit) }
    ensures many { IsErrOf result ViewError.TooManyRows
        → AreTooManyWhere (IsOf uid.now (ShowsNamed (option_map (λ a. a.now) shown.entry))) state.now window }
{
    let rows = shown_rows(alloc, state, uid, window, &Wanted::showing(shown))?;
    if rows.len() > ROW_LIMIT {
        return Err(ViewError::TooManyRows);
    }
    Ok(rows)
}
