//! The rows of one UID that are asked for.
ghost use Rattle.std.specs.Prelude.{IfOk};
ghost use Rattle.itip_view.specs.UidWithMostRows.{HasRows};
ghost use Rattle.itip_view.specs.PutRows.{PutsRows};
ghost use Rattle.itip_view.specs.Showing.{AreRowsWhere, IsOf};
ghost use Rattle.itip_view.specs.Wanting.{Wants};

use crate::NoMemory;
use crate::live_rows::{count_of_uid, put_rows_of_uid, rows_of_uid};
use crate::row::Row;
use crate::wanted::Wanted;
use crate::window::Window;
use itip_state::State;
use itip_todo::Uid;
use std::alloc::Global;

/// The rows of a UID in a window that are asked for, in order.
pub(crate) fn shown_rows(
    alloc: Global,
    state: &State,
    uid: &Uid,
    window: Window,
    wanted: &Wanted<'_>,
) -> Result<Vec<Row>, NoMemory>
    ensures { IfOk result (λ rows. AreRowsWhere (IsOf uid.now (Wants wanted.now)) state.now window rows.items) }
{
    let items = state.of_uid(uid)?;
    let mut rows = rows_of_uid(alloc, &items, window)?;
    rows.retain(|row| wanted.has(row));
    Ok(rows)
}

/// Appends the text of these rows, each as it is made, and returns their number. On an error (out of memory) part of it may have
/// been appended.
pub(crate) fn put_shown(
    alloc: Global,
    state: &State,
    uid: &Uid,
    window: Window,
    wanted: &Wanted<'_>,
    out: &mut Vec<u8>,
) -> Result<usize, NoMemory>
    ensures { IfOk result (PutsRows (IsOf uid.now (Wants wanted.now)) state.now window out.old.items out.new.items) }
{
    let items = state.of_uid(uid)?;
    put_rows_of_uid(alloc, &items, window, wanted, out)
}

/// The number of these rows. No row is made.
pub(crate) fn count_shown(
    alloc: Global,
    state: &State,
    uid: &Uid,
    window: Window,
    wanted: &Wanted<'_>,
) -> Result<usize, NoMemory>
    ensures { IfOk result (HasRows (Wants wanted.now) state.now window uid.now) }
{
    let items = state.of_uid(uid)?;
    count_of_uid(alloc, &items, window, wanted)
}
