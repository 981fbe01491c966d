//! Reports of rows that are made a UID at a time: only the rows of one UID and the report are held.
ghost use Rattle.std.specs.Prelude.{◌≡◌, ◌≤◌, List, IfOk, length, map};
ghost use Rattle.std.specs.String.{string_bytes};
ghost use Rattle.itip_view.specs.ByUid.{AreLeft};
ghost use Rattle.itip_view.specs.Rows.{row_limit};
ghost use Rattle.itip_view.specs.declared.row.Row.{Row};
ghost use Rattle.itip_report.specs.Load.{load_lines};
ghost use Rattle.itip_report.specs.Progress.{progress_lines};

use crate::NoMemory;
use crate::load::{Tally, count_rows, tallied_lines};
use crate::row_progress::progress;
use itip_view::RowsByUid;
use std::alloc::Global;

/// The lines of [`load_by_attendee`](crate::load_by_attendee) over the rows that are left, if these are at most 100,000.
pub(crate) fn load_of(alloc: Global, rows: RowsByUid<'_, '_>) -> Result<Vec<String>, NoMemory>
    ensures { IfOk result (λ lines. (all : List Row) → AreLeft rows.entry all → length all ≤ row_limit
        → map string_bytes lines.items ≡ load_lines all) }
{
    let mut rows = rows;
    let mut tally = Tally::new(alloc);
    while let Some(some) = rows.next()? {
        count_rows(alloc, &mut tally, some.as_slice())?;
    }
    tallied_lines(alloc, &tally)
}

/// The lines of [`progress`] over the rows that are left.
pub(crate) fn progress_of(alloc: Global, rows: RowsByUid<'_, '_>) -> Result<Vec<String>, NoMemory>
    ensures { IfOk result (λ lines. (all : List Row) → AreLeft rows.entry all → map string_bytes lines.items ≡ progress_lines all) }
{
    let mut rows = rows;
    let mut lines = Vec::new(alloc);
    while let Some(some) = rows.next()? {
        let mut more = progress(alloc, &some)?;
        lines.append(&mut more)?;
    }
    Ok(lines)
}
