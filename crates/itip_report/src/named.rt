//! The lines of a report, by its name.
ghost use Rattle.std.specs.Prelude.{◌≡◌, [], List, IfOk, IsOk, map};
ghost use Rattle.std.specs.String.{string_bytes};
ghost use Rattle.itip_view.specs.ByUid.{AreLeft};
ghost use Rattle.itip_view.specs.declared.row.Row.{Row};
ghost use Rattle.itip_view.specs.declared.window.Window.{Window};
ghost use Rattle.itip_report.specs.Named.{HasRowsFor, IsReportOf};

use crate::NoMemory;
use crate::lines::{cancelled, orphans, refresh_wanted};
use crate::of_rows::{load_of, progress_of};
use crate::report_name::ReportName;
use itip_state::State;
use itip_view::RowsByUid;
use std::alloc::Global;

/// The lines of a report over the kept items of a state. If it is a report of rows, `rows` have to be those of the state in a window,
/// at most 100,000, and the report is that of the window; they are made a UID at a time. Other reports don't look at them. Fails if an
/// allocation fails. Allocates nothing if nothing is kept.
pub fn report_lines(
    alloc: Global,
    state: &State,
    name: ReportName,
    rows: RowsByUid<'_, '_>,
) -> Result<Vec<String>, NoMemory>
    ensures lines { IfOk result (λ lines. (window : Window) (all : List Row) → AreLeft rows.entry all → HasRowsFor name state.now window all
        → IsReportOf name state.now window (map string_bytes lines.items)) }
    ensures succeeds { state.now ≡ [] → IsOk result }
{
    if state.entries() == 0 {
        return Ok(Vec::new(alloc));
    }
    lines_by_name(alloc, state, name, rows)
}

/// The same, if something is kept.
fn lines_by_name(
    alloc: Global,
    state: &State,
    name: ReportName,
    rows: RowsByUid<'_, '_>,
) -> Result<Vec<String>, NoMemory>
    ensures { IfOk result (λ lines. (window : Window) (all : List Row) → AreLeft rows.entry all → HasRowsFor name state.now window all
        → IsReportOf name state.now window (map string_bytes lines.items)) }
{
    match name {
        ReportName::Load => load_of(alloc, rows),
        ReportName::Progress => progress_of(alloc, rows),
        ReportName::Cancelled => cancelled(alloc, state),
        ReportName::Orphans => orphans(alloc, state),
        ReportName::Refresh => refresh_wanted(alloc, state),
    }
}
