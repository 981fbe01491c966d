//! The reports over kept items, line by line. If nothing is kept, they allocate nothing and never fail.
ghost use Rattle.std.specs.Prelude.{◌≡◌, [], IfOk, IsOk, map};
ghost use Rattle.std.specs.String.{string_bytes};
ghost use Rattle.itip_report.specs.Reports.{AreReportLines};

use crate::NoMemory;
use crate::line::line_of;
use crate::report::Report;
use crate::reported::report_items;
use itip_state::State;
use std::alloc::Global;

/// What is cancelled: `uid -` for each cancelled to-do, `uid id` for each cancelled instance that stands, `uid id+` for each
/// cancelled range that stands. Fails if an allocation fails.
pub fn cancelled(alloc: Global, state: &State) -> Result<Vec<String>, NoMemory>
    ensures lines { IfOk result (λ lines. AreReportLines Report.Cancelled state.now (map string_bytes lines.items)) }
    ensures succeeds { state.now ≡ [] → IsOk result }
{
    lines_of(alloc, state, Report::Cancelled)
}

/// Answers and refresh requests for which neither the to-do nor the instance is known: `uid id answer address` and
/// `uid id refresh address`. Fails if an allocation fails.
pub fn orphans(alloc: Global, state: &State) -> Result<Vec<String>, NoMemory>
    ensures lines { IfOk result (λ lines. AreReportLines Report.Orphans state.now (map string_bytes lines.items)) }
    ensures succeeds { state.now ≡ [] → IsOk result }
{
    lines_of(alloc, state, Report::Orphans)
}

/// Refresh requests that are newer than the item that governs what they name: `uid id address`. Fails if an allocation fails.
pub fn refresh_wanted(alloc: Global, state: &State) -> Result<Vec<String>, NoMemory>
    ensures lines { IfOk result (λ lines. AreReportLines Report.Refresh state.now (map string_bytes lines.items)) }
    ensures succeeds { state.now ≡ [] → IsOk result }
{
    lines_of(alloc, state, Report::Refresh)
}

/// The lines of a report.
fn lines_of(alloc: Global, state: &State, report: Report) -> Result<Vec<String>, NoMemory>
    ensures lines { IfOk result (λ lines. AreReportLines report state.now (map string_bytes lines.items)) }
    ensures succeeds { state.now ≡ [] → IsOk result }
{
    let items = report_items(alloc, state, report)?;
    let mut lines = Vec::new(alloc);
    for item in &items {
        lines.push(line_of(alloc, report, item)?)?;
    }
    Ok(lines)
}
