//! Reports over rows as records.
ghost use Rattle.std.specs.Prelude.{◌≡◌, [], List, IfOk, IsOk, map};
ghost use Rattle.itip_view.specs.declared.row.Row.{Row};
ghost use Rattle.itip_report.specs.Load.{load_lines};
ghost use Rattle.itip_report.specs.Progress.{progress_lines};
ghost use Rattle.itip_report.specs.Records.{RowAt, load_records, load_text, progress_records, progress_text};

use crate::NoMemory;
use itip_lines::Text;
use itip_view::Row;
use std::alloc::Global;

/// How many rows show an attendee.
#[derive(Debug, Drop)]
pub struct AttendeeLoad {
    /// The address, with ASCII letters in lower case.
    pub attendee: Text,
    /// The number of rows that show the attendee.
    pub rows: usize,
}

/// A row that has a progress.
#[derive(Clone, Copy, Debug, Drop)]
pub struct RowProgress<'a> {
    pub row: &'a Row,
    /// The mean of the percentages that the attendees show, rounded down.
    pub percent: u8,
}

/// The rows that have a progress, in their order, each with its progress. Fails if an allocation fails. Allocates nothing if no row
/// has one.
pub fn progress_records<'a>(
    alloc: Global,
    rows: &'a [Row],
) -> Result<Vec<RowProgress<'a>>, NoMemory>
    ensures records { IfOk result (λ records.
        map (λ r. record { row = r.row.now; percent = r.percent }) records.items ≡ progress_records rows.now) }
    ensures succeeds { progress_records rows.now ≡ [] → IsOk result }
{
    let mut records = Vec::new(alloc);
    for row in rows {
        if let Some(percent) = row.progress {
            records.push(RowProgress { row, percent })?;
        }
    }
    Ok(records)
}

/// The lines of reports are the texts of their records.
pub fn reports_are_texts()
    ensures load { (rows : List Row) → load_lines rows ≡ map load_text (load_records rows) }
    ensures progress { (rows : List Row) → progress_lines rows ≡ map progress_text (progress_records rows) }
{}
