//! How far the rows of a list are.
ghost use Rattle.std.specs.Prelude.{◌≡◌, ◌++◌, [], IfOk, OnOk, IsOk, map};
ghost use Rattle.std.specs.String.{string_bytes};
ghost use Rattle.itip_view.specs.ListText.{id_text};
ghost use Rattle.itip_report.specs.Progress.{line_with, progress_lines};

use crate::NoMemory;
use crate::line::put_moment;
use itip_view::{Row, RowId};
use std::alloc::Global;

/// `uid id n` for each row that has a progress, in the order of the rows: its identifier as the list shows it, and the percentage.
/// Fails if an allocation fails. Allocates nothing if no row has a progress.
pub fn progress(alloc: Global, rows: &[Row]) -> Result<Vec<String>, NoMemory>
    ensures lines { IfOk result (λ lines. map string_bytes lines.items ≡ progress_lines rows.now) }
    ensures succeeds { progress_lines rows.now ≡ [] → IsOk result }
{
    let mut lines = Vec::new(alloc);
    for row in rows {
        if let Some(percent) = row.progress {
            lines.push(progress_line(alloc, row, percent)?)?;
        }
    }
    Ok(lines)
}

fn progress_line(alloc: Global, row: &Row, percent: u8) -> Result<String, NoMemory>
    ensures { IfOk result (λ line. string_bytes line ≡ line_with row.now percent) }
{
    let mut line = String::new(alloc);
    line.push_str(row.uid.as_str())?;
    line.push_str(" ")?;
    put_id(alloc, &mut line, &row.id)?;
    line.push_str(" ")?;
    let digits = percent.to_string(alloc)?;
    line.push_str(digits.as_str())?;
    Ok(line)
}

/// Appends the identifier of a row, as the list shows it.
fn put_id(alloc: Global, line: &mut String, id: &RowId) -> Result<(), NoMemory>
    ensures { OnOk result (string_bytes line.new ≡ string_bytes line.old ++ id_text id.now) }
{
    match id {
        RowId::Single => line.push_str("-"),
        RowId::At(moment) => put_moment(alloc, line, moment),
        RowId::Opaque => line.push_str("opaque"),
    }
}
