//! The text of rows.
ghost use Rattle.std.specs.Prelude.{◌≡◌, ◌<◌, ◌++◌, [], OnErr, OnOk, IsOk, Option, Some, None};
ghost use Rattle.std.specs.Fmt.{decimal};
ghost use Rattle.std.specs.List.{flat_map};
ghost use Rattle.itip_lines.specs.Writing.{Extends};
ghost use Rattle.itip_moment.specs.Shown.{shown_moment};
ghost use Rattle.itip_todo.specs.StatusText.{status_text};
ghost use Rattle.itip_view.specs.ListText.{list_text, row_text, attendee_text, id_text, names_text, numbers_text, dates_text};
ghost use Rattle.itip_view.specs.ListText.{summary_text, progress_text, shown};

use crate::row::{Row, RowId, ShownAttendee};
use itip_lines::Text;
use itip_moment::{Moment, write_moment};
use itip_todo::Status;
use itoa::Buffer;
use std::alloc::AllocError;

/// Appends the text of rows, in the given order. Without rows it takes no memory.
///
/// On an error (out of memory) the contents of the vector are unchanged.
pub fn write_list(rows: &[Row], out: &mut Vec<u8>) -> Result<(), AllocError>
    ensures ok { OnOk result (out.new.items ≡ out.old.items ++ list_text rows.now) }
    ensures err { OnErr result (out.new.items ≡ out.old.items) }
    ensures succeeds { rows.now ≡ [] → IsOk result }
{
    let start = out.len();
    let done = append_list(rows, out);
    if done.is_err() {
        out.truncate(start);
    }
    done
}

/// Appends the text of rows. If an allocation fails, some of them may have been appended.
fn append_list(rows: &[Row], out: &mut Vec<u8>) -> Result<(), AllocError>
    ensures text { OnOk result (out.new.items ≡ out.old.items ++ list_text rows.now) }
    ensures extends { Extends out.old.items out.new.items }
    ensures succeeds { rows.now ≡ [] → IsOk result }
{
    // Each row is written to a buffer of its own first, so `out` only ever grows by whole rows, after what it had before.
    let mut text = Vec::new(*out.allocator());
    for row in rows {
        text.clear();
        write_row(row, &mut text)?;
        out.extend_from_slice(&text)?;
    }
    Ok(())
}

/// Appends the text of a row.
///
/// On an error (out of memory) part of the text may have been appended, unlike with [`write_list`].
pub fn write_row(row: &Row, out: &mut Vec<u8>) -> Result<(), AllocError>
    ensures { OnOk result (out.new.items ≡ out.old.items ++ row_text row.now) }
{
    put_names(out, row)?;
    put_numbers(out, row)?;
    put_dates(out, row)?;
    put_summary(out, row)?;
    put_attendees(out, row.attendees.as_slice())?;
    put_progress(out, row)?;
    Ok(())
}

fn put_names(out: &mut Vec<u8>, row: &Row) -> Result<(), AllocError>
    ensures { OnOk result (out.new.items ≡ out.old.items ++ names_text row.now) }
{
    put(out, "TODO ")?;
    put(out, row.uid.as_str())?;
    put(out, "\n  ID ")?;
    put_id(out, &row.id)
}

fn put_attendees(out: &mut Vec<u8>, attendees: &[ShownAttendee]) -> Result<(), AllocError>
    ensures { OnOk result (out.new.items ≡ out.old.items ++ flat_map attendee_text attendees.now) }
{
    for attendee in attendees {
        put_attendee(out, attendee)?;
    }
    Ok(())
}

fn put_id(out: &mut Vec<u8>, id: &RowId) -> Result<(), AllocError>
    ensures { OnOk result (out.new.items ≡ out.old.items ++ id_text id.now) }
{
    match id {
        RowId::Single => put(out, "-"),
        RowId::At(moment) => put_moment(out, moment),
        RowId::Opaque => put(out, "opaque"),
    }
}

fn put_numbers(out: &mut Vec<u8>, row: &Row) -> Result<(), AllocError>
    ensures { OnOk result (out.new.items ≡ out.old.items ++ numbers_text row.now) }
{
    put(out, "\n  SEQ ")?;
    put_number(out, row.seq)?;
    put(out, " STATUS ")?;
    put_status(out, row.status)?;
    put(out, " PERCENT ")?;
    put_shown_number(out, row.percent)?;
    put(out, " PRIORITY ")?;
    put_shown_number(out, row.priority)
}

fn put_dates(out: &mut Vec<u8>, row: &Row) -> Result<(), AllocError>
    ensures { OnOk result (out.new.items ≡ out.old.items ++ dates_text row.now) }
{
    put(out, "\n  START ")?;
    put_shown_moment(out, &row.start)?;
    put(out, " DUE ")?;
    put_shown_moment(out, &row.due)
}

fn put_summary(out: &mut Vec<u8>, row: &Row) -> Result<(), AllocError>
    ensures { OnOk result (out.new.items ≡ out.old.items ++ summary_text row.now) }
{
    put(out, "\n  SUMMARY ")?;
    match &row.summary {
        Some(summary) => put(out, summary.as_str())?,
        None => put(out, "-")?,
    }
    put(out, "\n")
}

fn put_progress(out: &mut Vec<u8>, row: &Row) -> Result<(), AllocError>
    ensures { OnOk result (out.new.items ≡ out.old.items ++ progress_text row.now) }
{
    put(out, "  PROGRESS ")?;
    put_shown_number(out, row.progress)?;
    put(out, "\n")
}

fn put_attendee(out: &mut Vec<u8>, attendee: &ShownAttendee) -> Result<(), AllocError>
    ensures { OnOk result (out.new.items ≡ out.old.items ++ attendee_text attendee.now) }
{
    put(out, "  ATTENDEE ")?;
    put(out, attendee.address.as_str())?;
    put(out, " ")?;
    put(out, attendee.partstat.as_str())?;
    put(out, " ")?;
    put_shown_number(out, attendee.percent)?;
    put(out, "\n")
}

fn put_shown_moment(out: &mut Vec<u8>, moment: &Option<Moment>) -> Result<(), AllocError>
    ensures { OnOk result (out.new.items ≡ out.old.items ++ shown shown_moment moment.now) }
{
    match moment {
        Some(moment) => put_moment(out, moment),
        None => put(out, "-"),
    }
}

fn put_moment(out: &mut Vec<u8>, moment: &Moment) -> Result<(), AllocError>
    ensures { OnOk result (out.new.items ≡ out.old.items ++ shown_moment moment.now) }
{
    if let Moment::Zoned(zone, _) = moment {
        put(out, "TZID=")?;
        put(out, zone.as_str())?;
        put(out, ":")?;
    }
    write_moment(moment, out)
}

fn put_status(out: &mut Vec<u8>, status: Option<Status>) -> Result<(), AllocError>
    ensures { OnOk result (out.new.items ≡ out.old.items ++ shown status_text status) }
{
    match status {
        Some(status) => put(out, status.as_str()),
        None => put(out, "-"),
    }
}

fn put_shown_number(out: &mut Vec<u8>, number: Option<u8>) -> Result<(), AllocError>
    ensures { OnOk result (out.new.items ≡ out.old.items ++ shown decimal number) }
{
    match number {
        Some(number) => put_number(out, number as u32),
        None => put(out, "-"),
    }
}

fn put_number(out: &mut Vec<u8>, number: u32) -> Result<(), AllocError>
    ensures { OnOk result (out.new.items ≡ out.old.items ++ decimal number) }
{
    // Most numbers have one digit.
    if number < 10 {
        return put_digit(out, number as u8);
    }
    let mut digits = Buffer::new();
    put(out, digits.format(number))
}

fn put_digit(out: &mut Vec<u8>, digit: u8) -> Result<(), AllocError>
    requires { digit < 10 }
    ensures { OnOk result (out.new.items ≡ out.old.items ++ decimal digit) }
{
    out.push(b'0' + digit)?;
    Ok(())
}

fn put(out: &mut Vec<u8>, text: &str) -> Result<(), AllocError>
    ensures { OnOk result (out.new.items ≡ out.old.items ++ text.now) }
{
    out.extend_from_slice(text.as_bytes())
}
