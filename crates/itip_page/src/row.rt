//! A row of the list as a row of a table.
ghost use Rattle.std.specs.Prelude.{◌≡◌, ◌++◌, OnOk, OnErr};
ghost use Rattle.itip_page.specs.RowMarkup.{row_markup, opening_markup, dated_markup, done_markup, name_cell, name_markup};
ghost use Rattle.itip_page.specs.RowMarkup.{name_of, named, when_cell, start_markup, repeats_markup, due_cell, due_markup, late_markup};
ghost use Rattle.itip_page.specs.RowMarkup.{status_cell, status_words, progress_cell, bar_markup, own_markup};

use crate::dates::put_moment;
use crate::escape::put_escaped;
use crate::put::{put, put_number};
use crate::value::put_value;
use crate::who::put_who;
use itip_moment::{Day, Moment};
use itip_todo::Status;
use itip_view::{Row, RowForm, RowId, is_overdue};
use std::alloc::AllocError;

/// More bytes than most rows have.
const USUAL: usize = 1_024;

/// Rows of a table, with the day that is taken as today.
///
/// A row has six cells:
///
/// - the value of SUMMARY, or of the UID if that is absent or empty; the raw UID is the title of the cell;
/// - START, or else the moment of the instance or occurrence; `repeats, shown once` if the recurrence isn't expanded;
/// - DUE, and `overdue` if an open row is due before today;
/// - STATUS;
/// - PROGRESS as a bar and a number, and PERCENT-COMPLETE;
/// - the attendees with their answers, and the percentage that each told.
///
/// A cell that has none of these is empty.
#[derive(Clone, Copy, Debug)]
pub struct PageRows {
    pub today: Day,
}

impl RowForm for PageRows {
    ghost octets = { λ form row. row_markup form.today.number row };

    /// Appends a row. If an allocation fails, `out` is unchanged.
    fn put(&self, row: &Row, out: &mut Vec<u8>) -> Result<(), AllocError>
        ensures ok { OnOk result (out.new.items ≡ out.old.items ++ row_markup self.now.today.number row.now) }
        ensures err { OnErr result (out.new.items ≡ out.old.items) }
    {
        let mut markup = Vec::with_capacity(*out.allocator(), USUAL)?;
        put_row(&mut markup, row, self.today)?;
        out.extend_from_slice(markup.as_slice())
    }
}

/// Appends a row. If an allocation fails, part of it may have been appended.
fn put_row(out: &mut Vec<u8>, row: &Row, today: Day) -> Result<(), AllocError>
    ensures { OnOk result (out.new.items ≡ out.old.items ++ row_markup today.number row.now) }
{
    let is_late = is_overdue(row, today.number);
    put_opening(out, is_late)?;
    put_dated(out, row, is_late)?;
    put_done(out, row)?;
    put(out, "</tr>\n")
}

fn put_opening(out: &mut Vec<u8>, is_late: bool) -> Result<(), AllocError>
    ensures { OnOk result (out.new.items ≡ out.old.items ++ opening_markup is_late) }
{
    if is_late {
        put(out, "<tr class=\"late\">")
    } else {
        put(out, "<tr>")
    }
}

/// Appends what is to be done, and when.
fn put_dated(out: &mut Vec<u8>, row: &Row, is_late: bool) -> Result<(), AllocError>
    ensures { OnOk result (out.new.items ≡ out.old.items ++ dated_markup is_late row.now) }
{
    put_name_cell(out, row)?;
    put_when(out, row)?;
    put_due(out, &row.due, is_late)
}

/// Appends how far it is, and with whom.
fn put_done(out: &mut Vec<u8>, row: &Row) -> Result<(), AllocError>
    ensures { OnOk result (out.new.items ≡ out.old.items ++ done_markup row.now) }
{
    put_status(out, row.status)?;
    put_progress(out, row)?;
    put_who(out, row.attendees.as_slice())
}

fn put_name_cell(out: &mut Vec<u8>, row: &Row) -> Result<(), AllocError>
    ensures { OnOk result (out.new.items ≡ out.old.items ++ name_cell row.now) }
{
    let uid = row.uid.as_str().as_bytes();
    put(out, "<th scope=\"row\" title=\"")?;
    put_escaped(out, uid)?;
    put(out, "\"><bdi>")?;
    put_name(out, row)?;
    put(out, "</bdi></th>")
}

fn put_name(out: &mut Vec<u8>, row: &Row) -> Result<(), AllocError>
    ensures { OnOk result (out.new.items ≡ out.old.items ++ name_markup row.now) }
{
    put_value(out, name_of(row))
}

/// The SUMMARY, or the UID if that is absent or empty.
fn name_of(row: &Row) -> &[u8]
    ensures { result.now ≡ name_of row.now.summary row.now.uid }
{
    let uid = row.uid.as_str().as_bytes();
    match &row.summary {
        Some(summary) => named(summary.as_str().as_bytes(), uid),
        None => uid,
    }
}

fn named<'a>(summary: &'a [u8], uid: &'a [u8]) -> &'a [u8]
    ensures { result.now ≡ named summary.now uid.now }
{
    match summary {
        [] => uid,
        _ => summary,
    }
}

fn put_when(out: &mut Vec<u8>, row: &Row) -> Result<(), AllocError>
    ensures { OnOk result (out.new.items ≡ out.old.items ++ when_cell row.now) }
{
    put(out, "<td>")?;
    put_start(out, &row.start, &row.id)?;
    put_repeats(out, &row.id)?;
    put(out, "</td>")
}

/// Appends the start, or the moment of an instance or occurrence that has none.
fn put_start(out: &mut Vec<u8>, start: &Option<Moment>, id: &RowId) -> Result<(), AllocError>
    ensures { OnOk result (out.new.items ≡ out.old.items ++ start_markup start.now id.now) }
{
    match (start, id) {
        (Some(start), _) => put_moment(out, start),
        (None, RowId::At(moment)) => put_moment(out, moment),
        (None, RowId::Single | RowId::Opaque) => Ok(()),
    }
}

fn put_repeats(out: &mut Vec<u8>, id: &RowId) -> Result<(), AllocError>
    ensures { OnOk result (out.new.items ≡ out.old.items ++ repeats_markup id.now) }
{
    match id {
        RowId::Opaque => put(out, " <small>repeats, shown once</small>"),
        RowId::Single | RowId::At(_) => Ok(()),
    }
}

fn put_due(out: &mut Vec<u8>, due: &Option<Moment>, is_late: bool) -> Result<(), AllocError>
    ensures { OnOk result (out.new.items ≡ out.old.items ++ due_cell is_late due.now) }
{
    put(out, "<td>")?;
    if let Some(due) = due {
        put_moment(out, due)?;
    }
    put_late(out, is_late)?;
    put(out, "</td>")
}

fn put_late(out: &mut Vec<u8>, is_late: bool) -> Result<(), AllocError>
    ensures { OnOk result (out.new.items ≡ out.old.items ++ late_markup is_late) }
{
    if is_late {
        put(out, " <strong>overdue</strong>")
    } else {
        Ok(())
    }
}

fn put_status(out: &mut Vec<u8>, status: Option<Status>) -> Result<(), AllocError>
    ensures { OnOk result (out.new.items ≡ out.old.items ++ status_cell status) }
{
    put(out, "<td>")?;
    put(out, status_words(status))?;
    put(out, "</td>")
}

fn status_words(status: Option<Status>) -> &'static str
    ensures { result.now ≡ status_words status }
{
    match status {
        None => "",
        Some(Status::NeedsAction) => "needs action",
        Some(Status::Completed) => "completed",
        Some(Status::InProcess) => "in process",
        Some(Status::Cancelled) => "cancelled",
    }
}

fn put_progress(out: &mut Vec<u8>, row: &Row) -> Result<(), AllocError>
    ensures { OnOk result (out.new.items ≡ out.old.items ++ progress_cell row.now) }
{
    put(out, "<td>")?;
    put_bar(out, row.progress)?;
    put_own(out, row.percent)?;
    put(out, "</td>")
}

/// Appends how far the attendees are, as a bar and a number.
fn put_bar(out: &mut Vec<u8>, progress: Option<u8>) -> Result<(), AllocError>
    ensures { OnOk result (out.new.items ≡ out.old.items ++ bar_markup progress) }
{
    let Some(progress) = progress else {
        return Ok(());
    };
    put(out, "<span class=\"bar\"><i style=\"width:")?;
    put_number(out, progress as usize)?;
    put(out, "%\"></i></span> ")?;
    put_number(out, progress as usize)?;
    put(out, "%")
}

/// Appends how far it is according to the organizer.
fn put_own(out: &mut Vec<u8>, percent: Option<u8>) -> Result<(), AllocError>
    ensures { OnOk result (out.new.items ≡ out.old.items ++ own_markup percent) }
{
    let Some(percent) = percent else {
        return Ok(());
    };
    put(out, " <small>organizer: ")?;
    put_number(out, percent as usize)?;
    put(out, "%</small>")
}
