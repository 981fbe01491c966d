//! The days and dates of rows.
ghost use Rattle.std.specs.Prelude.{◌≡◌, ◌↔◌, IsTrue, IfOk, MatchOption};
ghost use Rattle.itip_moment.specs.Shift.{CanShift};
ghost use Rattle.itip_view.specs.Rows.{day_of, instance_day, days_to, seconds_to, IsMoved, IsDueOf, IsDateFrom, IsStartFrom, IsDueFrom};
ghost use Rattle.itip_view.specs.Standing.{HaveOneForm};

use crate::NoMemory;
use itip_moment::Moment;
use itip_todo::Todo;

/// The day of a to-do as a whole: that of DTSTART, else of DUE.
pub(crate) fn day_of(todo: &Todo) -> Option<i32>
    ensures { result ≡ day_of todo.now.start todo.now.due }
{
    match (&todo.start, &todo.due) {
        (Some(start), _) => Some(start.day()),
        (None, Some(due)) => Some(due.day()),
        (None, None) => None,
    }
}

/// The day of an instance: that of DTSTART, else of its recurrence id.
pub(crate) fn instance_day(at: &Moment, todo: &Todo) -> Option<i32>
    ensures { result ≡ instance_day at.now todo.now.start }
{
    match &todo.start {
        Some(start) => Some(start.day()),
        None => Some(at.day()),
    }
}

/// DUE of an occurrence: that of the series, moved by the distance from DTSTART to the occurrence.
///
/// `None` if the series has no DUE, if DTSTART and the occurrence differ in form or zone, or if DUE can't be moved so.
pub(crate) fn due_of(
    due: &Option<Moment>,
    start: &Moment,
    at: &Moment,
) -> Result<Option<Moment>, NoMemory>
    ensures { IfOk result (IsDueOf due.now start.now at.now) }
{
    let Some(due) = due else {
        return Ok(None);
    };
    if !have_one_form(start, at) {
        return Ok(None);
    }
    moved(due, start, at)
}

/// START of an occurrence that a range item rules: the item's DTSTART, moved by the distance from its id to the occurrence;
/// without DTSTART the occurrence itself. `None` if DTSTART has another form or zone than the id, or can't be moved so.
pub(crate) fn start_from(
    start: &Option<Moment>,
    id: &Moment,
    at: &Moment,
) -> Result<Option<Moment>, NoMemory>
    ensures { IfOk result (IsStartFrom start.now id.now at.now) }
{
    match start {
        Some(start) => date_from(start, id, at),
        None => Ok(Some(at.clone()?)),
    }
}

/// DUE of an occurrence that a range item rules: that of the item, moved by the distance from its id to the occurrence.
/// `None` if the item has no DUE, or one of another form or zone than the id, or if it can't be moved so.
pub(crate) fn due_from(
    due: &Option<Moment>,
    id: &Moment,
    at: &Moment,
) -> Result<Option<Moment>, NoMemory>
    ensures { IfOk result (IsDueFrom due.now id.now at.now) }
{
    match due {
        Some(due) => date_from(due, id, at),
        None => Ok(None),
    }
}

/// A date of a range item as an occurrence shows it; `None` if its form or zone isn't that of the id, or it can't be moved so.
fn date_from(date: &Moment, id: &Moment, at: &Moment) -> Result<Option<Moment>, NoMemory>
    ensures { IfOk result (IsDateFrom date.now id.now at.now) }
{
    if !have_one_form(id, date) {
        return Ok(None);
    }
    moved(date, id, at)
}

/// A moment, moved by the distance from one moment to another; `None` if the result is outside the years 0000 to 9999, or if a date
/// would be moved by part of a day.
fn moved(date: &Moment, from: &Moment, at: &Moment) -> Result<Option<Moment>, NoMemory>
    ensures { IfOk result (λ moved. MatchOption moved
        (CanShift date.now (days_to from.now at.now) (seconds_to from.now at.now) → ⊥) (IsMoved date.now from.now at.now)) }
{
    let mut moved = date.clone()?;
    if moved.shift(days_to(from, at), seconds_to(from, at)) {
        Ok(Some(moved))
    } else {
        Ok(None)
    }
}

/// Whether two moments have the same form and the same zone.
pub fn have_one_form(start: &Moment, at: &Moment) -> bool
    ensures { IsTrue result ↔ HaveOneForm start.now at.now }
{
    match (start, at) {
        (Moment::Zoned(zone, _), Moment::Zoned(other, _)) => zone.as_str() == other.as_str(),
        _ => start.form() == at.form(),
    }
}

fn days_to(start: &Moment, at: &Moment) -> i64
    ensures { result ≡ days_to start.now at.now }
{
    at.day() as i64 - start.day() as i64
}

fn seconds_to(start: &Moment, at: &Moment) -> i64
    ensures { result ≡ seconds_to start.now at.now }
{
    at.second().unwrap_or(0) as i64 - start.second().unwrap_or(0) as i64
}
