//! Which rows are asked for.
ghost use Rattle.std.specs.Prelude.{◌≡◌, ◌↔◌};
ghost use Rattle.std.specs.List.{list_any};
ghost use Rattle.std.specs.Option.{option_copied, option_map};
ghost use Rattle.itip_view.specs.Showing.{ShowsNamed};
ghost use Rattle.itip_todo.specs.Participation.{same_text};
ghost use Rattle.itip_todo.specs.Table.{attendee_key};
ghost use Rattle.itip_view.specs.Wanted.{is_done, is_asked, shows_named, is_closed, is_over, is_due_before, is_overdue, takes, wants};
ghost use Rattle.itip_view.specs.Wanting.{Wants};
ghost use Rattle.itip_view.specs.declared.row.Row.{Row};

use crate::row::{Row, ShownAttendee};
use itip_moment::Moment;
use itip_todo::{PartStat, Status};

/// Which rows are asked for: those that meet all of these conditions.
#[derive(Clone, Copy, Debug, Drop)]
pub struct Wanted<'a> {
    /// The address of an attendee that the row has to show; ASCII case is ignored.
    pub attendee: Option<&'a str>,
    /// Whether only open rows are asked for: those whose STATUS is neither COMPLETED nor CANCELLED and that, if an attendee is named,
    /// show them with a PARTSTAT that is none of COMPLETED, DECLINED and DELEGATED.
    pub is_open: bool,
    /// A day, counted from 1970-01-01, before which the row is due: it has a DUE whose day, as written, is before this one.
    pub due_before: Option<i32>,
}

impl<'a> Wanted<'a> {
    /// Asks for all rows.
    pub fn all() -> Wanted<'a>
        ensures { (row : Row) → Wants result row }
    {
        Wanted {
            attendee: None,
            is_open: false,
            due_before: None,
        }
    }

    /// Asks for the rows that show the attendee of an address, or for all rows if there is no address.
    pub fn showing(attendee: Option<&'a str>) -> Wanted<'a>
        ensures { (row : Row) → Wants result row ↔ ShowsNamed (option_map (λ a. a.now) attendee.entry) row }
    {
        Wanted {
            attendee,
            is_open: false,
            due_before: None,
        }
    }

    /// Whether a row with this DUE and this STATUS is asked for, provided that it shows the attendee who is named.
    pub(crate) fn takes(&self, due: &Option<Moment>, status: Option<Status>) -> bool
        ensures { result ≡ takes self.now due.now status }
    {
        is_due_before(due, self.due_before) && !(self.is_open && is_over(status))
    }

    /// Whether a row is asked for. It takes no memory.
    pub(crate) fn has(&self, row: &Row) -> bool
        ensures { result ≡ wants self.now row.now }
    {
        shows_named(row.attendees.as_slice(), self.attendee, self.is_open)
            && is_due_before(&row.due, self.due_before)
            && !(self.is_open && is_over(row.status))
    }
}

/// Whether a row is overdue on a day, counted from 1970-01-01: it is open, and has a DUE whose day, as written, is before this one.
pub fn is_overdue(row: &Row, today: i32) -> bool
    ensures { result ≡ is_overdue today row.now }
{
    is_due_before(&row.due, Some(today)) && !is_over(row.status)
}

/// Whether one of these is the attendee who is named, with something left to do if `is_open`; true if none is named.
fn shows_named(attendees: &[ShownAttendee], named: Option<&str>, is_open: bool) -> bool
    ensures { result ≡ shows_named is_open (option_copied named.entry) attendees.now }
{
    match named {
        Some(address) => shows(attendees, address, is_open),
        None => true,
    }
}

fn shows(attendees: &[ShownAttendee], address: &str, is_open: bool) -> bool
    ensures { result ≡ list_any (is_asked is_open address.now) attendees.now }
{
    attendees
        .iter()
        .any(|attendee| is_asked(attendee, address, is_open))
}

/// Whether an attendee is that of an address, with something left to do if only open rows are asked for.
pub(crate) fn is_asked(attendee: &ShownAttendee, address: &str, is_open: bool) -> bool
    ensures { result ≡ is_asked is_open address.now attendee.now }
{
    is_named(attendee.address.as_str(), address) && !(is_open && is_done(attendee.partstat))
}

/// Whether two addresses are those of one attendee: ASCII case is ignored.
pub(crate) fn is_named(shown: &str, address: &str) -> bool
    ensures { result ≡ same_text (attendee_key shown.now) (attendee_key address.now) }
{
    shown.eq_ignore_ascii_case(address)
}

/// Whether an attendee with this PARTSTAT has nothing left to do.
fn is_done(partstat: PartStat) -> bool
    ensures { result ≡ is_done partstat }
{
    matches!(
        partstat,
        PartStat::Completed | PartStat::Declined | PartStat::Delegated
    )
}

/// Whether a row with this STATUS is completed or cancelled.
fn is_over(status: Option<Status>) -> bool
    ensures { result ≡ is_over status }
{
    match status {
        Some(status) => is_closed(status),
        None => false,
    }
}

fn is_closed(status: Status) -> bool
    ensures { result ≡ is_closed status }
{
    matches!(status, Status::Completed | Status::Cancelled)
}

/// Whether DUE is before the day that is named; true if none is.
fn is_due_before(due: &Option<Moment>, day: Option<i32>) -> bool
    ensures { result ≡ is_due_before day due.now }
{
    let Some(day) = day else {
        return true;
    };
    match due {
        Some(due) => due.day() < day,
        None => false,
    }
}
