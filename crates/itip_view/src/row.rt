//! A row of the list.
use itip_lines::{ListOf, Text};
use itip_moment::Moment;
use itip_todo::{PartStat, Status, Uid};

/// What identifies a row, besides its UID.
#[derive(Debug, Drop)]
pub enum RowId {
    /// The one row of a to-do that doesn't recur.
    Single,
    /// An instance or an occurrence.
    At(Moment),
    /// The one row of a to-do whose recurrence isn't expanded.
    Opaque,
}

/// An attendee as a row shows them.
#[derive(Debug, Drop)]
pub struct ShownAttendee {
    /// The calendar address as the ATTENDEE line has it.
    pub address: Text,
    pub partstat: PartStat,
    /// PERCENT-COMPLETE of the answer that decides, if any.
    pub percent: Option<u8>,
}

/// A row of the task list. SEQUENCE, STATUS, PERCENT-COMPLETE, PRIORITY and SUMMARY are those of the item that governs it. So are
/// START and DUE, except on the row of an occurrence, where they are moved to it.
#[derive(Debug, Drop)]
pub struct Row {
    pub uid: Uid,
    pub id: RowId,
    /// The item's own SEQUENCE, not the effective one.
    pub seq: u32,
    pub status: Option<Status>,
    pub percent: Option<u8>,
    pub priority: Option<u8>,
    pub start: Option<Moment>,
    pub due: Option<Moment>,
    /// The value of SUMMARY.
    pub summary: Option<Text>,
    pub attendees: ListOf<ShownAttendee>,
    /// The mean of the percentages that the attendees show, rounded down; `None` if they show none.
    pub progress: Option<u8>,
}
