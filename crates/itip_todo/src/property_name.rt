ghost use Rattle.std.specs.Prelude.{◌≡◌, ◌==◌};
ghost use Rattle.std.specs.List.{list_any};
ghost use Rattle.itip_todo.specs.Table.{has_period};

use itip_lines::{LineList, SeenLine};
use std::fmt;

/// The properties of a to-do that are distinguished by name, in canonical order (RFC 5545 3.8; `X-DESK-BASE` is our own).
#[derive(Clone, Copy, Debug, PartialEq, Eq)]
pub enum PropertyName {
    Uid,
    DtStamp,
    Sequence,
    /// `X-DESK-BASE`: the effective sequence of an instance or range item, if it exceeds its own.
    DeskBase,
    RecurrenceId,
    DtStart,
    Due,
    Status,
    PercentComplete,
    Priority,
    Summary,
    Organizer,
    Attendee,
    RRule,
    RDate,
    ExDate,
    /// Any other property.
    Others,
}

impl PropertyName {
    ghost use Rattle.itip_todo.specs.Table.{property_named, property_of, name_text, IsSpelled};

    /// The property that a line is read as. RDATE with a `/` in its value is read as `Others` (our own rule).
    #[tactic(auto, unfolding(crate::specs::Table::property_of))]
    pub fn of_line(line: &SeenLine<'_>) -> PropertyName
        ensures { result ≡ property_of line.now }
    {
        let property = PropertyName::named(line.name());
        if property == PropertyName::RDate && has_slash(line.value()) {
            return PropertyName::Others;
        }
        property
    }

    /// The name as it is written; empty for `Others`.
    pub(crate) fn as_str(self) -> &'static str
        ensures { result.now ≡ name_text self }
    {
        match self {
            PropertyName::Uid => "UID",
            PropertyName::DtStamp => "DTSTAMP",
            PropertyName::Sequence => "SEQUENCE",
            PropertyName::DeskBase => "X-DESK-BASE",
            PropertyName::RecurrenceId => "RECURRENCE-ID",
            PropertyName::DtStart => "DTSTART",
            PropertyName::Due => "DUE",
            PropertyName::Status => "STATUS",
            PropertyName::PercentComplete => "PERCENT-COMPLETE",
            PropertyName::Priority => "PRIORITY",
            PropertyName::Summary => "SUMMARY",
            PropertyName::Organizer => "ORGANIZER",
            PropertyName::Attendee => "ATTENDEE",
            PropertyName::RRule => "RRULE",
            PropertyName::RDate => "RDATE",
            PropertyName::ExDate => "EXDATE",
            PropertyName::Others => "",
        }
    }

    /// The property with this name, given in upper case; `Others` for any other name.
    pub fn named(name: &str) -> PropertyName
        ensures property { result ≡ property_named name.now }
        ensures spelled { IsSpelled result name.now }
    {
        if name == "UID" {
            PropertyName::Uid
        } else if name == "DTSTAMP" {
            PropertyName::DtStamp
        } else if name == "SEQUENCE" {
            PropertyName::Sequence
        } else if name == "X-DESK-BASE" {
            PropertyName::DeskBase
        } else if name == "RECURRENCE-ID" {
            PropertyName::RecurrenceId
        } else if name == "DTSTART" {
            PropertyName::DtStart
        } else if name == "DUE" {
            PropertyName::Due
        } else if name == "STATUS" {
            PropertyName::Status
        } else if name == "PERCENT-COMPLETE" {
            PropertyName::PercentComplete
        } else if name == "PRIORITY" {
            PropertyName::Priority
        } else if name == "SUMMARY" {
            PropertyName::Summary
        } else if name == "ORGANIZER" {
            PropertyName::Organizer
        } else if name == "ATTENDEE" {
            PropertyName::Attendee
        } else if name == "RRULE" {
            PropertyName::RRule
        } else if name == "RDATE" {
            PropertyName::RDate
        } else if name == "EXDATE" {
            PropertyName::ExDate
        } else {
            PropertyName::Others
        }
    }
}

impl fmt::Display for PropertyName {
    fn fmt<W: fmt::Write>(&self, f: &mut fmt::Formatter<W>) -> fmt::Result {
        match self {
            PropertyName::Others => f.write_str("another property"),
            _ => f.write_str(self.as_str()),
        }
    }
}

/// Whether the lines of other properties have an RDATE: one with a `/` in its value, a period (RFC 5545 3.8.5.2).
pub fn has_period(others: &LineList) -> bool
    ensures { result ≡ has_period others.now }
{
    others.has("RDATE")
}

fn has_slash(text: &str) -> bool
    ensures { result ≡ list_any (λ c. c == 47) text.now }
{
    text.as_bytes().iter().any(|c| *c == b'/')
}
