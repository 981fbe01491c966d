//! A to-do.
ghost use Rattle.std.specs.Prelude.{◌≡◌};
ghost use Rattle.itip_todo.specs.Lawful.{IsLawful, IsLawful-prop};

use crate::copies::{copy_head, copy_lists};
use crate::property::Property;
use crate::status::Status;
use crate::uid::Uid;
use itip_lines::{LineList, ListOf, NoMemory, TextList};
use itip_moment::{Moment, Stamp};

/// A to-do (RFC 5545 3.6.2): the properties that scheduling reads are fields, and all others are kept as lines.
///
/// A to-do is lawful: its values, their counts and their order follow the table of properties, no two attendees have
/// the same address, and each line that it is written as is a lawful content line.
#[derive(Debug, Drop)]
pub struct Todo {
    /// UID, not empty.
    pub uid: Uid,
    /// DTSTAMP.
    pub stamp: Stamp,
    /// SEQUENCE, 0 if absent, at most 2,147,483,647.
    pub seq: u32,
    /// X-DESK-BASE, at most 2,147,483,647.
    pub base: Option<u32>,
    /// RECURRENCE-ID.
    pub rid: Option<Moment>,
    /// Whether RECURRENCE-ID has RANGE=THISANDFUTURE: the to-do is about that instance and all after it (RFC 5545 3.2.13).
    pub range: bool,
    /// DTSTART.
    pub start: Option<Moment>,
    /// DUE.
    pub due: Option<Moment>,
    /// STATUS.
    pub status: Option<Status>,
    /// PERCENT-COMPLETE, at most 100.
    pub percent: Option<u8>,
    /// PRIORITY, at most 9.
    pub priority: Option<u8>,
    /// SUMMARY with its parameters.
    pub summary: Option<Property>,
    /// ORGANIZER with its parameters; the address is not empty.
    pub organizer: Option<Property>,
    /// ATTENDEE with its parameters, in order of appearance, at most 2,000; no address is empty, and no two are the same, ignoring
    /// ASCII case.
    pub attendees: ListOf<Property>,
    /// The values of RRULE as they are written, in order of appearance.
    pub rule: TextList,
    /// The moments of RDATE, each once, in ascending order.
    pub rdates: ListOf<Moment>,
    /// The moments of EXDATE, each once, in ascending order.
    pub exdates: ListOf<Moment>,
    /// The lines of all other properties, unchanged, and those of RDATE with a `/` in the value.
    pub others: LineList,
    pub ghost lawful: { IsLawful (record {
      uid = uid;
      stamp = stamp;
      seq = seq;
      base = base;
      rid = rid;
      range = range;
      start = start;
      due =
          due;
      status = status;
      percent = percent;
      priority = priority;
      summary = summary;
      organizer = organizer;
      attendees = attendees;
      rule = rule;
      rdates = rdates;
      exdates = exdates;
      others = others;
    }) } by { IsLawful-prop (record {
      uid = uid;
      stamp = stamp;
      seq = seq;
      base = base;
      rid = rid;
      range = range;
      start = start;
      due = due;
      status = status;
      percent = percent;
      priority = priority;
      summary = summary;
      organizer = organizer;
      attendees = attendees;
      rule =
          rule;
      rdates = rdates;
      exdates = exdates;
      others = others;
    }) },
}

impl Clone for Todo {
    ghost is_clone = { λ todo copy. copy ≡ todo };

    fn clone(&self) -> Result<Todo, NoMemory> {
        let lists = copy_lists(self)?;
        let head = copy_head(self)?;
        let (uid, times, subject) = head;
        Ok(Todo {
            uid,
            stamp: self.stamp,
            seq: self.seq,
            base: self.base,
            rid: times.rid,
            range: self.range,
            start: times.start,
            due: times.due,
            status: self.status,
            percent: self.percent,
            priority: self.priority,
            summary: subject.summary,
            organizer: subject.organizer,
            attendees: subject.attendees,
            rule: lists.rule,
            rdates: lists.rdates,
            exdates: lists.exdates,
            others: lists.others,
        })
    }
}
