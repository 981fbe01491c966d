//! What the lines so far say of a to-do.
ghost use Rattle.std.specs.Prelude.{◌≡◌, [], None};

use crate::collected::Collected;
use crate::property::Property;
use crate::status::Status;
use crate::uid::Uid;
use itip_lines::{LineList, Text, TextList};
use itip_moment::{Moment, Stamp};
use std::alloc::Global;
use std::collections::BTreeSet;

/// The properties of the lines so far.
#[derive(Drop)]
pub(crate) struct Draft {
    pub uid: Option<Uid>,
    pub stamp: Option<Stamp>,
    pub seq: Option<u32>,
    pub base: Option<u32>,
    pub rid: Option<Moment>,
    pub range: bool,
    pub start: Option<Moment>,
    pub due: Option<Moment>,
    pub status: Option<Status>,
    pub percent: Option<u8>,
    pub priority: Option<u8>,
    pub summary: Option<Property>,
    pub organizer: Option<Property>,
    pub attendees: Collected,
    /// The keys of the attendees.
    pub keys: BTreeSet<Text>,
    pub rule: TextList,
    pub rdates: BTreeSet<Moment>,
    pub exdates: BTreeSet<Moment>,
    pub others: LineList,
}

impl Draft {
    ghost use Rattle.std.specs.Prelude.{List};
    ghost use Rattle.itip_lines.specs.declared.line.Line.{Line};
    ghost use Rattle.itip_todo.specs.declared.property_name.PropertyName.{PropertyName};
    ghost use Rattle.itip_todo.specs.Drafts.{IsDraftOf};

    /// The draft before the first line.
    pub(crate) fn new(alloc: Global) -> Draft
        ensures { IsDraftOf (λ (p : PropertyName). []) result }
    {
        Draft {
            uid: None,
            stamp: None,
            seq: None,
            base: None,
            rid: None,
            range: false,
            start: None,
            due: None,
            status: None,
            percent: None,
            priority: None,
            summary: None,
            organizer: None,
            attendees: Collected::new(alloc),
            keys: BTreeSet::new(alloc),
            rule: TextList::new(alloc),
            rdates: BTreeSet::new(alloc),
            exdates: BTreeSet::new(alloc),
            others: LineList::new(alloc),
        }
    }
}
