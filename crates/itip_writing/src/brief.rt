//! A to-do of which only a few properties are written.
ghost use Rattle.std.specs.Prelude.{◌≡◌, ◌++◌, ◌∷◌, [], map, OnOk};
ghost use Rattle.std.specs.Fmt.{decimal};
ghost use Rattle.itip_moment.specs.Written.{stamp_text};
ghost use Rattle.itip_todo.specs.StatusText.{status_text};
ghost use Rattle.itip_todo.specs.Written.{bare, contents_octets, optional, plain, property_line};
ghost use Rattle.itip_todo.specs.declared.property_name.PropertyName.TheVariants as name;
ghost use Rattle.itip_writing.specs.Sent.{brief_parts, has_sequence, sent_head, sent_todo, sequence_lines};

use crate::rid::write_rid;
use itip_items::Method;
use itip_lines::write_parts;
use itip_moment::{Moment, Stamp, write_stamp};
use itip_todo::{Property, PropertyName, Status, Uid, write_property};
use std::alloc::AllocError;

/// The to-do of an answer, a refresh request, a cancellation or a removal, with the few properties that are written of it.
///
/// Unlike a [`Todo`](itip_todo::Todo) it may have lines that are too long to be read back, if an address or a zone is nearly as
/// long as a line may be.
#[derive(Clone, Copy, Drop)]
pub(crate) struct BriefTodo<'a> {
    /// UID.
    pub uid: &'a Uid,
    /// DTSTAMP.
    pub stamp: Stamp,
    /// SEQUENCE; a REFRESH is written without it.
    pub seq: u32,
    /// RECURRENCE-ID.
    pub rid: Option<&'a Moment>,
    /// Whether RECURRENCE-ID has RANGE=THISANDFUTURE.
    pub range: bool,
    /// STATUS.
    pub status: Option<Status>,
    /// PERCENT-COMPLETE.
    pub percent: Option<u8>,
    /// ORGANIZER with its parameters.
    pub organizer: &'a Option<Property>,
    /// ATTENDEE with its parameters, in order.
    pub attendees: &'a [Property],
}

/// Appends the lines of a to-do under a method, from BEGIN:VTODO to END:VTODO (RFC 5546 3.4), in canonical order.
pub(crate) fn write_brief(
    method: Method,
    todo: &BriefTodo<'_>,
    out: &mut Vec<u8>,
) -> Result<(), AllocError>
    ensures { OnOk result (out.new.items ≡ out.old.items ++ contents_octets (sent_todo method (brief_parts todo.now))) }
{
    write_value("BEGIN", b"VTODO", out)?;
    write_head(method, todo, out)?;
    write_rid(todo.range, todo.rid, out)?;
    write_status(todo.status, out)?;
    write_percent(todo.percent, out)?;
    write_organizer(todo.organizer, out)?;
    write_attendees(todo.attendees, out)?;
    write_value("END", b"VTODO", out)
}

/// Appends UID, DTSTAMP and, if the method has it, SEQUENCE.
fn write_head(method: Method, todo: &BriefTodo<'_>, out: &mut Vec<u8>) -> Result<(), AllocError>
    ensures { OnOk result (out.new.items ≡ out.old.items ++ contents_octets (sent_head method (brief_parts todo.now))) }
{
    write_value("UID", todo.uid.as_str().as_bytes(), out)?;
    write_dtstamp(&todo.stamp, out)?;
    write_sequence(method, todo.seq, out)
}

fn write_dtstamp(stamp: &Stamp, out: &mut Vec<u8>) -> Result<(), AllocError>
    ensures { OnOk result (out.new.items ≡ out.old.items ++ contents_octets (plain name.DtStamp (stamp_text stamp.now) ∷ [])) }
{
    let mut text = Vec::new(*out.allocator());
    write_stamp(stamp, &mut text)?;
    write_value("DTSTAMP", text.as_slice(), out)
}

fn write_sequence(method: Method, sequence: u32, out: &mut Vec<u8>) -> Result<(), AllocError>
    ensures { OnOk result (out.new.items ≡ out.old.items ++ contents_octets (sequence_lines method sequence)) }
{
    if has_sequence(method) {
        write_number("SEQUENCE", sequence, out)
    } else {
        Ok(())
    }
}

/// Whether a message of this method has SEQUENCE: a REFRESH has none (RFC 5546 3.4.6).
fn has_sequence(method: Method) -> bool
    ensures { result ≡ has_sequence method }
{
    method != Method::Refresh
}

fn write_status(status: Option<Status>, out: &mut Vec<u8>) -> Result<(), AllocError>
    ensures { OnOk result (out.new.items ≡ out.old.items ++ contents_octets (optional (λ s. plain name.Status (status_text s)) status)) }
{
    match status {
        Some(status) => write_value("STATUS", status.as_str().as_bytes(), out),
        None => Ok(()),
    }
}

fn write_percent(percent: Option<u8>, out: &mut Vec<u8>) -> Result<(), AllocError>
    ensures { OnOk result (out.new.items
        ≡ out.old.items ++ contents_octets (optional (λ n. plain name.PercentComplete (decimal n)) percent)) }
{
    match percent {
        Some(percent) => write_number("PERCENT-COMPLETE", percent as u32, out),
        None => Ok(()),
    }
}

fn write_number(name: &str, number: u32, out: &mut Vec<u8>) -> Result<(), AllocError>
    ensures { OnOk result (out.new.items ≡ out.old.items ++ contents_octets (bare name.now (decimal number) ∷ [])) }
{
    let digits = number.to_string(*out.allocator())?;
    write_value(name, digits.as_str().as_bytes(), out)
}

fn write_organizer(organizer: &Option<Property>, out: &mut Vec<u8>) -> Result<(), AllocError>
    ensures { OnOk result (out.new.items ≡ out.old.items ++ contents_octets (optional (property_line name.Organizer) organizer.now)) }
{
    match organizer {
        Some(organizer) => write_property(PropertyName::Organizer, organizer, out),
        None => Ok(()),
    }
}

fn write_attendees(attendees: &[Property], out: &mut Vec<u8>) -> Result<(), AllocError>
    ensures { OnOk result (out.new.items ≡ out.old.items ++ contents_octets (map (property_line name.Attendee) attendees.now)) }
{
    for attendee in attendees {
        write_property(PropertyName::Attendee, attendee, out)?;
    }
    Ok(())
}

/// Appends a line without parameters.
fn write_value(name: &str, value: &[u8], out: &mut Vec<u8>) -> Result<(), AllocError>
    ensures { OnOk result (out.new.items ≡ out.old.items ++ contents_octets (bare name.now value.now ∷ [])) }
{
    write_parts(name, &[], value, out)
}
