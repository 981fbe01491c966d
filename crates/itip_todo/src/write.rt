//! Writing a to-do.
ghost use Rattle.std.specs.Prelude.{◌≡◌, ◌++◌, ◌∷◌, [], List, ℕ, map, OnOk, OnErr, IsOk};
ghost use Rattle.std.specs.Fmt.{decimal};
ghost use Rattle.itip_lines.specs.Room.{HasRoomFor, KeepsRoom};
ghost use Rattle.itip_todo.specs.Written.{content_of, contents_octets, todo_contents, head_contents, bare, plain, moment_line};
ghost use Rattle.itip_todo.specs.Written.{property_line, optional, front_contents, rest_contents};
ghost use Rattle.itip_todo.specs.Octets.{AreReadAs};
ghost use Rattle.itip_todo.specs.UpTo.{AppendsUpTo};
ghost use Rattle.itip_todo.specs.PartsOf.{parts_of};
ghost use Rattle.itip_todo.specs.StatusText.{status_text};
ghost use Rattle.itip_todo.specs.declared.property_name.PropertyName.TheVariants as name;

use crate::property::Property;
use crate::property_name::PropertyName;
use crate::status::Status;
use crate::todo::Todo;
use crate::write_moment::{write_moments, write_optional_moment, write_rid};
use itip_lines::{LineList, TextList, write_parts, write_text};
use itip_moment::stamp_bytes;
use itoa::Buffer;
use std::alloc::AllocError;

/// More octets than most to-dos take.
const USUAL: usize = 512;

/// Appends the canonical lines of a to-do, from BEGIN:VTODO to END:VTODO, which are read back as this to-do.
///
/// If an allocation fails, `out` is left unchanged.
pub fn write_todo(todo: &Todo, out: &mut Vec<u8>) -> Result<(), AllocError>
    ensures ok { OnOk result (out.new.items ≡ out.old.items ++ contents_octets (todo_contents (parts_of todo.now))) }
    ensures read_again { OnOk result ((octets : List ℕ)
        → out.new.items ≡ out.old.items ++ octets → AreReadAs octets todo.now) }
    ensures err { OnErr result (out.new.items ≡ out.old.items) }
{
    let mut text = Vec::with_capacity(*out.allocator(), USUAL)?;
    write_todo_up_to(todo, usize::MAX, &mut text)?;
    out.extend_from_slice(text.as_slice())
}

/// Appends the canonical lines of a to-do, as [`write_todo`] does, as far as a limit on the bytes in `out` allows.
///
/// If `out` would exceed `limit` with all lines, it exceeds it, but some of the lines may be missing: once it has more than `limit`
/// bytes, no line of a list is written. If an allocation fails, a part of the lines may have been appended.
pub fn write_todo_up_to(todo: &Todo, limit: usize, out: &mut Vec<u8>) -> Result<(), AllocError>
    ensures { OnOk result (AppendsUpTo limit (todo_contents (parts_of todo.now)) out.old.items out.new.items) }
{
    write_todo_front(todo, out)?;
    write_todo_rest(todo, limit, out)
}

/// Appends the canonical lines of a to-do from BEGIN:VTODO to ORGANIZER: those of properties that appear at most once.
///
/// If an allocation fails, a part of the lines may have been appended.
pub fn write_todo_front(todo: &Todo, out: &mut Vec<u8>) -> Result<(), AllocError>
    ensures { OnOk result (out.new.items ≡ out.old.items ++ contents_octets (front_contents (parts_of todo.now))) }
{
    write_value("BEGIN", b"VTODO", out)?;
    write_head(todo, out)?;
    write_count(PropertyName::DeskBase, todo.base, out)?;
    write_rid(todo.range, &todo.rid, out)?;
    write_optional_moment(PropertyName::DtStart, &todo.start, out)?;
    write_optional_moment(PropertyName::Due, &todo.due, out)?;
    write_status(todo.status, out)?;
    write_small(PropertyName::PercentComplete, todo.percent, out)?;
    write_small(PropertyName::Priority, todo.priority, out)?;
    write_optional_property(PropertyName::Summary, &todo.summary, out)?;
    write_optional_property(PropertyName::Organizer, &todo.organizer, out)
}

/// Appends the canonical lines of a to-do from ATTENDEE to END:VTODO, which follow those of [`write_todo_front`], as far as a limit
/// on the bytes in `out` allows, as [`write_todo_up_to`] does.
pub fn write_todo_rest(todo: &Todo, limit: usize, out: &mut Vec<u8>) -> Result<(), AllocError>
    ensures { OnOk result (AppendsUpTo limit (rest_contents (parts_of todo.now)) out.old.items out.new.items) }
{
    write_attendees(todo.attendees.as_slice(), limit, out)?;
    write_rule(&todo.rule, limit, out)?;
    write_moments(PropertyName::RDate, todo.rdates.as_slice(), limit, out)?;
    write_moments(PropertyName::ExDate, todo.exdates.as_slice(), limit, out)?;
    write_others(&todo.others, limit, out)?;
    write_value("END", b"VTODO", out)
}

/// Appends UID, DTSTAMP and SEQUENCE.
fn write_head(todo: &Todo, out: &mut Vec<u8>) -> Result<(), AllocError>
    ensures { OnOk result (out.new.items ≡ out.old.items ++ contents_octets (head_contents (parts_of todo.now))) }
{
    write_value("UID", todo.uid.as_str().as_bytes(), out)?;
    write_value("DTSTAMP", &stamp_bytes(&todo.stamp), out)?;
    write_number(PropertyName::Sequence, todo.seq, out)
}

fn write_count(
    property: PropertyName,
    number: Option<u32>,
    out: &mut Vec<u8>,
) -> Result<(), AllocError>
    ensures { OnOk result (out.new.items ≡ out.old.items ++ contents_octets (optional (λ n. plain property (decimal n)) number)) }
{
    match number {
        Some(number) => write_number(property, number, out),
        None => Ok(()),
    }
}

fn write_small(
    property: PropertyName,
    number: Option<u8>,
    out: &mut Vec<u8>,
) -> Result<(), AllocError>
    ensures { OnOk result (out.new.items ≡ out.old.items ++ contents_octets (optional (λ n. plain property (decimal n)) number)) }
{
    match number {
        Some(number) => write_number(property, number as u32, out),
        None => Ok(()),
    }
}

fn write_number(property: PropertyName, number: u32, out: &mut Vec<u8>) -> Result<(), AllocError>
    ensures { OnOk result (out.new.items ≡ out.old.items ++ contents_octets (plain property (decimal number) ∷ [])) }
{
    let mut digits = Buffer::new();
    write_value(property.as_str(), digits.format(number).as_bytes(), out)
}

fn write_status(status: Option<Status>, out: &mut Vec<u8>) -> Result<(), AllocError>
    ensures { OnOk result (out.new.items ≡ out.old.items ++ contents_octets (optional (λ s. plain name.Status (status_text s)) status)) }
{
    match status {
        Some(status) => write_value("STATUS", status.as_str().as_bytes(), out),
        None => Ok(()),
    }
}

fn write_optional_property(
    name: PropertyName,
    property: &Option<Property>,
    out: &mut Vec<u8>,
) -> Result<(), AllocError>
    ensures { OnOk result (out.new.items ≡ out.old.items ++ contents_octets (optional (property_line name) property.now)) }
{
    match property {
        Some(property) => write_property(name, property, out),
        None => Ok(()),
    }
}

fn write_attendees(
    attendees: &[Property],
    limit: usize,
    out: &mut Vec<u8>,
) -> Result<(), AllocError>
    ensures { OnOk result (AppendsUpTo limit (map (property_line name.Attendee) attendees.now) out.old.items out.new.items) }
{
    for attendee in attendees {
        if out.len() > limit {
            return Ok(());
        }
        write_property(PropertyName::Attendee, attendee, out)?;
    }
    Ok(())
}

/// Appends the line of a property with this name, with its parameters (RFC 5545 3.1).
///
/// If an allocation fails, `out` is left unchanged. Nothing is allocated if `out` has room for the line.
pub fn write_property(
    name: PropertyName,
    property: &Property,
    out: &mut Vec<u8>,
) -> Result<(), AllocError>
    ensures appended { OnOk result (out.new.items ≡ out.old.items ++ contents_octets (property_line name property.now ∷ [])) }
    ensures err { OnErr result (out.new.items ≡ out.old.items) }
    ensures room { HasRoomFor out.old (contents_octets (property_line name property.now ∷ [])) → IsOk result }
    ensures keeps { KeepsRoom out.old out.new }
{
    let params = property.params().as_bytes();
    write_parts(name.as_str(), params, property.value().as_bytes(), out)
}

fn write_rule(rule: &TextList, limit: usize, out: &mut Vec<u8>) -> Result<(), AllocError>
    ensures { OnOk result (AppendsUpTo limit (map (plain name.RRule) rule.now) out.old.items out.new.items) }
{
    for value in rule.iter() {
        if out.len() > limit {
            return Ok(());
        }
        write_value("RRULE", value.as_bytes(), out)?;
    }
    Ok(())
}

fn write_others(lines: &LineList, limit: usize, out: &mut Vec<u8>) -> Result<(), AllocError>
    ensures { OnOk result (AppendsUpTo limit (map content_of lines.now) out.old.items out.new.items) }
{
    for text in lines.texts() {
        if out.len() > limit {
            return Ok(());
        }
        write_text(text, out)?;
    }
    Ok(())
}

/// Appends a line without parameters.
fn write_value(name: &str, value: &[u8], out: &mut Vec<u8>) -> Result<(), AllocError>
    ensures { OnOk result (out.new.items ≡ out.old.items ++ contents_octets (bare name.now value.now ∷ [])) }
{
    write_parts(name, &[], value, out)
}
