//! Writing a message as bytes, and checking that it can be read back.
ghost use Rattle.std.specs.Prelude.{◌≡◌, ◌≢◌, ◌++◌, ◌∷◌, [], codes, map, IfOk, IfErr, OnOk};
ghost use Rattle.itip_todo.specs.PartsOf.{parts_of};
ghost use Rattle.itip_todo.specs.Written.{content_octets, contents_octets};
ghost use Rattle.itip_items.specs.Items.{bare, method_text};
ghost use Rattle.itip_items.specs.declared.kind.Method.TheVariants as methods;
ghost use Rattle.itip_message.specs.Message.{RefusesMessage};
ghost use Rattle.itip_writing.specs.Causes.{IfUnread};
ghost use Rattle.itip_writing.specs.Sent.{brief_parts, calendar_end, sent_front, sent_octets, IsReadable};

use crate::NoMemory;
use crate::brief::{BriefTodo, write_brief};
use crate::error::WritingError;
use itip_items::Method;
use itip_message::{ReadError, read_message};
use itip_todo::{Todo, write_todo};
use std::alloc::Global;

/// A message of these to-dos in their order, with all their properties (RFC 5546 3.4).
///
/// A REFRESH is written by [`write_briefs`], since it has no SEQUENCE.
pub(crate) fn write_message(
    alloc: Global,
    method: Method,
    all: &[Todo],
) -> Result<Vec<u8>, NoMemory>
    requires { method ≢ methods.Refresh }
    ensures { IfOk result (λ octets. octets.items ≡ sent_octets method (map parts_of all.now)) }
{
    let mut octets = begun(alloc, method)?;
    for todo in all {
        write_todo(todo, &mut octets)?;
    }
    end(&mut octets)?;
    Ok(octets)
}

/// A message of these brief to-dos in their order (RFC 5546 3.4).
pub(crate) fn write_briefs(
    alloc: Global,
    method: Method,
    all: &[BriefTodo<'_>],
) -> Result<Vec<u8>, NoMemory>
    ensures { IfOk result (λ octets. octets.items ≡ sent_octets method (map brief_parts all.now)) }
{
    let mut octets = begun(alloc, method)?;
    for todo in all {
        write_brief(method, todo, &mut octets)?;
    }
    end(&mut octets)?;
    Ok(octets)
}

/// A message of a single brief to-do.
pub(crate) fn write_alone(
    alloc: Global,
    method: Method,
    brief: BriefTodo<'_>,
) -> Result<Vec<u8>, NoMemory>
    ensures { IfOk result (λ octets. octets.items ≡ sent_octets method (brief_parts brief.entry ∷ [])) }
{
    let mut all = Vec::new(alloc);
    all.push(brief)?;
    write_briefs(alloc, method, all.as_slice())
}

/// The lines before the to-dos.
fn begun(alloc: Global, method: Method) -> Result<Vec<u8>, NoMemory>
    ensures { IfOk result (λ octets. octets.items ≡ contents_octets (sent_front method)) }
{
    let mut octets = Vec::new(alloc);
    octets.extend_from_slice(b"BEGIN:VCALENDAR\r\nPRODID:-//itipdesk//1//EN\r\nVERSION:2.0\r\n")?;
    octets.extend_from_slice(method_line(method))?;
    Ok(octets)
}

/// The METHOD line.
fn method_line(method: Method) -> &'static [u8]
    ensures { result.now ≡ content_octets (bare (codes "METHOD") (method_text method)) }
{
    match method {
        Method::Request => b"METHOD:REQUEST\r\n",
        Method::Add => b"METHOD:ADD\r\n",
        Method::Cancel => b"METHOD:CANCEL\r\n",
        Method::Reply => b"METHOD:REPLY\r\n",
        Method::Refresh => b"METHOD:REFRESH\r\n",
    }
}

/// Appends the line after the to-dos.
fn end(octets: &mut Vec<u8>) -> Result<(), NoMemory>
    ensures { OnOk result (octets.new.items ≡ octets.old.items ++ content_octets calendar_end) }
{
    octets.extend_from_slice(b"END:VCALENDAR\r\n")
}

/// Returns the bytes unchanged if they can be read back as a message.
///
/// Fails with `Unreadable`, which has the refusal, if they can't.
pub(crate) fn readable(alloc: Global, octets: Vec<u8>) -> Result<Vec<u8>, WritingError>
    ensures same { IfOk result (λ read. read.items ≡ octets.items) }
    ensures reads { IfOk result (λ _. IsReadable octets.items) }
    ensures refused { IfErr result (IfUnread (RefusesMessage octets.items)) }
{
    match read_message(alloc, octets.as_slice()) {
        Ok(items) => {
            // An explicit call: for a drop in place the prover would go through each field and case again.
            drop(items);
            Ok(octets)
        }
        Err(ReadError::Refused(refusal)) => Err(WritingError::Unreadable(refusal)),
        Err(ReadError::NoMemory) => Err(WritingError::NoMemory),
    }
}
