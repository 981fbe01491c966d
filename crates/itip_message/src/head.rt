//! The head of a message: VERSION, METHOD, and how many to-dos there are (RFC 5545 3.7, RFC 5546 3.4).
ghost use Rattle.std.specs.Prelude.{◌≡◌, ℕ, codes, Option, Some, IfOk, IfErr, OnOk, Ok, Err};
ghost use Rattle.std.specs.Option.{option_map};
ghost use Rattle.itip_items.specs.Items.{method_named};
ghost use Rattle.itip_items.specs.declared.kind.Method.{Method};
ghost use Rattle.itip_items.specs.declared.kind.Method.TheVariants as methods;
ghost use Rattle.itip_message.specs.Refusals.{IfRefused, at_line};
ghost use Rattle.itip_message.specs.declared.error.ReadError.TheVariants as error;
ghost use Rattle.itip_message.specs.Drafts.{draft_head_of};
ghost use Rattle.itip_message.specs.Head.{head_of, is_version, method_in, counted, only_value, odd_line, named};

use crate::error::{MessageCause, MessageRefusal, ReadError};
use crate::frame::upper_case;
use crate::sort::Component;
use itip_items::{Method, method_named};
use itip_lines::{NoMemory, NumberedLine};
use std::alloc::Global;

/// The most to-dos of a message (our own limit).
const TODO_LIMIT: usize = 1000;

/// The method of a message with these properties in its VCALENDAR and these to-dos.
///
/// VERSION is checked first, then METHOD, then the number of to-dos. A wrong VERSION or METHOD is refused at the second of its lines, or
/// at the only one; a missing one has no line.
pub(crate) fn read_head(
    alloc: Global,
    calendar: &[NumberedLine<'_>],
    components: &[Component<'_>],
) -> Result<Method, ReadError>
    ensures found { IfOk result (λ method. head_of calendar.now components.now ≡ Ok method) }
    ensures fault { IfErr result (λ e. IfRefused e (λ f. head_of calendar.now components.now ≡ Err f)) }
{
    if !has_version(calendar) {
        return Err(wrong(MessageCause::Version, odd_line(calendar, "VERSION")));
    }
    let found = method_in(alloc, calendar)?;
    let Some(method) = found else {
        return Err(wrong(MessageCause::Method, odd_line(calendar, "METHOD")));
    };
    check_count(components)?;
    Ok(method)
}

/// Checks that a draft with these properties in its VCALENDAR and these to-dos has the head of a REQUEST, whatever its METHOD.
///
/// VERSION is checked first, then the number of to-dos.
pub(crate) fn read_draft_head(
    calendar: &[NumberedLine<'_>],
    components: &[Component<'_>],
) -> Result<(), ReadError>
    ensures found { OnOk result (draft_head_of calendar.now components.now ≡ Ok methods.Request) }
    ensures fault { IfErr result (λ e. IfRefused e (λ f. draft_head_of calendar.now components.now ≡ Err f)) }
{
    if !has_version(calendar) {
        return Err(wrong(MessageCause::Version, odd_line(calendar, "VERSION")));
    }
    check_count(components)?;
    Ok(())
}

/// Whether VERSION appears once, with 2.0.
fn has_version(calendar: &[NumberedLine<'_>]) -> bool
    ensures { result ≡ is_version (only_value (named (codes "VERSION") calendar.now)) }
{
    match only_value(calendar, "VERSION") {
        Some(version) => version == "2.0",
        None => false,
    }
}

/// The method that METHOD names, if it appears once and names one that is read.
fn method_in(alloc: Global, calendar: &[NumberedLine<'_>]) -> Result<Option<Method>, NoMemory>
    ensures { IfOk result (λ found. found ≡ method_in (only_value (named (codes "METHOD") calendar.now))) }
{
    let Some(value) = only_value(calendar, "METHOD") else {
        return Ok(None);
    };
    let name = upper_case(alloc, value)?;
    Ok(method_named(name.as_str()))
}

/// Checks that there are to-dos, and not too many.
fn check_count(components: &[Component<'_>]) -> Result<(), ReadError>
    ensures found { OnOk result ((line : Option ℕ) (m : Method) → counted components.now line (Some m) ≡ Ok m) }
    ensures fault { IfErr result (λ e. IfRefused e (λ f. (line : Option ℕ) (m : Method) → counted components.now line (Some m) ≡ Err f)) }
{
    if components.len() > TODO_LIMIT {
        let beyond = components[TODO_LIMIT].begins;
        return Err(wrong(MessageCause::ManyTodos, Some(beyond)));
    }
    if components.is_empty() {
        return Err(wrong(MessageCause::NoTodo, None));
    }
    Ok(())
}

fn wrong(cause: MessageCause, line: Option<usize>) -> ReadError
    ensures { result ≡ error.Refused (at_line cause line) }
{
    ReadError::Refused(MessageRefusal::at_line(cause, line))
}

/// The value of the only line with this name.
fn only_value<'a>(lines: &'a [NumberedLine<'_>], name: &str) -> Option<&'a str>
    ensures { option_map (λ value. value.now) result ≡ only_value (named name.now lines.now) }
{
    let mut found = None;
    for line in lines {
        if line.line.name() == name {
            if found.is_some() {
                return None;
            }
            found = Some(line.line.value());
        }
    }
    found
}

/// The number of the second line with this name, or of the only one.
fn odd_line(lines: &[NumberedLine<'_>], name: &str) -> Option<usize>
    ensures { result ≡ odd_line (named name.now lines.now) }
{
    let mut found = None;
    for line in lines {
        if line.line.name() == name {
            if found.is_some() {
                return Some(line.number);
            }
            found = Some(line.number);
        }
    }
    found
}
