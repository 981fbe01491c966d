//! The line of an item in a report.
ghost use Rattle.std.specs.Prelude.{◌≡◌, ◌++◌, IfOk, OnOk};
ghost use Rattle.std.specs.Option.{option_copied};
ghost use Rattle.std.specs.String.{string_bytes};
ghost use Rattle.itip_moment.specs.Written.{moment_text};
ghost use Rattle.itip_items.specs.KeyParts.{attendee_of};
ghost use Rattle.itip_moment.specs.Shown.{shown_moment};
ghost use Rattle.itip_view.specs.ListText.{shown};
ghost use Rattle.itip_report.specs.Reports.{named, word_of, mark_of, line_of};

use crate::NoMemory;
use crate::report::Report;
use itip_items::{Item, Key};
use itip_moment::{Moment, write_moment};
use std::alloc::Global;

/// The line of an item in a report.
pub(crate) fn line_of(alloc: Global, report: Report, item: &Item) -> Result<String, NoMemory>
    ensures { IfOk result (λ line. string_bytes line ≡ line_of report item.now) }
{
    let mut line = String::new(alloc);
    put_name(alloc, &mut line, item)?;
    match report {
        Report::Cancelled => {
            line.push_str(mark(&item.key))?;
            Ok(line)
        }
        Report::Orphans => {
            put_attendee(&mut line, word(&item.key), &item.key)?;
            Ok(line)
        }
        Report::Refresh => {
            put_attendee(&mut line, " ", &item.key)?;
            Ok(line)
        }
    }
}

/// Appends a word and the attendee of a key.
fn put_attendee(line: &mut String, word: &str, key: &Key) -> Result<(), NoMemory>
    ensures { OnOk result (string_bytes line.new ≡ string_bytes line.old ++ (word.now ++ attendee_of key.now)) }
{
    line.push_str(word)?;
    line.push_str(key.attendee())
}

/// Appends the UID, and the instance or `-`.
fn put_name(alloc: Global, line: &mut String, item: &Item) -> Result<(), NoMemory>
    ensures { OnOk result (string_bytes line.new ≡ string_bytes line.old ++ named item.now) }
{
    line.push_str(item.key.uid().as_str())?;
    line.push_str(" ")?;
    put_instance(alloc, line, item.key.instance())
}

/// Appends the moment of an instance, or `-` for the to-do as a whole. If an allocation fails, part of it may have been appended.
pub fn put_instance(alloc: Global, line: &mut String, id: Option<&Moment>) -> Result<(), NoMemory>
    ensures { OnOk result (string_bytes line.new ≡ string_bytes line.old ++ shown shown_moment (option_copied id.entry)) }
{
    match id {
        None => line.push_str("-"),
        Some(id) => put_moment(alloc, line, id),
    }
}

/// Appends a moment, preceded by `TZID=`, its zone and a colon if it is in a zone. If an allocation fails, part of it may have been
/// appended.
pub fn put_moment(alloc: Global, line: &mut String, moment: &Moment) -> Result<(), NoMemory>
    ensures { OnOk result (string_bytes line.new ≡ string_bytes line.old ++ shown_moment moment.now) }
{
    if let Moment::Zoned(zone, _) = moment {
        line.push_str("TZID=")?;
        line.push_str(zone.as_str())?;
        line.push_str(":")?;
    }
    let text = text_of(alloc, moment)?;
    line.push_str(text.as_str())
}

/// The value text of a moment. It is ASCII, so nothing of it is lost.
fn text_of(alloc: Global, moment: &Moment) -> Result<String, NoMemory>
    ensures { IfOk result (λ text. string_bytes text ≡ moment_text moment.now) }
{
    let mut octets = Vec::new(alloc);
    write_moment(moment, &mut octets)?;
    String::from_utf8_lossy(alloc, &octets)
}

/// The word for an item of an attendee; empty for other items.
fn word(key: &Key) -> &'static str
    ensures { result.now ≡ word_of key.now }
{
    match key {
        Key::Series(_) | Key::Instance(_, _) | Key::Range(_, _) => "",
        Key::Answer(_, _, _) => " answer ",
        Key::Refresh(_, _, _) => " refresh ",
    }
}

/// What follows the moment of an item: `+` for a range, else nothing.
pub fn mark(key: &Key) -> &'static str
    ensures { result.now ≡ mark_of key.now }
{
    match key {
        Key::Range(_, _) => "+",
        Key::Series(_) | Key::Instance(_, _) | Key::Answer(_, _, _) | Key::Refresh(_, _, _) => "",
    }
}
