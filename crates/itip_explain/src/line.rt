//! The line of a told item.
ghost use Rattle.std.specs.Prelude.{◌≡◌, ◌++◌, IfOk, OnOk};
ghost use Rattle.std.specs.Fmt.{decimal};
ghost use Rattle.std.specs.String.{string_bytes};
ghost use Rattle.itip_moment.specs.Written.{stamp_text};
ghost use Rattle.itip_explain.specs.Lines.{kind_text, attendee_text, revision_text, item_text, place_text, fate_text, line_text};

use crate::NoMemory;
use crate::fate::Fate;
use crate::told::{Place, ToldItem};
use itip_items::{Item, Key, Kind};
use itip_moment::Moment;
use itip_report::{mark, put_instance, put_moment};
use itip_streams::SourceName;
use std::alloc::Global;

/// The line of a told item, with its end: `WHERE: KIND ID [ADDRESS] seq S stamp T FATE`.
pub(crate) fn line_of(
    alloc: Global,
    names: &[SourceName],
    one: &ToldItem,
    became: Fate,
) -> Result<String, NoMemory>
    ensures { IfOk result (λ line. string_bytes line ≡ line_text names.now one.now became) }
{
    let mut line = String::new(alloc);
    put_place(alloc, &mut line, names, one.place)?;
    line.push_str(": ")?;
    put_item(alloc, &mut line, &one.item)?;
    line.push_str(" ")?;
    put_fate(alloc, &mut line, names, became)?;
    line.push_str("\n")?;
    Ok(line)
}

/// Appends where a message is.
fn put_place(
    alloc: Global,
    line: &mut String,
    names: &[SourceName],
    place: Place,
) -> Result<(), NoMemory>
    ensures { OnOk result (string_bytes line.new ≡ string_bytes line.old ++ place_text names.now place) }
{
    let text = place_text(alloc, names, place)?;
    line.push_str(text.as_str())
}

/// Where a message is; a source without a name is named like standard input.
fn place_text(alloc: Global, names: &[SourceName], place: Place) -> Result<String, NoMemory>
    ensures { IfOk result (λ text. string_bytes text ≡ place_text names.now place) }
{
    match names.get(place.source) {
        Some(name) => name.place_of(alloc, place.message),
        None => SourceName::StandardInput.place_of(alloc, place.message),
    }
}

/// Appends what an item is, what it is about, and its revision.
fn put_item(alloc: Global, line: &mut String, item: &Item) -> Result<(), NoMemory>
    ensures { OnOk result (string_bytes line.new ≡ string_bytes line.old ++ item_text item.now) }
{
    line.push_str(kind_text(item.kind))?;
    line.push_str(" ")?;
    put_instance(alloc, line, item.key.instance())?;
    line.push_str(mark(&item.key))?;
    put_attendee(line, &item.key)?;
    put_revision(alloc, line, item)
}

fn kind_text(kind: Kind) -> &'static str
    ensures { result.now ≡ kind_text kind }
{
    match kind {
        Kind::Request => "request",
        Kind::Add => "add",
        Kind::Remove => "remove",
        Kind::Cancel => "cancel",
        Kind::Reply => "reply",
        Kind::Refresh => "refresh",
    }
}

/// Appends the attendee, if an item is of one.
fn put_attendee(line: &mut String, key: &Key) -> Result<(), NoMemory>
    ensures { OnOk result (string_bytes line.new ≡ string_bytes line.old ++ attendee_text key.now) }
{
    match key {
        Key::Series(_) | Key::Instance(_, _) | Key::Range(_, _) => Ok(()),
        Key::Answer(_, _, attendee) | Key::Refresh(_, _, attendee) => {
            line.push_str(" ")?;
            line.push_str(attendee.as_str())
        }
    }
}

/// Appends the item's own SEQUENCE, and DTSTAMP.
fn put_revision(alloc: Global, line: &mut String, item: &Item) -> Result<(), NoMemory>
    ensures { OnOk result (string_bytes line.new ≡ string_bytes line.old ++ revision_text item.now) }
{
    line.push_str(" seq ")?;
    put_number(alloc, line, item.own)?;
    line.push_str(" stamp ")?;
    put_stamp(alloc, line, item)
}

fn put_number(alloc: Global, line: &mut String, number: u32) -> Result<(), NoMemory>
    ensures { OnOk result (string_bytes line.new ≡ string_bytes line.old ++ decimal number) }
{
    let digits = number.to_string(alloc)?;
    line.push_str(digits.as_str())
}

fn put_stamp(alloc: Global, line: &mut String, item: &Item) -> Result<(), NoMemory>
    ensures { OnOk result (string_bytes line.new ≡ string_bytes line.old ++ stamp_text item.now.stamp) }
{
    put_moment(alloc, line, &Moment::Utc(item.stamp))
}

/// Appends what became of an item.
fn put_fate(
    alloc: Global,
    line: &mut String,
    names: &[SourceName],
    became: Fate,
) -> Result<(), NoMemory>
    ensures { OnOk result (string_bytes line.new ≡ string_bytes line.old ++ fate_text names.now became) }
{
    line.push_str(became.as_str())?;
    if let Some(place) = became.place() {
        line.push_str(" ")?;
        put_place(alloc, line, names, place)?;
    }
    Ok(())
}
