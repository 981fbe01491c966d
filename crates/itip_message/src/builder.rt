//! A to-do that a program makes.
ghost use Rattle.std.specs.Prelude.{◌≡◌, ◌≢◌, ◌↔◌, ◌++◌, ◌∷◌, [], ◌+◌, length, codes, IfOk, IfErr, OnOk, OnErr, MatchOption, IsTrue};
ghost use Rattle.std.specs.Fmt.{decimal};
ghost use Rattle.std.specs.List.{list_all};
ghost use Rattle.itip_lines.specs.UnfoldedLines.{HasNoLf};
ghost use Rattle.itip_lines.specs.Lawful.{params_text};
ghost use Rattle.itip_lines.specs.Octets.{is_quotable_octet};
ghost use Rattle.itip_lines.specs.Reading.{plain_lines};
ghost use Rattle.itip_lines.specs.declared.line.Line.{Line};
ghost use Rattle.itip_moment.specs.Written.{moment_text, stamp_text};
ghost use Rattle.itip_todo.specs.Reading.{ReadsTodo};
ghost use Rattle.itip_items.specs.MethodNeeds.{is_property};
ghost use Rattle.itip_message.specs.Building.{IsOneProperty, RefusesText, octet_value, text_value, zone_params, has_lawful_zone};
ghost use Rattle.itip_message.specs.Refusals.{IfRefused, at_line};
ghost use Rattle.itip_message.specs.declared.error.ReadError.TheVariants as error;

use crate::error::{MessageCause, MessageRefusal, ReadError, todo_gives};
use crate::frame::{is_begin, is_end};
use itip_items::{Item, Method, make_items};
use itip_lines::{LineCause, LineError, NoMemory, NumberedLine, SeenLine, read_lines, write_param};
use itip_moment::{Moment, Stamp, write_moment};
use itip_todo::{Todo, read_todo};
use std::alloc::Global;
use std::marker::Model;

/// A to-do that a program makes, line by line.
///
/// Each line is read as it is added, as a content line of a message (RFC 5545 3.1): anything else is refused, and so is a line that
/// begins or ends a component. A call that fails leaves the builder unchanged. [`todo`](TodoBuilder::todo) and
/// [`item`](TodoBuilder::item) read the lines together as a VTODO of a REQUEST, and refuse what would be refused there; the limits of a
/// message as a whole don't apply. A refusal has the number of the line, 1 for UID and 2 for DTSTAMP; that of an item that is too large
/// has none. A UID, address or rule with a line break is refused (2), so that nothing is folded into another line, and so is a zone with
/// an octet that a parameter value can't have (2). Numbers in parentheses are those of [`MessageRefusal::number`].
#[derive(Debug, Drop)]
pub struct TodoBuilder {
    lines: Vec<NumberedLine<'static>>,
}

impl Model for TodoBuilder {
    ghost use Rattle.std.specs.Prelude.{List, [], IsTrue};
    ghost use Rattle.itip_lines.specs.declared.line.NumberedLine.{NumberedLine};

    ghost Value = { List NumberedLine };

    ghost use Rattle.std.specs.Coded.{coded_list};
    ghost use mir.Syntax.{static};
    ghost use Rattle.itip_lines.specs.contracts.line.NumberedLine as numbered;

    ghost coded = { coded_list (numbered.the_row (record { mir = static; lft = [] })).coded };

    ghost use Rattle.std.specs.List.{list_all};
    ghost use Rattle.itip_lines.specs.Reading.{plain_lines};
    ghost use Rattle.itip_items.specs.MethodNeeds.{is_property};

    ghost view = { λ b. b.lines.items };

    ghost invariant = { λ b. IsTrue (list_all is_property (plain_lines b.lines.items)) };
}

impl TodoBuilder {
    ghost use Rattle.itip_lines.specs.UnfoldedLines.{HasNoLf};
    ghost use Rattle.itip_lines.specs.Lawful.{IsName};
    ghost use Rattle.itip_message.specs.Building.{Adds, AddsMoment, BeginsWith, RefusesText, RefusesValue, RefusesMoment, RefusesBeginning};
    ghost use Rattle.itip_message.specs.Building.{moment_line_text, next_number, RefusesMade, GivesItem, RefusesItem};
    ghost use Rattle.itip_message.specs.Message.{ReadsMessage};

    /// Returns a to-do with a UID and a DTSTAMP.
    ///
    /// Refused if the UID has a line break or doesn't make a content line (1, 2, 14).
    pub fn new(alloc: Global, uid: &str, stamp: Stamp) -> Result<TodoBuilder, ReadError>
        ensures begun { IfOk result (BeginsWith uid.now (stamp_text stamp)) }
        ensures refused { IfErr result (λ e. IfRefused e (RefusesBeginning uid.now)) }
    {
        let mut builder = TodoBuilder {
            lines: Vec::new(alloc),
        };
        builder.put_value("UID:", uid)?;
        let stamp = stamp.to_string(alloc)?;
        builder.put("DTSTAMP:", stamp.as_str())?;
        Ok(builder)
    }

    /// Adds SEQUENCE.
    pub fn sequence(&mut self, number: u32) -> Result<(), ReadError>
        ensures added { OnOk result (Adds (codes "SEQUENCE:" ++ decimal number) self.old self.new) }
        ensures refused { IfErr result (λ e. IfRefused e (RefusesText (codes "SEQUENCE:" ++ decimal number) (next_number self.old))) }
        ensures err { OnErr result (self.new ≡ self.old) }
    {
        let digits = number.to_string(self.alloc())?;
        self.put("SEQUENCE:", digits.as_str())
    }

    /// Adds ORGANIZER with an address, such as `mailto:ines@example.com`.
    pub fn organizer(&mut self, address: &str) -> Result<(), ReadError>
        ensures added { OnOk result (Adds (codes "ORGANIZER:" ++ address.now) self.old self.new) }
        ensures whole { OnOk result (HasNoLf address.now) }
        ensures refused { IfErr result (λ e. IfRefused e (RefusesValue (codes "ORGANIZER:") address.now (next_number self.old))) }
        ensures err { OnErr result (self.new ≡ self.old) }
    {
        self.put_value("ORGANIZER:", address)
    }

    /// Adds an ATTENDEE with an address, such as `mailto:omar@example.com`. For one with parameters use [`line`](TodoBuilder::line).
    pub fn attendee(&mut self, address: &str) -> Result<(), ReadError>
        ensures added { OnOk result (Adds (codes "ATTENDEE:" ++ address.now) self.old self.new) }
        ensures whole { OnOk result (HasNoLf address.now) }
        ensures refused { IfErr result (λ e. IfRefused e (RefusesValue (codes "ATTENDEE:") address.now (next_number self.old))) }
        ensures err { OnErr result (self.new ≡ self.old) }
    {
        self.put_value("ATTENDEE:", address)
    }

    /// Adds DTSTART, with the zone of the moment if it has one.
    ///
    /// Refused if the zone has an octet that a parameter value can't have, such as a line break or a quote (2), or if the line is longer
    /// than a text (1) or a line (14) may be.
    pub fn start(&mut self, moment: &Moment) -> Result<(), ReadError>
        ensures added { OnOk result (AddsMoment (codes "DTSTART") moment.now self.old self.new) }
        ensures refused { IfErr result (λ e. IfRefused e (RefusesMoment (codes "DTSTART") moment.now (next_number self.old))) }
        ensures err { OnErr result (self.new ≡ self.old) }
    {
        self.moment("DTSTART", moment)
    }

    /// Adds DUE. Refused as [`start`](TodoBuilder::start) is.
    pub fn due(&mut self, moment: &Moment) -> Result<(), ReadError>
        ensures added { OnOk result (AddsMoment (codes "DUE") moment.now self.old self.new) }
        ensures refused { IfErr result (λ e. IfRefused e (RefusesMoment (codes "DUE") moment.now (next_number self.old))) }
        ensures err { OnErr result (self.new ≡ self.old) }
    {
        self.moment("DUE", moment)
    }

    /// Adds RECURRENCE-ID: the to-do is of this instance. Refused as [`start`](TodoBuilder::start) is.
    pub fn instance(&mut self, moment: &Moment) -> Result<(), ReadError>
        ensures added { OnOk result (AddsMoment (codes "RECURRENCE-ID") moment.now self.old self.new) }
        ensures refused { IfErr result (λ e. IfRefused e (RefusesMoment (codes "RECURRENCE-ID") moment.now (next_number self.old))) }
        ensures err { OnErr result (self.new ≡ self.old) }
    {
        self.moment("RECURRENCE-ID", moment)
    }

    /// Adds RRULE, such as `FREQ=WEEKLY;COUNT=3`.
    pub fn rule(&mut self, rule: &str) -> Result<(), ReadError>
        ensures added { OnOk result (Adds (codes "RRULE:" ++ rule.now) self.old self.new) }
        ensures whole { OnOk result (HasNoLf rule.now) }
        ensures refused { IfErr result (λ e. IfRefused e (RefusesValue (codes "RRULE:") rule.now (next_number self.old))) }
        ensures err { OnErr result (self.new ≡ self.old) }
    {
        self.put_value("RRULE:", rule)
    }

    /// Adds SUMMARY with a text, whose backslashes, semicolons, commas and line feeds are escaped as in RFC 5545 3.3.11. Every other
    /// control character of one byte (C0 or DEL) except a tab is refused (2), such as a carriage return, and so is a text that is too
    /// long (1, 14).
    pub fn summary(&mut self, words: &str) -> Result<(), ReadError>
        ensures added { OnOk result (Adds (codes "SUMMARY:" ++ text_value words.now) self.old self.new) }
        ensures refused { IfErr result (λ e. IfRefused e (RefusesText (codes "SUMMARY:" ++ text_value words.now) (next_number self.old))) }
        ensures err { OnErr result (self.new ≡ self.old) }
    {
        let mut text = Vec::from_slice(self.alloc(), b"SUMMARY:")?;
        push_text(words.as_bytes(), &mut text)?;
        self.add(text.as_slice())
    }

    /// Adds any other property as its line in a message, with its parameters: `ATTENDEE;RSVP=TRUE:mailto:omar@example.com`.
    ///
    /// Refused if the text isn't exactly one content line (1, 2, 14), or if it begins or ends a component (4).
    pub fn line(&mut self, text: &str) -> Result<(), ReadError>
        ensures added { OnOk result (Adds text.now self.old self.new) }
        ensures refused { IfErr result (λ e. IfRefused e (RefusesText text.now (next_number self.old))) }
        ensures err { OnErr result (self.new ≡ self.old) }
    {
        self.add(text.as_bytes())
    }

    /// Returns the to-do of the lines, with the SEQUENCE that was given.
    ///
    /// Refused if they don't make a to-do (10 to 12, 14, 15).
    pub fn todo(&self) -> Result<Todo, ReadError>
        ensures found { IfOk result (ReadsTodo (plain_lines self.now)) }
        ensures fault { IfErr result (λ e. IfRefused e (RefusesMade self.now)) }
    {
        match read_todo(self.alloc(), self.lines.as_slice()) {
            Ok(todo) => Ok(todo),
            Err(error) => Err(todo_gives(1, error)),
        }
    }

    /// Returns the item that a REQUEST of this to-do alone gives. Its bytes are a message that gives the same item.
    ///
    /// Refused if the lines don't make a to-do (10 to 12, 14, 15), or if the item is too large (14).
    pub fn item(&self) -> Result<Item, ReadError>
        ensures found { IfOk result (GivesItem self.now) }
        ensures read_again { IfOk result (λ item. ReadsMessage item.bytes (item ∷ [])) }
        ensures fault { IfErr result (λ e. IfRefused e (RefusesItem self.now)) }
    {
        let todo = self.todo()?;
        let all = alone(self.alloc(), todo)?;
        let items = make_items(self.alloc(), Method::Request, all)?;
        match only(items) {
            Some(item) => Ok(item),
            None => unreachable!(),
        }
    }

    /// The allocator. The contract recalls that none of the lines begins or ends a component.
    fn alloc(&self) -> Global
        ensures { IsTrue (list_all is_property (plain_lines self.now)) }
    {
        *self.lines.allocator()
    }

    /// Adds the line of `front`, which ends in a colon, and `value`. A value with a line break is refused.
    fn put_value(&mut self, front: &str, value: &str) -> Result<(), ReadError>
        ensures added { OnOk result (Adds (front.now ++ value.now) self.old self.new) }
        ensures whole { OnOk result (HasNoLf value.now) }
        ensures refused { IfErr result (λ e. IfRefused e (RefusesValue front.now value.now (next_number self.old))) }
        ensures err { OnErr result (self.new ≡ self.old) }
    {
        if is_unbroken(value) {
            return self.put(front, value);
        }
        let number = self.lines.len() + 1;
        Err(refused(MessageCause::Lines(LineCause::BadLine), number))
    }

    /// Adds the line of `front`, which ends in a colon, and `value`.
    fn put(&mut self, front: &str, value: &str) -> Result<(), ReadError>
        ensures added { OnOk result (Adds (front.now ++ value.now) self.old self.new) }
        ensures refused { IfErr result (λ e. IfRefused e (RefusesText (front.now ++ value.now) (next_number self.old))) }
        ensures err { OnErr result (self.new ≡ self.old) }
    {
        let mut text = Vec::from_slice(self.alloc(), front.as_bytes())?;
        text.extend_from_slice(value.as_bytes())?;
        self.add(text.as_slice())
    }

    /// Adds the line of a name and a moment. A zone that can't be a parameter value is refused.
    fn moment(&mut self, name: &str, moment: &Moment) -> Result<(), ReadError>
        requires { IsName name.now }
        ensures added { OnOk result (AddsMoment name.now moment.now self.old self.new) }
        ensures refused { IfErr result (λ e. IfRefused e (RefusesMoment name.now moment.now (next_number self.old))) }
        ensures err { OnErr result (self.new ≡ self.old) }
    {
        if has_lawful_zone(moment) {
            return self.put_moment(name, moment);
        }
        let number = self.lines.len() + 1;
        Err(refused(MessageCause::Lines(LineCause::BadLine), number))
    }

    /// Adds the line of a name and a moment, with TZID if it is in a zone.
    fn put_moment(&mut self, name: &str, moment: &Moment) -> Result<(), ReadError>
        ensures added { OnOk result (Adds (moment_line_text name.now moment.now) self.old self.new) }
        ensures refused { IfErr result (λ e. IfRefused e (RefusesText (moment_line_text name.now moment.now) (next_number self.old))) }
        ensures err { OnErr result (self.new ≡ self.old) }
    {
        let mut text = Vec::from_slice(self.alloc(), name.as_bytes())?;
        push_moment(moment, &mut text)?;
        self.add(text.as_slice())
    }

    /// Adds `text` as one line.
    fn add(&mut self, text: &[u8]) -> Result<(), ReadError>
        ensures added { OnOk result (Adds text.now self.old self.new) }
        ensures refused { IfErr result (λ e. IfRefused e (RefusesText text.now (next_number self.old))) }
        ensures err { OnErr result (self.new ≡ self.old) }
    {
        let number = self.lines.len() + 1;
        let line = read_property(self.alloc(), text, number)?;
        self.lines.push(NumberedLine { number, line })?;
        Ok(())
    }
}

/// Whether a text has no line feed.
fn is_unbroken(text: &str) -> bool
    ensures { IsTrue result ↔ HasNoLf text.now }
{
    text.as_bytes().iter().all(|octet| *octet != b'\n')
}

/// Whether the zone of a moment, if it has one, can be a parameter value.
fn has_lawful_zone(moment: &Moment) -> bool
    ensures { result ≡ has_lawful_zone moment.now }
{
    match moment {
        Moment::Zoned(zone, _) => is_quotable(zone.as_str()),
        _ => true,
    }
}

/// Whether a text can be a parameter value, in quotes if it needs them.
fn is_quotable(text: &str) -> bool
    ensures { result ≡ list_all is_quotable_octet text.now }
{
    text.as_bytes()
        .iter()
        .all(|octet| is_quotable_octet(*octet))
}

fn is_quotable_octet(octet: u8) -> bool
    ensures { result ≡ is_quotable_octet octet }
{
    !matches!(octet, 0..=8 | 10..=31 | 127) && octet != b'"'
}

/// Reads a text as one property. A refusal names line `number`.
fn read_property(alloc: Global, text: &[u8], number: usize) -> Result<SeenLine<'static>, ReadError>
    ensures found { IfOk result (IsOneProperty text.now) }
    ensures refused { IfErr result (λ e. IfRefused e (RefusesText text.now number)) }
{
    let found = match read_lines(alloc, text) {
        Ok(found) => found,
        Err(LineError::NoMemory) => return Err(ReadError::NoMemory),
        Err(LineError::Refused(refusal)) => {
            return Err(refused(MessageCause::Lines(refusal.cause), number));
        }
    };
    let Some(only) = only(found) else {
        return Err(refused(MessageCause::Lines(LineCause::BadLine), number));
    };
    let line = only.line;
    if is_property(&line) {
        Ok(line.into_own(alloc)?)
    } else {
        drop(line);
        Err(refused(MessageCause::Nesting, number))
    }
}

/// The error for this cause on the line with this number.
fn refused(cause: MessageCause, number: usize) -> ReadError
    ensures { result ≡ error.Refused (at_line cause (Some number)) }
{
    ReadError::Refused(MessageRefusal::at_line(cause, Some(number)))
}

/// Whether a line neither begins nor ends a component.
fn is_property(line: &SeenLine<'_>) -> bool
    ensures { result ≡ is_property line.now }
{
    !(is_begin(line) || is_end(line))
}

/// This to-do alone, as a vector.
fn alone(alloc: Global, todo: Todo) -> Result<Vec<Todo>, NoMemory>
    ensures { IfOk result (λ all. all.items ≡ todo ∷ []) }
{
    let mut all = Vec::new(alloc);
    all.push(todo)?;
    Ok(all)
}

/// The only one of some values. `None` if there are none or several.
fn only<T: Drop>(values: Vec<T>) -> Option<T>
    ensures { MatchOption result (length values.items ≢ 1) (λ value. values.items ≡ value ∷ []) }
{
    let mut values = values;
    if values.len() != 1 {
        return None;
    }
    values.pop()
}

/// Appends the TZID of a moment in a zone, a colon, and the moment.
fn push_moment(moment: &Moment, out: &mut Vec<u8>) -> Result<(), NoMemory>
    ensures { OnOk result (out.new.items ≡ out.old.items ++ (params_text (zone_params moment.now) ++ 58 ∷ moment_text moment.now)) }
{
    if let Moment::Zoned(zone, _) = moment {
        write_param("TZID", zone.as_str(), out)?;
    }
    out.push(b':')?;
    write_moment(moment, out)
}

/// Appends a text as a value of the type TEXT (RFC 5545 3.3.11).
fn push_text(words: &[u8], out: &mut Vec<u8>) -> Result<(), NoMemory>
    ensures { OnOk result (out.new.items ≡ out.old.items ++ text_value words.now) }
{
    for octet in words {
        push_octet(*octet, out)?;
    }
    Ok(())
}

fn push_octet(octet: u8, out: &mut Vec<u8>) -> Result<(), NoMemory>
    ensures { OnOk result (out.new.items ≡ out.old.items ++ octet_value octet) }
{
    if octet == b'\\' {
        return out.extend_from_slice(b"\\\\");
    }
    if octet == b';' {
        return out.extend_from_slice(b"\\;");
    }
    if octet == b',' {
        return out.extend_from_slice(b"\\,");
    }
    if octet == b'\n' {
        return out.extend_from_slice(b"\\n");
    }
    out.push(octet)?;
    Ok(())
}
