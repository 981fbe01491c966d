//! Rows as JSON objects (RFC 8259).
ghost use Rattle.std.specs.Prelude.{◌≡◌, ◌≢◌, ◌<◌, ◌^◌, ◌++◌, ◌∷◌, ℕ, List, Some, codes, OnOk, OnErr, IfOk, IfErr};
ghost use Rattle.std.specs.Fmt.{decimal};
ghost use Rattle.std.specs.List.{flat_map};
ghost use Rattle.std.specs.Option.{option_copied, option_map};
ghost use Rattle.std.specs.String.{string_bytes};
ghost use Rattle.json.specs.Json.{document};
ghost use Rattle.json.specs.Token.{key};
ghost use Rattle.json.specs.Tree.{json_tokens};
ghost use Rattle.itip_moment.specs.Shown.{shown_moment};
ghost use Rattle.itip_todo.specs.StatusText.{status_text};
ghost use Rattle.itip_streams.specs.Written.{AppendsFront, MovesOut};
ghost use Rattle.itip_view.specs.ByUid.{AreLeft};
ghost use Rattle.itip_view.specs.declared.row.Row.{Row};
ghost use Rattle.itip_inbox.specs.Json.{json_text, object_text, object_behind, text_json, numeral, number_json, array_text, rows_array};
ghost use Rattle.itip_inbox.specs.Json.{row_object, name_members, number_members, date_members, last_members};
ghost use Rattle.itip_inbox.specs.JsonTokens.{named_tokens, attendee_tokens, IsFrontOf, opened_text};

use crate::list_form::ListForm;
use crate::row_texts::{id_text, moment_text};
use itip_desk::{write_rows, write_some_rows};
use itip_lines::Text;
use itip_moment::Moment;
use itip_streams::{StreamFault, write_output};
use itip_todo::Status;
use itip_view::{Row, RowForm, RowsByUid, ShownAttendee, Window};
use json::Writer;
use std::alloc::{AllocError, Global};
use std::io::Write;
use std::mem;

/// One JSON array, with the object of each row on a line of its own. An absent value is null.
#[derive(Clone, Copy, Debug)]
pub struct JsonList;

impl ListForm for JsonList {
    ghost octets = { λ _ _ rows. json_text rows };

    fn write<W: Write>(
        &self,
        alloc: Global,
        _window: Window,
        rows: RowsByUid<'_, '_>,
        _number: usize,
        writer: &mut W,
    ) -> Result<(), StreamFault> {
        let mut rows = rows;
        let first = first_rows(alloc, &mut rows)?;
        if first.is_empty() {
            return write_output(writer, b"[]\n");
        }
        let mut kept = Vec::new(alloc);
        let done = open_array(first.as_slice(), writer, &mut kept);
        drop(first);
        done?;
        write_rows(rows, &NextObjects, writer, &mut kept)?;
        kept.extend_from_slice(b"\n]\n")?;
        write_output(writer, kept.as_slice())
    }
}

/// The rows of the next UID that has some; none if no row is left.
fn first_rows(alloc: Global, rows: &mut RowsByUid<'_, '_>) -> Result<Vec<Row>, AllocError>
    ensures { IfOk result (λ first. (all : List Row) → AreLeft rows.old all → IsFrontOf rows.new first.items all) }
{
    while let Some(some) = rows.next()? {
        if !some.is_empty() {
            return Ok(some);
        }
    }
    Ok(Vec::new(alloc))
}

/// Opens the array with some rows; if there are none, does nothing. What is kept is written as [`write_rows`] does.
fn open_array<W: Write>(rows: &[Row], writer: &mut W, kept: &mut Vec<u8>) -> Result<(), StreamFault>
    ensures moved { OnOk result (MovesOut (W.contents writer.old) (W.contents writer.new)
        (kept.old.items ++ opened_text rows.now) kept.new.items) }
    ensures front { OnErr result (AppendsFront (W.contents writer.old) (W.contents writer.new) (kept.old.items ++ opened_text rows.now)) }
    ensures fault { IfErr result (λ fault. fault ≢ StreamFault.Read) }
{
    let [first, others @ ..] = rows else {
        return Ok(());
    };
    kept.extend_from_slice(b"[\n")?;
    put_object(kept, first)?;
    write_some_rows(others, &NextObjects, writer, kept)
}

/// The objects of rows after the first.
#[derive(Clone, Copy)]
struct NextObjects;

impl RowForm for NextObjects {
    ghost octets = { λ _ row. object_behind row };

    fn put(&self, row: &Row, out: &mut Vec<u8>) -> Result<(), AllocError> {
        out.extend_from_slice(b",\n")?;
        put_object(out, row)
    }
}

/// Appends the object of a row.
fn put_object(out: &mut Vec<u8>, row: &Row) -> Result<(), AllocError>
    ensures { OnOk result (out.new.items ≡ out.old.items ++ object_text row.now) }
{
    let alloc = *out.allocator();
    let mut writer = Writer::new(mem::replace(out, Vec::new(alloc)));
    let done = write_object(alloc, &mut writer, row);
    *out = writer.into_inner();
    done
}

fn write_object(alloc: Global, writer: &mut Writer, row: &Row) -> Result<(), AllocError>
    ensures tokens { OnOk result (writer.new.tokens ≡ writer.old.tokens ++ json_tokens (row_object row.now)) }
    ensures before { writer.new.before ≡ writer.old.before }
{
    writer.begin_object()?;
    write_names(alloc, writer, row)?;
    write_numbers(writer, row)?;
    write_dates(alloc, writer, row)?;
    write_last(writer, row)?;
    writer.end_object()
}

fn write_names(alloc: Global, writer: &mut Writer, row: &Row) -> Result<(), AllocError>
    ensures tokens { OnOk result (writer.new.tokens ≡ writer.old.tokens ++ named_tokens (name_members row.now)) }
    ensures before { writer.new.before ≡ writer.old.before }
{
    let id = id_text(alloc, &row.id)?;
    write_text(writer, "uid", Some(row.uid.as_str()))?;
    write_shown(writer, "id", &id)?;
    writer.key("sequence")?;
    write_digits(writer, row.seq as u64)
}

fn write_numbers(writer: &mut Writer, row: &Row) -> Result<(), AllocError>
    ensures tokens { OnOk result (writer.new.tokens ≡ writer.old.tokens ++ named_tokens (number_members row.now)) }
    ensures before { writer.new.before ≡ writer.old.before }
{
    write_status(writer, row.status)?;
    write_number(writer, "percent", row.percent)?;
    write_number(writer, "priority", row.priority)
}

fn write_dates(alloc: Global, writer: &mut Writer, row: &Row) -> Result<(), AllocError>
    ensures tokens { OnOk result (writer.new.tokens ≡ writer.old.tokens ++ named_tokens (date_members row.now)) }
    ensures before { writer.new.before ≡ writer.old.before }
{
    write_moment(alloc, writer, "start", &row.start)?;
    write_moment(alloc, writer, "due", &row.due)?;
    write_summary(writer, &row.summary)
}

fn write_last(writer: &mut Writer, row: &Row) -> Result<(), AllocError>
    ensures tokens { OnOk result (writer.new.tokens ≡ writer.old.tokens ++ named_tokens (last_members row.now)) }
    ensures before { writer.new.before ≡ writer.old.before }
{
    writer.key("attendees")?;
    writer.begin_array()?;
    write_attendees(writer, row.attendees.as_slice())?;
    writer.end_array()?;
    write_number(writer, "progress", row.progress)
}

fn write_attendees(writer: &mut Writer, attendees: &[ShownAttendee]) -> Result<(), AllocError>
    ensures tokens { OnOk result (writer.new.tokens ≡ writer.old.tokens ++ flat_map attendee_tokens attendees.now) }
    ensures before { writer.new.before ≡ writer.old.before }
{
    for attendee in attendees {
        write_attendee(writer, attendee)?;
    }
    Ok(())
}

fn write_attendee(writer: &mut Writer, attendee: &ShownAttendee) -> Result<(), AllocError>
    ensures tokens { OnOk result (writer.new.tokens ≡ writer.old.tokens ++ attendee_tokens attendee.now) }
    ensures before { writer.new.before ≡ writer.old.before }
{
    writer.begin_object()?;
    write_text(writer, "address", Some(attendee.address.as_str()))?;
    write_text(writer, "partstat", Some(attendee.partstat.as_str()))?;
    write_number(writer, "percent", attendee.percent)?;
    writer.end_object()
}

fn write_moment(
    alloc: Global,
    writer: &mut Writer,
    name: &str,
    moment: &Option<Moment>,
) -> Result<(), AllocError>
    ensures tokens { OnOk result (writer.new.tokens
        ≡ writer.old.tokens ++ (key name.now ∷ json_tokens (text_json (option_map shown_moment moment.now)))) }
    ensures before { writer.new.before ≡ writer.old.before }
{
    let text = moment_text(alloc, moment)?;
    write_shown(writer, name, &text)
}

fn write_shown(writer: &mut Writer, name: &str, text: &Option<String>) -> Result<(), AllocError>
    ensures tokens { OnOk result (writer.new.tokens
        ≡ writer.old.tokens ++ (key name.now ∷ json_tokens (text_json (option_map string_bytes text.now)))) }
    ensures before { writer.new.before ≡ writer.old.before }
{
    match text {
        Some(text) => write_text(writer, name, Some(text.as_str())),
        None => write_text(writer, name, None),
    }
}

fn write_summary(writer: &mut Writer, summary: &Option<Text>) -> Result<(), AllocError>
    ensures tokens { OnOk result (writer.new.tokens
        ≡ writer.old.tokens ++ (key (codes "summary") ∷ json_tokens (text_json summary.now))) }
    ensures before { writer.new.before ≡ writer.old.before }
{
    match summary {
        Some(text) => write_text(writer, "summary", Some(text.as_str())),
        None => write_text(writer, "summary", None),
    }
}

fn write_status(writer: &mut Writer, status: Option<Status>) -> Result<(), AllocError>
    ensures tokens { OnOk result (writer.new.tokens
        ≡ writer.old.tokens ++ (key (codes "status") ∷ json_tokens (text_json (option_map status_text status)))) }
    ensures before { writer.new.before ≡ writer.old.before }
{
    match status {
        Some(status) => write_text(writer, "status", Some(status.as_str())),
        None => write_text(writer, "status", None),
    }
}

/// Writes a name and a text, or null if there is none.
fn write_text(writer: &mut Writer, name: &str, text: Option<&str>) -> Result<(), AllocError>
    ensures tokens { OnOk result (writer.new.tokens
        ≡ writer.old.tokens ++ (key name.now ∷ json_tokens (text_json (option_copied text.entry)))) }
    ensures before { writer.new.before ≡ writer.old.before }
{
    writer.key(name)?;
    match text {
        Some(text) => writer.string(text),
        None => writer.null(),
    }
}

/// Writes a name and a number, or null if there is none.
fn write_number(writer: &mut Writer, name: &str, number: Option<u8>) -> Result<(), AllocError>
    ensures tokens { OnOk result (writer.new.tokens
        ≡ writer.old.tokens ++ (key name.now ∷ json_tokens (number_json number))) }
    ensures before { writer.new.before ≡ writer.old.before }
{
    writer.key(name)?;
    match number {
        Some(number) => write_digits(writer, number as u64),
        None => writer.null(),
    }
}

fn write_digits(writer: &mut Writer, number: u64) -> Result<(), AllocError>
    ensures tokens { OnOk result (writer.new.tokens ≡ writer.old.tokens ++ json_tokens (number_json (Some number))) }
    ensures before { writer.new.before ≡ writer.old.before }
{
    writer.u64(number)
}

/// The object of a row is read as its members, and the text of a list, without its last line break, as the array of these
/// objects (RFC 8259). The numerals in them are those that `{}` writes.
pub fn objects_are_read()
    ensures object { (row : Row) → document (object_text row) ≡ Some (row_object row) }
    ensures array { (rows : List Row) → document (array_text rows) ≡ Some (rows_array rows) }
    ensures line { (rows : List Row) → json_text rows ≡ array_text rows ++ codes "\n" }
    ensures number { (n : ℕ) → n < 2 ^ 64 → decimal n ≡ numeral n }
{}
