//! Rows as records of comma-separated fields (RFC 4180, with LF as the line break).
ghost use Rattle.std.specs.Prelude.{◌≡◌, ◌++◌, ◌∷◌, [], List, Some, OnOk};
ghost use Rattle.std.specs.Fmt.{decimal};
ghost use Rattle.std.specs.List.{flat_map, list_any};
ghost use Rattle.std.specs.Option.{option_copied};
ghost use Rattle.csv.specs.Reading.{default_config, records};
ghost use Rattle.itip_moment.specs.Shown.{shown_moment};
ghost use Rattle.itip_todo.specs.StatusText.{status_text};
ghost use Rattle.itip_inbox.specs.Csv.{is_special, doubled, field_text, field_behind, fields_behind, record_text, field_of};
ghost use Rattle.itip_inbox.specs.Csv.{field_names, name_fields, number_fields, date_fields, last_fields, attendee_fields, record_of};
ghost use Rattle.itip_view.specs.declared.row.Row.{Row};
ghost use Rattle.itip_inbox.specs.Csv.{row_name, attendee_record_text, row_records_text, csv_text, records_of_rows};

use crate::list_form::ListForm;
use crate::row_texts::{id_text, moment_text};
use itip_desk::write_rows;
use itip_lines::Text;
use itip_moment::Moment;
use itip_streams::{StreamFault, write_output};
use itip_todo::Status;
use itip_view::{Row, RowForm, RowId, RowsByUid, ShownAttendee, Window};
use itoa::Buffer;
use std::alloc::{AllocError, Global};
use std::io::Write;

// The first record: the names of the fields, in their order.
const HEADS: &[u8] =
    b"uid,id,sequence,status,percent,priority,start,due,summary,progress,attendee,partstat,attendee_percent\n";

/// Records of comma-separated fields, each on a line: one that names the fields, then for each row one record for each of its
/// attendees, or one if it shows none. An absent value is an empty field.
#[derive(Clone, Copy, Debug)]
pub struct CsvList;

impl ListForm for CsvList {
    ghost octets = { λ _ _ rows. csv_text rows };

    fn write<W: Write>(
        &self,
        alloc: Global,
        _window: Window,
        rows: RowsByUid<'_, '_>,
        _number: usize,
        writer: &mut W,
    ) -> Result<(), StreamFault> {
        let mut kept = Vec::new(alloc);
        put_heads(&mut kept)?;
        write_rows(rows, &CsvRows, writer, &mut kept)?;
        write_output(writer, kept.as_slice())
    }
}

/// The records of a row.
#[derive(Clone, Copy)]
struct CsvRows;

impl RowForm for CsvRows {
    ghost octets = { λ _ row. row_records_text row };

    fn put(&self, row: &Row, out: &mut Vec<u8>) -> Result<(), AllocError> {
        let attendees = row.attendees.as_slice();
        if attendees.is_empty() {
            return put_record(out, row, None);
        }
        put_records(out, row, attendees)
    }
}

fn put_heads(out: &mut Vec<u8>) -> Result<(), AllocError>
    ensures { OnOk result (out.new.items ≡ out.old.items ++ record_text field_names) }
{
    out.extend_from_slice(HEADS)
}

/// Appends a record of a row for each of `attendees`.
fn put_records(out: &mut Vec<u8>, row: &Row, attendees: &[ShownAttendee]) -> Result<(), AllocError>
    ensures { OnOk result (out.new.items ≡ out.old.items ++ flat_map (attendee_record_text row.now) attendees.now) }
{
    for attendee in attendees {
        put_record(out, row, Some(attendee))?;
    }
    Ok(())
}

fn put_record(
    out: &mut Vec<u8>,
    row: &Row,
    attendee: Option<&ShownAttendee>,
) -> Result<(), AllocError>
    ensures { OnOk result (out.new.items ≡ out.old.items ++ record_text (record_of row.now (option_copied attendee.entry))) }
{
    put_field(out, row.uid.as_str())?;
    put_names(out, row)?;
    put_numbers(out, row)?;
    put_dates(out, row)?;
    put_last(out, row)?;
    put_attendee(out, attendee)?;
    out.extend_from_slice(b"\n")
}

fn put_names(out: &mut Vec<u8>, row: &Row) -> Result<(), AllocError>
    ensures { OnOk result (out.new.items ≡ out.old.items ++ fields_behind (name_fields row.now)) }
{
    put_name(out, &row.id)?;
    put_number(out, row.seq)?;
    put_status(out, row.status)
}

fn put_numbers(out: &mut Vec<u8>, row: &Row) -> Result<(), AllocError>
    ensures { OnOk result (out.new.items ≡ out.old.items ++ fields_behind (number_fields row.now)) }
{
    put_shown_number(out, row.percent)?;
    put_shown_number(out, row.priority)
}

fn put_dates(out: &mut Vec<u8>, row: &Row) -> Result<(), AllocError>
    ensures { OnOk result (out.new.items ≡ out.old.items ++ fields_behind (date_fields row.now)) }
{
    put_moment(out, &row.start)?;
    put_moment(out, &row.due)
}

fn put_last(out: &mut Vec<u8>, row: &Row) -> Result<(), AllocError>
    ensures { OnOk result (out.new.items ≡ out.old.items ++ fields_behind (last_fields row.now)) }
{
    put_summary(out, &row.summary)?;
    put_shown_number(out, row.progress)
}

fn put_attendee(out: &mut Vec<u8>, attendee: Option<&ShownAttendee>) -> Result<(), AllocError>
    ensures { OnOk result (out.new.items ≡ out.old.items ++ fields_behind (attendee_fields (option_copied attendee.entry))) }
{
    match attendee {
        Some(attendee) => put_shown(out, attendee),
        None => out.extend_from_slice(b",,,"),
    }
}

fn put_shown(out: &mut Vec<u8>, attendee: &ShownAttendee) -> Result<(), AllocError>
    ensures { OnOk result (out.new.items ≡ out.old.items ++ fields_behind (attendee_fields (Some attendee.now))) }
{
    put_behind(out, attendee.address.as_str())?;
    put_behind(out, attendee.partstat.as_str())?;
    put_shown_number(out, attendee.percent)
}

fn put_moment(out: &mut Vec<u8>, moment: &Option<Moment>) -> Result<(), AllocError>
    ensures { OnOk result (out.new.items ≡ out.old.items ++ field_behind (field_of shown_moment moment.now)) }
{
    match moment_text(*out.allocator(), moment)? {
        Some(text) => put_behind(out, text.as_str()),
        None => put_behind(out, ""),
    }
}

fn put_name(out: &mut Vec<u8>, id: &RowId) -> Result<(), AllocError>
    ensures { OnOk result (out.new.items ≡ out.old.items ++ field_behind (field_of (λ text. text) (row_name id.now))) }
{
    match id_text(*out.allocator(), id)? {
        Some(text) => put_behind(out, text.as_str()),
        None => put_behind(out, ""),
    }
}

fn put_summary(out: &mut Vec<u8>, summary: &Option<Text>) -> Result<(), AllocError>
    ensures { OnOk result (out.new.items ≡ out.old.items ++ field_behind (field_of (λ text. text) summary.now)) }
{
    match summary {
        Some(text) => put_behind(out, text.as_str()),
        None => put_behind(out, ""),
    }
}

fn put_status(out: &mut Vec<u8>, status: Option<Status>) -> Result<(), AllocError>
    ensures { OnOk result (out.new.items ≡ out.old.items ++ field_behind (field_of status_text status)) }
{
    match status {
        Some(status) => put_behind(out, status.as_str()),
        None => put_behind(out, ""),
    }
}

fn put_shown_number(out: &mut Vec<u8>, number: Option<u8>) -> Result<(), AllocError>
    ensures { OnOk result (out.new.items ≡ out.old.items ++ field_behind (field_of decimal number)) }
{
    match number {
        Some(number) => put_number(out, number as u32),
        None => put_behind(out, ""),
    }
}

fn put_number(out: &mut Vec<u8>, number: u32) -> Result<(), AllocError>
    ensures { OnOk result (out.new.items ≡ out.old.items ++ field_behind (decimal number)) }
{
    let mut digits = Buffer::new();
    put_behind(out, digits.format(number))
}

/// Appends a comma and a field.
fn put_behind(out: &mut Vec<u8>, field: &str) -> Result<(), AllocError>
    ensures { OnOk result (out.new.items ≡ out.old.items ++ field_behind field.now) }
{
    out.push(b',')?;
    put_field(out, field)
}

/// Appends a field, in quotes if it has a comma, a quote, CR or LF.
fn put_field(out: &mut Vec<u8>, field: &str) -> Result<(), AllocError>
    ensures { OnOk result (out.new.items ≡ out.old.items ++ field_text field.now) }
{
    let octets = field.as_bytes();
    if needs_quotes(octets) {
        return put_quoted(out, octets);
    }
    out.extend_from_slice(octets)
}

fn needs_quotes(octets: &[u8]) -> bool
    ensures { result ≡ list_any is_special octets.now }
{
    octets.iter().any(|octet| is_special(*octet))
}

fn is_special(octet: u8) -> bool
    ensures { result ≡ is_special octet }
{
    octet == b',' || octet == b'"' || octet == b'\r' || octet == b'\n'
}

fn put_quoted(out: &mut Vec<u8>, octets: &[u8]) -> Result<(), AllocError>
    ensures { OnOk result (out.new.items ≡ out.old.items ++ (34 ∷ (flat_map doubled octets.now ++ 34 ∷ []))) }
{
    out.push(b'"')?;
    put_doubled(out, octets)?;
    out.extend_from_slice(b"\"")
}

fn put_doubled(out: &mut Vec<u8>, octets: &[u8]) -> Result<(), AllocError>
    ensures { OnOk result (out.new.items ≡ out.old.items ++ flat_map doubled octets.now) }
{
    for octet in octets {
        put_octet(out, *octet)?;
    }
    Ok(())
}

fn put_octet(out: &mut Vec<u8>, octet: u8) -> Result<(), AllocError>
    ensures { OnOk result (out.new.items ≡ out.old.items ++ doubled octet) }
{
    if octet == b'"' {
        return out.extend_from_slice(b"\"\"");
    }
    out.push(octet)?;
    Ok(())
}

/// A reader of comma-separated fields (that of `csv`) reads what is written of rows as the names of the fields and then their records,
/// and as nothing else.
pub fn records_are_read()
    ensures { (rows : List Row) → records default_config (csv_text rows) ≡ records_of_rows rows }
{}
