//! The attendees of a row in a page.
ghost use Rattle.std.specs.Prelude.{◌≡◌, ◌++◌, OnOk};
ghost use Rattle.std.specs.List.{flat_map};
ghost use Rattle.itip_page.specs.RowMarkup.{who_cell, attendee_markup, answer_markup, bare_address, partstat_words, told_markup};

use crate::escape::put_escaped;
use crate::put::{put, put_number};
use itip_todo::PartStat;
use itip_view::ShownAttendee;
use std::alloc::AllocError;

/// Appends the cell of the attendees.
pub(crate) fn put_who(out: &mut Vec<u8>, attendees: &[ShownAttendee]) -> Result<(), AllocError>
    ensures { OnOk result (out.new.items ≡ out.old.items ++ who_cell attendees.now) }
{
    if attendees.is_empty() {
        return put(out, "<td></td>");
    }
    put(out, "<td><ul>")?;
    put_attendees(out, attendees)?;
    put(out, "</ul></td>")
}

fn put_attendees(out: &mut Vec<u8>, attendees: &[ShownAttendee]) -> Result<(), AllocError>
    ensures { OnOk result (out.new.items ≡ out.old.items ++ flat_map attendee_markup attendees.now) }
{
    for attendee in attendees {
        put_attendee(out, attendee)?;
    }
    Ok(())
}

fn put_attendee(out: &mut Vec<u8>, attendee: &ShownAttendee) -> Result<(), AllocError>
    ensures { OnOk result (out.new.items ≡ out.old.items ++ attendee_markup attendee.now) }
{
    put(out, "<li><bdi>")?;
    put_escaped(out, bare_address(attendee.address.as_str().as_bytes()))?;
    put(out, "</bdi> <span>")?;
    put_answer(out, attendee)?;
    put(out, "</span></li>")
}

fn put_answer(out: &mut Vec<u8>, attendee: &ShownAttendee) -> Result<(), AllocError>
    ensures { OnOk result (out.new.items ≡ out.old.items ++ answer_markup attendee.now) }
{
    put(out, partstat_words(attendee.partstat))?;
    put_told(out, attendee.percent)
}

/// Appends the percentage that an attendee told.
fn put_told(out: &mut Vec<u8>, percent: Option<u8>) -> Result<(), AllocError>
    ensures { OnOk result (out.new.items ≡ out.old.items ++ told_markup percent) }
{
    let Some(percent) = percent else {
        return Ok(());
    };
    put(out, ", ")?;
    put_number(out, percent as usize)?;
    put(out, "%")
}

/// A calendar address without its `mailto:`, which may be in any case; any other address as it is.
fn bare_address(address: &[u8]) -> &[u8]
    ensures { result.now ≡ bare_address address.now }
{
    let Some((scheme, rest)) = address.split_at_checked(7) else {
        return address;
    };
    if scheme.eq_ignore_ascii_case(b"mailto:") {
        rest
    } else {
        address
    }
}

fn partstat_words(partstat: PartStat) -> &'static str
    ensures { result.now ≡ partstat_words partstat }
{
    match partstat {
        PartStat::NeedsAction => "no answer yet",
        PartStat::Accepted => "accepted",
        PartStat::Declined => "declined",
        PartStat::Tentative => "tentative",
        PartStat::Delegated => "delegated",
        PartStat::Completed => "completed",
        PartStat::InProcess => "in process",
    }
}
