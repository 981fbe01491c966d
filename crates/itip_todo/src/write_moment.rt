//! Writing moments as properties.
ghost use Rattle.std.specs.Prelude.{◌≡◌, ◌++◌, ◌∷◌, [], map, OnOk};
ghost use Rattle.itip_lines.specs.Lawful.{params_text};
ghost use Rattle.itip_lines.specs.Writing.{folded};
ghost use Rattle.itip_moment.specs.Written.{moment_text};
ghost use Rattle.itip_todo.specs.Table.{name_text};
ghost use Rattle.itip_todo.specs.UpTo.{AppendsUpTo};
ghost use Rattle.itip_todo.specs.Written.{contents_octets, moment_line, moment_params, optional, range_params, rid_line};

use crate::property_name::PropertyName;
use itip_lines::{write_param, write_parts};
use itip_moment::{Moment, write_moment};
use std::alloc::AllocError;

/// More octets than most moments take with their parameters.
const USUAL: usize = 64;

pub(crate) fn write_optional_moment(
    property: PropertyName,
    moment: &Option<Moment>,
    out: &mut Vec<u8>,
) -> Result<(), AllocError>
    ensures { OnOk result (out.new.items ≡ out.old.items ++ contents_octets (optional (moment_line property) moment.now)) }
{
    match moment {
        Some(moment) => write_one(property, moment, out),
        None => Ok(()),
    }
}

pub(crate) fn write_moments(
    property: PropertyName,
    moments: &[Moment],
    limit: usize,
    out: &mut Vec<u8>,
) -> Result<(), AllocError>
    ensures { OnOk result (AppendsUpTo limit (map (moment_line property) moments.now) out.old.items out.new.items) }
{
    for moment in moments {
        if out.len() > limit {
            return Ok(());
        }
        write_one(property, moment, out)?;
    }
    Ok(())
}

pub(crate) fn write_rid(
    range: bool,
    moment: &Option<Moment>,
    out: &mut Vec<u8>,
) -> Result<(), AllocError>
    ensures { OnOk result (out.new.items ≡ out.old.items ++ contents_octets (optional (rid_line range) moment.now)) }
{
    match moment {
        Some(moment) => write_recurrence_id(range, moment, out),
        None => Ok(()),
    }
}

/// Appends the RECURRENCE-ID line of an instance, or with `range` of it and all after it (RFC 5545 3.2.13).
///
/// If an allocation fails, a part of the line may have been appended.
pub fn write_recurrence_id(
    range: bool,
    moment: &Moment,
    out: &mut Vec<u8>,
) -> Result<(), AllocError>
    ensures { OnOk result (out.new.items ≡ out.old.items ++ contents_octets (rid_line range moment.now ∷ [])) }
{
    let mut params = Vec::with_capacity(*out.allocator(), USUAL)?;
    write_moment_params(moment, &mut params)?;
    write_range(range, &mut params)?;
    write_behind(PropertyName::RecurrenceId, params, moment, out)
}

/// Appends the line of a moment: VALUE=DATE marks a date, and TZID a zone.
fn write_one(property: PropertyName, moment: &Moment, out: &mut Vec<u8>) -> Result<(), AllocError>
    ensures { OnOk result (out.new.items ≡ out.old.items ++ contents_octets (moment_line property moment.now ∷ [])) }
{
    let mut params = Vec::with_capacity(*out.allocator(), USUAL)?;
    write_moment_params(moment, &mut params)?;
    write_behind(property, params, moment, out)
}

/// Appends the line of a moment. `params` is the text of its parameters, and the buffer in which its value is assembled.
fn write_behind(
    property: PropertyName,
    params: Vec<u8>,
    moment: &Moment,
    out: &mut Vec<u8>,
) -> Result<(), AllocError>
    ensures { OnOk result (out.new.items
        ≡ out.old.items ++ folded 0 (name_text property ++ (params.items ++ 58 ∷ moment_text moment.now))) }
{
    let mut text = params;
    let end = text.len();
    write_moment(moment, &mut text)?;
    let (params, value) = text.as_slice().split_at(end);
    write_parts(property.as_str(), params, value, out)
}

/// Appends the text of a moment's parameters.
fn write_moment_params(moment: &Moment, out: &mut Vec<u8>) -> Result<(), AllocError>
    ensures { OnOk result (out.new.items ≡ out.old.items ++ params_text (moment_params moment.now)) }
{
    match moment {
        Moment::Date(_) => write_param("VALUE", "DATE", out),
        Moment::Zoned(zone, _) => write_param("TZID", zone.as_str(), out),
        Moment::Floating(_) | Moment::Utc(_) => Ok(()),
    }
}

/// Appends the text of RANGE, if there is one.
fn write_range(range: bool, out: &mut Vec<u8>) -> Result<(), AllocError>
    ensures { OnOk result (out.new.items ≡ out.old.items ++ params_text (range_params range)) }
{
    if !range {
        return Ok(());
    }
    write_param("RANGE", "THISANDFUTURE", out)
}
