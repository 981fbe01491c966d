//! The values of properties.
ghost use Rattle.std.specs.Prelude.{◌≡◌, ◌≤◌, ℕ, IfOk, IfErr, OnErr};
ghost use Rattle.itip_moment.specs.declared.moment.Moment.{Moment};
ghost use Rattle.itip_todo.specs.declared.error.CauseError.TheVariants as cause_error;
ghost use Rattle.itip_todo.specs.declared.error.TodoCause.TheVariants as cause;
ghost use Rattle.itip_todo.specs.declared.property_name.PropertyName.TheVariants as name;
ghost use Rattle.itip_todo.specs.Causes.{IfCause};
ghost use Rattle.itip_todo.specs.Reading.{IsUidOf, IsStampOf, IsMomentOf, IsStatusOf, IsPropertyOf, IsOrganizerOf};
ghost use Rattle.itip_todo.specs.Values.{IsNumberUpTo, IsGoodValue};

use crate::error::{CauseError, TodoCause};
use crate::number::read_number;
use crate::property::Property;
use crate::property_name::PropertyName;
use crate::status::Status;
use crate::uid::Uid;
use itip_lines::{NoMemory, SeenLine};
use itip_moment::{Moment, Stamp, read_moment, read_stamp};
use std::alloc::Global;

pub(crate) fn bad_value(property: PropertyName) -> CauseError
    ensures { result ≡ cause_error.Cause (cause.BadValue property) }
{
    CauseError::Cause(TodoCause::BadValue(property))
}

pub(crate) fn uid_of(alloc: Global, line: &SeenLine<'_>) -> Result<Uid, CauseError>
    ensures value { IfOk result (λ uid. IsUidOf line.now uid) }
    ensures cause { IfErr result (λ e. IfCause e (λ c. (c ≡ cause.BadValue name.Uid) × (IsGoodValue name.Uid line.now → ⊥))) }
{
    if line.value().is_empty() {
        return Err(bad_value(PropertyName::Uid));
    }
    Ok(Uid::copy(alloc, line.value())?)
}

pub(crate) fn stamp_of(line: &SeenLine<'_>) -> Result<Stamp, CauseError>
    ensures value { IfOk result (λ stamp. IsStampOf line.now stamp) }
    ensures cause { IfErr result (λ e. IfCause e (λ c. (c ≡ cause.BadValue name.DtStamp) × (IsGoodValue name.DtStamp line.now → ⊥))) }
{
    match read_stamp(line.value()) {
        Some(stamp) => Ok(stamp),
        None => Err(bad_value(PropertyName::DtStamp)),
    }
}

pub(crate) fn number_of(
    property: PropertyName,
    line: &SeenLine<'_>,
    limit: u32,
) -> Result<u32, CauseError>
    ensures value { IfOk result (IsNumberUpTo limit line.now.value) }
    ensures small { IfOk result (λ n. n ≤ limit) }
    ensures cause { IfErr result (λ e. IfCause e (λ c.
        (c ≡ cause.BadValue property) × ((n : ℕ) → IsNumberUpTo limit line.now.value n → ⊥))) }
{
    match read_number(line.value(), limit) {
        Some(number) => Ok(number),
        None => Err(bad_value(property)),
    }
}

pub(crate) fn moment_of(
    alloc: Global,
    property: PropertyName,
    line: &SeenLine<'_>,
) -> Result<Moment, CauseError>
    ensures value { IfOk result (λ m. IsMomentOf line.now m) }
    ensures cause { IfErr result (λ e. IfCause e (λ c. (c ≡ cause.BadValue property) × ((m : Moment) → IsMomentOf line.now m → ⊥))) }
{
    let zone = line.first_value("TZID");
    match read_moment(alloc, line.value(), Some(zone))? {
        Some(moment) => Ok(moment),
        None => Err(bad_value(property)),
    }
}

pub(crate) fn status_of(line: &SeenLine<'_>) -> Result<Status, CauseError>
    ensures value { IfOk result (λ s. IsStatusOf line.now s) }
    ensures cause { IfErr result (λ e. IfCause e (λ c. (c ≡ cause.BadValue name.Status) × (IsGoodValue name.Status line.now → ⊥))) }
{
    Status::named(line.value()).ok_or(bad_value(PropertyName::Status))
}

pub(crate) fn property_of(alloc: Global, line: &SeenLine<'_>) -> Result<Property, NoMemory>
    ensures value { IfOk result (λ property. IsPropertyOf line.now property) }
{
    Property::of_line(alloc, line)
}

pub(crate) fn organizer_of(alloc: Global, line: &SeenLine<'_>) -> Result<Property, CauseError>
    ensures value { IfOk result (λ property. IsOrganizerOf line.now property) }
    ensures cause { IfErr result (λ e. IfCause e (λ c. (c ≡ cause.BadValue name.Organizer) × (IsGoodValue name.Organizer line.now → ⊥))) }
{
    if line.value().is_empty() {
        return Err(bad_value(PropertyName::Organizer));
    }
    Ok(property_of(alloc, line)?)
}
