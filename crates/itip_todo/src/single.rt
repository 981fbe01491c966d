//! Lines of the properties that may appear once.
ghost use Rattle.std.specs.Prelude.{◌≡◌, ◌≢◌, true, false, None, OnOk, IfOk, IfErr};
ghost use Rattle.itip_todo.specs.Drafts.{Takes, Refuses};
ghost use Rattle.itip_todo.specs.Causes.{IfCause};
ghost use Rattle.itip_todo.specs.Reading.{has_range, has_bad_range};
ghost use Rattle.itip_todo.specs.declared.error.TodoCause.TheVariants as cause;
ghost use Rattle.itip_todo.specs.declared.property_name.PropertyName.TheVariants as name;

use crate::draft::Draft;
use crate::error::{CauseError, TodoCause};
use crate::property_name::PropertyName;
use crate::values::{moment_of, number_of, organizer_of, property_of, stamp_of, status_of, uid_of};
use itip_lines::SeenLine;
use std::alloc::Global;

const SEQUENCE_LIMIT: u32 = 2_147_483_647;

const PERCENT_LIMIT: u32 = 100;

const PRIORITY_LIMIT: u32 = 9;

fn check_free<T>(field: &Option<T>, property: PropertyName) -> Result<(), CauseError>
    ensures free { OnOk result (field.now ≡ None) }
    ensures cause { IfErr result (λ e. IfCause e (λ c. (c ≡ cause.Twice property) × (field.now ≢ None))) }
{
    if field.is_some() {
        return Err(CauseError::Cause(TodoCause::Twice(property)));
    }
    Ok(())
}

pub(crate) fn add_uid(
    alloc: Global,
    draft: &mut Draft,
    line: &SeenLine<'_>,
) -> Result<(), CauseError>
    ensures taken { OnOk result (Takes name.Uid line.now draft.old draft.new) }
    ensures cause { IfErr result (λ e. IfCause e (Refuses name.Uid line.now draft.old)) }
{
    check_free(&draft.uid, PropertyName::Uid)?;
    draft.uid = Some(uid_of(alloc, line)?);
    Ok(())
}

pub(crate) fn add_stamp(draft: &mut Draft, line: &SeenLine<'_>) -> Result<(), CauseError>
    ensures taken { OnOk result (Takes name.DtStamp line.now draft.old draft.new) }
    ensures cause { IfErr result (λ e. IfCause e (Refuses name.DtStamp line.now draft.old)) }
{
    check_free(&draft.stamp, PropertyName::DtStamp)?;
    draft.stamp = Some(stamp_of(line)?);
    Ok(())
}

pub(crate) fn add_seq(draft: &mut Draft, line: &SeenLine<'_>) -> Result<(), CauseError>
    ensures taken { OnOk result (Takes name.Sequence line.now draft.old draft.new) }
    ensures cause { IfErr result (λ e. IfCause e (Refuses name.Sequence line.now draft.old)) }
{
    check_free(&draft.seq, PropertyName::Sequence)?;
    draft.seq = Some(number_of(PropertyName::Sequence, line, SEQUENCE_LIMIT)?);
    Ok(())
}

pub(crate) fn add_base(draft: &mut Draft, line: &SeenLine<'_>) -> Result<(), CauseError>
    ensures taken { OnOk result (Takes name.DeskBase line.now draft.old draft.new) }
    ensures cause { IfErr result (λ e. IfCause e (Refuses name.DeskBase line.now draft.old)) }
{
    check_free(&draft.base, PropertyName::DeskBase)?;
    draft.base = Some(number_of(PropertyName::DeskBase, line, SEQUENCE_LIMIT)?);
    Ok(())
}

pub(crate) fn add_rid(
    alloc: Global,
    draft: &mut Draft,
    line: &SeenLine<'_>,
) -> Result<(), CauseError>
    ensures taken { OnOk result (Takes name.RecurrenceId line.now draft.old draft.new) }
    ensures cause { IfErr result (λ e. IfCause e (Refuses name.RecurrenceId line.now draft.old)) }
{
    check_free(&draft.rid, PropertyName::RecurrenceId)?;
    let range = range_of(line)?;
    draft.rid = Some(moment_of(alloc, PropertyName::RecurrenceId, line)?);
    draft.range = range;
    Ok(())
}

pub(crate) fn add_start(
    alloc: Global,
    draft: &mut Draft,
    line: &SeenLine<'_>,
) -> Result<(), CauseError>
    ensures taken { OnOk result (Takes name.DtStart line.now draft.old draft.new) }
    ensures cause { IfErr result (λ e. IfCause e (Refuses name.DtStart line.now draft.old)) }
{
    check_free(&draft.start, PropertyName::DtStart)?;
    draft.start = Some(moment_of(alloc, PropertyName::DtStart, line)?);
    Ok(())
}

pub(crate) fn add_due(
    alloc: Global,
    draft: &mut Draft,
    line: &SeenLine<'_>,
) -> Result<(), CauseError>
    ensures taken { OnOk result (Takes name.Due line.now draft.old draft.new) }
    ensures cause { IfErr result (λ e. IfCause e (Refuses name.Due line.now draft.old)) }
{
    check_free(&draft.due, PropertyName::Due)?;
    draft.due = Some(moment_of(alloc, PropertyName::Due, line)?);
    Ok(())
}

pub(crate) fn add_status(draft: &mut Draft, line: &SeenLine<'_>) -> Result<(), CauseError>
    ensures taken { OnOk result (Takes name.Status line.now draft.old draft.new) }
    ensures cause { IfErr result (λ e. IfCause e (Refuses name.Status line.now draft.old)) }
{
    check_free(&draft.status, PropertyName::Status)?;
    draft.status = Some(status_of(line)?);
    Ok(())
}

pub(crate) fn add_percent(draft: &mut Draft, line: &SeenLine<'_>) -> Result<(), CauseError>
    ensures taken { OnOk result (Takes name.PercentComplete line.now draft.old draft.new) }
    ensures cause { IfErr result (λ e. IfCause e (Refuses name.PercentComplete line.now draft.old)) }
{
    check_free(&draft.percent, PropertyName::PercentComplete)?;
    let number = number_of(PropertyName::PercentComplete, line, PERCENT_LIMIT)?;
    draft.percent = Some(number as u8);
    Ok(())
}

pub(crate) fn add_priority(draft: &mut Draft, line: &SeenLine<'_>) -> Result<(), CauseError>
    ensures taken { OnOk result (Takes name.Priority line.now draft.old draft.new) }
    ensures cause { IfErr result (λ e. IfCause e (Refuses name.Priority line.now draft.old)) }
{
    check_free(&draft.priority, PropertyName::Priority)?;
    let number = number_of(PropertyName::Priority, line, PRIORITY_LIMIT)?;
    draft.priority = Some(number as u8);
    Ok(())
}

pub(crate) fn add_summary(
    alloc: Global,
    draft: &mut Draft,
    line: &SeenLine<'_>,
) -> Result<(), CauseError>
    ensures taken { OnOk result (Takes name.Summary line.now draft.old draft.new) }
    ensures cause { IfErr result (λ e. IfCause e (Refuses name.Summary line.now draft.old)) }
{
    check_free(&draft.summary, PropertyName::Summary)?;
    draft.summary = Some(property_of(alloc, line)?);
    Ok(())
}

pub(crate) fn add_organizer(
    alloc: Global,
    draft: &mut Draft,
    line: &SeenLine<'_>,
) -> Result<(), CauseError>
    ensures taken { OnOk result (Takes name.Organizer line.now draft.old draft.new) }
    ensures cause { IfErr result (λ e. IfCause e (Refuses name.Organizer line.now draft.old)) }
{
    check_free(&draft.organizer, PropertyName::Organizer)?;
    draft.organizer = Some(organizer_of(alloc, line)?);
    Ok(())
}

/// Whether RECURRENCE-ID has RANGE=THISANDFUTURE. Any other RANGE is refused.
fn range_of(line: &SeenLine<'_>) -> Result<bool, CauseError>
    ensures range { IfOk result (λ range. range ≡ has_range line.now) }
    ensures good { OnOk result (has_bad_range name.RecurrenceId line.now ≡ false) }
    ensures cause { IfErr result (λ e. IfCause e (λ c. (c ≡ cause.Range) × (has_bad_range name.RecurrenceId line.now ≡ true))) }
{
    if has_range(line) {
        return Ok(true);
    }
    if line.has_param("RANGE") {
        return Err(CauseError::Cause(TodoCause::Range));
    }
    Ok(false)
}

/// Whether a line has RANGE=THISANDFUTURE (RFC 5545 3.2.13).
fn has_range(line: &SeenLine<'_>) -> bool
    ensures { result ≡ has_range line.now }
{
    line.first_value("RANGE")
        .eq_ignore_ascii_case("THISANDFUTURE")
}
