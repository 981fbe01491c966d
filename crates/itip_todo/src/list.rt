//! Lines of the properties that may appear more than once.
ghost use Rattle.std.specs.Prelude.{◌≡◌, ◌≢◌, ◌++◌, ◌∷◌, List, Some, codes, option_copied, OnOk, IfOk, IfErr, MatchOption};
ghost use Rattle.itip_moment.specs.declared.moment.Moment.{Moment};
ghost use Rattle.itip_moment.specs.Spelling.{MomentText};
ghost use Rattle.itip_moment.specs.Zone.{zone_text};
ghost use Rattle.itip_todo.specs.Drafts.{Takes, Refuses, HasNoComma, PutsMoment, PutsMoments};
ghost use Rattle.itip_todo.specs.Causes.{IfCause};
ghost use Rattle.itip_todo.specs.Participation.{param_value};
ghost use Rattle.itip_todo.specs.Values.{AreMoments};
ghost use Rattle.itip_todo.specs.declared.error.TodoCause.TheVariants as cause;
ghost use Rattle.itip_todo.specs.declared.property_name.PropertyName.TheVariants as name;

use crate::attendee::attendee_key;
use crate::draft::Draft;
use crate::error::{CauseError, TodoCause};
use crate::property_name::PropertyName;
use crate::values::bad_value;
use itip_lines::SeenLine;
use itip_moment::{Moment, ZoneName, read_moment_in};
use std::alloc::Global;
use std::collections::BTreeSet;

const ATTENDEE_LIMIT: usize = 2_000;

pub(crate) fn add_attendee(
    alloc: Global,
    draft: &mut Draft,
    line: &SeenLine<'_>,
) -> Result<(), CauseError>
    ensures taken { OnOk result (Takes name.Attendee line.now draft.old draft.new) }
    ensures cause { IfErr result (λ e. IfCause e (Refuses name.Attendee line.now draft.old)) }
{
    if line.value().is_empty() {
        return Err(bad_value(PropertyName::Attendee));
    }
    if draft.attendees.len() >= ATTENDEE_LIMIT {
        return Err(CauseError::Cause(TodoCause::TooMany));
    }
    let key = attendee_key(alloc, line.value())?;
    if !draft.keys.insert(key)? {
        return Err(CauseError::Cause(TodoCause::SameAttendee));
    }
    draft.attendees.push(line)?;
    Ok(())
}

pub(crate) fn add_rule(draft: &mut Draft, line: &SeenLine<'_>) -> Result<(), CauseError>
    ensures taken { OnOk result (Takes name.RRule line.now draft.old draft.new) }
    ensures cause { IfErr result (λ e. IfCause e (Refuses name.RRule line.now draft.old)) }
{
    draft.rule.push(line.value())?;
    Ok(())
}

pub(crate) fn add_rdate(
    alloc: Global,
    draft: &mut Draft,
    line: &SeenLine<'_>,
) -> Result<(), CauseError>
    ensures taken { OnOk result (Takes name.RDate line.now draft.old draft.new) }
    ensures cause { IfErr result (λ e. IfCause e (Refuses name.RDate line.now draft.old)) }
{
    put_moments(alloc, PropertyName::RDate, line, &mut draft.rdates)
}

pub(crate) fn add_exdate(
    alloc: Global,
    draft: &mut Draft,
    line: &SeenLine<'_>,
) -> Result<(), CauseError>
    ensures taken { OnOk result (Takes name.ExDate line.now draft.old draft.new) }
    ensures cause { IfErr result (λ e. IfCause e (Refuses name.ExDate line.now draft.old)) }
{
    put_moments(alloc, PropertyName::ExDate, line, &mut draft.exdates)
}

pub(crate) fn add_other(draft: &mut Draft, line: &SeenLine<'_>) -> Result<(), CauseError>
    ensures taken { OnOk result (Takes name.Others line.now draft.old draft.new) }
    ensures cause { IfErr result (λ e. IfCause e (Refuses name.Others line.now draft.old)) }
{
    draft.others.push(line)?;
    Ok(())
}

/// Inserts the moments of a line into a set. On an error, some of them may have been inserted.
fn put_moments(
    alloc: Global,
    property: PropertyName,
    line: &SeenLine<'_>,
    set: &mut BTreeSet<Moment>,
) -> Result<(), CauseError>
    ensures put { OnOk result (PutsMoments line.now.params line.now.value set.old set.new) }
    ensures cause { IfErr result (λ e. IfCause e (λ c.
        (c ≡ cause.BadValue property) × ((ms : List Moment) → AreMoments line.now.params line.now.value ms → ⊥))) }
{
    let tzid = line.first_value("TZID");
    let zone = ZoneName::new(alloc, tzid)?;
    let put = put_in_zone(property, line, zone.as_ref(), set);
    // An explicit call: an implicit drop would be proved anew.
    drop(zone);
    put
}

/// Inserts the moments of a line into a set, in the zone that its parameters name. On an error, some of them may have been inserted.
fn put_in_zone(
    property: PropertyName,
    line: &SeenLine<'_>,
    zone: Option<&ZoneName>,
    set: &mut BTreeSet<Moment>,
) -> Result<(), CauseError>
    requires { zone_text (option_copied zone) ≡ param_value (codes "TZID") line.now.params }
    ensures put { OnOk result (PutsMoments line.now.params line.now.value set.old set.new) }
    ensures cause { IfErr result (λ e. IfCause e (λ c.
        (c ≡ cause.BadValue property) × ((ms : List Moment) → AreMoments line.now.params line.now.value ms → ⊥))) }
{
    let mut rest = line.value();
    while let Some((front, after)) = cut_comma(rest) {
        put_moment(property, front, zone, set)?;
        rest = after;
    }
    put_moment(property, rest, zone, set)
}

/// What comes before and after the first comma.
fn cut_comma(text: &str) -> Option<(&str, &str)>
    ensures { MatchOption result (HasNoComma text.now)
        (λ p. (text.now ≡ p.0.now ++ 44 ∷ p.1.now) × HasNoComma p.0.now) }
{
    text.split_once(',')
}

fn put_moment(
    property: PropertyName,
    text: &str,
    zone: Option<&ZoneName>,
    set: &mut BTreeSet<Moment>,
) -> Result<(), CauseError>
    ensures put { OnOk result (PutsMoment text.now (zone_text (option_copied zone.entry)) set.old set.new) }
    ensures cause { IfErr result (λ e. IfCause e (λ c.
        (c ≡ cause.BadValue property) × ((m : Moment) → MomentText text.now (Some (zone_text (option_copied zone.entry))) m → ⊥))) }
{
    let Some(moment) = read_moment_in(text, zone)? else {
        return Err(bad_value(property));
    };
    set.insert(moment)?;
    Ok(())
}
