//! The moments of a series in a window.
ghost use Rattle.std.specs.Prelude.{◌≡◌, ◌≤◌, ◌↔◌, length, [], ℤ, pos, ◌+ℤ◌, ◌≤ℤ◌, ◌<ℤ◌, IsTrue, IfOk, IfErr, OnOk};
ghost use Rattle.itip_moment.specs.Moment.{moment_day};
ghost use Rattle.itip_moment.specs.Years.{IsDayNumber};
ghost use Rattle.itip_recur.specs.Adding.{AreBefore, Gains, IsStep, IsGrown, IsKept, IsThis, IsStart, IsRepeatOf, IsBetween, IsOnDay};
ghost use Rattle.itip_recur.specs.Adding.{IsOneOf, IsMemberIn};
ghost use Rattle.itip_recur.specs.Calendar.{IsDayOrEnd};
ghost use Rattle.itip_recur.specs.Members.{IsRuleMember};
ghost use Rattle.itip_recur.specs.Occurrences.{AreOccurrences, AreOver, IfTooMany, occurrence_limit};

use crate::NoMemory;
use crate::ascending::Ascending;
use crate::calendar::CALENDAR_END;
use crate::error::RecurError;
use crate::members::{end_of_days, is_up_to, on_day};
use crate::rule::{End, Rule};
use crate::series::Series;
use crate::walk::Walk;
use itip_moment::Moment;
use std::alloc::{AllocError, Global};

/// The most occurrences that are listed.
const OCCURRENCE_LIMIT: usize = 100_000;

/// The moments of a series whose day lies in a window, ascending, each once, at most 100,000.
///
/// Days are numbered from 1970-01-01, and the day `to` is not in the window. Returns [`RecurError::TooMany`] if more than
/// 100,000 are found, and [`RecurError::NoMemory`] when out of memory.
pub fn occurrences(
    alloc: Global,
    series: &Series,
    from: i32,
    to: i32,
) -> Result<Vec<Moment>, RecurError>
    ensures found { IfOk result (λ v. AreOccurrences series.now from to v.items) }
    ensures small { IfOk result (λ v. length v.items ≤ occurrence_limit) }
    ensures over { IfErr result (λ e. IfTooMany e (AreOver occurrence_limit series.now from to)) }
{
    listed(alloc, series, from, to, OCCURRENCE_LIMIT)
}

/// All moments of a series whose day lies in a window, like [`occurrences`] but without its limit.
///
/// For callers that leave some of them out and have a limit of their own. Fails only when out of memory.
pub fn all_occurrences(
    alloc: Global,
    series: &Series,
    from: i32,
    to: i32,
) -> Result<Vec<Moment>, NoMemory>
    ensures { IfOk result (λ v. AreOccurrences series.now from to v.items) }
{
    // No list has more than `usize::MAX` moments, so the only error is out of memory.
    listed(alloc, series, from, to, usize::MAX).map_err(|_| AllocError)
}

// The moments in the window, if there are at most `limit`.
fn listed(
    alloc: Global,
    series: &Series,
    from: i32,
    to: i32,
    limit: usize,
) -> Result<Vec<Moment>, RecurError>
    ensures found { IfOk result (λ v. AreOccurrences series.now from to v.items) }
    ensures small { IfOk result (λ v. length v.items ≤ limit) }
    ensures over { IfErr result (λ e. IfTooMany e (AreOver limit series.now from to)) }
{
    let mut found = Ascending::new(alloc);
    add_members(&mut found, series, from, to, limit)?;
    Ok(with_rdates(found, series, from, to, limit)?.moments)
}

fn add_members(
    found: &mut Ascending,
    series: &Series,
    from: i32,
    to: i32,
    limit: usize,
) -> Result<(), RecurError>
    requires { found.old.moments.items ≡ [] }
    ensures { IsStep limit (IsMemberIn series.now from to) found.old.moments.items found.new.moments.items result }
{
    add_start(found, series, from, to, limit)?;
    match &series.rule {
        Some(rule) => add_repeats(found, series, rule, from, to, limit),
        None => Ok(()),
    }
}

fn add_start(
    found: &mut Ascending,
    series: &Series,
    from: i32,
    to: i32,
    limit: usize,
) -> Result<(), RecurError>
    requires { found.old.moments.items ≡ [] }
    ensures { IsStep limit (IsStart series.now from to) found.old.moments.items found.new.moments.items result }
{
    if is_member(&series.rule, &series.start) && is_kept(series, &series.start, from, to) {
        found.add(series.start.clone()?, limit)
    } else {
        Ok(())
    }
}

fn is_kept(series: &Series, moment: &Moment, from: i32, to: i32) -> bool
    ensures { IsTrue result ↔ IsKept series.now from to moment.now }
{
    is_in(moment.day(), from, to) && !series.is_excluded(moment)
}

fn is_in(day: i32, from: i32, to: i32) -> bool
    ensures { IsTrue result ↔ ((from ≤ℤ day) × (day <ℤ to)) }
{
    from <= day && day < to
}

/// Whether the start is a member: COUNT counts it, and UNTIL may lie before it.
pub(crate) fn is_member(rule: &Option<Rule>, start: &Moment) -> bool
    ensures { IsTrue result ↔ IsRuleMember rule.now start.now start.now }
{
    match rule {
        None => true,
        Some(rule) => match &rule.end {
            End::Count(count) => *count > 0,
            end => is_up_to(end, start),
        },
    }
}

fn add_repeats(
    found: &mut Ascending,
    series: &Series,
    rule: &Rule,
    from: i32,
    to: i32,
    limit: usize,
) -> Result<(), RecurError>
    requires { AreBefore (moment_day series.now.start +ℤ pos 1) found.old.moments.items }
    ensures { IsStep limit (IsRepeatOf series.now rule.now from to) found.old.moments.items found.new.moments.items result }
{
    let start = series.start.day();
    let end = end_of_days(rule, &series.start, window_day(start, to));
    add_between(found, series, rule, window_day(start, from), end, limit)
}

// A day of a window, limited to the days after the start and up to the end of the calendar.
fn window_day(start: i32, day: i32) -> i32
    requires { IsDayNumber start }
    ensures bounds { IsDayOrEnd result }
    ensures later { start <ℤ result }
    ensures same { (x : ℤ) → IsDayNumber x → start <ℤ x → (x <ℤ result) ↔ (x <ℤ day) }
{
    if day <= start {
        start + 1
    } else if day > CALENDAR_END {
        CALENDAR_END
    } else {
        day
    }
}

fn add_between(
    found: &mut Ascending,
    series: &Series,
    rule: &Rule,
    from: i32,
    end: i32,
    limit: usize,
) -> Result<(), RecurError>
    requires from_in { IsDayOrEnd from }
    requires end_in { IsDayOrEnd end }
    requires later { moment_day series.now.start <ℤ from }
    requires before { AreBefore from found.old.moments.items }
    ensures { IsStep limit (IsBetween series.now rule.now from end) found.old.moments.items found.new.moments.items result }
{
    let walk = Walk::new(rule, series.start.day());
    let mut day = from;
    while day < end {
        let Some(next) = walk.next_day(day, end) else {
            break;
        };
        add_on_day(found, series, rule, next, limit)?;
        day = next + 1;
    }
    Ok(())
}

fn add_on_day(
    found: &mut Ascending,
    series: &Series,
    rule: &Rule,
    day: i32,
    limit: usize,
) -> Result<(), RecurError>
    requires day_in { IsDayNumber day }
    requires before { AreBefore day found.old.moments.items }
    ensures { IsStep limit (IsOnDay series.now rule.now day) found.old.moments.items found.new.moments.items result }
{
    let moment = on_day(&series.start, day)?;
    if is_up_to(&rule.end, &moment) && !series.is_excluded(&moment) {
        found.add(moment, limit)
    } else {
        Ok(())
    }
}

// Adds the moments of RDATE in the window that aren't excluded to those that were found.
fn with_rdates(
    found: Ascending,
    series: &Series,
    from: i32,
    to: i32,
    limit: usize,
) -> Result<Ascending, RecurError>
    ensures { IsGrown limit (IsOneOf series.now.rdates series.now from to) found.moments.items result }
{
    if series.rdates.is_empty() {
        return Ok(found);
    }
    let mut moments = found.moments;
    push_rdates(&mut moments, series, from, to)?;
    let all = Ascending::of_moments(moments)?;
    if all.moments.len() > limit {
        return Err(RecurError::TooMany);
    }
    Ok(all)
}

fn push_rdates(
    moments: &mut Vec<Moment>,
    series: &Series,
    from: i32,
    to: i32,
) -> Result<(), NoMemory>
    ensures { OnOk result (Gains (IsOneOf series.now.rdates series.now from to) moments.old.items moments.new.items) }
{
    for moment in series.rdates.as_slice() {
        push_kept(moments, series, moment, from, to)?;
    }
    Ok(())
}

fn push_kept(
    moments: &mut Vec<Moment>,
    series: &Series,
    moment: &Moment,
    from: i32,
    to: i32,
) -> Result<(), NoMemory>
    ensures { OnOk result (Gains (IsThis series.now from to moment.now) moments.old.items moments.new.items) }
{
    if is_kept(series, moment, from, to) {
        moments.push(moment.clone()?)?;
    }
    Ok(())
}
