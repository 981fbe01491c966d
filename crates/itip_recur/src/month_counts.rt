//! Whole months of a rule that counts by months or years, counted by their shapes and not day by day.
ghost use Rattle.std.specs.Prelude.{◌≡◌, ◌↔◌, ◌+◌, ◌<◌, ◌≤◌, ◌^◌, pos, ◌+ℤ◌, ◌≤ℤ◌, IsTrue};
ghost use Rattle.itip_moment.specs.Years.{IsDayNumber};
ghost use Rattle.itip_recur.specs.Calendar.{IsDayOrEnd, day_of_month, month_length};
ghost use Rattle.itip_recur.specs.Counting.{Counted, Walked};
ghost use Rattle.itip_recur.specs.MonthCounts.{IsByMonths, OwnsMonth, AreMet, month_shape};

use crate::calendar::{CalendarDay, weekday_number};
use crate::periods::{Passed, passed_periods, seen_in};
use crate::rule::Frequency;
use crate::selected_days::is_in_month;
use crate::waits::rest_of_month;
use crate::walk::Walk;

/// A month has at most 31 days and begins on one of seven weekdays.
const SHAPES: usize = 224;

/// Marks a shape that was not met yet.
const UNKNOWN: u32 = u32::MAX;

/// Whole periods, or the rest of the start's month and whole months, that lie before `end`, as far as COUNT leaves room for them.
pub(crate) fn passed_days(walk: &Walk<'_>, count: u32, end: i32) -> Passed
    requires end_in { IsDayOrEnd end }
    ensures fits { 1 + result.seen < 2 ^ 32 }
    ensures bounds { IsDayOrEnd (walk.now.start.number +ℤ pos 1 +ℤ pos result.days) }
    ensures counted { Counted walk.now.rule.now walk.now.start.number count (1 + result.seen)
        (walk.now.start.number +ℤ pos 1 +ℤ pos result.days) }
{
    if is_by_months(&walk.rule.frequency) {
        passed_months(walk, count, end)
    } else {
        passed_periods(walk, count, end)
    }
}

fn is_by_months(frequency: &Frequency) -> bool
    ensures { IsTrue result ↔ IsByMonths frequency.now }
{
    match frequency {
        Frequency::Daily | Frequency::Weekly(_) => false,
        Frequency::Monthly(_) | Frequency::Yearly(_) => true,
    }
}

// The rest of the start's month, and whole months after it.
fn passed_months(walk: &Walk<'_>, count: u32, end: i32) -> Passed
    requires by_months { IsByMonths walk.now.rule.now.frequency }
    requires end_in { IsDayOrEnd end }
    ensures fits { 1 + result.seen < 2 ^ 32 }
    ensures bounds { IsDayOrEnd (walk.now.start.number +ℤ pos 1 +ℤ pos result.days) }
    ensures counted { Counted walk.now.rule.now walk.now.start.number count (1 + result.seen)
        (walk.now.start.number +ℤ pos 1 +ℤ pos result.days) }
{
    let none = Passed { seen: 0, days: 0 };
    let rest = rest_of_month(&walk.start);
    let begin = walk.start.number + 1;
    let next = walk.start.number + rest;
    if next >= end {
        return none;
    }
    let more = seen_in(walk, begin, next);
    if more >= count {
        return none;
    }
    let reached = pass_months(walk, count, end, 1 + more, walk.start.later(rest));
    Passed {
        seen: reached.seen - 1,
        days: days_between(begin, reached.day),
    }
}

// The number of days from one day to another.
fn days_between(from: i32, to: i32) -> u32
    requires from_in { IsDayOrEnd from }
    requires to_in { IsDayOrEnd to }
    requires before { from ≤ℤ to }
    ensures { from +ℤ pos result ≡ to }
{
    (to - from) as u32
}

/// The first day of a month, and how many days were counted before it.
#[derive(Clone, Copy)]
struct Reached {
    seen: u32,
    day: i32,
}

// Goes on by whole months from the first day of one.
fn pass_months(walk: &Walk<'_>, count: u32, end: i32, before: u32, from: CalendarDay) -> Reached
    requires by_months { IsByMonths walk.now.rule.now.frequency }
    requires end_in { IsDayOrEnd end }
    requires is_first { day_of_month from.number ≡ 1 }
    requires counted { Counted walk.now.rule.now walk.now.start.number count before from.number }
    requires low { 1 ≤ before }
    requires room { before ≤ count }
    ensures low { 1 ≤ result.seen }
    ensures in_years { IsDayNumber result.day }
    ensures counted { Counted walk.now.rule.now walk.now.start.number count result.seen result.day }
{
    let mut met = [UNKNOWN; SHAPES];
    let mut seen = before;
    let mut first = from;
    while seen < count {
        let days = first.days_in_month as i32;
        if first.number + days >= end {
            break;
        }
        let more = seen_in_month(walk, &mut met, &first);
        if more > count - seen {
            break;
        }
        seen += more;
        first = first.later(days);
    }
    Reached {
        seen,
        day: first.number,
    }
}

// How many days of the pattern lie in the month that begins with `first`. The rule's own months of one shape have equally many, so
// each shape is walked through only once.
fn seen_in_month(walk: &Walk<'_>, met: &mut [u32; SHAPES], first: &CalendarDay) -> u32
    requires by_months { IsByMonths walk.now.rule.now.frequency }
    requires is_first { day_of_month first.now.number ≡ 1 }
    requires next_in { IsDayNumber (first.now.number +ℤ pos (month_length first.now.number)) }
    requires met { AreMet walk.now.rule.now walk.now.start.number met.old }
    ensures met { AreMet walk.now.rule.now walk.now.start.number met.new }
    ensures walked { Walked walk.now.rule.now walk.now.start.number first.now.number result
        (first.now.number +ℤ pos (month_length first.now.number)) }
{
    if !owns_month(walk, first) {
        return 0;
    }
    let shape = shape_of(first);
    let known = met[shape];
    if known != UNKNOWN {
        return known;
    }
    let next = first.number + first.days_in_month as i32;
    let seen = seen_in(walk, first.number, next);
    met[shape] = seen;
    seen
}

fn shape_of(first: &CalendarDay) -> usize
    ensures value { result ≡ month_shape first.now.number }
    ensures bound { result < SHAPES }
{
    7 * first.days_in_month as usize + weekday_number(first.number) as usize
}

fn owns_month(walk: &Walk<'_>, first: &CalendarDay) -> bool
    ensures { IsTrue result ↔ OwnsMonth walk.now.rule.now.frequency walk.now.rule.now.interval walk.now.start.number first.now.number }
{
    let interval = walk.rule.interval as u32;
    match &walk.rule.frequency {
        Frequency::Daily | Frequency::Weekly(_) => false,
        Frequency::Monthly(_) => first.month_number() % interval == walk.residue,
        Frequency::Yearly(days) => {
            first.year % interval == walk.residue
                && is_in_month(days, walk.sets.months, &walk.start, first)
        }
    }
}
