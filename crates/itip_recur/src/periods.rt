//! Whole periods of a daily or weekly pattern, which needn't be walked through.
ghost use Rattle.std.specs.Prelude.{◌+◌, ◌<◌, ◌≤◌, ◌^◌, pos, ◌+ℤ◌, ◌≤ℤ◌, IfSome};
ghost use Rattle.itip_recur.specs.Calendar.{IsDayOrEnd};
ghost use Rattle.itip_recur.specs.Counting.{Counted, Walked, IsPeriod, IsPassed};

use crate::rule::{Frequency, Rule};
use crate::walk::Walk;

/// A number of days after the start of a series, and how many of them are in the pattern.
#[derive(Clone, Copy)]
pub(crate) struct Passed {
    pub(crate) seen: u32,
    pub(crate) days: u32,
}

/// As many whole periods after the start as COUNT leaves room for and as lie before `end`.
pub(crate) fn passed_periods(walk: &Walk<'_>, count: u32, end: i32) -> Passed
    requires end_in { IsDayOrEnd end }
    ensures fits { 1 + result.seen < 2 ^ 32 }
    ensures bounds { IsDayOrEnd (walk.now.start.number +ℤ pos 1 +ℤ pos result.days) }
    ensures counted { Counted walk.now.rule.now walk.now.start.number count (1 + result.seen)
        (walk.now.start.number +ℤ pos 1 +ℤ pos result.days) }
{
    let none = Passed { seen: 0, days: 0 };
    let first = walk.start.number + 1;
    if count <= 1 || end <= first {
        return none;
    }
    let days = (end - first) as u32;
    let Some(period) = period(walk.rule) else {
        return none;
    };
    if days < period {
        return none;
    }
    let seen = seen_in(walk, first, first + period as i32);
    if seen == 0 {
        return none;
    }
    with_room(seen, period, count - 1, days)
}

// As many periods as there is room for in the count and in the days.
fn with_room(seen: u32, period: u32, count: u32, days: u32) -> Passed
    requires seen_in { 0 < seen }
    requires period_in { 0 < period }
    ensures { IsPassed seen period count days result.seen result.days }
{
    let times = (count / seen).min(days / period);
    Passed {
        seen: times * seen,
        days: times * period,
    }
}

/// The number of days after which the pattern of a daily or weekly rule repeats; `None` for other rules.
fn period(rule: &Rule) -> Option<u32>
    ensures positive { IfSome result (λ period. 0 < period) }
    ensures high { IfSome result (λ period. period ≤ 458_745) }
    ensures period { IfSome result (λ period. IsPeriod rule.now (pos period)) }
{
    match rule.frequency {
        Frequency::Daily => Some(rule.interval as u32),
        Frequency::Weekly(_) => Some(7 * rule.interval as u32),
        Frequency::Monthly(_) | Frequency::Yearly(_) => None,
    }
}

/// How many days of the pattern lie from `from` on and before `end`.
pub(crate) fn seen_in(walk: &Walk<'_>, from: i32, end: i32) -> u32
    requires from_in { IsDayOrEnd from }
    requires end_in { IsDayOrEnd end }
    requires before { from ≤ℤ end }
    ensures { Walked walk.now.rule.now walk.now.start.number from result end }
{
    let mut seen: u32 = 0;
    let mut day = from;
    while let Some(found) = walk.next_day(day, end) {
        seen += 1;
        day = found + 1;
    }
    seen
}
