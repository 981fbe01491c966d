//! The walk over the days of a rule.
ghost use Rattle.std.specs.Prelude.{◌≡◌, ◌≢◌, ◌↔◌, ◌+◌, ◌%◌, ◌<◌, ◌≤◌, ◌^◌, ℕ, ℤ, pos, ◌≤ℤ◌, ◌<ℤ◌, ◌⊎◌, IsTrue, MatchOption};
ghost use Rattle.itip_moment.specs.Years.{IsDayNumber};
ghost use Rattle.itip_recur.specs.Calendar.{IsDayOrEnd, weekday_number, year_number};
ghost use Rattle.itip_recur.specs.SelectedDays.{unit_number, InPattern, IsSelected, IsWeekDay, IsYearDay};
ghost use Rattle.itip_recur.specs.Sets.{has_number, IsSet, names_weekday, AreSetsOf};
ghost use Rattle.itip_recur.specs.Walk.{IsNextDay, IsNoDay, IsUnitFrom, IsFirstDay, IsInUnit};
ghost use Rattle.itip_recur.specs.Waits.{IsNone, IsFirst};
ghost use Rattle.itip_recur.specs.declared.rule.YearDays.TheVariants.{OfStart};

use crate::calendar::{CalendarDay, day_of_date, weekday_number};
use crate::rule::{Frequency, Rule, WeekDays, YearDays};
use crate::selected_days::{first_day, next_congruent, unit_number};
use crate::sets::DaySets;
use crate::waits::wait;

/// A rule, the date of its start, its lists as sets, and which units are its own.
#[derive(Drop)]
pub(crate) struct Walk<'a> {
    pub(crate) rule: &'a Rule,
    pub(crate) start: CalendarDay,
    pub(crate) sets: DaySets,
    pub(crate) residue: u32,
    pub(crate) ghost sets_are: { AreSetsOf rule.now.frequency sets },
    pub(crate) ghost residue_is: { residue ≡ unit_number rule.now.frequency rule.now.week_start start.number % rule.now.interval },
}

/// A unit from a day on.
#[derive(Clone, Copy)]
struct UnitFrom {
    number: u32,
    day: i32,
}

impl<'a> Walk<'a> {
    pub(crate) fn new(rule: &'a Rule, start: i32) -> Walk<'a>
        requires { IsDayNumber start }
        ensures rule { result.rule.now ≡ rule.now }
        ensures start { result.start.number ≡ start }
    {
        let residue = unit_number(rule, start) % rule.interval as u32;
        Walk {
            rule,
            start: CalendarDay::new(start),
            sets: DaySets::of(&rule.frequency),
            residue,
        }
    }

    /// The first day of the pattern from `from` on and before `end`.
    pub(crate) fn next_day(&self, from: i32, end: i32) -> Option<i32>
        requires from_in { IsDayOrEnd from }
        requires end_in { IsDayOrEnd end }
        ensures { MatchOption result
            (IsNoDay self.now.rule.now self.now.start.number from end)
            (IsNextDay self.now.rule.now self.now.start.number from end) }
    {
        if from >= end {
            return None;
        }
        if has_each_unit(self.rule) {
            return first_from(self, from, end);
        }
        let mut unit = self.next_unit(from);
        while unit.day < end {
            let next = first_day(self.rule, unit.number + 1);
            let stop = earlier(next, end);
            if let Some(found) = first_selected(self, unit, stop) {
                return Some(found);
            }
            if next >= end {
                break;
            }
            unit = self.unit_behind(unit, next);
        }
        None
    }

    // The first of the rule's own units that has a day from this one on, and the first such day; the end of the
    // calendar if there is none.
    fn next_unit(&self, day: i32) -> UnitFrom
        requires { IsDayNumber day }
        ensures { IsUnitFrom self.now.rule.now self.now.start.number day result.number result.day }
    {
        let here = unit_number(self.rule, day);
        let number = next_congruent(here, self.residue, self.rule.interval as u32);
        let day = if number == here {
            day
        } else {
            first_day(self.rule, number)
        };
        UnitFrom { number, day }
    }

    // The next of the rule's own units, with its first day; `next` is the day after this unit. The number follows
    // from this unit's, so the date of `next` isn't computed.
    fn unit_behind(&self, unit: UnitFrom, next: i32) -> UnitFrom
        requires day_in { IsDayNumber unit.day }
        requires next_in { IsDayOrEnd next }
        requires number { unit_number self.now.rule.now.frequency self.now.rule.now.week_start unit.day ≡ unit.number }
        requires congruent { unit.number % self.now.rule.now.interval ≡ unit_number self.now.rule.now.frequency
            self.now.rule.now.week_start self.now.start.number % self.now.rule.now.interval }
        requires small { unit.number < 2 ^ 22 }
        requires first { IsFirstDay self.now.rule.now (unit.number + 1) next }
        ensures { IsUnitFrom self.now.rule.now self.now.start.number next result.number result.day }
    {
        let interval = self.rule.interval as u32;
        let number = unit.number + interval;
        let day = if interval == 1 {
            next
        } else {
            first_day(self.rule, number)
        };
        UnitFrom { number, day }
    }
}

// Whether all units are the rule's own, so that a day only has to be selected. False for the start's day in each
// year, which is found faster year by year.
fn has_each_unit(rule: &Rule) -> bool
    ensures { IsTrue result → rule.now.interval ≡ 1 }
{
    rule.interval == 1 && !matches!(&rule.frequency, Frequency::Yearly(YearDays::OfStart))
}

fn earlier(day: i32, other: i32) -> i32
    ensures bound { result ≤ℤ day }
    ensures other_bound { result ≤ℤ other }
    ensures one { (result ≡ day) ⊎ (result ≡ other) }
{
    if day < other { day } else { other }
}

// The first day of a unit, from its day on and before `stop`, that the rule selects in it.
fn first_selected(walk: &Walk<'_>, unit: UnitFrom, stop: i32) -> Option<i32>
    requires from_in { IsDayNumber unit.day }
    requires stop_in { IsDayOrEnd stop }
    requires before { unit.day <ℤ stop }
    requires in_unit { IsInUnit walk.now.rule.now unit.number unit.day stop }
    ensures { MatchOption result
        (IsNone (IsSelected walk.now.rule.now.frequency walk.now.start.number) unit.day stop)
        (IsFirst (IsSelected walk.now.rule.now.frequency walk.now.start.number) unit.day stop) }
{
    match &walk.rule.frequency {
        Frequency::Yearly(YearDays::OfStart) => {
            first_anniversary(&walk.start, unit.number, unit.day, stop)
        }
        _ => first_from(walk, unit.day, stop),
    }
}

// The first day from `from` on and before `stop` that the rule selects.
fn first_from(walk: &Walk<'_>, from: i32, stop: i32) -> Option<i32>
    requires from_in { IsDayNumber from }
    requires stop_in { IsDayOrEnd stop }
    requires before { from <ℤ stop }
    ensures { MatchOption result
        (IsNone (IsSelected walk.now.rule.now.frequency walk.now.start.number) from stop)
        (IsFirst (IsSelected walk.now.rule.now.frequency walk.now.start.number) from stop) }
{
    match &walk.rule.frequency {
        Frequency::Daily => Some(from),
        Frequency::Weekly(days) => {
            first_week_day(days, walk.sets.days, walk.start.number, from, stop)
        }
        frequency => first_date(frequency, &walk.sets, &walk.start, from, stop),
    }
}

// The day of this year with the start's month and day of the month, if it lies from `from` on and before `stop`.
fn first_anniversary(start: &CalendarDay, year: u32, from: i32, stop: i32) -> Option<i32>
    requires from_in { IsDayNumber from }
    requires stop_in { IsDayOrEnd stop }
    requires before { from <ℤ stop }
    requires in_year { (x : ℤ) → from ≤ℤ x → x <ℤ stop → year_number x ≡ year }
    ensures { MatchOption result
        (IsNone (IsYearDay OfStart start.now.number) from stop)
        (IsFirst (IsYearDay OfStart start.now.number) from stop) }
{
    let day = day_of_date(year, start.month, start.day)?;
    if from <= day && day < stop {
        Some(day)
    } else {
        None
    }
}

fn first_week_day(days: &WeekDays, set: u128, start: i32, from: i32, stop: i32) -> Option<i32>
    requires set { IsSet (names_weekday days.now) set }
    requires start_in { IsDayNumber start }
    requires from_in { IsDayNumber from }
    requires stop_in { IsDayOrEnd stop }
    requires before { from <ℤ stop }
    ensures { MatchOption result (IsNone (IsWeekDay days.now start) from stop) (IsFirst (IsWeekDay days.now start) from stop) }
{
    let wait = wait_in_week(week_of(days, set, start), weekday_number(from)) as i32;
    if wait < 7 && wait < stop - from {
        Some(from + wait)
    } else {
        None
    }
}

// The days of a week as seven bits, with Monday as the lowest.
fn week_of(days: &WeekDays, set: u128, start: i32) -> u8
    requires set { IsSet (names_weekday days.now) set }
    requires start_in { IsDayNumber start }
    ensures bound { result < 128 }
    ensures days { (x : ℤ) → IsTrue (has_number result (weekday_number x)) ↔ IsWeekDay days.now start x }
{
    match days {
        WeekDays::OfStart => 1 << weekday_number(start),
        WeekDays::Listed(_) => (set % 128) as u8,
    }
}

// The number of days from a weekday to the first one that the week has; 7 or more if it has none.
fn wait_in_week(week: u8, weekday: u8) -> u32
    requires week_in { week < 128 }
    requires weekday_in { weekday < 7 }
    ensures bound { result ≤ 16 }
    ensures found { result < 7 → IsTrue (has_number week ((weekday + result) % 7)) }
    ensures none { (k : ℕ) → k < 7 → k < result → IsTrue (has_number week ((weekday + k) % 7)) → ⊥ }
{
    // The week twice in a row.
    let weeks = 129 * week as u16;
    (weeks >> weekday).trailing_zeros()
}

fn first_date(
    frequency: &Frequency,
    sets: &DaySets,
    start: &CalendarDay,
    from: i32,
    stop: i32,
) -> Option<i32>
    requires sets { AreSetsOf frequency.now sets.now }
    requires from_in { IsDayNumber from }
    requires stop_in { IsDayOrEnd stop }
    requires before { from <ℤ stop }
    ensures { MatchOption result
        (IsNone (IsSelected frequency.now start.now.number) from stop)
        (IsFirst (IsSelected frequency.now start.now.number) from stop) }
{
    let mut day = CalendarDay::new(from);
    let mut left = stop - from;
    while left > 0 {
        let days = wait(frequency, sets, start, &day);
        if days <= 0 {
            return Some(day.number);
        }
        if days >= left {
            break;
        }
        day = day.later(days);
        left -= days;
    }
    None
}
