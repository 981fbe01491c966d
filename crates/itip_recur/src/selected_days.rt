//! Which days a rule selects.
ghost use Rattle.std.specs.Prelude.{◌≡◌, ◌↔◌, ◌<◌, ◌≤◌, ◌%◌, ◌+◌, ◌^◌, ◌≢◌, ℕ, ℤ, ◌<ℤ◌, IsTrue};
ghost use Rattle.itip_moment.specs.Years.{IsDayNumber};
ghost use Rattle.itip_recur.specs.declared.rule.Frequency.TheVariants.{Yearly};
ghost use Rattle.itip_recur.specs.Calendar.{IsDayOrEnd};
ghost use Rattle.itip_recur.specs.SelectedDays.{unit_number, IsWeekDay, IsMonthDay, IsYearDay, IsSelected, InPattern, IsRuleDay};
ghost use Rattle.itip_recur.specs.Sets.{IsSet, names_weekday, names_day, names_month, AreSetsOf, from_last, seven, has_place, has_weekday};
ghost use Rattle.itip_recur.specs.MonthCounts.{NamesMonth};

use crate::calendar::{
    CalendarDay, day_at, days_from_zero, first_of_month, first_of_week, first_of_year, week_number,
    weekday_number,
};
use crate::rule::{Frequency, MonthDays, Rule, WeekDays, YearDays};
use crate::sets::{DaySets, has_number, nth_number};

/// Whether a day is the start of a series with this rule, or later and in the rule's pattern.
///
/// Days are numbered from 1970-01-01, and both must be in the years 0000 to 9999. It takes no memory.
pub fn is_day(rule: &Rule, start: i32, day: i32) -> bool
    requires start_in { IsDayNumber start }
    requires day_in { IsDayNumber day }
    ensures { IsTrue result ↔ IsRuleDay rule.now start day }
{
    day == start || (start < day && in_pattern(rule, start, day))
}

pub(crate) fn in_pattern(rule: &Rule, start: i32, day: i32) -> bool
    requires start_in { IsDayNumber start }
    requires day_in { IsDayNumber day }
    ensures { IsTrue result ↔ InPattern rule.now start day }
{
    let interval = rule.interval as u32;
    unit_number(rule, day) % interval == unit_number(rule, start) % interval
        && is_selected(&rule.frequency, &DaySets::of(&rule.frequency), start, day)
}

pub(crate) fn unit_number(rule: &Rule, day: i32) -> u32
    requires { IsDayNumber day }
    ensures value { result ≡ unit_number rule.now.frequency rule.now.week_start day }
    ensures bound { result < 2 ^ 22 }
{
    match rule.frequency {
        Frequency::Daily => days_from_zero(day),
        Frequency::Weekly(_) => week_number(rule.week_start, day),
        Frequency::Monthly(_) => CalendarDay::new(day).month_number(),
        Frequency::Yearly(_) => CalendarDay::new(day).year,
    }
}

/// Whether the rule selects a day in its unit; `sets` are its lists.
pub(crate) fn is_selected(frequency: &Frequency, sets: &DaySets, start: i32, day: i32) -> bool
    requires sets { AreSetsOf frequency.now sets.now }
    requires start_in { IsDayNumber start }
    requires day_in { IsDayNumber day }
    ensures { IsTrue result ↔ IsSelected frequency.now start day }
{
    match frequency {
        Frequency::Daily => true,
        Frequency::Weekly(days) => is_week_day(days, sets.days, start, day),
        Frequency::Monthly(days) => is_month_day(
            days,
            sets.days,
            &CalendarDay::new(start),
            &CalendarDay::new(day),
        ),
        Frequency::Yearly(days) => is_year_day(
            days,
            sets,
            &CalendarDay::new(start),
            &CalendarDay::new(day),
        ),
    }
}

pub(crate) fn is_week_day(days: &WeekDays, set: u128, start: i32, day: i32) -> bool
    requires start_in { IsDayNumber start }
    requires day_in { IsDayNumber day }
    requires set { IsSet (names_weekday days.now) set }
    ensures { IsTrue result ↔ IsWeekDay days.now start day }
{
    let weekday = weekday_number(day);
    match days {
        WeekDays::OfStart => weekday == weekday_number(start),
        WeekDays::Listed(_) => has_number(set, weekday as u16),
    }
}

pub(crate) fn is_month_day(
    days: &MonthDays,
    set: u128,
    start: &CalendarDay,
    day: &CalendarDay,
) -> bool
    requires { IsSet (names_day days.now) set }
    ensures { IsTrue result ↔ IsMonthDay days.now start.now.number day.now.number }
{
    match days {
        MonthDays::OfStart => day.day == start.day,
        MonthDays::Listed(_) => has_place(set, day),
        MonthDays::Weekdays(_) => has_weekday(set, day),
    }
}

pub(crate) fn is_year_day(
    days: &YearDays,
    sets: &DaySets,
    start: &CalendarDay,
    day: &CalendarDay,
) -> bool
    requires { AreSetsOf (Yearly days.now) sets.now }
    ensures { IsTrue result ↔ IsYearDay days.now start.now.number day.now.number }
{
    if !is_in_month(days, sets.months, start, day) {
        return false;
    }
    match days {
        YearDays::OfStart => day.day == start.day,
        YearDays::Listed { .. } => has_place(sets.days, day),
    }
}

/// Whether a day's month is one in which a yearly rule may select days.
pub(crate) fn is_in_month(
    days: &YearDays,
    set: u128,
    start: &CalendarDay,
    day: &CalendarDay,
) -> bool
    requires { IsSet (names_month days.now) set }
    ensures { IsTrue result ↔ NamesMonth days.now start.now.number day.now.number }
{
    match days {
        YearDays::OfStart => day.month == start.month,
        YearDays::Listed { .. } => has_number(set, day.month as u16),
    }
}

// Whether a set of places has that of the day, from the front or from the end.
fn has_place(set: u128, day: &CalendarDay) -> bool
    ensures { result ≡ has_place set day.now.number }
{
    has_number(set, 2 * day.day as u16) || has_number(set, 2 * from_last(day) + 1)
}

// The day's place in its month, from 1, counted from the end.
fn from_last(day: &CalendarDay) -> u16
    ensures value { result ≡ from_last day.now.number }
    ensures low { 1 ≤ result }
    ensures high { result ≤ 31 }
{
    day.days_in_month as u16 + 1 - day.day as u16
}

// Whether a set of weekdays of a month has that of the day, without a place or with one of its places.
fn has_weekday(set: u128, day: &CalendarDay) -> bool
    ensures { result ≡ has_weekday set day.now.number }
{
    let weekday = weekday_number(day.number) as u16;
    let first = nth_number(2 * seven(day.day as u16), weekday);
    let last = nth_number(2 * seven(from_last(day)) + 1, weekday);
    has_number(set, weekday) || has_number(set, first) || has_number(set, last)
}

// Which seven days of its month a place lies in, from 1.
fn seven(place: u16) -> u16
    requires low { 1 ≤ place }
    requires high { place ≤ 31 }
    ensures value { result ≡ seven place }
    ensures bound { result ≤ 5 }
{
    (place - 1) / 7 + 1
}

/// The first day of a unit, or the end of the calendar.
pub(crate) fn first_day(rule: &Rule, unit: u32) -> i32
    requires { unit < 2 ^ 23 }
    ensures bounds { IsDayOrEnd result }
    ensures before { (day : ℤ) → IsDayNumber day
        → (day <ℤ result) ↔ (unit_number rule.now.frequency rule.now.week_start day < unit) }
{
    match rule.frequency {
        Frequency::Daily => day_at(unit),
        Frequency::Weekly(_) => first_of_week(rule.week_start, unit),
        Frequency::Monthly(_) => first_of_month(unit),
        Frequency::Yearly(_) => first_of_year(unit),
    }
}

/// The first number from `from` on with this residue modulo the interval.
pub(crate) fn next_congruent(from: u32, wanted: u32, interval: u32) -> u32
    requires wanted_in { wanted < interval }
    requires interval_in { interval < 2 ^ 16 }
    requires from_in { from < 2 ^ 22 }
    ensures not_before { from ≤ result }
    ensures near { result < from + interval }
    ensures congruent { result % interval ≡ wanted }
    ensures skipped { (n : ℕ) → from ≤ n → n < result → n % interval ≢ wanted }
{
    let here = from % interval;
    if here <= wanted {
        from + (wanted - here)
    } else {
        from + (interval - here) + wanted
    }
}
