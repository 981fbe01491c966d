//! How many days can be passed over before a frequency selects one.
ghost use Rattle.std.specs.Prelude.{◌≡◌, ◌<◌, ◌≤◌, ◌+◌, ◌-◌, ℤ, pos, ◌+ℤ◌, ◌≤ℤ◌};
ghost use Rattle.itip_moment.specs.Years.{IsDayNumber};
ghost use Rattle.itip_recur.specs.Calendar.{day_of_month, month_length};
ghost use Rattle.itip_recur.specs.declared.rule.Frequency.TheVariants.{Yearly};
ghost use Rattle.itip_recur.specs.declared.rule.MonthWeekday.TheVariants.{Nth};
ghost use Rattle.itip_recur.specs.SelectedDays.{IsSelected, IsMonthDay, IsAtPlace, IsMonthWeekday, IsInSeven, IsOnWeekday, IsYearDay};
ghost use Rattle.itip_recur.specs.Sets.{IsSet, names_day, AreSetsOf};
ghost use Rattle.itip_recur.specs.Waits.{IsNone, IsWait};

use crate::Weekday;
use crate::calendar::{CalendarDay, weekday_number};
use crate::rule::{Frequency, MonthDays, MonthWeekday, Place, YearDays};
use crate::selected_days::{is_in_month, is_month_day, is_week_day, is_year_day};
use crate::sets::DaySets;

/// How many days from this one on can be passed over, none of which is selected; if it is 0, this day is selected.
pub(crate) fn wait(
    frequency: &Frequency,
    sets: &DaySets,
    start: &CalendarDay,
    day: &CalendarDay,
) -> i32
    requires { AreSetsOf frequency.now sets.now }
    ensures low { pos 0 ≤ℤ result }
    ensures high { result ≤ℤ pos 37 }
    ensures wait { IsWait (IsSelected frequency.now start.now.number) day.now.number result }
{
    match frequency {
        Frequency::Daily => 0,
        Frequency::Weekly(days) => {
            if is_week_day(days, sets.days, start.number, day.number) {
                0
            } else {
                1
            }
        }
        Frequency::Monthly(days) => wait_in_month(days, sets.days, start, day),
        Frequency::Yearly(days) => wait_in_year(days, sets, start, day),
    }
}

fn wait_in_month(days: &MonthDays, set: u128, start: &CalendarDay, day: &CalendarDay) -> i32
    requires { IsSet (names_day days.now) set }
    ensures low { pos 0 ≤ℤ result }
    ensures high { result ≤ℤ pos 37 }
    ensures wait { IsWait (IsMonthDay days.now start.now.number) day.now.number result }
{
    match days {
        MonthDays::OfStart => wait_for_day(start.day, day),
        days => {
            if is_month_day(days, set, start, day) {
                0
            } else {
                wait_behind(days, day)
            }
        }
    }
}

// The wait on a day that isn't selected: for the weekday or the place if only one is named, else for the next day.
fn wait_behind(days: &MonthDays, day: &CalendarDay) -> i32
    ensures low { pos 1 ≤ℤ result }
    ensures high { result ≤ℤ pos 37 }
    ensures none { (start : ℤ) → IsNone (IsMonthDay days.now start) (day.now.number +ℤ pos 1) (day.now.number +ℤ result) }
{
    match days {
        MonthDays::Weekdays(weekdays) => match weekdays.as_slice() {
            [one] => wait_for_month_weekday(*one, day),
            _ => 1,
        },
        MonthDays::Listed(places) => match places.as_slice() {
            [one] => wait_for_place(*one, day),
            _ => 1,
        },
        MonthDays::OfStart => 1,
    }
}

// The wait for the day at this place, or for the next month if that day doesn't come any more in this one.
fn wait_for_place(place: Place, day: &CalendarDay) -> i32
    ensures low { pos 1 ≤ℤ result }
    ensures high { result ≤ℤ pos 31 }
    ensures none { IsNone (IsAtPlace place) (day.now.number +ℤ pos 1) (day.now.number +ℤ result) }
{
    let wanted = day_at_place(place, day.days_in_month);
    if day.day < wanted && wanted <= day.days_in_month {
        (wanted - day.day) as i32
    } else {
        rest_of_month(day)
    }
}

// The day of the month at a place, in a month of `days` days.
fn day_at_place(place: Place, days: u8) -> u8
    requires { days ≤ 31 }
    ensures { (x : ℤ) → month_length x ≡ days → day_of_month x ≤ days → IsAtPlace place x → day_of_month x ≡ result }
{
    match place {
        Place::FromFirst(n) => n,
        Place::FromLast(n) => (days + 1).saturating_sub(n),
    }
}

fn wait_for_month_weekday(one: MonthWeekday, day: &CalendarDay) -> i32
    ensures low { pos 1 ≤ℤ result }
    ensures high { result ≤ℤ pos 37 }
    ensures none { IsNone (IsMonthWeekday one) (day.now.number +ℤ pos 1) (day.now.number +ℤ result) }
{
    match one {
        MonthWeekday::Every(weekday) => wait_for_weekday(weekday, day.number, 0),
        MonthWeekday::Nth(place, weekday) => wait_for_nth(place, weekday, day),
    }
}

// Goes to the seven days of the place at once, and from there to the weekday.
fn wait_for_nth(place: Place, weekday: Weekday, day: &CalendarDay) -> i32
    ensures low { pos 1 ≤ℤ result }
    ensures high { result ≤ℤ pos 37 }
    ensures none { IsNone (IsMonthWeekday (Nth place weekday)) (day.now.number +ℤ pos 1) (day.now.number +ℤ result) }
{
    let before = before_seven(place, day);
    before as i32 + wait_for_weekday(weekday, day.number, before)
}

// A number of days after this one, in its month, none of which is in the place's seven.
fn before_seven(place: Place, day: &CalendarDay) -> u16
    ensures in_month { day_of_month day.now.number + result ≤ month_length day.now.number }
    ensures bound { result ≤ 30 }
    ensures none { IsNone (IsInSeven place) (day.now.number +ℤ pos 1) (day.now.number +ℤ pos (1 + result)) }
{
    let here = day.day as u16;
    let last = day.days_in_month as u16;
    let (before, end) = seven_in(place, last);
    if before < last && here < end {
        before.saturating_sub(here)
    } else {
        last - here
    }
}

// The day of the month before the place's seven, and the last of the seven, in a month of `days` days.
fn seven_in(place: Place, days: u16) -> (u16, u16)
    ensures { (x : ℤ) → month_length x ≡ days → IsInSeven place x → (result.0 < day_of_month x) × (day_of_month x ≤ result.1) }
{
    match place {
        Place::FromFirst(n) => (7 * (n as u16).saturating_sub(1), 7 * n as u16),
        Place::FromLast(n) => (
            days.saturating_sub(7 * n as u16),
            days.saturating_sub(7 * (n as u16).saturating_sub(1)),
        ),
    }
}

// The wait, from `passed` days after this one, for the next such weekday.
fn wait_for_weekday(weekday: Weekday, day: i32, passed: u16) -> i32
    requires day_in { IsDayNumber day }
    requires passed_in { passed ≤ 30 }
    ensures low { pos 1 ≤ℤ result }
    ensures high { result ≤ℤ pos 7 }
    ensures none { IsNone (IsOnWeekday weekday) (day +ℤ pos (1 + passed)) (day +ℤ pos passed +ℤ result) }
{
    ((weekday.index() as u16 + 41 - weekday_number(day) as u16 - passed) % 7 + 1) as i32
}

// A month that a rule doesn't name is passed over as a whole.
fn wait_in_year(days: &YearDays, sets: &DaySets, start: &CalendarDay, day: &CalendarDay) -> i32
    requires { AreSetsOf (Yearly days.now) sets.now }
    ensures low { pos 0 ≤ℤ result }
    ensures high { result ≤ℤ pos 31 }
    ensures wait { IsWait (IsYearDay days.now start.now.number) day.now.number result }
{
    if !is_in_month(days, sets.months, start, day) {
        return rest_of_month(day);
    }
    if is_year_day(days, sets, start, day) {
        0
    } else {
        1
    }
}

// The wait for that day of the month, 0 on the day itself, or for the next month if it doesn't come any more in this one.
fn wait_for_day(wanted: u8, day: &CalendarDay) -> i32
    ensures low { pos 0 ≤ℤ result }
    ensures high { result ≤ℤ pos 31 }
    ensures wait { IsWait (λ x. day_of_month x ≡ wanted) day.now.number result }
{
    if day.day <= wanted && wanted <= day.days_in_month {
        (wanted - day.day) as i32
    } else {
        rest_of_month(day)
    }
}

/// The wait for the first of the next month.
pub(crate) fn rest_of_month(day: &CalendarDay) -> i32
    ensures low { pos 1 ≤ℤ result }
    ensures high { result ≤ℤ pos 31 }
    ensures value { result ≡ pos (month_length day.now.number + 1 - day_of_month day.now.number) }
{
    (day.days_in_month + 1 - day.day) as i32
}
