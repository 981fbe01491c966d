//! The weekday, the week, the month and the year of a day that is given by its number.
ghost use Rattle.std.specs.Prelude.{◌≡◌, ◌<◌, ◌≤◌, ◌↔◌, ◌*◌, ◌+◌, ◌-◌, ◌/◌, ◌%◌, ◌^◌, ℤ, pos, ◌<ℤ◌, ◌≤ℤ◌, ◌+ℤ◌, MatchOption};
ghost use Rattle.itip_moment.specs.Years.{IsDayNumber};
ghost use Rattle.std.specs.Int.{IsInRange};
ghost use Rattle.jiff.specs.Words.{monday_zero, days_in_month};
ghost use Rattle.itip_recur.specs.Calendar.{days_from_zero, weekday_number, week_number, year_number, month_of_year, month_number};
ghost use Rattle.itip_recur.specs.Calendar.{day_of_month, month_length, IsDayOrEnd, IsNoDate, IsDayOfDate};

use crate::Weekday;
use itip_moment::Day;
use jiff_core::civil::{self, Date};

/// The number of the day after 9999-12-31, the last day of the calendar.
pub(crate) const CALENDAR_END: i32 = 2_932_897;

/// The number of days from 0000-01-01 to 1970-01-01.
const DAYS_BEFORE_EPOCH: i32 = 719_528;

/// A day with its date.
#[derive(Clone, Copy)]
pub(crate) struct CalendarDay {
    pub(crate) number: i32,
    pub(crate) year: u32,
    pub(crate) month: u8,
    pub(crate) day: u8,
    pub(crate) days_in_month: u8,
    pub(crate) ghost in_years: { IsDayNumber number },
    pub(crate) ghost year_is: { year ≡ year_number number },
    pub(crate) ghost month_is: { month ≡ month_of_year number },
    pub(crate) ghost day_is: { day ≡ day_of_month number },
    pub(crate) ghost length_is: { days_in_month ≡ month_length number },
    pub(crate) ghost bounds: { (year < 10_000) × (month ≤ 12) × (1 ≤ day) × (day ≤ days_in_month) × (days_in_month ≤ 31) },
}

impl CalendarDay {
    #[tactic(auto, unfolding(crate::specs::Calendar::days_from_zero))]
    pub(crate) fn new(day: i32) -> CalendarDay
        requires { IsDayNumber day }
        ensures { result.number ≡ day }
    {
        let (year, month, day_of_month) = Day { number: day }.year_month_day();
        let year = year as u32;
        CalendarDay {
            number: day,
            year,
            month,
            day: day_of_month,
            days_in_month: days_in_month(year, month),
        }
    }

    /// The date `days` days later. It is computed from the number alone only if it is after the next month.
    pub(crate) fn later(&self, days: i32) -> CalendarDay
        requires positive { pos 0 <ℤ days }
        requires high { days ≤ℤ pos 37 }
        requires in_years { IsDayNumber (self.now.number +ℤ days) }
        ensures { result.number ≡ self.now.number +ℤ days }
    {
        let rest = (self.days_in_month - self.day) as i32 + 1;
        if days < rest {
            return self.later_in_month(days as u8);
        }
        let first = self.first_of_next_month();
        let more = days - rest;
        if more < first.days_in_month as i32 {
            first.later_in_month(more as u8)
        } else {
            CalendarDay::new(self.number + days)
        }
    }

    fn later_in_month(&self, days: u8) -> CalendarDay
        requires in_month { self.now.day + days ≤ self.now.days_in_month }
        requires in_years { IsDayNumber (self.now.number +ℤ pos days) }
        ensures { result.number ≡ self.now.number +ℤ pos days }
    {
        CalendarDay {
            number: self.number + days as i32,
            year: self.year,
            month: self.month,
            day: self.day + days,
            days_in_month: self.days_in_month,
        }
    }

    fn first_of_next_month(&self) -> CalendarDay
        requires in_years { IsDayNumber (self.now.number +ℤ pos (self.now.days_in_month + 1 - self.now.day)) }
        ensures number { result.number ≡ self.now.number +ℤ pos (self.now.days_in_month + 1 - self.now.day) }
        ensures first { result.day ≡ 1 }
    {
        let days = self.days_in_month + 1 - self.day;
        let (year, month) = month_behind(self.year, self.month);
        CalendarDay {
            number: self.number + days as i32,
            year,
            month,
            day: 1,
            days_in_month: days_in_month(year, month),
        }
    }

    pub(crate) fn month_number(&self) -> u32
        ensures { result ≡ month_number self.now.number }
    {
        12 * self.year + self.month as u32
    }
}

// The next month, with its year.
fn month_behind(year: u32, month: u8) -> (u32, u8)
    requires year_in { year < 10_000 }
    requires month_in { month ≤ 12 }
    ensures number { 12 * result.0 + result.1 ≡ 12 * year + month + 1 }
    ensures month { IsInRange 1 12 result.1 }
{
    if month < 12 {
        (year, month + 1)
    } else {
        (year + 1, 1)
    }
}

fn days_in_month(year: u32, month: u8) -> u8
    requires year_in { year < 10_000 }
    requires month_in { IsInRange 1 12 month }
    ensures value { result ≡ days_in_month (pos year) month }
    ensures low { 28 ≤ result }
    ensures high { result ≤ 31 }
{
    civil::days_in_month(year as i16, month)
}

/// The day with this date; `None` if the month has fewer days.
pub(crate) fn day_of_date(year: u32, month: u8, day: u8) -> Option<i32>
    requires year_in { year < 10_000 }
    requires month_in { IsInRange 1 12 month }
    requires day_in { 1 ≤ day }
    ensures { MatchOption result (IsNoDate year month day) (IsDayOfDate year month day) }
{
    if day > days_in_month(year, month) {
        return None;
    }
    let date = dated(year, month, day);
    Some(date.to_unix_epoch_day())
}

fn dated(year: u32, month: u8, day: u8) -> Date
    requires year_in { year < 10_000 }
    requires month_in { IsInRange 1 12 month }
    requires day_in { IsInRange 1 (days_in_month (pos year) month) day }
    ensures year { result.year ≡ pos year }
    ensures month { result.month ≡ month }
    ensures day { result.day ≡ day }
{
    Date {
        year: year as i16,
        month,
        day,
    }
}

#[tactic(auto, unfolding(crate::specs::Calendar::days_from_zero))]
pub(crate) fn days_from_zero(day: i32) -> u32
    requires { IsDayNumber day }
    ensures value { result ≡ days_from_zero day }
    ensures bound { result < 2 ^ 22 }
{
    (day + DAYS_BEFORE_EPOCH) as u32
}

pub(crate) fn weekday_number(day: i32) -> u8
    requires { IsDayNumber day }
    ensures { result ≡ weekday_number day }
{
    ((days_from_zero(day) + 5) % 7) as u8
}

pub(crate) fn week_number(first: Weekday, day: i32) -> u32
    requires { IsDayNumber day }
    ensures value { result ≡ week_number first day }
    ensures bound { result < 2 ^ 22 }
{
    (days_from_zero(day) + 12 - first.index() as u32) / 7
}

/// The day that is `days` days after 0000-01-01, or the end of the calendar.
#[tactic(auto, unfolding(crate::specs::Calendar::days_from_zero))]
pub(crate) fn day_at(days: u32) -> i32
    ensures bounds { IsDayOrEnd result }
    ensures before { (day : ℤ) → IsDayNumber day → (day <ℤ result) ↔ (days_from_zero day < days) }
{
    if days < (CALENDAR_END + DAYS_BEFORE_EPOCH) as u32 {
        days as i32 - DAYS_BEFORE_EPOCH
    } else {
        CALENDAR_END
    }
}

/// The first day of a week, or the end of the calendar.
pub(crate) fn first_of_week(first: Weekday, week: u32) -> i32
    requires { week < 2 ^ 24 }
    ensures bounds { IsDayOrEnd result }
    ensures before { (day : ℤ) → IsDayNumber day → (day <ℤ result) ↔ (week_number first day < week) }
{
    day_at((7 * week + first.index() as u32).saturating_sub(12))
}

/// The first day of a month, or the end of the calendar.
pub(crate) fn first_of_month(month: u32) -> i32
    ensures bounds { IsDayOrEnd result }
    ensures before { (day : ℤ) → IsDayNumber day → (day <ℤ result) ↔ (month_number day < month) }
{
    if month == 0 {
        return -DAYS_BEFORE_EPOCH;
    }
    if (month - 1) / 12 > 9999 {
        return CALENDAR_END;
    }
    let date = first_date(month);
    date.to_unix_epoch_day()
}

fn first_date(month: u32) -> Date
    requires positive { 1 ≤ month }
    requires in_years { (month - 1) / 12 ≤ 9999 }
    ensures year { result.year ≡ pos ((month - 1) / 12) }
    ensures month { result.month ≡ (month - 1) % 12 + 1 }
    ensures day { result.day ≡ 1 }
{
    Date {
        year: ((month - 1) / 12) as i16,
        month: ((month - 1) % 12 + 1) as u8,
        day: 1,
    }
}

/// The first day of a year, or the end of the calendar.
pub(crate) fn first_of_year(year: u32) -> i32
    requires { year < 2 ^ 24 }
    ensures bounds { IsDayOrEnd result }
    ensures before { (day : ℤ) → IsDayNumber day → (day <ℤ result) ↔ (year_number day < year) }
{
    first_of_month(12 * year + 1)
}
