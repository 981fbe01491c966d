//! A recurrence rule.
ghost use Rattle.std.specs.Prelude.{◌≤◌};

use crate::Weekday;
use itip_lines::ListOf;
use itip_moment::Moment;

/// A recurrence rule (RFC 5545 3.3.10) of the profile that is expanded here.
///
/// The lists of a rule are in the order of its text; their order and repeats have no meaning.
#[derive(Debug, Drop)]
pub struct Rule {
    /// FREQ, with the parts that select days.
    pub frequency: Frequency,
    /// INTERVAL, at least 1: every `interval`-th day, week, month or year.
    pub interval: u16,
    /// COUNT, UNTIL or neither.
    pub end: End,
    /// WKST, the weekday on which weeks begin.
    pub week_start: Weekday,
    pub ghost at_least_one: { 1 ≤ interval },
}

/// The unit that a rule counts, and the days that it selects in it.
#[derive(Debug, Drop)]
pub enum Frequency {
    /// Each day.
    Daily,
    /// Some weekdays of a week.
    Weekly(WeekDays),
    /// Some days of a month.
    Monthly(MonthDays),
    /// Some days of a year.
    Yearly(YearDays),
}

/// Which days of a week are selected.
#[derive(Debug, Drop)]
pub enum WeekDays {
    /// The weekday of the start.
    OfStart,
    /// BYDAY: these weekdays.
    Listed(ListOf<Weekday>),
}

/// Which days of a month are selected.
#[derive(Debug, Drop)]
pub enum MonthDays {
    /// The start's day of the month, if the month has it.
    OfStart,
    /// BYMONTHDAY: the days at these places of the month.
    Listed(ListOf<Place>),
    /// BYDAY: these weekdays.
    Weekdays(ListOf<MonthWeekday>),
}

/// Which days of a year are selected.
#[derive(Debug, Drop)]
pub enum YearDays {
    /// The start's month and day of the month, if the year has it.
    OfStart,
    /// BYMONTH, as numbers from 1 for January, and BYMONTHDAY: the days at these places of these months.
    Listed {
        months: ListOf<u8>,
        days: ListOf<Place>,
    },
}

/// A place in a month, counted from 1.
#[derive(Clone, Copy, Debug, PartialEq, Eq)]
pub enum Place {
    /// From the front: 1 is the first.
    FromFirst(u8),
    /// From the end: 1 is the last.
    FromLast(u8),
}

/// A weekday in a month.
#[derive(Clone, Copy, Debug, PartialEq, Eq)]
pub enum MonthWeekday {
    /// Every such weekday of the month.
    Every(Weekday),
    /// The one at this place among those of the month.
    Nth(Place, Weekday),
}

/// Where the moments of a rule end.
#[derive(Debug, Drop)]
pub enum End {
    /// Only at the end of the calendar.
    Never,
    /// COUNT: after this many, of which the start is the first.
    Count(u32),
    /// UNTIL: with the last one that is not after this moment.
    Until(Moment),
}
