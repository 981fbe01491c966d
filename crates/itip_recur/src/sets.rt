//! The lists of a rule as sets of numbers, so that a day is looked up once, whatever the lists repeat.
ghost use Rattle.std.specs.Prelude.{◌≡◌, ◌+◌, ◌*◌, ◌<◌, ◌||◌, ◌==◌, ℕ};
ghost use Rattle.std.specs.List.{list_any};
ghost use Rattle.jiff.specs.Words.{monday_zero};
ghost use Rattle.itip_recur.specs.Sets.{has_number, IsSet, place_number, nth_number, month_weekday_number};
ghost use Rattle.itip_recur.specs.Sets.{names_weekday, names_day, names_place, names_month, AreSetsOf};

use crate::Weekday;
use crate::rule::{Frequency, MonthDays, MonthWeekday, Place, WeekDays, YearDays};

/// A value of a list, which has a number of its own.
pub(crate) trait Numbered {
    /// The number. No other value has it.
    ghost own: { Self → ℕ };

    fn number(&self) -> u16
        ensures { result ≡ own self.now };
}

impl Numbered for Weekday {
    ghost own = { monday_zero };

    fn number(&self) -> u16 {
        self.index() as u16
    }
}

/// A month.
impl Numbered for u8 {
    ghost own = { λ month. month };

    fn number(&self) -> u16 {
        *self as u16
    }
}

impl Numbered for Place {
    ghost own = { place_number };

    fn number(&self) -> u16 {
        place_number(*self)
    }
}

impl Numbered for MonthWeekday {
    ghost own = { month_weekday_number };

    fn number(&self) -> u16 {
        match *self {
            MonthWeekday::Every(weekday) => weekday.index() as u16,
            MonthWeekday::Nth(place, weekday) => {
                nth_number(place_number(place), weekday.index() as u16)
            }
        }
    }
}

fn place_number(place: Place) -> u16
    ensures value { result ≡ place_number place }
    ensures bound { result < 512 }
{
    match place {
        Place::FromFirst(n) => 2 * n as u16,
        Place::FromLast(n) => 2 * n as u16 + 1,
    }
}

/// The number of a weekday at the place with this number.
pub(crate) fn nth_number(place: u16, weekday: u16) -> u16
    requires place_in { place < 512 }
    requires weekday_in { weekday < 7 }
    ensures { result ≡ nth_number place weekday }
{
    7 * (1 + place) + weekday
}

/// Whether a set has a number.
pub(crate) fn has_number(set: u128, number: u16) -> bool
    requires { number < 128 }
    ensures { result ≡ has_number set number }
{
    (set >> number) & 1 == 1
}

// The set with one more number. No day has a number of 128 or more, so such a number is dropped.
fn with_number(set: u128, number: u16) -> u128
    ensures { (n : ℕ) → n < 128 → has_number result n ≡ (has_number set n || n == number) }
{
    if number < 128 { set | 1 << number } else { set }
}

/// The set of the numbers of a list.
fn set_of<T: Numbered>(list: &[T]) -> u128
    ensures { IsSet (λ n. list_any (λ one. n == T.own one) list.now) result }
{
    let mut set = 0u128;
    for one in list {
        set = with_number(set, one.number());
    }
    set
}

/// The days and the months that the lists of a frequency name, as sets.
#[derive(Clone, Copy)]
pub(crate) struct DaySets {
    /// Weekdays, places in a month, or weekdays of a month, depending on the frequency.
    pub(crate) days: u128,
    pub(crate) months: u128,
}

impl DaySets {
    pub(crate) fn of(frequency: &Frequency) -> DaySets
        ensures { AreSetsOf frequency.now result }
    {
        match frequency {
            Frequency::Daily => DaySets { days: 0, months: 0 },
            Frequency::Weekly(days) => DaySets {
                days: week_set(days),
                months: 0,
            },
            Frequency::Monthly(days) => DaySets {
                days: month_set(days),
                months: 0,
            },
            Frequency::Yearly(days) => DaySets {
                days: place_set(days),
                months: months_set(days),
            },
        }
    }
}

fn week_set(days: &WeekDays) -> u128
    ensures { IsSet (names_weekday days.now) result }
{
    match days {
        WeekDays::OfStart => 0,
        WeekDays::Listed(days) => set_of(days.as_slice()),
    }
}

fn month_set(days: &MonthDays) -> u128
    ensures { IsSet (names_day days.now) result }
{
    match days {
        MonthDays::OfStart => 0,
        MonthDays::Listed(days) => set_of(days.as_slice()),
        MonthDays::Weekdays(days) => set_of(days.as_slice()),
    }
}

fn place_set(days: &YearDays) -> u128
    ensures { IsSet (names_place days.now) result }
{
    match days {
        YearDays::OfStart => 0,
        YearDays::Listed { days, .. } => set_of(days.as_slice()),
    }
}

fn months_set(days: &YearDays) -> u128
    ensures { IsSet (names_month days.now) result }
{
    match days {
        YearDays::OfStart => 0,
        YearDays::Listed { months, .. } => set_of(months.as_slice()),
    }
}
