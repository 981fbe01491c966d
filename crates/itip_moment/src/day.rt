ghost use Rattle.std.specs.Prelude.{◌≡◌};
ghost use Rattle.jiff.specs.Words.{epoch_day};
ghost use Rattle.itip_moment.specs.Years.{IsDayNumber};

use jiff_core::civil::Date;

/// A day of the years 0000 to 9999, by its number: 0 is 1970-01-01.
#[derive(Clone, Copy, Debug, PartialEq, Eq, PartialOrd, Ord)]
pub struct Day {
    pub number: i32,
    pub ghost in_years: { IsDayNumber number },
}

impl Day {
    ghost use Rattle.std.specs.Prelude.{◌≡◌, ◌<◌, ◌≤◌, pos};
    ghost use Rattle.std.specs.Int.{IsInRange};
    ghost use Rattle.jiff.specs.Words.{days_in_month};
    ghost use Rattle.itip_moment.specs.Written.{date_of};

    /// The year, the month from 1 for January, and the day of the month from 1, in the Gregorian calendar.
    pub fn year_month_day(self) -> (u16, u8, u8)
        ensures year { result.0 ≡ (date_of self.number).year }
        ensures month { result.1 ≡ (date_of self.number).month }
        ensures day { result.2 ≡ (date_of self.number).day }
        ensures bounds { (result.0 < 10_000) × IsInRange 1 12 result.1
            × IsInRange 1 (days_in_month (pos result.0) result.1) result.2 }
        ensures small { result.2 ≤ 31 }
    {
        let date = date_of(self.number);
        (date.year as u16, date.month, date.day)
    }
}

/// The date of a day.
fn date_of(day: i32) -> Date
    requires { IsDayNumber day }
    ensures { epoch_day result ≡ day }
{
    Date::from_unix_epoch_day(day as i64).unwrap()
}
