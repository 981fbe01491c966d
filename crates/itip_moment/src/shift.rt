ghost use Rattle.std.specs.Prelude.{◌≡◌, ◌↔◌, pos, ◌+ℤ◌, IsTrue, IsSome, IfSome};
ghost use Rattle.std.specs.Bool.{OnTrue, OnFalse};
ghost use Rattle.itip_moment.specs.Years.{IsDayNumber};
ghost use Rattle.itip_moment.specs.Shift.{seconds_at, moved_by, IsInYears};

use crate::{Day, Moment, Stamp};

// 0000-01-01 and 9999-12-31, as days from 1970-01-01.
const FIRST_DAY: i128 = -719_528;

const LAST_DAY: i128 = 2_932_896;

// The first second of the one day and the last of the other, from 1970-01-01T000000.
const FIRST_SECOND: i128 = -62_167_219_200;

const LAST_SECOND: i128 = 253_402_300_799;

// The number of seconds in a day.
const DAY: i128 = 86_400;

impl Moment {
    ghost use Rattle.std.specs.Prelude.{◌≡◌, ◌↔◌, IsTrue};
    ghost use Rattle.std.specs.Bool.{OnTrue, OnFalse};
    ghost use Rattle.itip_moment.specs.Shift.{CanShift, IsShifted};

    /// Moves the moment by days and seconds, exactly, on its own clock, on which each day has 86,400
    /// seconds.
    ///
    /// Returns `false` and leaves the moment unchanged if the result would leave the years 0000 to 9999,
    /// or if a date would be moved by seconds other than 0.
    pub fn shift(&mut self, days: i64, seconds: i64) -> bool
        ensures done { IsTrue result ↔ CanShift self.old days seconds }
        ensures moved { OnTrue result (IsShifted self.old days seconds self.new) }
        ensures stays { OnFalse result (self.new ≡ self.old) }
    {
        match self {
            Moment::Date(day) => shift_day(day, days, seconds),
            Moment::Floating(at) => shift_stamp(at, days, seconds),
            Moment::Utc(at) => shift_stamp(at, days, seconds),
            Moment::Zoned(_, at) => shift_stamp(at, days, seconds),
        }
    }
}

fn shift_day(day: &mut Day, days: i64, seconds: i64) -> bool
    ensures done { IsTrue result ↔ ((seconds ≡ pos 0) × IsDayNumber (day.old.number +ℤ days)) }
    ensures moved { OnTrue result (day.new.number ≡ day.old.number +ℤ days) }
    ensures stays { OnFalse result (day.new ≡ day.old) }
{
    let sum = day.number as i128 + days as i128;
    if seconds != 0 || sum < FIRST_DAY || sum > LAST_DAY {
        return false;
    }
    day.number = sum as i32;
    true
}

fn shift_stamp(at: &mut Stamp, days: i64, seconds: i64) -> bool
    ensures done { IsTrue result
        ↔ IsInYears (moved_by (seconds_at at.old.day at.old.second) days seconds) }
    ensures moved { OnTrue result (seconds_at at.new.day at.new.second
        ≡ moved_by (seconds_at at.old.day at.old.second) days seconds) }
    ensures stays { OnFalse result (at.new ≡ at.old) }
{
    match stamp_at(moved_by(at, days, seconds)) {
        Some(moved) => {
            *at = moved;
            true
        }
        None => false,
    }
}

// 128 bits hold the sum, whatever the arguments.
fn moved_by(at: &Stamp, days: i64, seconds: i64) -> i128
    ensures { result ≡ moved_by (seconds_at at.now.day at.now.second) days seconds }
{
    let days = at.day as i128 + days as i128;
    let seconds = at.second as i128 + seconds as i128;
    days * DAY + seconds
}

fn stamp_at(seconds: i128) -> Option<Stamp>
    ensures some { IsSome result ↔ IsInYears seconds }
    ensures value { IfSome result (λ at. seconds_at at.day at.second ≡ seconds) }
{
    if seconds < FIRST_SECOND || seconds > LAST_SECOND {
        return None;
    }
    Some(Stamp {
        day: seconds.div_euclid(DAY) as i32,
        second: seconds.rem_euclid(DAY) as u32,
    })
}
