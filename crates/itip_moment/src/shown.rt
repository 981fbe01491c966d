//! Days, stamps, zone names and moments as they are shown, and days and stamps read from a text.
ghost use Rattle.std.specs.Prelude.{Some};
ghost use Rattle.std.specs.Fmt.{DisplaysOnOk};
ghost use Rattle.std.specs.Net.Grammar.{Parses};
ghost use Rattle.itip_moment.specs.Spelling.{IsStampText};
ghost use Rattle.itip_moment.specs.Shown.{IsDay, shown_moment};
ghost use Rattle.itip_moment.specs.Written.{date_text, local_text, stamp_text};

use crate::write::{date_bytes, local_bytes, stamp_bytes};
use crate::{Day, Moment, Stamp, ZoneName, read_date, read_stamp};
use std::error::Error;
use std::fmt;
use std::str::FromStr;

/// A text doesn't have the form that was asked for.
#[derive(Clone, Copy, PartialEq, Eq, Debug)]
pub struct BadText;

impl fmt::Display for BadText {
    fn fmt<W: fmt::Write>(&self, f: &mut fmt::Formatter<W>) -> fmt::Result {
        f.write_str("the text has another form")
    }
}

impl Error for BadText {}

/// `YYYYMMDD` (RFC 5545 3.3.4).
impl fmt::Display for Day {
    ghost output = { λ day. Some (date_text day.number) };

    fn fmt<W: fmt::Write>(&self, f: &mut fmt::Formatter<W>) -> fmt::Result {
        show(&date_bytes(self.number), f)
    }
}

/// `YYYYMMDDTHHMMSSZ` (RFC 5545 3.3.5).
impl fmt::Display for Stamp {
    ghost output = { λ stamp. Some (stamp_text stamp) };

    fn fmt<W: fmt::Write>(&self, f: &mut fmt::Formatter<W>) -> fmt::Result {
        show(&stamp_bytes(self), f)
    }
}

/// The text of the name.
impl fmt::Display for ZoneName {
    ghost output = { λ zone. Some zone.bytes };

    fn fmt<W: fmt::Write>(&self, f: &mut fmt::Formatter<W>) -> fmt::Result {
        f.write_str(self.as_str())
    }
}

/// The text of the moment; in a named zone it is preceded by `TZID=`, the name of the zone and `:`.
impl fmt::Display for Moment {
    ghost output = { λ moment. Some (shown_moment moment) };

    fn fmt<W: fmt::Write>(&self, f: &mut fmt::Formatter<W>) -> fmt::Result {
        match self {
            Moment::Date(day) => show(&date_bytes(day.number), f),
            Moment::Utc(stamp) => show(&stamp_bytes(stamp), f),
            Moment::Floating(stamp) => show(&local_bytes(stamp), f),
            Moment::Zoned(zone, stamp) => {
                let local = Local { stamp: *stamp };
                write!(f, "TZID={zone}:{local}")
            }
        }
    }
}

/// A stamp that is shown without the `Z` of UTC.
#[derive(Clone, Copy)]
struct Local {
    stamp: Stamp,
}

impl fmt::Display for Local {
    ghost output = { λ local. Some (local_text local.stamp.day local.stamp.second) };

    fn fmt<W: fmt::Write>(&self, f: &mut fmt::Formatter<W>) -> fmt::Result {
        show(&local_bytes(&self.stamp), f)
    }
}

/// Writes the bytes of a text.
fn show<W: fmt::Write>(bytes: &[u8], f: &mut fmt::Formatter<W>) -> fmt::Result
    ensures { DisplaysOnOk W.Write.write_str_gives f.old result (Some bytes.now) f.new }
{
    match str::from_utf8(bytes) {
        Ok(text) => f.write_str(text),
        Err(_) => Err(fmt::Error),
    }
}

impl FromStr for Day {
    type Err = BadText;

    ghost from_str_gives = { Parses IsDay };

    fn from_str(text: &str) -> Result<Day, BadText> {
        match read_date(text) {
            Some(day) => Ok(day),
            None => Err(BadText),
        }
    }
}

impl FromStr for Stamp {
    type Err = BadText;

    ghost from_str_gives = { Parses IsStampText };

    fn from_str(text: &str) -> Result<Stamp, BadText> {
        match read_stamp(text) {
            Some(stamp) => Ok(stamp),
            None => Err(BadText),
        }
    }
}
