ghost use Rattle.std.specs.Prelude.{◌≡◌, ◌<◌, ◌++◌, ◌∷◌, [], OnOk, OnErr, IsOk};
ghost use Rattle.itip_moment.specs.Digits.{two_digits};
ghost use Rattle.itip_moment.specs.Room.{HasRoomFor, KeepsRoom};
ghost use Rattle.itip_moment.specs.Years.{IsDayNumber};
ghost use Rattle.itip_moment.specs.Written.{date_text, clock_text, local_text, stamp_text, moment_text};

use crate::{Day, Moment, NoMemory, Stamp};

/// Appends the text of a stamp, `YYYYMMDDTHHMMSSZ` (RFC 5545 3.3.5).
///
/// On an error (out of memory) the contents of the vector are unchanged. It takes memory only if the vector has no room for the text.
pub fn write_stamp(stamp: &Stamp, out: &mut Vec<u8>) -> Result<(), NoMemory>
    ensures ok { OnOk result (out.new.items ≡ out.old.items ++ stamp_text stamp.now) }
    ensures err { OnErr result (out.new.items ≡ out.old.items) }
    ensures room { HasRoomFor out.old (stamp_text stamp.now) → IsOk result }
    ensures keeps { KeepsRoom out.old out.new }
{
    out.extend_from_slice(&stamp_bytes(stamp))
}

/// Appends the value text of a moment (RFC 5545 3.3.4 and 3.3.5), without its TZID.
///
/// On an error (out of memory) the contents of the vector are unchanged. It takes memory only if the vector has no room for the text.
pub fn write_moment(moment: &Moment, out: &mut Vec<u8>) -> Result<(), NoMemory>
    ensures ok { OnOk result (out.new.items ≡ out.old.items ++ moment_text moment.now) }
    ensures err { OnErr result (out.new.items ≡ out.old.items) }
    ensures room { HasRoomFor out.old (moment_text moment.now) → IsOk result }
    ensures keeps { KeepsRoom out.old out.new }
{
    match moment {
        Moment::Date(day) => out.extend_from_slice(&date_bytes(day.number)),
        Moment::Utc(stamp) => write_stamp(stamp, out),
        Moment::Floating(stamp) | Moment::Zoned(_, stamp) => write_local(stamp, out),
    }
}

fn write_local(stamp: &Stamp, out: &mut Vec<u8>) -> Result<(), NoMemory>
    ensures ok { OnOk result (out.new.items
        ≡ out.old.items ++ local_text stamp.now.day stamp.now.second) }
    ensures err { OnErr result (out.new.items ≡ out.old.items) }
    ensures room { HasRoomFor out.old (local_text stamp.now.day stamp.now.second) → IsOk result }
    ensures keeps { KeepsRoom out.old out.new }
{
    out.extend_from_slice(&local_bytes(stamp))
}

/// The text of a stamp, `YYYYMMDDTHHMMSSZ` (RFC 5545 3.3.5).
pub fn stamp_bytes(stamp: &Stamp) -> [u8; 16]
    ensures { result ≡ stamp_text stamp.now }
{
    let [y1, y2, y3, y4, m1, m2, d1, d2] = date_bytes(stamp.day);
    let [h1, h2, n1, n2, s1, s2] = clock_bytes(stamp.second);
    [
        y1, y2, y3, y4, m1, m2, d1, d2, b'T', h1, h2, n1, n2, s1, s2, b'Z',
    ]
}

pub(crate) fn local_bytes(stamp: &Stamp) -> [u8; 15]
    ensures { result ≡ local_text stamp.now.day stamp.now.second }
{
    let [y1, y2, y3, y4, m1, m2, d1, d2] = date_bytes(stamp.day);
    let [h1, h2, n1, n2, s1, s2] = clock_bytes(stamp.second);
    [y1, y2, y3, y4, m1, m2, d1, d2, b'T', h1, h2, n1, n2, s1, s2]
}

pub(crate) fn date_bytes(day: i32) -> [u8; 8]
    requires { IsDayNumber day }
    ensures { result ≡ date_text day }
{
    let (year, month, day) = Day { number: day }.year_month_day();
    let [y1, y2] = digit_bytes((year / 100) as u8);
    let [y3, y4] = digit_bytes((year % 100) as u8);
    let [m1, m2] = digit_bytes(month);
    let [d1, d2] = digit_bytes(day);
    [y1, y2, y3, y4, m1, m2, d1, d2]
}

fn clock_bytes(second: u32) -> [u8; 6]
    requires { second < 86_400 }
    ensures { result ≡ clock_text second }
{
    let [h1, h2] = digit_bytes((second / 3600) as u8);
    let [m1, m2] = digit_bytes((second / 60 % 60) as u8);
    let [s1, s2] = digit_bytes((second % 60) as u8);
    [h1, h2, m1, m2, s1, s2]
}

fn digit_bytes(n: u8) -> [u8; 2]
    requires { n < 100 }
    ensures { result ≡ two_digits n }
{
    [b'0' + n / 10, b'0' + n % 10]
}
