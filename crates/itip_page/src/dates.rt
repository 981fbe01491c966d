//! Days and moments as a page shows them: `2026-01-05 09:30` (our own form).
ghost use Rattle.std.specs.Prelude.{◌≡◌, ◌<◌, ◌++◌, OnOk};
ghost use Rattle.itip_page.specs.Dates.{day_text, hour_text, second_text, local_markup, moment_markup, zoned_markup};

use crate::escape::put_escaped;
use crate::put::{digit_octets, put};
use itip_moment::{Day, Moment, Stamp, ZoneName};
use std::alloc::AllocError;

/// Appends a day: `2026-01-05`.
pub(crate) fn put_day(out: &mut Vec<u8>, day: Day) -> Result<(), AllocError>
    ensures { OnOk result (out.new.items ≡ out.old.items ++ day_text day.number) }
{
    out.extend_from_slice(&day_octets(day))
}

fn day_octets(day: Day) -> [u8; 10]
    ensures { result ≡ day_text day.number }
{
    let (year, month, day) = day.year_month_day();
    let [y1, y2] = digit_octets((year / 100) as u8);
    let [y3, y4] = digit_octets((year % 100) as u8);
    let [m1, m2] = digit_octets(month);
    let [d1, d2] = digit_octets(day);
    [y1, y2, y3, y4, b'-', m1, m2, b'-', d1, d2]
}

/// Appends a moment: its day, its time if it has one, and after these `UTC` or its zone, if it has one.
pub(crate) fn put_moment(out: &mut Vec<u8>, moment: &Moment) -> Result<(), AllocError>
    ensures { OnOk result (out.new.items ≡ out.old.items ++ moment_markup moment.now) }
{
    match moment {
        Moment::Date(day) => put_day(out, *day),
        Moment::Floating(stamp) => put_local(out, stamp),
        Moment::Utc(stamp) => {
            put_local(out, stamp)?;
            put(out, " <small>UTC</small>")
        }
        Moment::Zoned(zone, stamp) => put_zoned(out, zone, stamp),
    }
}

fn put_zoned(out: &mut Vec<u8>, zone: &ZoneName, stamp: &Stamp) -> Result<(), AllocError>
    ensures { OnOk result (out.new.items ≡ out.old.items ++ zoned_markup zone.now.bytes stamp.now) }
{
    put_local(out, stamp)?;
    put(out, " <small><bdi>")?;
    put_escaped(out, zone.as_str().as_bytes())?;
    put(out, "</bdi></small>")
}

fn put_local(out: &mut Vec<u8>, stamp: &Stamp) -> Result<(), AllocError>
    ensures { OnOk result (out.new.items ≡ out.old.items ++ local_markup stamp.now) }
{
    put_day(out, Day { number: stamp.day })?;
    out.extend_from_slice(&hour_octets(stamp.second))?;
    put_seconds(out, stamp.second)
}

fn hour_octets(second: u32) -> [u8; 6]
    requires { second < 86_400 }
    ensures { result ≡ hour_text second }
{
    let [h1, h2] = digit_octets((second / 3600) as u8);
    let [m1, m2] = digit_octets((second / 60 % 60) as u8);
    [b' ', h1, h2, b':', m1, m2]
}

/// Appends the seconds of a time, or nothing at a whole minute.
fn put_seconds(out: &mut Vec<u8>, second: u32) -> Result<(), AllocError>
    ensures { OnOk result (out.new.items ≡ out.old.items ++ second_text second) }
{
    let seconds = (second % 60) as u8;
    if seconds == 0 {
        return Ok(());
    }
    let [s1, s2] = digit_octets(seconds);
    out.extend_from_slice(&[b':', s1, s2])
}
