ghost use Rattle.std.specs.Prelude.{◌≡◌, ◌<◌, ◌≢◌, ℕ, ℤ, [], Some, option_copied, unwrap_or, IfSome, IfNone, IfOk, IsOk, OnErr};
ghost use Rattle.itip_moment.specs.Moment.{local_moment};
ghost use Rattle.itip_moment.specs.Room.{IsZonedText};
ghost use Rattle.itip_moment.specs.Spelling.{IsDayOf, IsDateText, IsClockText, IsLocalText, IsUtcText, IsStampText, MomentText};
ghost use Rattle.itip_moment.specs.Zone.{zone_text};
ghost use Rattle.itip_moment.specs.declared.stamp.Stamp.{Stamp};
ghost use Rattle.itip_moment.specs.declared.moment.Moment.{Moment};

use crate::digits::two_digits;
use crate::{Day, Moment, NoMemory, Stamp, ZoneName};
use jiff::civil::Date;
use std::alloc::Global;

/// Reads a date: exactly `YYYYMMDD` (RFC 5545 3.3.4), a date of the Gregorian calendar in the years
/// 0000 to 9999. Returns `None` for any other text.
pub fn read_date(text: &str) -> Option<Day>
    ensures found { IfSome result (λ day. IsDateText text.now day.number) }
    ensures none { IfNone result ((day : ℤ) → IsDateText text.now day → ⊥) }
{
    date(text.as_bytes())
}

/// Reads a date-time in UTC: `YYYYMMDDTHHMMSSZ` (RFC 5545 3.3.5), with `T` and `Z` in upper case.
///
/// Second 60 is read as 59. Returns `None` for any other text.
pub fn read_stamp(text: &str) -> Option<Stamp>
    ensures found { IfSome result (λ stamp. IsStampText text.now stamp) }
    ensures none { IfNone result ((stamp : Stamp) → IsStampText text.now stamp → ⊥) }
{
    utc(text.as_bytes())
}

/// Reads the moment that a text spells beside a TZID: a date, or a date-time with or without a final `Z`.
///
/// The text decides the form: only a date-time without `Z` is in the zone that TZID names, and it is
/// floating if TZID is absent or empty. Returns `None` for any other text. Fails only if there is no memory
/// for the zone's name: for a date-time without `Z`, beside a TZID that isn't empty.
pub fn read_moment(
    alloc: Global,
    text: &str,
    tzid: Option<&str>,
) -> Result<Option<Moment>, NoMemory>
    ensures found { IfOk result (λ r. IfSome r (MomentText text.now (option_copied tzid.entry))) }
    ensures none { IfOk result (λ r. IfNone r (
        (m : Moment) → MomentText text.now (option_copied tzid.entry) m → ⊥)) }
    ensures err { OnErr result (unwrap_or (option_copied tzid.entry) [] ≢ []) }
    ensures room { ¬ IsZonedText text.now (option_copied tzid.entry) → IsOk result }
{
    let Some(stamp) = local(text.as_bytes()) else {
        // A date and a time in UTC are in no zone, whatever TZID says.
        return read_moment_in(text, None);
    };
    let zone = ZoneName::new(alloc, tzid.unwrap_or(""))?;
    Ok(Some(local_moment(zone, stamp)))
}

/// A local time in a zone, or floating if there is none.
fn local_moment(zone: Option<ZoneName>, stamp: Stamp) -> Moment
    ensures { result ≡ local_moment zone stamp }
{
    match zone {
        None => Moment::Floating(stamp),
        Some(zone) => Moment::Zoned(zone, stamp),
    }
}

/// Reads the moment that a text spells beside the given zone, or beside none: like [`read_moment`], but with a name made before.
///
/// A zoned moment shares the name, so many moments in one zone hold it only once. Fails only for a local time in a zone, if the
/// name can't be shared once more.
pub fn read_moment_in(text: &str, zone: Option<&ZoneName>) -> Result<Option<Moment>, NoMemory>
    ensures found { IfOk result (λ r. IfSome r (MomentText text.now (Some (zone_text (option_copied zone.entry))))) }
    ensures none { IfOk result (λ r. IfNone r (
        (m : Moment) → MomentText text.now (Some (zone_text (option_copied zone.entry))) m → ⊥)) }
    ensures err { OnErr result (zone_text (option_copied zone.entry) ≢ []) }
    ensures room { ¬ IsZonedText text.now (Some (zone_text (option_copied zone.entry))) → IsOk result }
{
    let bytes = text.as_bytes();
    if let Some(day) = date(bytes) {
        return Ok(Some(Moment::Date(day)));
    }
    if let Some(stamp) = utc(bytes) {
        return Ok(Some(Moment::Utc(stamp)));
    }
    let Some(stamp) = local(bytes) else {
        return Ok(None);
    };
    Ok(Some(match zone {
        None => Moment::Floating(stamp),
        Some(zone) => Moment::Zoned(zone.clone()?, stamp),
    }))
}

fn date(text: &[u8]) -> Option<Day>
    ensures found { IfSome result (λ day. IsDateText text.now day.number) }
    ensures none { IfNone result ((day : ℤ) → IsDateText text.now day → ⊥) }
{
    let [y1, y2, y3, y4, m1, m2, d1, d2] = text else {
        return None;
    };
    let century = two_digits(*y1, *y2)?;
    let year = two_digits(*y3, *y4)?;
    let month = two_digits(*m1, *m2)?;
    let day = two_digits(*d1, *d2)?;
    day_of(century as u16 * 100 + year as u16, month, day)
}

fn day_of(year: u16, month: u8, day: u8) -> Option<Day>
    requires year_in { year < 10_000 }
    requires month_in { month < 100 }
    requires day_in { day < 100 }
    ensures found { IfSome result (λ d. IsDayOf year month day d.number) }
    ensures none { IfNone result ((number : ℤ) → IsDayOf year month day number → ⊥) }
{
    let date = Date::new(year as i16, month as i8, day as i8).ok()?;
    Some(Day {
        number: date.to_plain().to_unix_epoch_day(),
    })
}

fn clock(text: &[u8]) -> Option<u32>
    ensures bound { IfSome result (λ second. second < 86_400) }
    ensures found { IfSome result (IsClockText text.now) }
    ensures none { IfNone result ((second : ℕ) → IsClockText text.now second → ⊥) }
{
    let [h1, h2, m1, m2, s1, s2] = text else {
        return None;
    };
    let hour = two_digits(*h1, *h2)?;
    let minute = two_digits(*m1, *m2)?;
    let second = two_digits(*s1, *s2)?;
    if hour < 24 && minute < 60 && second <= 60 {
        Some(hour as u32 * 3600 + minute as u32 * 60 + second.min(59) as u32)
    } else {
        None
    }
}

fn local(text: &[u8]) -> Option<Stamp>
    ensures found { IfSome result (λ stamp. IsLocalText text.now stamp.day stamp.second) }
    ensures none { IfNone result ((day : ℤ) (second : ℕ) → IsLocalText text.now day second → ⊥) }
{
    if text.len() != 15 || text[8] != b'T' {
        return None;
    }
    let day = date(&text[..8])?;
    let second = clock(&text[9..])?;
    Some(Stamp {
        day: day.number,
        second,
    })
}

fn utc(text: &[u8]) -> Option<Stamp>
    ensures found { IfSome result (λ stamp. IsUtcText text.now stamp.day stamp.second) }
    ensures none { IfNone result ((day : ℤ) (second : ℕ) → IsUtcText text.now day second → ⊥) }
{
    match text {
        [front @ .., b'Z'] => local(front),
        _ => None,
    }
}
