//! What the values of the words for messages stand for.
ghost use Rattle.std.specs.Prelude.{◌≡◌, ◌≢◌, ℕ, List, length, IfOk, IfSome, IfNone, MatchOption};
ghost use Rattle.itip_todo.specs.Participation.{partstat_text};
ghost use Rattle.itip_moment.specs.declared.moment.Moment.{Moment};
ghost use Rattle.itip_words.specs.AskedValues.{zoned_text, IsMomentName, IsZonedName, IsTimeIn, if_zoned, percent_of, answer_named};

use itip_moment::{Moment, read_moment};
use itip_script::read_number;
use itip_todo::PartStat;
use std::alloc::{AllocError, Global};

// The greatest percentage.
const MAX_PERCENT: u64 = 100;

// The length of the end of a zoned moment: `:` and a local time, as `:20260105T090000`.
const END: usize = 16;

/// The moment that a text names: a date, a local time, a UTC time, or `TZID=ZONE:` and a local time. `None` for any other text.
pub(crate) fn named_moment(alloc: Global, text: &str) -> Result<Option<Moment>, AllocError>
    ensures found { IfOk result (λ found. IfSome found (IsMomentName text.now)) }
    ensures none { IfOk result (λ found. IfNone found ((moment : Moment) → IsMomentName text.now moment → ⊥)) }
{
    match read_moment(alloc, text, None)? {
        Some(moment) => Ok(Some(moment)),
        None => zoned_moment(alloc, text),
    }
}

/// The moment of `TZID=ZONE:` and a local time. `None` for any other text.
fn zoned_moment(alloc: Global, text: &str) -> Result<Option<Moment>, AllocError>
    ensures found { IfOk result (λ found. IfSome found (IsZonedName text.now)) }
    ensures none { IfOk result (λ found. IfNone found ((moment : Moment) → IsZonedName text.now moment → ⊥)) }
{
    match zone_and_time(text) {
        Some((zone, time)) => time_in(alloc, zone, time),
        None => Ok(None),
    }
}

/// A local time in a zone. `None` for any other text, and if the zone has no name.
fn time_in(alloc: Global, zone: &str, time: &str) -> Result<Option<Moment>, AllocError>
    ensures found { IfOk result (λ found. IfSome found (IsTimeIn zone.now time.now)) }
    ensures none { IfOk result (λ found. IfNone found ((moment : Moment) → IsTimeIn zone.now time.now moment → ⊥)) }
{
    match read_moment(alloc, time, Some(zone))? {
        Some(moment) => Ok(if_zoned(moment)),
        None => Ok(None),
    }
}

/// The moment, if it is in a zone.
fn if_zoned(moment: Moment) -> Option<Moment>
    ensures { result ≡ if_zoned moment }
{
    match moment {
        Moment::Zoned(zone, stamp) => Some(Moment::Zoned(zone, stamp)),
        Moment::Date(_) | Moment::Floating(_) | Moment::Utc(_) => None,
    }
}

/// The zone and the time of a text that is `TZID=ZONE:` and fifteen bytes, as many as a local time has.
fn zone_and_time(text: &str) -> Option<(&str, &str)>
    ensures { MatchOption result ((zone time : List ℕ) → length time ≡ 15 → text.now ≢ zoned_text zone time)
        (λ parts. (text.now ≡ zoned_text parts.0.now parts.1.now) × (length parts.1.now ≡ 15)) }
{
    let rest = text.strip_prefix("TZID=")?;
    let (zone, end) = rest.split_at_checked(rest.len().checked_sub(END)?)?;
    let time = end.strip_prefix(':')?;
    Some((zone, time))
}

/// A decimal number from 0 to 100. `None` for any other text.
pub(crate) fn percent_of(text: &str) -> Option<u8>
    ensures { result ≡ percent_of text.now }
{
    let percent = read_number(text.as_bytes())?;
    if percent > MAX_PERCENT {
        return None;
    }
    Some(percent as u8)
}

/// The participation that an attendee can answer, by its name in upper case: any but DELEGATED. `None` for any other text.
pub(crate) fn answer_named(name: &str) -> Option<PartStat>
    ensures answer { result ≡ answer_named name.now }
    ensures spelled { IfSome result (λ status. name.now ≡ partstat_text status) }
{
    if name == "NEEDS-ACTION" {
        Some(PartStat::NeedsAction)
    } else if name == "ACCEPTED" {
        Some(PartStat::Accepted)
    } else if name == "DECLINED" {
        Some(PartStat::Declined)
    } else if name == "TENTATIVE" {
        Some(PartStat::Tentative)
    } else if name == "COMPLETED" {
        Some(PartStat::Completed)
    } else if name == "IN-PROCESS" {
        Some(PartStat::InProcess)
    } else {
        None
    }
}
