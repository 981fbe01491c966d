//! The DTSTAMP that is written.
ghost use Rattle.std.specs.Prelude.{◌≡◌, ◌∷◌, [], IfOk, IfErr, MatchOption, Some};
ghost use Rattle.std.specs.Option.{option_copied};
ghost use Rattle.itip_writing.specs.Causes.{IfLate};
ghost use Rattle.itip_writing.specs.Stamping.{IsEqualRevision, IsKeptOf, IsLastSecond, IsLatestOf, IsNextSecond, IsSpentBehind};
ghost use Rattle.itip_writing.specs.Stamping.{IsStampBehind};
ghost use Rattle.itip_writing.specs.Stamping.{equal_stamp, later_stamp};

use crate::error::WritingError;
use itip_items::{Item, Key};
use itip_moment::Stamp;
use itip_state::ItemsOfUid;

/// The last second of a day.
const LAST_SECOND: u32 = 86_399;

/// 9999-12-31, as days from 1970-01-01.
const LAST_DAY: i32 = 2_932_896;

/// The next second, or `None` after 99991231T235959Z.
fn next_second(stamp: Stamp) -> Option<Stamp>
    ensures { MatchOption result (IsLastSecond stamp) (IsNextSecond stamp) }
{
    if stamp.second < LAST_SECOND {
        return Some(Stamp {
            day: stamp.day,
            second: stamp.second + 1,
        });
    }
    if stamp.day < LAST_DAY {
        return Some(Stamp {
            day: stamp.day + 1,
            second: 0,
        });
    }
    None
}

/// The DTSTAMP of a message that is written at the moment `at`: `at` itself, or one second after `latest`, the latest of the stamps
/// that it has to be after, if that is not before `at`.
///
/// Fails with `NoTimeLeft` if there is no such second.
pub(crate) fn stamp_after(at: Stamp, latest: Option<Stamp>) -> Result<Stamp, WritingError>
    ensures stamp { IfOk result (IsStampBehind latest at) }
    ensures spent { IfErr result (IfLate (IsSpentBehind latest at)) }
{
    match latest {
        None => Ok(at),
        Some(latest) => stamp_behind(at, latest),
    }
}

/// The DTSTAMP of a message that is written at the moment `at` and has to be after a stamp.
///
/// Fails with `NoTimeLeft` if no second is left for it.
fn stamp_behind(at: Stamp, latest: Stamp) -> Result<Stamp, WritingError>
    ensures stamp { IfOk result (IsStampBehind (Some latest) at) }
    ensures spent { IfErr result (IfLate (IsSpentBehind (Some latest) at)) }
{
    if latest.cmp(&at).is_lt() {
        return Ok(at);
    }
    match next_second(latest) {
        Some(next) => Ok(next),
        None => Err(WritingError::NoTimeLeft),
    }
}

/// The kept item of a key, or `None` if none is kept. Allocates nothing.
pub(crate) fn kept_item<'a>(items: &ItemsOfUid<'a>, key: &Key) -> Option<&'a Item>
    ensures { IsKeptOf items.now.items key.now (option_copied result) }
{
    // For the proof: the contract of this call says that each of the items is kept beside the others.
    let _kept = items.as_slice();
    items.best(key)
}

/// The DTSTAMP of the kept item of a key if it has this effective sequence, else `None`. Allocates nothing.
pub(crate) fn latest_equal(items: &ItemsOfUid<'_>, key: &Key, sequence: u32) -> Option<Stamp>
    ensures { IsLatestOf (IsEqualRevision items.now.items (key.now ∷ []) sequence) result }
{
    equal_stamp(kept_item(items, key), sequence)
}

fn equal_stamp(item: Option<&Item>, sequence: u32) -> Option<Stamp>
    ensures { result ≡ equal_stamp sequence (option_copied item.entry) }
{
    match item {
        Some(item) if item.eff == sequence => Some(item.stamp),
        _ => None,
    }
}

/// The later of two stamps; the first may be absent.
pub(crate) fn later_stamp(stamp: Option<Stamp>, other: Stamp) -> Stamp
    ensures { result ≡ later_stamp stamp other }
{
    match stamp {
        Some(stamp) => later_of(stamp, other),
        None => other,
    }
}

fn later_of(stamp: Stamp, other: Stamp) -> Stamp
    ensures { result ≡ later_stamp (Some stamp) other }
{
    if stamp.cmp(&other).is_lt() {
        other
    } else {
        stamp
    }
}
