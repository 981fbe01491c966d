ghost use Rattle.std.specs.Prelude.{◌≡◌, refl};
ghost use Rattle.std.specs.Cmp.{partial_order_from_total, partial_equiv_from_equiv, eq_by_cmp_equiv};
ghost use Rattle.std.specs.Ordering.{as_partial_cmp, eq_by_cmp};

use crate::{Day, Stamp, ZoneName};
use std::alloc::AllocError;
use std::cmp::Ordering;

/// The form of a moment. The variants are in the order of forms.
#[derive(Clone, Copy, Debug, PartialEq, Eq)]
pub enum Form {
    Date,
    Floating,
    Utc,
    Zoned,
}

/// A date, or a date-time that is floating, in UTC, or in a named zone (RFC 5545 3.3.4 and 3.3.5).
///
/// Two moments are equal only if their form, zone and value are. Moments are ordered by the day; then by
/// the second of the day, a date before every second; then by the form; then by the zone's bytes.
#[derive(Debug, Drop)]
pub enum Moment {
    Date(Day),
    Floating(Stamp),
    Utc(Stamp),
    Zoned(ZoneName, Stamp),
}

impl Moment {
    ghost use Rattle.std.specs.Prelude.{◌≡◌, option_copied};
    ghost use Rattle.itip_moment.specs.Moment.{moment_form, moment_day, moment_second, moment_zone};
    ghost use Rattle.itip_moment.specs.Written.{moment_tzid};

    /// The form of the moment.
    pub fn form(&self) -> Form
        ensures { result ≡ moment_form self.now }
    {
        match self {
            Moment::Date(_) => Form::Date,
            Moment::Floating(_) => Form::Floating,
            Moment::Utc(_) => Form::Utc,
            Moment::Zoned(_, _) => Form::Zoned,
        }
    }

    /// The number of the day from 1970-01-01.
    pub fn day(&self) -> i32
        ensures { result ≡ moment_day self.now }
    {
        match self {
            Moment::Date(day) => day.number,
            Moment::Floating(at) | Moment::Utc(at) | Moment::Zoned(_, at) => at.day,
        }
    }

    /// The second of the day; `None` for a date, which has none.
    pub fn second(&self) -> Option<u32>
        ensures { result ≡ moment_second self.now }
    {
        match self {
            Moment::Date(_) => None,
            Moment::Floating(at) | Moment::Utc(at) | Moment::Zoned(_, at) => Some(at.second),
        }
    }

    /// The name of the zone of a zoned moment; `None` for any other.
    pub fn tzid(&self) -> Option<&str>
        ensures { option_copied result ≡ moment_tzid self.now }
    {
        match self {
            Moment::Zoned(zone, _) => Some(zone.as_str()),
            _ => None,
        }
    }

    fn zone_bytes(&self) -> &[u8]
        ensures { result.now ≡ moment_zone self.now }
    {
        match self {
            Moment::Zoned(zone, _) => zone.as_str().as_bytes(),
            _ => &[],
        }
    }
}

/// Cloning allocates nothing. It fails only in a named zone, if the name can't be shared once more.
impl Clone for Moment {
    ghost use Rattle.itip_moment.specs.Room.{IsInNoZone};

    ghost is_clone = { λ m copy. copy ≡ m };

    ghost is_infallible = { IsInNoZone };

    fn clone(&self) -> Result<Moment, AllocError> {
        Ok(match self {
            Moment::Date(day) => Moment::Date(*day),
            Moment::Floating(at) => Moment::Floating(*at),
            Moment::Utc(at) => Moment::Utc(*at),
            Moment::Zoned(zone, at) => Moment::Zoned(zone.clone()?, *at),
        })
    }
}

impl PartialEq for Moment {
    ghost use Rattle.itip_moment.specs.Order.{moment_cmp};
    ghost use Rattle.itip_moment.specs.OrderLaws.{moment_total};

    ghost eq = { eq_by_cmp moment_cmp };

    ghost laws = { partial_equiv_from_equiv (eq_by_cmp_equiv moment_total) };

    fn eq(&self, other: &Moment) -> bool {
        self.cmp(other) == Ordering::Equal
    }
}

impl Eq for Moment {
    ghost use Rattle.itip_moment.specs.OrderLaws.{moment_total};

    ghost laws = { eq_by_cmp_equiv moment_total };
}

impl PartialOrd for Moment {
    ghost use Rattle.itip_moment.specs.Order.{moment_cmp};
    ghost use Rattle.itip_moment.specs.OrderLaws.{moment_total};

    ghost partial_cmp = { as_partial_cmp moment_cmp };

    ghost laws = { partial_order_from_total moment_total };

    fn partial_cmp(&self, other: &Moment) -> Option<Ordering> {
        Some(self.cmp(other))
    }
}

impl Ord for Moment {
    ghost use Rattle.itip_moment.specs.Order.{moment_cmp};
    ghost use Rattle.itip_moment.specs.OrderLaws.{moment_total};

    ghost cmp = { moment_cmp };

    ghost total = { moment_total };

    ghost matches_partial_cmp = { λ x y. refl };

    ghost matches_eq = { λ x y. refl };

    fn cmp(&self, other: &Moment) -> Ordering {
        self.day()
            .cmp(&other.day())
            .then(self.second().cmp(&other.second()))
            .then((self.form() as u8).cmp(&(other.form() as u8)))
            .then_with(|| self.zone_bytes().cmp(other.zone_bytes()))
    }
}
