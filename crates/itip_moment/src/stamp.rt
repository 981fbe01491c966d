ghost use Rattle.std.specs.Prelude.{◌<◌, refl};
ghost use Rattle.std.specs.Cmp.{partial_order_from_total, partial_equiv_from_equiv, eq_by_cmp_equiv};
ghost use Rattle.std.specs.Ordering.{as_partial_cmp, eq_by_cmp};
ghost use Rattle.itip_moment.specs.Years.{IsDayNumber};

use std::cmp::Ordering;

/// A date-time (RFC 5545 3.3.5): the day's number from 1970-01-01, and the second of the day. It is in UTC, except in a moment that is
/// floating or in a named zone.
///
/// Stamps are ordered by the day, then by the second.
#[derive(Clone, Copy, Debug)]
pub struct Stamp {
    pub day: i32,
    pub second: u32,
    pub ghost in_years: { IsDayNumber day },
    pub ghost in_day: { second < 86_400 },
}

impl PartialEq for Stamp {
    ghost use Rattle.itip_moment.specs.Order.{stamp_cmp};
    ghost use Rattle.itip_moment.specs.OrderLaws.{stamp_total};

    ghost eq = { eq_by_cmp stamp_cmp };

    ghost laws = { partial_equiv_from_equiv (eq_by_cmp_equiv stamp_total) };

    fn eq(&self, other: &Stamp) -> bool {
        self.cmp(other) == Ordering::Equal
    }
}

impl Eq for Stamp {
    ghost use Rattle.itip_moment.specs.OrderLaws.{stamp_total};

    ghost laws = { eq_by_cmp_equiv stamp_total };
}

impl PartialOrd for Stamp {
    ghost use Rattle.itip_moment.specs.Order.{stamp_cmp};
    ghost use Rattle.itip_moment.specs.OrderLaws.{stamp_total};

    ghost partial_cmp = { as_partial_cmp stamp_cmp };

    ghost laws = { partial_order_from_total stamp_total };

    fn partial_cmp(&self, other: &Stamp) -> Option<Ordering> {
        Some(self.cmp(other))
    }
}

impl Ord for Stamp {
    ghost use Rattle.itip_moment.specs.Order.{stamp_cmp};
    ghost use Rattle.itip_moment.specs.OrderLaws.{stamp_total};

    ghost cmp = { stamp_cmp };

    ghost total = { stamp_total };

    ghost matches_partial_cmp = { λ x y. refl };

    ghost matches_eq = { λ x y. refl };

    fn cmp(&self, other: &Stamp) -> Ordering {
        self.day
            .cmp(&other.day)
            .then(self.second.cmp(&other.second))
    }
}
