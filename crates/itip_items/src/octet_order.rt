//! Items in the order of their canonical octets.
ghost use Rattle.std.specs.Prelude.{refl};
ghost use Rattle.std.specs.Cmp.{partial_order_from_total, partial_equiv_from_equiv, eq_by_cmp_equiv};
ghost use Rattle.std.specs.Ordering.{as_partial_cmp, eq_by_cmp};
ghost use Rattle.itip_items.specs.OctetOrder.{octets_cmp, octets_total};

use crate::item::Item;
use std::cmp::Ordering;

/// Items with equal canonical octets are equal: see [`crate::equal_octets`].
impl PartialEq for Item {
    ghost eq = { eq_by_cmp octets_cmp };

    ghost laws = { partial_equiv_from_equiv (eq_by_cmp_equiv octets_total) };

    fn eq(&self, other: &Item) -> bool {
        self.cmp(other) == Ordering::Equal
    }
}

impl Eq for Item {
    ghost laws = { eq_by_cmp_equiv octets_total };
}

impl PartialOrd for Item {
    ghost partial_cmp = { as_partial_cmp octets_cmp };

    ghost laws = { partial_order_from_total octets_total };

    fn partial_cmp(&self, other: &Item) -> Option<Ordering> {
        Some(self.cmp(other))
    }
}

/// Items are ordered by their canonical octets.
impl Ord for Item {
    ghost cmp = { octets_cmp };

    ghost total = { octets_total };

    ghost matches_partial_cmp = { λ x y. refl };

    ghost matches_eq = { λ x y. refl };

    fn cmp(&self, other: &Item) -> Ordering {
        self.bytes.cmp(&other.bytes)
    }
}
