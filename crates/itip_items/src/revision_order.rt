//! The order of revisions.
ghost use Rattle.std.specs.Prelude.{◌≡◌};
ghost use Rattle.itip_items.specs.RevisionOrder.{revision_cmp};

use crate::item::Item;
use std::cmp::Ordering;

impl Item {
    /// The order of revisions: effective sequence, DTSTAMP, canonical octets (RFC 5546 2.1.5; the first and the last are our own rule).
    pub fn cmp_rev(&self, other: &Item) -> Ordering
        ensures { result ≡ revision_cmp self.now other.now }
    {
        self.eff
            .cmp(&other.eff)
            .then_with(|| self.stamp.cmp(&other.stamp))
            .then_with(|| self.bytes.cmp(&other.bytes))
    }
}
