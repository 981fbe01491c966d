//! The best revision of a key: the latest, in whatever order they were heard.
ghost use Rattle.std.specs.Prelude.{◌≡◌, IfOk, refl};
ghost use Rattle.std.specs.Cmp.{partial_order_from_total, partial_equiv_from_equiv, eq_by_cmp_equiv};
ghost use Rattle.std.specs.Ordering.{as_partial_cmp, eq_by_cmp};
ghost use Rattle.itip_items.specs.RevisionOrder.{revision_cmp};
ghost use Rattle.itip_items.specs.Revisions.{revisions_total};

use itip_items::Item;
use itip_join::{Exact, Greatest, NoMemory};
use std::alloc::Global;
use std::cmp::Ordering;
use std::marker::Model;
use std::sync::Arc;

/// An item in the order of revisions. It is shared: copying it raises a count, and allocates nothing.
#[derive(Debug, Drop)]
pub struct Revision {
    shared: Arc<Item>,
}

impl Model for Revision {
    ghost use Rattle.itip_items.specs.declared.item.Item.{Item};

    ghost Value = { Item };

    ghost use Rattle.itip_items.specs.contracts.item.Item as item;

    ghost coded = { item.the_row.coded };

    ghost use Rattle.std.specs.Arc.{arc_value};

    ghost view = { λ r. arc_value r.shared };
}

impl Revision {
    /// The revision that this item is.
    pub(crate) fn new(alloc: Global, item: Item) -> Result<Revision, NoMemory>
        ensures { IfOk result (λ revision. revision ≡ item) }
    {
        Ok(Revision {
            shared: Arc::new(alloc, item)?,
        })
    }

    /// The item.
    pub fn item(&self) -> &Item
        ensures { result.now ≡ self.now }
    {
        &self.shared
    }
}

/// The best revision heard of a key.
pub(crate) type Best = Greatest<Revision>;

impl PartialEq for Revision {
    ghost eq = { eq_by_cmp revision_cmp };

    ghost laws = { partial_equiv_from_equiv (eq_by_cmp_equiv revisions_total) };

    fn eq(&self, other: &Revision) -> bool {
        self.cmp(other) == Ordering::Equal
    }
}

impl Eq for Revision {
    ghost laws = { eq_by_cmp_equiv revisions_total };
}

impl PartialOrd for Revision {
    ghost partial_cmp = { as_partial_cmp revision_cmp };

    ghost laws = { partial_order_from_total revisions_total };

    fn partial_cmp(&self, other: &Revision) -> Option<Ordering> {
        Some(self.cmp(other))
    }
}

impl Ord for Revision {
    ghost cmp = { revision_cmp };

    ghost total = { revisions_total };

    ghost matches_partial_cmp = { λ x y. refl };

    ghost matches_eq = { λ x y. refl };

    fn cmp(&self, other: &Revision) -> Ordering {
        self.item().cmp_rev(other.item())
    }
}

impl Exact for Revision {
    ghost use Rattle.itip_items.proofs.Revisions.{revision_exact};

    ghost exact = { revision_exact };

    fn copy(&self) -> Result<Revision, NoMemory> {
        Ok(Revision {
            shared: self.shared.clone()?,
        })
    }
}
