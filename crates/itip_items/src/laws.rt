//! Laws of items. The functions do nothing: their contracts are the laws.
ghost use Rattle.std.specs.Prelude.{◌≡◌};
ghost use Rattle.std.specs.Cmp.{IsTotalOrder};
ghost use Rattle.std.proofs.lemmas.Map.Lookups.{CmpEqualImpliesEq};
ghost use Rattle.itip_items.specs.RevisionOrder.{revision_cmp};
ghost use Rattle.itip_items.specs.declared.item.Item.{Item};

/// Items with equal canonical octets are equal.
pub fn equal_octets()
    ensures { (i j : Item) → i.bytes ≡ j.bytes → i ≡ j }
{}

/// The order of revisions, [`Item::cmp_rev`](crate::Item::cmp_rev), is total, and two items that are equal in it are the same item.
pub fn order_of_revisions()
    ensures total { IsTotalOrder revision_cmp }
    ensures exact { CmpEqualImpliesEq revision_cmp }
{}
