//! The laws of what is kept, for every finite set of items. Each function is empty: its contract is the law.
ghost use Rattle.std.specs.Prelude.{◌≡◌, List, ◌++◌, ℕ, ◌↔◌};
ghost use Rattle.itip_items.specs.declared.item.Item.{Item};
ghost use Rattle.itip_state.specs.Kept.{AreKept, ArePart, SameItems, IsKept};
ghost use Rattle.itip_state.specs.Order.{IsState, IsBelow, IsLeastUpperBound};

/// Two sets together keep the same items as their kept items together: what isn't kept can be forgotten (our own rule).
pub fn kept_of_kept()
    ensures { (x y kept_x kept_y : List Item) → AreKept kept_x x → AreKept kept_y y →
        (item : Item) → IsKept (kept_x ++ kept_y) item ↔ IsKept (x ++ y) item }
{}

/// What is kept of a UID depends on the items of that UID alone (our own rule).
pub fn uid_by_uid()
    ensures { (uid : List ℕ) (part whole kept_part kept_whole : List Item) → ArePart uid part whole →
        AreKept kept_part part → AreKept kept_whole whole → ArePart uid kept_part kept_whole }
{}

/// One state is below another if hearing its items adds nothing to the other. This is a partial order on states (our own rule).
pub fn order_of_states()
    ensures reflexive { (x : List Item) → IsState x → IsBelow x x }
    ensures transitive { (x y z : List Item) → IsState x → IsState y → IsState z → IsBelow x y → IsBelow y z → IsBelow x z }
    ensures antisymmetric { (x y : List Item) → IsState x → IsState y → IsBelow x y → IsBelow y x → SameItems x y }
{}

/// What is kept of two states together is their least upper bound (our own rule).
pub fn least_upper_bound()
    ensures { (x y bound : List Item) → IsState x → IsState y → AreKept bound (x ++ y) → IsLeastUpperBound x y bound }
{}
