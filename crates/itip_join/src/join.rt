//! The trait of values that have a join.
ghost use Rattle.std.specs.Prelude.{◌≡◌, ◌↔◌, ◌⊎◌, IsTrue, IfOk, OnOk, OnErr, IsOk, refl};
ghost use Rattle.itip_join.specs.Bounds.{IsJoinOf};

use crate::NoMemory;

/// Values in an order of knowledge in which any two have a least value above both: their join.
pub trait Join: Drop {
    /// `le x y`: y tells all that x tells.
    ghost le: { Self → Self → Type 0 };

    /// Makes this value the join of itself and `other`: the least value that tells what either tells.
    ///
    /// If an allocation fails, nothing has changed. If this value already tells all that `other` tells, the join allocates nothing,
    /// succeeds, and changes nothing.
    fn join(&mut self, other: &Self) -> Result<(), NoMemory>
        ensures joined { OnOk result (IsJoinOf le self.old other.now self.new) }
        ensures err { OnErr result (self.new ≡ self.old) }
        ensures succeeds { le other.now self.old → IsOk result }
        ensures unchanged { le other.now self.old → self.new ≡ self.old };

    /// Whether `other` tells all that this value tells.
    fn below(&self, other: &Self) -> bool
        ensures { IsTrue result ↔ le self.now other.now };

    /// A second value, equal to this one. Fails if an allocation fails.
    fn copy(&self) -> Result<Self, NoMemory>
        ensures { IfOk result (λ copy. copy ≡ self.now) };

    /// Each value tells what it tells itself.
    ghost reflexive: { (x : Self) → le x x };

    /// If y tells all that x tells, and z all that y tells, then z tells all that x tells.
    ghost transitive: { (x y z : Self) → le x y → le y z → le x z };

    /// Two values that tell the same are the same.
    ghost antisymmetric: { (x y : Self) → le x y → le y x → x ≡ y };
}

/// Values of which any two are ordered: one of them is below the other.
pub trait Chain: Join {
    /// One of the two is below the other.
    ghost comparable: { (x y : Self) → Self.le x y ⊎ Self.le y x };
}

/// The only value, which tells nothing.
impl Join for () {
    ghost le = { λ _ _. Unit {0} };

    ghost reflexive = { λ _. tt };

    ghost transitive = { λ _ _ _ _ _. tt };

    ghost antisymmetric = { λ _ _ _ _. refl };

    fn join(&mut self, _other: &()) -> Result<(), NoMemory> {
        Ok(())
    }

    fn below(&self, _other: &()) -> bool {
        true
    }

    fn copy(&self) -> Result<(), NoMemory> {
        Ok(())
    }
}
