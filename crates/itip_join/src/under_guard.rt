//! Maps whose entries a guard can make dead.
ghost use Rattle.std.specs.Prelude.{◌≡◌, ◌↔◌, Bool, true, IsTrue, OnOk, OnErr};
ghost use Rattle.itip_join.specs.Bounds.{IsJoinUnder};

use crate::{Join, NoMemory};

/// Entries, some of which a guard of type `S` can make dead.
///
/// `Keyed` implements this for each `Guard` of its keys and values, and `Both` for two parts that do, so that one guard can apply to
/// several maps.
pub trait UnderGuard<S: Join>: Join {
    /// `le_under s m n`: each entry of m is at most n's entry at that key, or dead under s.
    ghost le_under: { S → Self → Self → Type 0 };

    /// `are_alive s m`: no entry of m is dead under s.
    ghost are_alive: { S → Self → Bool };

    /// Joins `other` in, and leaves out what is dead under `guard`.
    ///
    /// The result is above both under `guard`, and below all that is above both under a guard that `guard` is below. If an allocation
    /// fails, nothing has changed.
    fn join_under(&mut self, other: &Self, guard: &S) -> Result<(), NoMemory>
        ensures alive { OnOk result (are_alive guard.now self.new ≡ true) }
        ensures joined { OnOk result (IsJoinUnder S.le le_under guard.now self.old other.now self.new) }
        ensures err { OnErr result (self.new ≡ self.old) };

    /// Like `join_under`, if no entry of this value is dead under `guard`: its own entries need not be checked.
    fn join_alive(&mut self, other: &Self, guard: &S) -> Result<(), NoMemory>
        requires { are_alive guard.now self.old ≡ true }
        ensures alive { OnOk result (are_alive guard.now self.new ≡ true) }
        ensures joined { OnOk result (IsJoinUnder S.le le_under guard.now self.old other.now self.new) }
        ensures err { OnErr result (self.new ≡ self.old) };

    /// Removes what is dead under `guard`. Allocates nothing.
    fn drop_dead(&mut self, guard: &S)
        ensures alive { are_alive guard.now self.new ≡ true }
        ensures keeps { le_under guard.now self.old self.new }
        ensures adds_none { le_under guard.now self.new self.old };

    /// Whether each entry is at most the entry at its key in `other`, or dead under `guard`.
    fn below_under(&self, other: &Self, guard: &S) -> bool
        ensures { IsTrue result ↔ le_under guard.now self.now other.now };

    /// Entries are at most themselves.
    ghost reflexive_under: { (s : S) (m : Self) → le_under s m m };

    /// The order is transitive, also from one guard to another that it is below.
    ghost transitive_under: { (s t : S) (l m n : Self) → S.le s t → le_under s l m → le_under t m n → le_under t l n };

    /// Two values without dead entries that are at most each other are the same.
    ghost antisymmetric_under: { (s : S) (m n : Self) → are_alive s m ≡ true → are_alive s n ≡ true → le_under s m n → le_under s n m →
        m ≡ n };
}
