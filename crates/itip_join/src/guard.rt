//! What can make the entries of a map dead.
ghost use Rattle.std.specs.Prelude.{◌≡◌, Bool, true, false};

use crate::Join;

/// A value that makes items of a map with keys `K` and values `V` dead.
///
/// The more it tells, the more it kills; and along with an item it kills every item of the same key that is at most that one. A guard that
/// kills what is less than itself gets both laws from `is_lt-below` and `is_lt-above` in `specs/Ranked` of this crate.
pub trait Guard<K, V: Join>: Join {
    /// `is_dead s k v`: under the guard s, the item v of the key k is dead.
    ghost is_dead: { Self → K → V → Bool };

    /// Whether this guard makes the item `value` of `key` dead.
    fn kills(&self, key: &K, value: &V) -> bool
        ensures { result ≡ is_dead self.now key.now value.now };

    /// What is at most a dead item of its key is dead.
    ghost below_dead: { (s : Self) (k : K) (v w : V) → is_dead s k w ≡ true → V.le v w → is_dead s k v ≡ true };

    /// A guard kills all that a guard below it kills.
    ghost dead_stays_dead: { (s t : Self) (k : K) (v : V) → Self.le s t → is_dead s k v ≡ true → is_dead t k v ≡ true };
}

/// The guard that kills nothing.
impl<K, V: Join> Guard<K, V> for () {
    ghost is_dead = { λ _ _ _. false };

    ghost below_dead = { λ _ _ _ _ d _. d };

    ghost dead_stays_dead = { λ _ _ _ _ _ d. d };

    fn kills(&self, _key: &K, _value: &V) -> bool {
        false
    }
}
