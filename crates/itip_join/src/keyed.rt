//! An ordered map, joined key by key.
ghost use Rattle.std.specs.Prelude.{◌≡◌, ◌∷◌, [], Some, None, false, cond, IfOk, OnOk, OnErr};
ghost use Rattle.std.specs.Ordering.{is_eq};
ghost use Rattle.std.specs.Option.{option_copied};
ghost use Rattle.std.specs.Map.{keys_of};
ghost use Rattle.std.specs.List.Sorted.{IsStrictlySortedBy};
ghost use Rattle.std.proofs.lemmas.Map.Keys.{IsStrictlySortedBy-prop};
ghost use Rattle.itip_join.specs.Bounds.{IsJoinOf};
ghost use Rattle.itip_join.specs.Changes.{replaced};
ghost use Rattle.itip_join.specs.Optional.{IsBelowAt, IsBelowAt-refl, IsBelowAt-trans, IsBelowUnder-refl, IsBelowUnder-trans};
ghost use Rattle.itip_join.specs.KeyByKey.{value_at, IsMapBelow, IsMapBelow-antisym, IsMapBelowUnder, all_alive};
ghost use Rattle.itip_join.specs.Killed.{IsMapBelowUnder-antisym};
ghost use mathlib.Core.HLevel.{is_prop→PathP};

use crate::{Chain, Exact, Guard, Join, NoMemory, OrderedMap, UnderGuard};
use std::alloc::Global;

/// A map, joined key by key: if one map has no entry at a key, the other's is taken.
#[derive(Debug, Drop)]
pub struct Keyed<K: Ord, V> {
    /// The entries.
    pub map: OrderedMap<K, V>,
    /// The keys of the entries ascend.
    pub ghost ordered: { IsStrictlySortedBy K.cmp (keys_of map) } by { IsStrictlySortedBy-prop K.cmp _ },
}

impl<K: Ord, V> Keyed<K, V> {
    /// An empty map. Allocates nothing.
    pub fn empty(alloc: Global) -> Keyed<K, V>
        ensures { result.map ≡ [] }
    {
        Keyed {
            map: OrderedMap::new(alloc),
        }
    }

    /// A map with one entry. If an allocation fails, the pair is dropped.
    pub fn of_one(alloc: Global, key: K, value: V) -> Result<Keyed<K, V>, NoMemory>
    where
        K: Drop,
        V: Drop,
        ensures { IfOk result (λ one. one.map ≡ (key, value) ∷ []) }
    {
        let mut map = OrderedMap::new(alloc);
        map.insert(key, value)?;
        Ok(Keyed { map })
    }

    /// Puts `value` at `key`, and returns the value that was there. This is not a join: what was there may be lost.
    ///
    /// Only a new key needs memory. If an allocation fails, nothing has changed, and the pair is dropped.
    pub fn insert(&mut self, key: K, value: V) -> Result<Option<V>, NoMemory>
    where
        K: Drop,
        V: Drop,
        ensures old { IfOk result (λ old. old ≡ value_at K.cmp self.old.map key) }
        ensures updates { OnOk result ((q : K) →
            value_at K.cmp self.new.map q ≡ cond (is_eq (K.cmp key q)) (Some value) (value_at K.cmp self.old.map q)) }
        ensures absent { OnErr result (value_at K.cmp self.old.map key ≡ None) }
        ensures err { OnErr result (self.new.map ≡ self.old.map) }
    {
        self.map.insert(key, value)
    }

    /// Removes the entry at `key`, if there is one, and returns its value. This is not a join: what was there is taken out. Allocates
    /// nothing.
    pub fn remove(&mut self, key: &K) -> Option<V>
    where
        K: Drop,
        ensures before { result ≡ value_at K.cmp self.old.map key.now }
        ensures without { (q : K) → value_at K.cmp self.new.map q ≡ cond (is_eq (K.cmp key.now q)) None (value_at K.cmp self.old.map q) }
    {
        self.map.remove(key)
    }

    /// The value at `key`, if there is one.
    pub fn get(&self, key: &K) -> Option<&V>
        ensures { option_copied result ≡ value_at K.cmp self.now.map key.now }
    {
        self.map.get(key)
    }
}

impl<K: Exact, V: Join> Keyed<K, V> {
    /// Joins `theirs` in at `key`, in place, without copying what is there. If nothing is there, copies of `key` and `theirs` are put in.
    ///
    /// If an allocation fails, nothing changes.
    pub fn join_one(&mut self, key: &K, theirs: &V) -> Result<(), NoMemory>
        ensures joined { OnOk result (IsJoinOf (IsBelowAt V.le) (value_at K.cmp self.old.map key.now) (Some theirs.now)
            (value_at K.cmp self.new.map key.now)) }
        ensures others { (q : K) → is_eq (K.cmp key.now q) ≡ false → value_at K.cmp self.new.map q ≡ value_at K.cmp self.old.map q }
        ensures err { OnErr result (self.new.map ≡ self.old.map) }
    {
        self.map.join_one(key, theirs)
    }

    /// Replaces the value at `key` with `value`, and returns the old one. If nothing is there, nothing changes, and `value` is dropped.
    ///
    /// This is not a join: what was there is taken out. Allocates nothing.
    pub fn replace(&mut self, key: &K, value: V) -> Option<V>
        ensures before { result ≡ value_at K.cmp self.old.map key.now }
        ensures with { (q : K) → value_at K.cmp self.new.map q ≡ cond (is_eq (K.cmp key.now q))
            (replaced (value_at K.cmp self.old.map key.now) value) (value_at K.cmp self.old.map q) }
    {
        self.map.replace(key, value)
    }
}

impl<K: Exact, V: Join> Join for Keyed<K, V> {
    ghost le = { λ x y. IsMapBelow K.cmp V.le x.map y.map };

    ghost reflexive = { λ x k. IsBelowAt-refl V.le V.reflexive (value_at K.cmp x.map k) };

    ghost transitive = { λ x y z p q k. IsBelowAt-trans V.le V.transitive (value_at K.cmp x.map k) (value_at K.cmp y.map k)
        (value_at K.cmp z.map k) (p k) (q k) };

    ghost antisymmetric = { λ x y p q.
        let e : x.map ≡ y.map = IsMapBelow-antisym K.total K.exact V.le V.antisymmetric x.map y.map x.ordered y.ordered p q in
        λ i. record {
          map = e i;
          ordered =
              is_prop→PathP (λ j. IsStrictlySortedBy K.cmp (keys_of (e j))) (λ j. IsStrictlySortedBy-prop K.cmp (keys_of (e j))) x.ordered
              y.ordered i;
        } };

    fn join(&mut self, other: &Keyed<K, V>) -> Result<(), NoMemory> {
        if other.below(self) {
            return Ok(());
        }
        self.map.merge(&other.map, &())
    }

    fn below(&self, other: &Keyed<K, V>) -> bool {
        self.map.is_below(&other.map, &())
    }

    fn copy(&self) -> Result<Keyed<K, V>, NoMemory> {
        Ok(Keyed {
            map: self.map.copy_all()?,
        })
    }
}

/// A guard kills entries of the map one by one.
impl<K: Exact, V: Chain, S: Guard<K, V>> UnderGuard<S> for Keyed<K, V> {
    ghost le_under = { λ s x y. IsMapBelowUnder (S.is_dead s) K.cmp V.le x.map y.map };

    ghost are_alive = { λ s x. all_alive (S.is_dead s) x.map };

    ghost reflexive_under = { λ s x k. IsBelowUnder-refl V.le (S.is_dead s k) V.reflexive (value_at K.cmp x.map k) };

    ghost transitive_under = { λ s t x y z g p q k. IsBelowUnder-trans V.le (S.is_dead s k) (S.is_dead t k) V.transitive
        (λ v w. S.below_dead t k v w) (λ v. S.dead_stays_dead s t k v g) (value_at K.cmp x.map k) (value_at K.cmp y.map k)
        (value_at K.cmp z.map k) (p k) (q k) };

    ghost antisymmetric_under = { λ s x y a b p q.
        let e : x.map ≡ y.map =
        IsMapBelowUnder-antisym K.exact (S.is_dead s) K.total V.le V.antisymmetric x.map y.map x.ordered y.ordered a b p q in
        λ i. record {
          map = e i;
          ordered =
              is_prop→PathP (λ j. IsStrictlySortedBy K.cmp (keys_of (e j))) (λ j. IsStrictlySortedBy-prop K.cmp (keys_of (e j))) x.ordered
              y.ordered i;
        } };

    fn join_under(&mut self, other: &Keyed<K, V>, guard: &S) -> Result<(), NoMemory> {
        self.map.merge(&other.map, guard)?;
        self.map.drop_dead(guard);
        Ok(())
    }

    fn join_alive(&mut self, other: &Keyed<K, V>, guard: &S) -> Result<(), NoMemory> {
        self.map.merge(&other.map, guard)
    }

    fn drop_dead(&mut self, guard: &S) {
        self.map.drop_dead(guard);
    }

    fn below_under(&self, other: &Keyed<K, V>, guard: &S) -> bool {
        self.map.is_below(&other.map, guard)
    }
}
