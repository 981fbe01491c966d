//! An ordered map, which contracts see as the list of its entries.
ghost use Rattle.std.specs.Prelude.{◌≡◌, ◌↔◌, [], Some, None, false, cond, length, IsTrue, IfOk, OnOk, OnErr};
ghost use Rattle.std.specs.Option.{option_copied};
ghost use Rattle.std.specs.Map.{keys_of};
ghost use Rattle.std.specs.Map.Iter.{ShowsInOrder, deref_pair};
ghost use Rattle.std.specs.List.Sorted.{IsStrictlySortedBy};
ghost use Rattle.std.specs.Ordering.{is_eq};
ghost use Rattle.std.specs.BTreeMap.{insert_entry};
ghost use Rattle.itip_join.specs.Bounds.{IsJoinOf};
ghost use Rattle.itip_join.specs.Changes.{replaced};
ghost use Rattle.itip_join.specs.Optional.{IsBelowAt};
ghost use Rattle.itip_join.specs.KeyByKey.{value_at, IsMapBelowUnder, IsMergeOf, kept};

use crate::{Exact, Guard, Join, NoMemory, merge};
use std::alloc::Global;
use std::collections::BTreeMap;
use std::collections::btree_map::Iter;
use std::marker::Model;

/// A map in the order of its keys. Contracts see it as the list of its entries.
#[derive(Debug, Drop)]
pub struct OrderedMap<K: Ord, V> {
    alloc: Global,
    map: BTreeMap<K, V>,
}

impl<K: Ord, V> Model for OrderedMap<K, V> {
    ghost use Rattle.std.specs.Prelude.{List};

    ghost Value = { List (K × V) };

    ghost view = { λ m. m.map.entries };
}

impl<K: Ord, V> OrderedMap<K, V> {
    /// An empty map. Allocates nothing.
    pub fn new(alloc: Global) -> OrderedMap<K, V>
        ensures { result ≡ [] }
    {
        OrderedMap {
            alloc,
            map: BTreeMap::new(alloc),
        }
    }

    /// The number of entries.
    pub fn len(&self) -> usize
        ensures { result ≡ length self.now }
    {
        self.map.len()
    }

    /// The value at `key`, if there is one.
    pub fn get(&self, key: &K) -> Option<&V>
        ensures { option_copied result ≡ value_at K.cmp self.now key.now }
    {
        self.map.get(key)
    }

    /// Whether the map has no entries.
    pub fn is_empty(&self) -> bool
        ensures { IsTrue result ↔ (length self.now ≡ 0) }
    {
        self.map.is_empty()
    }

    /// Puts `value` at `key`, and returns the value that was there.
    ///
    /// Only a new key needs memory. If an allocation fails, nothing has changed, and the pair is dropped.
    pub fn insert(&mut self, key: K, value: V) -> Result<Option<V>, NoMemory>
    where
        K: Drop,
        V: Drop,
        ensures old { IfOk result (λ old. old ≡ value_at K.cmp self.old key) }
        ensures updates { OnOk result ((q : K) →
            value_at K.cmp self.new q ≡ cond (is_eq (K.cmp key q)) (Some value) (value_at K.cmp self.old q)) }
        ensures entries { OnOk result (self.new ≡ insert_entry K.cmp self.old key value) }
        ensures ordered { IsStrictlySortedBy K.cmp (keys_of self.new) }
        ensures absent { OnErr result (value_at K.cmp self.old key ≡ None) }
        ensures err { OnErr result (self.new ≡ self.old) }
    {
        Ok(self.map.insert(key, value)?)
    }

    /// Removes the entry at `key`, if there is one, and returns its value.
    pub(crate) fn remove(&mut self, key: &K) -> Option<V>
    where
        K: Drop,
        ensures before { result ≡ value_at K.cmp self.old key.now }
        ensures without { (q : K) → value_at K.cmp self.new q ≡ cond (is_eq (K.cmp key.now q)) None (value_at K.cmp self.old q) }
        ensures ordered { IsStrictlySortedBy K.cmp (keys_of self.new) }
    {
        self.map.remove(key)
    }

    /// The entries, in the order of their keys.
    pub fn iter(&self) -> Iter<'_, K, V>
        ensures rest { result ≡ self.now }
        ensures runs { ShowsInOrder (deref_pair {K = K} {X = V}) }
        ensures ordered { IsStrictlySortedBy K.cmp (keys_of self.now) }
    {
        self.map.iter()
    }
}

impl<K: Exact, V: Join> OrderedMap<K, V> {
    /// Whether each entry that `guard` does not kill is at most the entry at its key in `other`.
    pub(crate) fn is_below<S: Guard<K, V>>(&self, other: &OrderedMap<K, V>, guard: &S) -> bool
        ensures { IsTrue result ↔ IsMapBelowUnder (S.is_dead guard.now) K.cmp V.le self.now other.now }
    {
        merge::is_below(&self.map, &other.map, guard)
    }

    /// A second map with the same entries.
    pub(crate) fn copy_all(&self) -> Result<OrderedMap<K, V>, NoMemory>
        ensures { IfOk result (λ copy. copy ≡ self.now) }
    {
        Ok(OrderedMap {
            alloc: self.alloc,
            map: merge::copy_map(self.alloc, &self.map)?,
        })
    }

    /// Joins `theirs` in at `key`, without copying what is there. If nothing is there, copies of `key` and `theirs` are put in. If an
    /// allocation fails, nothing changes.
    pub(crate) fn join_one(&mut self, key: &K, theirs: &V) -> Result<(), NoMemory>
        requires { IsStrictlySortedBy K.cmp (keys_of self.old) }
        ensures ordered { IsStrictlySortedBy K.cmp (keys_of self.new) }
        ensures joined { OnOk result (IsJoinOf (IsBelowAt V.le) (value_at K.cmp self.old key.now) (Some theirs.now)
            (value_at K.cmp self.new key.now)) }
        ensures others { (q : K) → is_eq (K.cmp key.now q) ≡ false → value_at K.cmp self.new q ≡ value_at K.cmp self.old q }
        ensures err { OnErr result (self.new ≡ self.old) }
    {
        merge::join_one(&mut self.map, key, theirs, &())
    }

    /// Replaces the value at `key` with `value`, and returns the old one. If nothing is there, nothing changes, and `value` is dropped.
    /// Allocates nothing.
    pub(crate) fn replace(&mut self, key: &K, value: V) -> Option<V>
        requires { IsStrictlySortedBy K.cmp (keys_of self.old) }
        ensures ordered { IsStrictlySortedBy K.cmp (keys_of self.new) }
        ensures before { result ≡ value_at K.cmp self.old key.now }
        ensures with { (q : K) → value_at K.cmp self.new q ≡ cond (is_eq (K.cmp key.now q))
            (replaced (value_at K.cmp self.old key.now) value) (value_at K.cmp self.old q) }
    {
        merge::replace(&mut self.map, key, value)
    }

    /// Removes the entries that `guard` kills.
    pub(crate) fn drop_dead<S: Guard<K, V>>(&mut self, guard: &S)
        ensures ordered { IsStrictlySortedBy K.cmp (keys_of self.new) }
        ensures filtered { self.new ≡ kept (S.is_dead guard.now) self.old }
    {
        merge::drop_dead(&mut self.map, guard);
    }

    /// Joins in, key by key, the entries of `other` that `guard` does not kill. If an allocation fails, nothing changes.
    pub(crate) fn merge<S: Guard<K, V>>(
        &mut self,
        other: &OrderedMap<K, V>,
        guard: &S,
    ) -> Result<(), NoMemory>
        requires { IsStrictlySortedBy K.cmp (keys_of self.old) }
        ensures ordered { IsStrictlySortedBy K.cmp (keys_of self.new) }
        ensures ok { OnOk result (IsMergeOf K.cmp V.le (S.is_dead guard.now) self.old other.now self.new) }
        ensures err { OnErr result (self.new ≡ self.old) }
    {
        merge::merge(self.alloc, &mut self.map, &other.map, guard)
    }
}
