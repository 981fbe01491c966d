//! How a map takes in an entry, or what another map tells: in place, and with notes by which this is undone if an allocation fails.
ghost use Rattle.std.specs.Prelude.{◌≡◌, ◌↔◌, ◌∷◌, [], true, false, not, cond, Some, None, map as each, is_some, IfSome, IsTrue, IfOk};
ghost use Rattle.std.specs.Prelude.{OnOk, OnErr};
ghost use Rattle.std.specs.Ordering.{is_eq};
ghost use Rattle.std.specs.BTreeMap.{get, IsOrdered};
ghost use Rattle.itip_join.specs.Bounds.{IsJoinOf};
ghost use Rattle.itip_join.specs.Optional.{IsBelowAt, alive_part};
ghost use Rattle.itip_join.specs.KeyByKey.{IsMapBelowUnder, IsMergeOf, kept};
ghost use Rattle.itip_join.specs.Changes.{is_listed, restored, replaced, keys_in, pairs_in, IsNotedIn, IsRaisedIn, CanTakeBack};

use crate::{Exact, Guard, Join, NoMemory};
use std::alloc::Global;
use std::collections::BTreeMap;
use std::mem;

/// What is needed to undo changes of a map.
#[derive(Drop)]
struct Undo<'a, K, V> {
    /// The keys that are new.
    added: Vec<&'a K>,
    /// What was at keys before their values grew, in the order of the changes.
    raised: Vec<(&'a K, V)>,
}

/// Whether each entry of `map` that `guard` does not kill is at most the entry at its key in `other`.
pub(crate) fn is_below<K: Exact, V: Join, S: Guard<K, V>>(
    map: &BTreeMap<K, V>,
    other: &BTreeMap<K, V>,
    guard: &S,
) -> bool
    ensures { IsTrue result ↔ IsMapBelowUnder (S.is_dead guard.now) K.cmp V.le map.now.entries other.now.entries }
{
    for (key, mine) in map {
        if guard.kills(key, mine) {
            continue;
        }
        let Some(theirs) = other.get(key) else {
            return false;
        };
        if !mine.below(theirs) {
            return false;
        }
    }
    true
}

/// A second map with the same entries.
pub(crate) fn copy_map<K: Exact, V: Join>(
    alloc: Global,
    map: &BTreeMap<K, V>,
) -> Result<BTreeMap<K, V>, NoMemory>
    ensures { IfOk result (λ copy. copy.entries ≡ map.now.entries) }
{
    let mut copy = BTreeMap::new(alloc);
    for (key, value) in map {
        copy.insert(key.copy()?, value.copy()?)?;
    }
    Ok(copy)
}

/// Removes the entries that `guard` kills.
pub(crate) fn drop_dead<K: Exact, V: Join, S: Guard<K, V>>(map: &mut BTreeMap<K, V>, guard: &S)
    ensures ordered { IsOrdered K.cmp map.new }
    ensures filtered { map.new.entries ≡ kept (S.is_dead guard.now) map.old.entries }
{
    map.retain(
        |key: &K, value: &mut V| -> bool
            ensures alive { result ≡ not (S.is_dead guard.entry.now key.now value.old) }
            ensures same { value.new ≡ value.old }
        { !guard.kills(key, value) },
    );
}

/// Joins into `map`, key by key, the entries of `other` that `guard` does not kill. If an allocation fails, nothing changes. It may
/// allocate even if these are at most those of `map`: a caller that must not has to check that first.
pub(crate) fn merge<K: Exact, V: Join, S: Guard<K, V>>(
    alloc: Global,
    map: &mut BTreeMap<K, V>,
    other: &BTreeMap<K, V>,
    guard: &S,
) -> Result<(), NoMemory>
    requires { IsOrdered K.cmp map.old }
    ensures ordered { IsOrdered K.cmp map.new }
    ensures ok { OnOk result (IsMergeOf K.cmp V.le (S.is_dead guard.now) map.old.entries other.now.entries map.new.entries) }
    ensures err { OnErr result (map.new.entries ≡ map.old.entries) }
{
    match single(other) {
        Some((key, theirs)) => join_one(map, key, theirs, guard),
        None => join_all(alloc, map, other, guard),
    }
}

/// The entry of a map that has only one.
fn single<K: Exact, V>(map: &BTreeMap<K, V>) -> Option<(&K, &V)>
    ensures { IfSome result (λ entry. map.now.entries ≡ (entry.0.now, entry.1.now) ∷ []) }
{
    if map.len() == 1 {
        map.first_key_value()
    } else {
        None
    }
}

/// Joins in the entry `theirs` at `key`, unless `guard` kills it. This alone is all or nothing, so nothing is noted, and a value at the
/// key is not copied.
pub(crate) fn join_one<K: Exact, V: Join, S: Guard<K, V>>(
    map: &mut BTreeMap<K, V>,
    key: &K,
    theirs: &V,
    guard: &S,
) -> Result<(), NoMemory>
    requires { IsOrdered K.cmp map.old }
    ensures ordered { IsOrdered K.cmp map.new }
    ensures joined { OnOk result (IsJoinOf (IsBelowAt V.le) (get K.cmp map.old key.now)
        (alive_part (S.is_dead guard.now key.now) (Some theirs.now)) (get K.cmp map.new key.now)) }
    ensures others { (q : K) → is_eq (K.cmp key.now q) ≡ false → get K.cmp map.new q ≡ get K.cmp map.old q }
    ensures err { OnErr result ((q : K) → get K.cmp map.new q ≡ get K.cmp map.old q) }
{
    if guard.kills(key, theirs) {
        return Ok(());
    }
    if let Some(mine) = map.get_mut(key) {
        return mine.join(theirs);
    }
    let value = theirs.copy()?;
    map.insert(key.copy()?, value)?;
    Ok(())
}

/// Joins in the entries of `other` that `guard` does not kill. If an allocation fails, what was changed is changed back.
fn join_all<K: Exact, V: Join, S: Guard<K, V>>(
    alloc: Global,
    map: &mut BTreeMap<K, V>,
    other: &BTreeMap<K, V>,
    guard: &S,
) -> Result<(), NoMemory>
    requires { IsOrdered K.cmp map.old }
    ensures ordered { IsOrdered K.cmp map.new }
    ensures ok { OnOk result (IsMergeOf K.cmp V.le (S.is_dead guard.now) map.old.entries other.now.entries map.new.entries) }
    ensures err { OnErr result (map.new.entries ≡ map.old.entries) }
{
    let mut undo = Undo {
        added: Vec::new(alloc),
        raised: Vec::new(alloc),
    };
    for (key, theirs) in other {
        if let Err(refused) = join_entry(map, key, theirs, guard, &mut undo) {
            take_back(map, undo);
            return Err(refused);
        }
    }
    Ok(())
}

/// Joins in the entry `theirs` at `key`, unless `guard` kills it, and notes how to undo this, even if an allocation fails.
fn join_entry<'a, K: Exact, V: Join, S: Guard<K, V>>(
    map: &mut BTreeMap<K, V>,
    key: &'a K,
    theirs: &V,
    guard: &S,
    undo: &mut Undo<'a, K, V>,
) -> Result<(), NoMemory>
    requires { IsOrdered K.cmp map.old }
    ensures ordered { IsOrdered K.cmp map.new }
    ensures joined { OnOk result (IsJoinOf (IsBelowAt V.le) (get K.cmp map.old key.now)
        (alive_part (S.is_dead guard.now key.now) (Some theirs.now)) (get K.cmp map.new key.now)) }
    ensures noted { IsNotedIn K.cmp key.now (get K.cmp map.old) (get K.cmp map.new) undo.old undo.new }
{
    if guard.kills(key, theirs) {
        return Ok(());
    }
    match map.get_mut(key) {
        Some(mine) => raise(mine, key, theirs, undo),
        None => add(map, key, theirs, undo),
    }
}

/// Joins `theirs` into `mine`, the value at `key`. Notes the old value before, unless `theirs` is below it.
fn raise<'a, K: Exact, V: Join>(
    mine: &mut V,
    key: &'a K,
    theirs: &V,
    undo: &mut Undo<'a, K, V>,
) -> Result<(), NoMemory>
    ensures joined { OnOk result (IsJoinOf V.le mine.old theirs.now mine.new) }
    ensures noted { IsRaisedIn key.now mine.old mine.new undo.old undo.new }
{
    if theirs.below(mine) {
        return Ok(());
    }
    undo.raised.push((key, mine.copy()?))?;
    mine.join(theirs)
}

/// Adds a copy of `theirs` at a new key, and notes the key.
fn add<'a, K: Exact, V: Join>(
    map: &mut BTreeMap<K, V>,
    key: &'a K,
    theirs: &V,
    undo: &mut Undo<'a, K, V>,
) -> Result<(), NoMemory>
    requires ordered { IsOrdered K.cmp map.old }
    requires is_new { get K.cmp map.old key.now ≡ None }
    ensures ordered { IsOrdered K.cmp map.new }
    ensures put { OnOk result (get K.cmp map.new key.now ≡ Some theirs.now) }
    ensures noted { IsNotedIn K.cmp key.now (get K.cmp map.old) (get K.cmp map.new) undo.old undo.new }
{
    let value = theirs.copy()?;
    let twin = key.copy()?;
    undo.added.push(key)?;
    map.insert(twin, value)?;
    Ok(())
}

/// Undoes changes. Allocates nothing.
fn take_back<K: Exact, V: Join>(map: &mut BTreeMap<K, V>, undo: Undo<'_, K, V>)
    requires ordered { IsOrdered K.cmp map.old }
    requires there { CanTakeBack K.cmp (get K.cmp map.old) undo }
    ensures ordered { IsOrdered K.cmp map.new }
    ensures restored { (q : K) → get K.cmp map.new q ≡ restored K.cmp q (get K.cmp map.old q) (keys_in undo.entry) (pairs_in undo.entry) }
{
    let Undo { added, mut raised } = undo;
    take_out(map, &added);
    while let Some((key, value)) = raised.pop() {
        put(map, key, value);
    }
}

/// Removes the entries at the keys.
fn take_out<K: Exact, V: Join>(map: &mut BTreeMap<K, V>, keys: &[&K])
    requires { IsOrdered K.cmp map.old }
    ensures ordered { IsOrdered K.cmp map.new }
    ensures without { (q : K) → get K.cmp map.new q ≡ cond (is_listed K.cmp q (each (λ t. t.now) keys.now)) None (get K.cmp map.old q) }
{
    for key in keys {
        map.remove(*key);
    }
}

/// Replaces the value at `key` with `value`, and returns the old one. If nothing is there, nothing changes, and `value` is dropped.
pub(crate) fn replace<K: Exact, V: Join>(map: &mut BTreeMap<K, V>, key: &K, value: V) -> Option<V>
    requires { IsOrdered K.cmp map.old }
    ensures ordered { IsOrdered K.cmp map.new }
    ensures before { result ≡ get K.cmp map.old key.now }
    ensures with { (q : K) → get K.cmp map.new q ≡ cond (is_eq (K.cmp key.now q)) (replaced (get K.cmp map.old key.now) value)
        (get K.cmp map.old q) }
{
    let place = map.get_mut(key)?;
    Some(mem::replace(place, value))
}

/// Replaces the value at a key that has one.
fn put<K: Exact, V: Join>(map: &mut BTreeMap<K, V>, key: &K, value: V)
    requires ordered { IsOrdered K.cmp map.old }
    requires there { is_some (get K.cmp map.old key.now) ≡ true }
    ensures ordered { IsOrdered K.cmp map.new }
    ensures with { (q : K) → get K.cmp map.new q ≡ cond (is_eq (K.cmp key.now q)) (Some value) (get K.cmp map.old q) }
{
    if let Some(place) = map.get_mut(key) {
        *place = value;
    }
}
