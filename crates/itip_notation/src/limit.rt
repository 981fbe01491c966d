//! A guard over maps of numbers.
ghost use Rattle.std.specs.Ordering.{nat_cmp, is_lt};
ghost use Rattle.std.specs.Cmp.{nat_cmp_total};
ghost use Rattle.std.proofs.lemmas.Map.Lookups.{exact_unsigned};
ghost use Rattle.itip_join.specs.Ranked.{IsUpTo, IsUpTo-refl, IsUpTo-trans, IsUpTo-tie, is_lt-below, is_lt-above};

use itip_join::{Both, Greatest, Guard, Guarded, Join, Keyed, NoMemory};

/// The greatest number so far.
pub type Number = Greatest<u32>;

/// A number for each key.
pub type Map = Keyed<u32, Number>;

/// A number for each key of two parts.
pub type Parts = Keyed<(Option<u64>, u8), Number>;

/// A map under a guard.
pub type GuardedMap = Guarded<Limit, Map>;

/// Two maps under one guard.
pub type GuardedTwo = Guarded<Limit, Both<Map, Map>>;

/// A guarded map for each key.
pub type GuardedByKey = Keyed<u32, GuardedMap>;

/// The greatest number told, which kills the numbers below it.
#[derive(Debug, Drop)]
pub struct Limit {
    /// The number.
    pub value: u32,
}

impl Join for Limit {
    ghost le = { λ x y. IsUpTo nat_cmp x.value y.value };

    ghost reflexive = { λ x. IsUpTo-refl nat_cmp_total x.value };

    ghost transitive = { λ x y z. IsUpTo-trans nat_cmp_total x.value y.value z.value };

    ghost antisymmetric = { λ x y p q. λ i. record {
      value =
          exact_unsigned x.value y.value (IsUpTo-tie nat_cmp_total x.value y.value p q) i;
    } };

    fn join(&mut self, other: &Limit) -> Result<(), NoMemory> {
        if self.value < other.value {
            self.value = other.value;
        }
        Ok(())
    }

    fn below(&self, other: &Limit) -> bool {
        self.value <= other.value
    }

    fn copy(&self) -> Result<Limit, NoMemory> {
        Ok(Limit { value: self.value })
    }
}

impl Guard<u32, Number> for Limit {
    ghost is_dead = { λ s k v. is_lt (nat_cmp v.value s.value) };

    ghost below_dead = { λ s k v w. is_lt-below nat_cmp_total v.value w.value s.value };

    ghost dead_stays_dead = { λ s t k v. is_lt-above nat_cmp_total v.value s.value t.value };

    fn kills(&self, _key: &u32, item: &Number) -> bool {
        item.value < self.value
    }
}
