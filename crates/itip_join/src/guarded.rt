//! Entries under a guard.
ghost use Rattle.std.specs.Prelude.{◌≡◌, true};
ghost use Rattle.std.proofs.Common.{subst};
ghost use Rattle.itip_join.specs.Alive.{passes_along};

use crate::{Join, NoMemory, UnderGuard};

/// Entries under a guard, none of them dead.
///
/// (g, m) is below (h, n) if g is below h, and each entry of m is at most n's entry at that key, or dead under h. So an entry may vanish
/// in a join.
#[derive(Debug, Drop)]
pub struct Guarded<S: Join, M: UnderGuard<S>> {
    /// What makes entries dead.
    pub guard: S,
    /// The entries.
    pub entries: M,
    /// No dead entry is held.
    pub ghost no_dead_entry: { M.are_alive guard entries ≡ true },
}

impl<S: Join, M: UnderGuard<S>> Guarded<S, M> {
    /// The entries that `guard` does not kill, under this guard. Allocates nothing.
    pub fn new(guard: S, mut entries: M) -> Guarded<S, M>
        ensures guard { result.guard ≡ guard }
        ensures keeps { M.le_under guard entries result.entries }
        ensures adds_none { M.le_under guard result.entries entries }
    {
        entries.drop_dead(&guard);
        Guarded { guard, entries }
    }
}

impl<S: Join, M: UnderGuard<S>> Join for Guarded<S, M> {
    ghost le = { λ x y. S.le x.guard y.guard × M.le_under y.guard x.entries y.entries };

    ghost reflexive = { λ x. (S.reflexive x.guard, M.reflexive_under x.guard x.entries) };

    ghost transitive = { λ x y z p q. (
      S.transitive x.guard y.guard z.guard p.0 q.0,
      M.transitive_under y.guard z.guard x.entries y.entries z.entries q.0 p.1 q.1,
    ) };

    ghost antisymmetric = { λ x y p q.
        let g : x.guard ≡ y.guard = S.antisymmetric x.guard y.guard p.0 q.0 in
        let e : x.entries ≡ y.entries = M.antisymmetric_under y.guard x.entries y.entries
        (subst (λ s. M.are_alive s x.entries ≡ true) g x.no_dead_entry) y.no_dead_entry
        p.1 (subst (λ s. M.le_under s y.entries x.entries) g q.1) in
        λ i. record { guard = g i; entries = e i; no_dead_entry = passes_along M.are_alive g e x.no_dead_entry y.no_dead_entry i } };

    fn join(&mut self, other: &Guarded<S, M>) -> Result<(), NoMemory> {
        if other.guard.below(&self.guard) {
            if other.entries.below_under(&self.entries, &self.guard) {
                return Ok(());
            }
            return self.entries.join_alive(&other.entries, &self.guard);
        }
        // A guard that grows may kill entries of this value too.
        let mut guard = self.guard.copy()?;
        guard.join(&other.guard)?;
        self.entries.join_under(&other.entries, &guard)?;
        self.guard = guard;
        Ok(())
    }

    fn below(&self, other: &Guarded<S, M>) -> bool {
        self.guard.below(&other.guard) && self.entries.below_under(&other.entries, &other.guard)
    }

    fn copy(&self) -> Result<Guarded<S, M>, NoMemory> {
        Ok(Guarded {
            guard: self.guard.copy()?,
            entries: self.entries.copy()?,
        })
    }
}
