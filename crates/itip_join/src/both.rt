//! Two values side by side.
ghost use Rattle.std.specs.Prelude.{◌&&◌};
ghost use Rattle.itip_join.specs.Alive.{first_of_both, second_of_both};

use crate::{Join, NoMemory, UnderGuard};

/// Two values side by side, each joined separately.
#[derive(Debug, Drop)]
pub struct Both<A, B> {
    /// The first part.
    pub first: A,
    /// The second part.
    pub second: B,
}

impl<A: Join, B: Join> Join for Both<A, B> {
    ghost le = { λ x y. A.le x.first y.first × B.le x.second y.second };

    ghost reflexive = { λ x. (A.reflexive x.first, B.reflexive x.second) };

    ghost transitive = { λ x y z p q. (A.transitive x.first y.first z.first p.0 q.0, B.transitive x.second y.second z.second p.1 q.1) };

    ghost antisymmetric = { λ x y p q. λ i. record {
      first = A.antisymmetric x.first y.first p.0 q.0 i;
      second =
          B.antisymmetric x.second y.second p.1 q.1 i;
    } };

    fn join(&mut self, other: &Both<A, B>) -> Result<(), NoMemory> {
        if other.first.below(&self.first) {
            return self.second.join(&other.second);
        }
        // The first part is joined in a copy, since the second may fail for lack of memory.
        let mut first = self.first.copy()?;
        first.join(&other.first)?;
        self.second.join(&other.second)?;
        self.first = first;
        Ok(())
    }

    fn below(&self, other: &Both<A, B>) -> bool {
        self.first.below(&other.first) && self.second.below(&other.second)
    }

    fn copy(&self) -> Result<Both<A, B>, NoMemory> {
        Ok(Both {
            first: self.first.copy()?,
            second: self.second.copy()?,
        })
    }
}

/// A guard kills entries of both parts.
impl<S: Join, A: UnderGuard<S>, B: UnderGuard<S>> UnderGuard<S> for Both<A, B> {
    ghost le_under = { λ s x y. A.le_under s x.first y.first × B.le_under s x.second y.second };

    ghost are_alive = { λ s x. A.are_alive s x.first && B.are_alive s x.second };

    ghost reflexive_under = { λ s x. (A.reflexive_under s x.first, B.reflexive_under s x.second) };

    ghost transitive_under = { λ s t x y z g p q. (
      A.transitive_under s t x.first y.first z.first g p.0 q.0,
      B.transitive_under s t x.second y.second z.second g p.1 q.1,
    ) };

    ghost antisymmetric_under = { λ s x y a b p q. λ i. record {
      first = A.antisymmetric_under s x.first y.first (first_of_both _ _ a) (first_of_both _ _ b) p.0 q.0 i;
      second = B.antisymmetric_under s x.second y.second (second_of_both _ _ a) (second_of_both _ _ b) p.1 q.1 i;
    } };

    fn join_under(&mut self, other: &Both<A, B>, guard: &S) -> Result<(), NoMemory> {
        let mut first = self.first.copy()?;
        first.join_under(&other.first, guard)?;
        self.second.join_under(&other.second, guard)?;
        self.first = first;
        Ok(())
    }

    fn join_alive(&mut self, other: &Both<A, B>, guard: &S) -> Result<(), NoMemory> {
        if other.first.below_under(&self.first, guard) {
            return self.second.join_alive(&other.second, guard);
        }
        let mut first = self.first.copy()?;
        first.join_alive(&other.first, guard)?;
        self.second.join_alive(&other.second, guard)?;
        self.first = first;
        Ok(())
    }

    fn drop_dead(&mut self, guard: &S) {
        self.first.drop_dead(guard);
        self.second.drop_dead(guard);
    }

    fn below_under(&self, other: &Both<A, B>, guard: &S) -> bool {
        self.first.below_under(&other.first, guard) && self.second.below_under(&other.second, guard)
    }
}
