//! The greatest value told.
ghost use Rattle.itip_join.specs.Ranked.{IsUpTo, IsUpTo-refl, IsUpTo-trans, IsUpTo-tie, IsUpTo-comparable};

use crate::{Chain, Exact, Join, NoMemory};

/// The greatest value told, under the total order of `T`.
#[derive(Debug, Drop)]
pub struct Greatest<T> {
    /// The greatest so far.
    pub value: T,
}

impl<T: Exact> Join for Greatest<T> {
    ghost le = { λ x y. IsUpTo T.cmp x.value y.value };

    ghost reflexive = { λ x. IsUpTo-refl T.total x.value };

    ghost transitive = { λ x y z. IsUpTo-trans T.total x.value y.value z.value };

    ghost antisymmetric = { λ x y p q. λ i. record { value = T.exact x.value y.value (IsUpTo-tie T.total x.value y.value p q) i } };

    fn join(&mut self, other: &Greatest<T>) -> Result<(), NoMemory> {
        if self.value < other.value {
            self.value = other.value.copy()?;
        }
        Ok(())
    }

    fn below(&self, other: &Greatest<T>) -> bool {
        self.value <= other.value
    }

    fn copy(&self) -> Result<Greatest<T>, NoMemory> {
        Ok(Greatest {
            value: self.value.copy()?,
        })
    }
}

impl<T: Exact> Chain for Greatest<T> {
    ghost comparable = { λ x y. IsUpTo-comparable T.total x.value y.value };
}
