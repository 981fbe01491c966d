//! A value, or nothing yet.
ghost use Rattle.itip_join.specs.Lifted.{IsLiftedBelow, IsLiftedBelow-refl, IsLiftedBelow-trans, IsLiftedBelow-antisym};
ghost use Rattle.itip_join.specs.Lifted.{IsLiftedBelow-comparable};

use crate::{Chain, Join, NoMemory};

/// A value, or nothing yet: [`Lift::Nothing`] is below every value.
#[derive(Debug, Drop)]
pub enum Lift<T> {
    /// Nothing has been told yet.
    Nothing,
    /// What has been told.
    Known(T),
}

impl<T: Join> Join for Lift<T> {
    ghost le = { IsLiftedBelow T.le };

    ghost reflexive = { IsLiftedBelow-refl T.le T.reflexive };

    ghost transitive = { IsLiftedBelow-trans T.le T.transitive };

    ghost antisymmetric = { IsLiftedBelow-antisym T.le T.antisymmetric };

    fn join(&mut self, other: &Lift<T>) -> Result<(), NoMemory> {
        match (&mut *self, other) {
            (_, Lift::Nothing) => Ok(()),
            (Lift::Known(mine), Lift::Known(theirs)) => mine.join(theirs),
            (Lift::Nothing, Lift::Known(theirs)) => {
                *self = Lift::Known(theirs.copy()?);
                Ok(())
            }
        }
    }

    fn below(&self, other: &Lift<T>) -> bool {
        match (self, other) {
            (Lift::Nothing, _) => true,
            (Lift::Known(mine), Lift::Known(theirs)) => mine.below(theirs),
            (Lift::Known(_), Lift::Nothing) => false,
        }
    }

    fn copy(&self) -> Result<Lift<T>, NoMemory> {
        match self {
            Lift::Nothing => Ok(Lift::Nothing),
            Lift::Known(value) => Ok(Lift::Known(value.copy()?)),
        }
    }
}

impl<T: Chain> Chain for Lift<T> {
    ghost comparable = { IsLiftedBelow-comparable T.le T.comparable };
}
