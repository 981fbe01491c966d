//! What holds for every join, by the laws of the trait alone.
//!
//! The functions without parameters do nothing: their contracts are the laws, for proofs to cite.
ghost use Rattle.std.specs.Prelude.{◌≡◌, ◌∷◌, List, IfOk};
ghost use Rattle.itip_join.specs.Bounds.{IsJoinOf, IsFoldOfJoins, HaveSameMembers};

use crate::{Join, NoMemory};

/// Two values have only one join.
pub fn joins_are_unique<T: Join>()
    ensures { (x y z w : T) → IsJoinOf T.le x y z → IsJoinOf T.le x y w → z ≡ w }
{}

/// It makes no difference which of two copies takes in the other.
pub fn joins_commute<T: Join>()
    ensures { (x y z w : T) → IsJoinOf T.le x y z → IsJoinOf T.le y x w → z ≡ w }
{}

/// It makes no difference in which order three values are joined.
pub fn joins_associate<T: Join>()
    ensures { (x y z xy yz left right : T) → IsJoinOf T.le x y xy → IsJoinOf T.le xy z left → IsJoinOf T.le y z yz →
        IsJoinOf T.le x yz right → left ≡ right }
{}

/// Joining in what is already told, such as the value itself, changes nothing.
pub fn joins_absorb<T: Join>()
    ensures { (x y z : T) → T.le y x → IsJoinOf T.le x y z → z ≡ x }
{}

/// Copies that have taken in the same values are the same, in whatever order and however often the values came.
pub fn joins_converge<T: Join>()
    ensures { (x y : T) (xs ys : List T) (z w : T) → HaveSameMembers (x ∷ xs) (y ∷ ys) → IsFoldOfJoins T.le x xs z →
        IsFoldOfJoins T.le y ys w → z ≡ w }
{}

/// What a copy of `first` becomes when the values of `rest` are joined in, one after another.
///
/// Fails if an allocation fails.
pub fn join_all<T: Join>(first: &T, rest: &[T]) -> Result<T, NoMemory>
    ensures { IfOk result (IsFoldOfJoins T.le first.now rest.now) }
{
    let mut all = first.copy()?;
    for value in rest {
        all.join(value)?;
    }
    Ok(all)
}
