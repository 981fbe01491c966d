//! Total orders that tell all values apart.
ghost use Rattle.std.specs.Prelude.{◌≡◌, IfOk};
ghost use Rattle.std.specs.declared.cmp.Ordering.TheVariants.{Equal};
ghost use Rattle.std.proofs.lemmas.Map.Lookups.{exact_unsigned, exact_pairs};
ghost use Rattle.itip_join.specs.Ranked.{exact_option};

use crate::NoMemory;

/// A total order in which two values are equal only if they are the same value, as keys and revisions have.
///
/// An order that leaves something out, such as the letter case of a name, is not exact: two copies could then hold different values that
/// count as equal.
pub trait Exact: Ord + Drop {
    /// A second value, equal to this one. Fails if an allocation fails.
    fn copy(&self) -> Result<Self, NoMemory>
        ensures { IfOk result (λ copy. copy ≡ self.now) };

    /// Values that the order does not tell apart are the same.
    ghost exact: { (x y : Self) → Self.cmp x y ≡ Equal → x ≡ y };
}

impl Exact for u8 {
    ghost exact = { exact_unsigned };

    fn copy(&self) -> Result<u8, NoMemory> {
        Ok(*self)
    }
}

impl Exact for u32 {
    ghost exact = { exact_unsigned };

    fn copy(&self) -> Result<u32, NoMemory> {
        Ok(*self)
    }
}

impl Exact for u64 {
    ghost exact = { exact_unsigned };

    fn copy(&self) -> Result<u64, NoMemory> {
        Ok(*self)
    }
}

/// `None` comes before every value.
impl<T: Exact> Exact for Option<T> {
    ghost exact = { exact_option T.cmp T.exact };

    fn copy(&self) -> Result<Option<T>, NoMemory> {
        match self {
            None => Ok(None),
            Some(value) => Ok(Some(value.copy()?)),
        }
    }
}

/// The first part decides, then the second.
impl<A: Exact, B: Exact> Exact for (A, B) {
    ghost exact = { exact_pairs A.cmp B.cmp A.exact B.exact };

    fn copy(&self) -> Result<(A, B), NoMemory> {
        Ok((self.0.copy()?, self.1.copy()?))
    }
}
