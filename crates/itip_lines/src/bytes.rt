//! Owned bytes, which contracts see as a list.
ghost use Rattle.std.specs.Prelude.{◌≡◌, ◌∷◌, ◌++◌, [], IfOk, OnOk, OnErr, nat_eq, refl, Some};
ghost use Rattle.std.specs.Ordering.{nat_cmp};
ghost use Rattle.std.specs.Cmp.Lexicographic.{pointwise, slice_cmp, nat_list_eq_equiv, nat_list_cmp_total, texts_ties, texts_po};
ghost use Rattle.std.specs.Cmp.{partial_equiv_from_equiv};
ghost use Rattle.std.specs.Cmp.Rules.{hashing};
ghost use Rattle.std.specs.Hash as fed;
ghost use Rattle.std.proofs.Common.{rules};
ghost use Rattle.itip_lines.specs.Writing.{Extends};

use std::alloc::AllocError;
use std::cmp::Ordering;
use std::hash::{Hash, Hasher};
use std::marker::Model;

/// Owned bytes, compared lexicographically.
#[derive(Debug, Drop)]
pub struct Bytes {
    octets: Vec<u8>,
}

impl Model for Bytes {
    ghost use Rattle.std.specs.Prelude.{List, ℕ};

    ghost Value = { List ℕ };

    ghost view = { λ b. b.octets.items };
}

impl Bytes {
    /// Wraps the bytes of a vector, and keeps its memory.
    pub fn new(octets: Vec<u8>) -> Bytes
        ensures { result ≡ octets.items }
    {
        Bytes { octets }
    }

    /// Returns the vector, with the same memory.
    pub fn into_vec(self) -> Vec<u8>
        ensures { result.items ≡ self }
    {
        self.octets
    }

    /// Appends a text and LF. If an allocation fails, the bytes are left unchanged.
    pub(crate) fn push_text(&mut self, text: &[u8]) -> Result<(), AllocError>
        ensures pushed { OnOk result (self.new ≡ self.old ++ (text.now ++ 10 ∷ [])) }
        ensures err { OnErr result (self.new ≡ self.old) }
    {
        let start = self.octets.len();
        let done = append(text, &mut self.octets);
        if done.is_err() {
            self.octets.truncate(start);
        }
        done
    }

    /// The bytes.
    pub fn as_slice(&self) -> &[u8]
        ensures { result.now ≡ self.now }
    {
        self.octets.as_slice()
    }
}

/// Appends a text and LF. If an allocation fails, a part of it may have been appended.
pub(crate) fn append(text: &[u8], out: &mut Vec<u8>) -> Result<(), AllocError>
    ensures appended { OnOk result (out.new.items ≡ out.old.items ++ (text.now ++ 10 ∷ [])) }
    ensures extends { Extends out.old.items out.new.items }
{
    out.extend_from_slice(text)?;
    out.push(b'\n')?;
    Ok(())
}

impl Clone for Bytes {
    ghost is_clone = { λ octets copy. copy ≡ octets };

    fn clone(&self) -> Result<Bytes, AllocError> {
        Ok(Bytes::new(self.octets.clone()?))
    }
}

impl PartialEq for Bytes {
    ghost eq = { pointwise nat_eq };

    ghost laws = { partial_equiv_from_equiv nat_list_eq_equiv };

    fn eq(&self, other: &Self) -> bool {
        self.as_slice() == other.as_slice()
    }
}

impl Eq for Bytes {
    ghost laws = { nat_list_eq_equiv };
}

impl PartialOrd for Bytes {
    ghost partial_cmp = { λ x y. Some (slice_cmp nat_cmp x y) };

    ghost laws = { texts_po };

    fn partial_cmp(&self, other: &Self) -> Option<Ordering> {
        Some(self.cmp(other))
    }
}

impl Ord for Bytes {
    ghost cmp = { slice_cmp nat_cmp };

    ghost total = { nat_list_cmp_total };

    ghost matches_partial_cmp = { λ x y. refl };

    ghost matches_eq = { texts_ties };

    fn cmp(&self, other: &Self) -> Ordering {
        self.as_slice().cmp(other.as_slice())
    }
}

impl Hash for Bytes {
    ghost hash_input = { fed.slice fed.u8 };

    ghost respects_eq = { Prim.search (hashing, rules) };

    fn hash<H: Hasher>(&self, state: &mut H) {
        self.as_slice().hash(state);
    }
}
