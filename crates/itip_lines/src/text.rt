//! UTF-8 text, which contracts see as its octets.
ghost use Rattle.std.specs.Prelude.{◌≡◌, [], IfOk, IsOk, nat_eq, refl, Some};
ghost use Rattle.std.specs.Ordering.{nat_cmp};
ghost use Rattle.std.specs.Str.{IsUtf8, str_to_ascii_uppercase, str_to_ascii_lowercase};
ghost use Rattle.std.specs.Cmp.Lexicographic.{pointwise, slice_cmp, nat_list_eq_equiv, nat_list_cmp_total, texts_ties, texts_po};
ghost use Rattle.std.specs.Cmp.{partial_equiv_from_equiv};
ghost use Rattle.std.specs.Cmp.Rules.{hashing};
ghost use Rattle.std.specs.Hash as fed;
ghost use Rattle.std.proofs.Common.{rules};
ghost use Rattle.itip_lines.specs.Room.{StandsInPlace};

use smallvec::SmallVec;
use std::alloc::{AllocError, Global};
use std::cmp::Ordering;
use std::fmt;
use std::hash::{Hash, Hasher};
use std::marker::Model;

/// A UTF-8 text, compared by its bytes.
///
/// A text of at most 32 bytes, as most names, times and addresses are, is stored inline: it takes no other memory, and to copy it
/// takes none either.
#[derive(Drop)]
pub struct Text {
    octets: SmallVec<u8, 32>,
}

impl Model for Text {
    ghost use Rattle.std.specs.Prelude.{List, ℕ};
    ghost use Rattle.std.specs.Str.{IsUtf8};

    ghost Value = { List ℕ };

    ghost view = { λ t. t.octets.items };

    ghost invariant = { λ t. IsUtf8 t.octets.items };
}

impl Text {
    /// The empty text.
    pub fn new(alloc: Global) -> Text
        ensures { result ≡ [] }
    {
        Text {
            octets: SmallVec::new(alloc),
        }
    }

    /// Copies a text.
    ///
    /// Returns an error if an allocation fails; a text of at most 32 bytes needs none.
    pub fn copy(alloc: Global, text: &str) -> Result<Text, AllocError>
        ensures copied { IfOk result (λ copy. copy ≡ text.now) }
        ensures room { StandsInPlace text.now → IsOk result }
    {
        let octets = SmallVec::from_slice(alloc, text.as_bytes())?;
        Ok(Text { octets })
    }

    /// Converts its ASCII letters to upper case in place. Does not allocate.
    pub fn make_ascii_uppercase(&mut self)
        ensures { self.new ≡ str_to_ascii_uppercase self.old }
    {
        self.octets.as_mut_slice().make_ascii_uppercase();
    }

    /// Converts its ASCII letters to lower case in place. Does not allocate.
    pub fn make_ascii_lowercase(&mut self)
        ensures { self.new ≡ str_to_ascii_lowercase self.old }
    {
        self.octets.as_mut_slice().make_ascii_lowercase();
    }

    /// The text.
    pub fn as_str(&self) -> &str
        ensures { result.now ≡ self.now }
    {
        // By the invariant the octets are UTF-8.
        unsafe { str::from_utf8_unchecked(self.octets.as_slice()) }
    }
}

/// Cloning a text of at most 32 bytes does not allocate, and so cannot fail.
impl Clone for Text {
    ghost is_clone = { λ text copy. copy ≡ text };

    ghost is_infallible = { StandsInPlace };

    fn clone(&self) -> Result<Text, AllocError> {
        Text::copy(*self.octets.allocator(), self.as_str())
    }
}

impl fmt::Debug for Text {
    fn fmt<W: fmt::Write>(&self, f: &mut fmt::Formatter<W>) -> fmt::Result {
        fmt::Debug::fmt(self.as_str(), f)
    }
}

impl PartialEq for Text {
    ghost eq = { pointwise nat_eq };

    ghost laws = { partial_equiv_from_equiv nat_list_eq_equiv };

    fn eq(&self, other: &Self) -> bool {
        self.as_str() == other.as_str()
    }
}

impl Eq for Text {
    ghost laws = { nat_list_eq_equiv };
}

impl PartialOrd for Text {
    ghost partial_cmp = { λ x y. Some (slice_cmp nat_cmp x y) };

    ghost laws = { texts_po };

    fn partial_cmp(&self, other: &Self) -> Option<Ordering> {
        Some(self.cmp(other))
    }
}

impl Ord for Text {
    ghost cmp = { slice_cmp nat_cmp };

    ghost total = { nat_list_cmp_total };

    ghost matches_partial_cmp = { λ x y. refl };

    ghost matches_eq = { texts_ties };

    fn cmp(&self, other: &Self) -> Ordering {
        self.as_str().cmp(other.as_str())
    }
}

impl Hash for Text {
    ghost hash_input = { fed.str };

    ghost respects_eq = { Prim.search (hashing, rules) };

    fn hash<H: Hasher>(&self, state: &mut H) {
        self.as_str().hash(state);
    }
}

impl fmt::Display for Text {
    ghost output = { λ text. Some text };

    fn fmt<W: fmt::Write>(&self, f: &mut fmt::Formatter<W>) -> fmt::Result {
        f.write_str(self.as_str())
    }
}
