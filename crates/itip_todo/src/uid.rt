//! The UID of a to-do.
ghost use Rattle.std.specs.Prelude.{◌≡◌, IfOk, nat_eq, refl, Some};
ghost use Rattle.std.specs.Ordering.{nat_cmp};
ghost use Rattle.std.specs.Cmp.Lexicographic.{pointwise, slice_cmp, nat_list_eq_equiv, nat_list_cmp_total, texts_ties, texts_po};
ghost use Rattle.std.specs.Cmp.{partial_equiv_from_equiv};
ghost use Rattle.std.specs.Cmp.Rules.{hashing};
ghost use Rattle.std.specs.Hash as fed;
ghost use Rattle.std.proofs.Common.{rules};

use crate::head::head;
use itip_lines::{NoMemory, Text};
use std::alloc::Global;
use std::cmp::Ordering;
use std::fmt;
use std::hash::{Hash, Hasher};
use std::marker::Model;
use std::sync::Arc;

/// The UID of a to-do (RFC 5545 3.8.4.7), compared by its bytes.
///
/// Its text is reference-counted, so cloning does not allocate. Its first 16 bytes are also stored inline as a number, so that a
/// comparison seldom has to look at the text, which is elsewhere in memory.
#[derive(Debug, Drop)]
pub struct Uid {
    head: u128,
    text: Arc<Text>,
}

impl Model for Uid {
    ghost use Rattle.std.specs.Prelude.{List, ℕ};
    ghost use Rattle.std.specs.Arc.{arc_value};
    ghost use Rattle.itip_todo.specs.Heads.{IsHead};

    ghost Value = { List ℕ };

    ghost view = { λ uid. arc_value uid.text };

    ghost invariant = { λ uid. IsHead uid.head (arc_value uid.text) };
}

impl Uid {
    /// Makes a UID from a text, and keeps its memory.
    pub fn new(alloc: Global, text: Text) -> Result<Uid, NoMemory>
        ensures { IfOk result (λ uid. uid ≡ text) }
    {
        let number = head(text.as_str().as_bytes());
        let text = Arc::new(alloc, text)?;
        Ok(Uid { head: number, text })
    }

    /// Makes a UID from a copy of a text.
    pub fn copy(alloc: Global, text: &str) -> Result<Uid, NoMemory>
        ensures { IfOk result (λ uid. uid ≡ text.now) }
    {
        Uid::new(alloc, Text::copy(alloc, text)?)
    }

    /// The text.
    pub fn as_str(&self) -> &str
        ensures { result.now ≡ self.now }
    {
        self.text.as_str()
    }
}

impl Clone for Uid {
    ghost is_clone = { λ uid copy. copy ≡ uid };

    fn clone(&self) -> Result<Uid, NoMemory> {
        Ok(Uid {
            head: self.head,
            text: self.text.clone()?,
        })
    }
}

impl PartialEq for Uid {
    ghost eq = { pointwise nat_eq };

    ghost laws = { partial_equiv_from_equiv nat_list_eq_equiv };

    fn eq(&self, other: &Self) -> bool {
        self.text == other.text
    }
}

impl Eq for Uid {
    ghost laws = { nat_list_eq_equiv };
}

impl PartialOrd for Uid {
    ghost partial_cmp = { λ x y. Some (slice_cmp nat_cmp x y) };

    ghost laws = { texts_po };

    fn partial_cmp(&self, other: &Self) -> Option<Ordering> {
        Some(self.cmp(other))
    }
}

impl Ord for Uid {
    ghost cmp = { slice_cmp nat_cmp };

    ghost total = { nat_list_cmp_total };

    ghost matches_partial_cmp = { λ x y. refl };

    ghost matches_eq = { texts_ties };

    fn cmp(&self, other: &Self) -> Ordering {
        if self.head == other.head {
            return self.text.cmp(&other.text);
        }
        self.head.cmp(&other.head)
    }
}

impl Hash for Uid {
    ghost hash_input = { fed.str };

    ghost respects_eq = { Prim.search (hashing, rules) };

    fn hash<H: Hasher>(&self, state: &mut H) {
        self.text.hash(state);
    }
}

impl fmt::Display for Uid {
    ghost output = { λ uid. Some uid };

    fn fmt<W: fmt::Write>(&self, f: &mut fmt::Formatter<W>) -> fmt::Result {
        f.write_str(self.as_str())
    }
}
