//! Octets that can share their front with others, which contracts see as a list.
ghost use Rattle.std.specs.Prelude.{◌≡◌, ◌++◌, List, ℕ, length, IfOk, OnOk, OnErr, refl};
ghost use Rattle.std.specs.Ordering.{nat_cmp, as_partial_cmp, eq_by_cmp};
ghost use Rattle.std.specs.Cmp.Lexicographic.{slice_cmp, nat_list_cmp_total};
ghost use Rattle.std.specs.Cmp.{partial_order_from_total, partial_equiv_from_equiv, eq_by_cmp_equiv};

use itip_lines::{Bytes, NoMemory};
use std::alloc::Global;
use std::cmp::Ordering;
use std::marker::Model;
use std::sync::Arc;

/// Octets that others begin with. They are reference-counted, so cloning does not allocate.
#[derive(Debug, Drop)]
pub(crate) struct Front {
    shared: Arc<Bytes>,
}

impl Model for Front {
    ghost use Rattle.std.specs.Prelude.{List, ℕ};
    ghost use Rattle.std.specs.Arc.{arc_value};

    ghost Value = { List ℕ };

    ghost view = { λ f. arc_value f.shared };
}

impl Front {
    /// Wraps the octets of a vector, to be shared, and keeps its memory.
    pub(crate) fn new(alloc: Global, octets: Vec<u8>) -> Result<Front, NoMemory>
        ensures { IfOk result (λ front. front ≡ octets.items) }
    {
        Ok(Front {
            shared: Arc::new(alloc, Bytes::new(octets))?,
        })
    }

    /// The octets.
    pub(crate) fn as_slice(&self) -> &[u8]
        ensures { result.now ≡ self.now }
    {
        self.shared.as_slice()
    }
}

impl Clone for Front {
    ghost is_clone = { λ front copy. copy ≡ front };

    fn clone(&self) -> Result<Front, NoMemory> {
        Ok(Front {
            shared: self.shared.clone()?,
        })
    }
}

/// Octets, compared lexicographically. Those of the items of one to-do's attendees share their common front.
#[derive(Debug, Drop)]
pub struct Octets {
    front: Option<Front>,
    own: Bytes,
}

impl Model for Octets {
    ghost use Rattle.std.specs.Prelude.{List, ℕ, [], ◌++◌, unwrap_or};

    ghost Value = { List ℕ };

    ghost view = { λ o. unwrap_or o.front [] ++ o.own };
}

impl Octets {
    /// Wraps the octets of a vector, and keeps its memory.
    pub(crate) fn new(octets: Vec<u8>) -> Octets
        ensures { result ≡ octets.items }
    {
        Octets {
            front: None,
            own: Bytes::new(octets),
        }
    }

    /// A shared front, followed by the octets of a vector, whose memory is kept.
    pub(crate) fn behind(front: &Front, own: Vec<u8>) -> Result<Octets, NoMemory>
        ensures { IfOk result (λ octets. octets ≡ front.now ++ own.items) }
    {
        Ok(Octets {
            front: Some(front.clone()?),
            own: Bytes::new(own),
        })
    }

    /// The front, empty if none is shared, and the octets after it.
    fn pieces(&self) -> (&[u8], &[u8])
        ensures { self.now ≡ result.0.now ++ result.1.now }
    {
        let own = self.own.as_slice();
        match &self.front {
            Some(front) => (front.as_slice(), own),
            None => (&[], own),
        }
    }

    /// The octets after the shared front; all of them if there is none.
    pub fn own(&self) -> &[u8]
        ensures { (front : List ℕ) × (self.now ≡ front ++ result.now) }
    {
        self.own.as_slice()
    }

    /// The number of octets.
    pub fn len(&self) -> usize
        ensures { result ≡ length self.now }
    {
        let (front, own) = self.pieces();
        front.len() + own.len()
    }

    /// Appends the octets to a vector. If an allocation fails, the vector is left unchanged.
    pub fn append_to(&self, out: &mut Vec<u8>) -> Result<(), NoMemory>
        ensures ok { OnOk result (out.new.items ≡ out.old.items ++ self.now) }
        ensures err { OnErr result (out.new.items ≡ out.old.items) }
    {
        let (front, own) = self.pieces();
        let before = out.len();
        out.extend_from_slice(front)?;
        match out.extend_from_slice(own) {
            Ok(()) => Ok(()),
            Err(refused) => {
                out.truncate(before);
                Err(refused)
            }
        }
    }
}

impl Clone for Octets {
    ghost is_clone = { λ octets copy. copy ≡ octets };

    fn clone(&self) -> Result<Octets, NoMemory> {
        Ok(Octets {
            front: self.front.clone()?,
            own: self.own.clone()?,
        })
    }
}

impl PartialEq for Octets {
    ghost eq = { eq_by_cmp (slice_cmp nat_cmp) };

    ghost laws = { partial_equiv_from_equiv (eq_by_cmp_equiv nat_list_cmp_total) };

    fn eq(&self, other: &Self) -> bool {
        self.cmp(other) == Ordering::Equal
    }
}

impl Eq for Octets {
    ghost laws = { eq_by_cmp_equiv nat_list_cmp_total };
}

impl PartialOrd for Octets {
    ghost partial_cmp = { as_partial_cmp (slice_cmp nat_cmp) };

    ghost laws = { partial_order_from_total nat_list_cmp_total };

    fn partial_cmp(&self, other: &Self) -> Option<Ordering> {
        Some(self.cmp(other))
    }
}

impl Ord for Octets {
    ghost cmp = { slice_cmp nat_cmp };

    ghost total = { nat_list_cmp_total };

    ghost matches_partial_cmp = { λ x y. refl };

    ghost matches_eq = { λ x y. refl };

    fn cmp(&self, other: &Self) -> Ordering {
        if let (None, None) = (&self.front, &other.front) {
            return self.own.cmp(&other.own);
        }
        let (front, own) = self.pieces();
        let (other_front, other_own) = other.pieces();
        cmp_pieces(front, own, other_front, other_own)
    }
}

/// Compares octets in two pieces with others in two pieces, without joining them.
fn cmp_pieces(front: &[u8], own: &[u8], other_front: &[u8], other_own: &[u8]) -> Ordering
    ensures { result ≡ slice_cmp nat_cmp (front.now ++ own.now) (other_front.now ++ other_own.now) }
{
    if front.len() <= other_front.len() {
        let (same, more) = other_front.split_at(front.len());
        let rest = cmp_behind(own, more, other_own);
        front.cmp(same).then(rest)
    } else {
        let (same, more) = front.split_at(other_front.len());
        let rest = cmp_behind(other_own, more, own);
        same.cmp(other_front).then(rest.reverse())
    }
}

/// Compares octets with others in two pieces.
fn cmp_behind(octets: &[u8], front: &[u8], own: &[u8]) -> Ordering
    ensures { result ≡ slice_cmp nat_cmp octets.now (front.now ++ own.now) }
{
    if octets.len() < front.len() {
        return octets.cmp(front);
    }
    let (same, more) = octets.split_at(front.len());
    let rest = more.cmp(own);
    same.cmp(front).then(rest)
}
