ghost use Rattle.std.specs.Prelude.{◌≡◌, ◌≢◌, [], IfOk, OnErr, MatchOption, nat_eq};
ghost use Rattle.std.specs.Arc.{arc_str_bytes};
ghost use Rattle.std.specs.Cmp.{partial_order_from_own_ties};
ghost use Rattle.std.specs.Cmp.Rules.{comparing};
ghost use Rattle.std.specs.Cmp.Lexicographic.{slice_cmp, pointwise};
ghost use Rattle.std.specs.Ordering.{on, nat_cmp, as_partial_cmp};
ghost use Rattle.std.proofs.Common.{rules};
ghost use Rattle.itip_moment.specs.Zone.{zone_text};

use std::alloc::{AllocError, Global};
use std::cmp::Ordering;
use std::fmt;
use std::marker::Model;
use std::sync::ArcStr;

/// The name of a time zone, as TZID gives it (RFC 5545 3.2.19): a text that isn't empty.
///
/// Names are ordered by their bytes. The text is shared: a clone is one more reference, takes no memory, and fails only if there can't be
/// another one.
#[derive(Drop)]
pub struct ZoneName {
    text: ArcStr,
    ghost not_empty: { arc_str_bytes text ≢ [] },
}

impl Model for ZoneName {
    ghost use Rattle.std.specs.Arc.{arc_str_bytes};
    ghost use Rattle.itip_moment.specs.Zone.{Name, name_code};

    ghost Value = { Name };

    ghost coded = { name_code };

    ghost view = { λ z. record { bytes = arc_str_bytes z.text; not_empty = z.not_empty } };
}

impl ZoneName {
    /// The name with this text, or `None` if the text is empty, which takes no memory.
    ///
    /// Fails only when out of memory.
    pub fn new(alloc: Global, text: &str) -> Result<Option<ZoneName>, AllocError>
        ensures ok { IfOk result (λ name.
            MatchOption name (text.now ≡ []) (λ z. z.bytes ≡ text.now)) }
        ensures named { IfOk result (λ name. zone_text name ≡ text.now) }
        ensures err { OnErr result (text.now ≢ []) }
    {
        if text.is_empty() {
            return Ok(None);
        }
        let text = ArcStr::from_str(alloc, text)?;
        Ok(Some(ZoneName { text }))
    }

    /// The text of the name.
    pub fn as_str(&self) -> &str
        ensures { result.now ≡ self.now.bytes }
    {
        self.text.as_str()
    }
}

impl Clone for ZoneName {
    ghost is_clone = { λ z copy. copy ≡ z };

    fn clone(&self) -> Result<ZoneName, AllocError> {
        Ok(ZoneName {
            text: self.text.clone()?,
        })
    }
}

impl fmt::Debug for ZoneName {
    fn fmt<W: fmt::Write>(&self, f: &mut fmt::Formatter<W>) -> fmt::Result {
        f.write_str(self.as_str())
    }
}

impl PartialEq for ZoneName {
    ghost eq = { on (λ z. z.bytes) (pointwise nat_eq) };

    ghost laws = { Prim.search (comparing, rules) };

    fn eq(&self, other: &ZoneName) -> bool {
        self.as_str() == other.as_str()
    }
}

impl Eq for ZoneName {
    ghost laws = { Prim.search (comparing, rules) };
}

impl PartialOrd for ZoneName {
    ghost partial_cmp = { as_partial_cmp (on (λ z. z.bytes) (slice_cmp nat_cmp)) };

    ghost laws = { partial_order_from_own_ties (Prim.search (comparing, rules)) (Prim.search (comparing, rules)) };

    fn partial_cmp(&self, other: &ZoneName) -> Option<Ordering> {
        Some(self.cmp(other))
    }
}

impl Ord for ZoneName {
    ghost cmp = { on (λ z. z.bytes) (slice_cmp nat_cmp) };

    ghost total = { Prim.search (comparing, rules) };

    ghost matches_partial_cmp = { Prim.search (comparing, rules) };

    ghost matches_eq = { Prim.search (comparing, rules) };

    fn cmp(&self, other: &ZoneName) -> Ordering {
        self.as_str().cmp(other.as_str())
    }
}
