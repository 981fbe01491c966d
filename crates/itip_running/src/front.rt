//! Beginnings of the history.
ghost use Rattle.std.specs.Prelude.{◌≡◌, ◌+◌, ◌<◌, [], ◌∷◌, ◌++◌, length, MatchBool, IfSome};
ghost use mathlib.Core.List.{IsPrefix};
ghost use Rattle.itip_running.specs.History.{head_of, batches_of};

use crate::history::History;
use crate::history_book::{Add, Law, Nothing};
use logbook::{Offer, Seen, Start, Word};
use std::snapshot::Snapshot;

/// A beginning of the history. At run time it is only two numbers.
#[derive(Drop)]
pub(crate) struct Front {
    /// How many groups of batches it has.
    pub(crate) count: u64,
    /// How many batches they have together.
    pub(crate) batches: u64,
    /// The beginning itself, which exists only in the proofs (`logbook`).
    pub(crate) seen: Seen<History, u64, Law>,
    ghost counted: { count ≡ length seen.log },
    ghost summed: { batches ≡ length (batches_of seen.log) },
}

/// The one word by which a history grows.
pub(crate) type Head = Word<History, u64, Law>;

/// A new, empty history.
pub(crate) fn open() -> (Head, Front)
    ensures head { result.0 ≡ head_of result.1.seen.book }
    ensures empty { result.1.seen.log ≡ [] }
{
    let (seen, mut first, _second) = Seen::open(Start::alone(), 0, 0);
    let front = Front {
        count: 0,
        batches: 0,
        seen,
    };
    (Word::tracked(0, &mut first), front)
}

impl Front {
    /// A copy of this beginning.
    pub(crate) fn again(&self) -> Front
        ensures { result.seen ≡ self.now.seen }
    {
        Front {
            count: self.count,
            batches: self.batches,
            seen: self.seen.again(),
        }
    }

    /// Whether `other` begins with all of this. Of two beginnings of one history the shorter begins the longer, so their lengths decide.
    pub(crate) fn begins(&self, other: &Front) -> bool
        requires book { other.now.seen.book ≡ self.now.seen.book }
        ensures { MatchBool result (IsPrefix self.now.seen.log other.now.seen.log)
            (IsPrefix other.now.seen.log self.now.seen.log × (length other.now.seen.log < length self.now.seen.log)) }
    {
        let mut both = self.seen.again();
        both.learn(&other.seen);
        if self.count <= other.count {
            return true;
        }
        false
    }

    /// The history with one more group, which has `batches` batches in all. `None` if it has `u64::MAX` groups already, or if someone else
    /// has added a group, which can't happen.
    pub(crate) fn followed_by(
        &self,
        head: &Head,
        group: &Snapshot<History>,
        batches: u64,
    ) -> Option<Front>
        requires head { head.now ≡ head_of self.now.seen.book }
        requires batches { batches ≡ length (batches_of self.now.seen.log) + length group.now.value }
        ensures { IfSome result (λ front. (front.seen.book ≡ self.now.seen.book)
            × (front.seen.log ≡ self.now.seen.log ++ group.now.value ∷ [])) }
    {
        let count = self.count;
        if count == u64::MAX {
            return None;
        }
        let mut seen = self.seen.again();
        let mut offer: Offer<History, u64, Law, Nothing> = seen.plain::<
            Nothing,
            Snapshot<History>,
            Add,
        >(group);
        let mut pen = seen.no_pen();
        let found = head.compare_exchange::<Add, Nothing>(
            count,
            count + 1,
            &mut seen,
            &mut offer,
            &mut pen,
        );
        if found != count {
            return None;
        }
        let front = Front {
            count: count + 1,
            batches,
            seen,
        };
        Some(front)
    }
}
