//! The keeper's end of the pair, by value.
ghost use Rattle.std.specs.Prelude.{◌≡◌, ◌↔◌, ◌+◌, ◌<◌, [], ◌∷◌, ◌++◌, length, drop};
ghost use Rattle.std.specs.Prelude.{MatchBool, MatchOption, MatchResult, OnOk, OnErr, IfOk, IfErr, IsErrOf};
ghost use Rattle.itip_running.specs.History.{head_of, batches_of};
ghost use Rattle.itip_running.specs.Pair.{published_groups, published_log, pending_log};

use crate::error::LiveError;
use crate::front::{Front, Head};
use crate::history::History;
use crate::pair_protocol::{PublishedWriter, Sees};
use crate::published::{Op, Published};
use crate::receipt::Receipt;
use itip_desk::Batch;
use std::alloc::Global;
use std::snapshot::Snapshot;
use std::sync::Wait;

/// The writer of a pair, and what is pending. It isn't `Drop`: take it apart with `close`.
pub(crate) struct WriteEnd {
    pub(crate) writer: PublishedWriter,
    pub(crate) head: Head,
    /// The groups of all calls of `publish`: those that are published, and then those of calls that were refused.
    pub(crate) last: Front,
    /// The batches that were submitted since the last of these calls.
    pub(crate) fresh: History,
    pub(crate) pending: usize,
    ghost begins: { last.seen.log ≡ published_groups writer.desk.shown.value
        ++ drop (length (published_groups writer.desk.shown.value)) last.seen.log },
    ghost whole: { batches_of last.seen.log ++ fresh
        ≡ published_log writer.desk.shown.value ++ pending_log writer.behind writer.log.items },
    ghost book: { last.seen.book ≡ writer.desk.shown.value.front.seen.book },
    ghost head_is: { head ≡ head_of last.seen.book },
    ghost kept_is: { writer.desk.shown.value.history ≡ published_log writer.desk.shown.value },
    ghost counted: { pending ≡ length (pending_log writer.behind writer.log.items) },
}

impl WriteEnd {
    ghost use Rattle.itip_running.specs.ContractViews.{shown_value, writer_groups, writer_published};
    ghost use Rattle.itip_running.specs.ContractViews.{writer_pending, writer_calls, writer_fresh};
    ghost use Rattle.itip_running.specs.ContractViews.{writer_pair, publishes_told, IsShownCall, IsRefusedCall};

    /// Adds a batch after those that are pending. If an allocation fails or `usize::MAX` batches are pending, returns the batch, and
    /// nothing has changed.
    pub(crate) fn submit(&mut self, batch: Batch) -> Result<(), Batch>
        ensures published { self.new.writer.desk ≡ self.old.writer.desk }
        ensures pending { MatchResult result (λ _. writer_pending self.new ≡ writer_pending self.old ++ batch ∷ [])
            (λ b. (b ≡ batch) × (writer_pending self.new ≡ writer_pending self.old)) }
        ensures calls { writer_calls self.new ≡ writer_calls self.old }
        ensures fresh { MatchResult result (λ _. writer_fresh self.new ≡ writer_fresh self.old ++ batch ∷ [])
            (λ _. writer_fresh self.new ≡ writer_fresh self.old) }
        ensures book { writer_pair self.new ≡ writer_pair self.old }
    {
        if self.pending == usize::MAX {
            return Err(batch);
        }
        let fresh = self.fresh.followed_by(&batch);
        match self.writer.append(Op::Take(batch)) {
            Ok(()) => {}
            Err(Op::Take(batch)) => return Err(batch),
            Err(Op::Mark(_)) => unreachable!(),
        }
        self.pending += 1;
        self.fresh = fresh;
        Ok(())
    }

    /// The number of published and pending batches together, or `None` if it exceeds `u64::MAX`.
    fn total(&self) -> Option<u64>
        ensures { MatchOption result (u64.MAX < length (writer_published self.now) + length (writer_pending self.now))
            (λ total. total ≡ length (writer_published self.now) + length (writer_pending self.now)) }
    {
        let published = self.writer.published().front.batches;
        published.checked_add(self.pending as u64)
    }

    /// Publishes all that is pending at once. On an error nothing is published, and all of it is still pending.
    pub(crate) fn publish<R: Wait>(self, rt: &R) -> (WriteEnd, Result<Receipt, LiveError>)
        ensures ok { OnOk result.1 ((writer_published result.0 ≡ writer_published self ++ writer_pending self)
            × (writer_pending result.0 ≡ [])) }
        ensures at_once { OnOk result.1 (IsShownCall (writer_groups self) (writer_calls self) (writer_fresh self)
            (writer_groups result.0) (writer_calls result.0) (writer_fresh result.0)) }
        ensures receipt { IfOk result.1 (λ r. (publishes_told r ≡ writer_groups result.0)
            × (r.front.seen.book ≡ writer_pair self)) }
        ensures err { OnErr result.1 ((shown_value result.0 ≡ shown_value self)
            × (writer_pending result.0 ≡ writer_pending self)) }
        ensures refused { OnErr result.1 (IsRefusedCall (writer_groups self) (writer_calls self) (writer_fresh self)
            (writer_groups result.0) (writer_calls result.0) (writer_fresh result.0)) }
        ensures spent { IsErrOf result.1 LiveError.BatchesSpent
            ↔ (u64.MAX < length (writer_published self) + length (writer_pending self)) }
        ensures book { writer_pair result.0 ≡ writer_pair self }
    {
        let Some(total) = self.total() else {
            return (self, Err(LiveError::BatchesSpent));
        };
        let mut end = self;
        if !end.call(total) {
            return (end, Err(LiveError::NoPlace));
        }
        end.exchange(rt)
    }

    /// Appends what is fresh to the groups of all calls, and returns whether it could. `total` is the number of batches in all.
    fn call(&mut self, total: u64) -> bool
        requires total { total ≡ length (writer_published self.old) + length (writer_pending self.old) }
        ensures calls { MatchBool result
            ((writer_calls self.new ≡ writer_calls self.old ++ writer_fresh self.old ∷ []) × (writer_fresh self.new ≡ []))
            ((writer_calls self.new ≡ writer_calls self.old) × (writer_fresh self.new ≡ writer_fresh self.old)) }
        ensures writer { self.new.writer ≡ self.old.writer }
        ensures book { writer_pair self.new ≡ writer_pair self.old }
    {
        let group = Snapshot::of(&self.fresh);
        match self.last.followed_by(&self.head, &group, total) {
            Some(last) => {
                self.last = last;
                self.fresh = History::empty();
                true
            }
            None => false,
        }
    }

    /// Marks the history, when nothing is fresh, and exchanges the two copies. If an allocation fails, nothing is published.
    fn exchange<R: Wait>(self, rt: &R) -> (WriteEnd, Result<Receipt, LiveError>)
        requires none_fresh { self.fresh ≡ [] }
        ensures ok { OnOk result.1 ((writer_groups result.0 ≡ writer_calls self) × (writer_pending result.0 ≡ [])) }
        ensures receipt { IfOk result.1 (λ r. (publishes_told r ≡ writer_calls self) × (r.front.seen.book ≡ writer_pair self)) }
        ensures err { OnErr result.1 ((shown_value result.0 ≡ shown_value self)
            × (writer_pending result.0 ≡ writer_pending self)) }
        ensures cause { IfErr result.1 (λ e. e ≡ LiveError.NoMemory) }
        ensures calls { (writer_calls result.0 ≡ writer_calls self) × (writer_fresh result.0 ≡ []) }
        ensures book { writer_pair result.0 ≡ writer_pair self }
    {
        let WriteEnd {
            mut writer,
            head,
            last,
            fresh,
            pending,
        } = self;
        match writer.append(Op::Mark(last.again())) {
            Ok(()) => {}
            Err(_) => {
                let end = WriteEnd {
                    writer,
                    head,
                    last,
                    fresh,
                    pending,
                };
                return (end, Err(LiveError::NoMemory));
            }
        }
        let (writer, done) = writer.publish_as::<Sees, R>(rt);
        match done {
            Ok(()) => {
                let receipt = Receipt {
                    front: last.again(),
                };
                let end = WriteEnd {
                    writer,
                    head,
                    last,
                    fresh,
                    pending: 0,
                };
                (end, Ok(receipt))
            }
            Err(_) => {
                let end = WriteEnd {
                    writer,
                    head,
                    last,
                    fresh,
                    pending,
                };
                (end, Err(LiveError::NoMemory))
            }
        }
    }

    /// Takes the pair apart, and returns the published value. What is still pending is dropped.
    pub(crate) fn close<R: Wait>(self, rt: &R) -> Box<Published, Global>
        ensures { result.value ≡ shown_value self }
    {
        let WriteEnd {
            writer,
            head: _,
            last: _,
            fresh: _,
            pending: _,
        } = self;
        writer.take(rt)
    }
}
