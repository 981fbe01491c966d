//! A reader's end of the pair, by value: no read shows less than was seen before.
ghost use Rattle.std.specs.Prelude.{◌≡◌, ◌⊎◌, ◌≤◌, [], length, MatchResult, IfOk, IfErr, IsErrOf};
ghost use mathlib.Core.List.{IsPrefix};
ghost use Rattle.left_right.specs.Sides.{view};
ghost use Rattle.itip_state.specs.Kept.{AreKept};
ghost use Rattle.itip_desk.specs.HeardSteps.{heard};
ghost use Rattle.itip_view.specs.ListText.{IsListText};
ghost use Rattle.itip_view.specs.Rows.{AreRows, AreTooMany, row_limit};
ghost use Rattle.itip_view.specs.Showing.{Shows, AreRowsWhere, AreTooManyWhere, IsListTextFor};
ghost use Rattle.itip_running.specs.Deltas.{IsDeltaAfter};
ghost use Rattle.itip_running.specs.Parts.{AreKeptOf};
ghost use Rattle.itip_running.specs.Pair.{name_of};

use crate::error::PassError;
use crate::front::Front;
use crate::open_read::Look;
use crate::pair_protocol::{PublishedReader, Sees};
use crate::receipt::Receipt;
use itip_desk::Batch;
use itip_state::{SharedItem, State};
use itip_todo::Uid;
use itip_view::{Row, Window};
use std::alloc::Global;

/// A reader, and what it has seen.
#[derive(Drop)]
pub(crate) struct ReadEnd {
    pub(crate) alloc: Global,
    pub(crate) reader: PublishedReader,
    pub(crate) front: Front,
    ghost tied: { view reader.place ≡ name_of front.seen.book },
}

impl ReadEnd {
    ghost use Rattle.itip_running.specs.ContractViews.{reader_groups, reader_seen, reader_pair, publishes_told};

    /// Looks at what is published, which begins with all that was seen. If the pair lets nobody in or shows less, returns the end
    /// unchanged.
    fn look(self) -> Result<Look, ReadEnd>
        ensures seen { MatchResult result (λ look. IsPrefix (reader_groups self) look.front.seen.log)
            (λ end. end.front.seen ≡ self.front.seen) }
        ensures book { IfOk result (λ look. look.front.seen.book ≡ reader_pair self) }
    {
        let ReadEnd {
            alloc,
            reader,
            front,
        } = self;
        match reader.enter_as::<Sees>() {
            Ok(reading) => {
                let shown = reading.get().front.again();
                if !front.begins(&shown) {
                    let reader = reading.leave();
                    return Err(ReadEnd {
                        alloc,
                        reader,
                        front,
                    });
                }
                let is_news = front.count != shown.count;
                Ok(Look {
                    alloc,
                    reading,
                    front: shown,
                    is_news,
                })
            }
            Err(reader) => Err(ReadEnd {
                alloc,
                reader,
                front,
            }),
        }
    }

    /// The text of the task list in a window.
    pub(crate) fn list(self, window: Window) -> (ReadEnd, Result<Vec<u8>, PassError>)
        ensures text { IfOk result.1 (λ text. IsListText (heard (reader_seen result.0)) window text.items) }
        ensures many { IsErrOf result.1 PassError.TooManyRows → AreTooMany (heard (reader_seen result.0)) window }
        ensures causes { IsErrOf result.1 PassError.NoMemory → ⊥ }
        ensures nothing { heard (reader_seen result.0) ≡ [] → IfErr result.1 (λ e. e ≡ PassError.NoEntry) }
        ensures grows { IsPrefix (reader_groups self) (reader_groups result.0) }
        ensures no_entry { IsErrOf result.1 PassError.NoEntry → reader_groups result.0 ≡ reader_groups self }
        ensures book { reader_pair result.0 ≡ reader_pair self }
    {
        match self.look() {
            Ok(look) => look.list(window),
            Err(end) => (end, Err(PassError::NoEntry)),
        }
    }

    /// The text of the rows in a window that show the attendee with this address.
    pub(crate) fn list_for(
        self,
        window: Window,
        address: &str,
    ) -> (ReadEnd, Result<Vec<u8>, PassError>)
        ensures text { IfOk result.1 (λ text. IsListTextFor address.now (heard (reader_seen result.0)) window text.items) }
        ensures many { IsErrOf result.1 PassError.TooManyRows
            → AreTooManyWhere (Shows address.now) (heard (reader_seen result.0)) window }
        ensures causes { IsErrOf result.1 PassError.NoMemory → ⊥ }
        ensures nothing { heard (reader_seen result.0) ≡ [] → IfErr result.1 (λ e. e ≡ PassError.NoEntry) }
        ensures grows { IsPrefix (reader_groups self) (reader_groups result.0) }
        ensures no_entry { IsErrOf result.1 PassError.NoEntry → reader_groups result.0 ≡ reader_groups self }
        ensures book { reader_pair result.0 ≡ reader_pair self }
    {
        match self.look() {
            Ok(look) => look.list_for(window, address),
            Err(end) => (end, Err(PassError::NoEntry)),
        }
    }

    /// The rows of a window, made once the read is over.
    pub(crate) fn rows(self, window: Window) -> (ReadEnd, Result<Vec<Row>, PassError>)
        ensures rows { IfOk result.1 (λ rows. AreRows (heard (reader_seen result.0)) window rows.items) }
        ensures few { IfOk result.1 (λ rows. length rows.items ≤ row_limit) }
        ensures many { IsErrOf result.1 PassError.TooManyRows → AreTooMany (heard (reader_seen result.0)) window }
        ensures causes { IsErrOf result.1 PassError.NoMemory → ⊥ }
        ensures grows { IsPrefix (reader_groups self) (reader_groups result.0) }
        ensures no_entry { IsErrOf result.1 PassError.NoEntry → reader_groups result.0 ≡ reader_groups self }
        ensures book { reader_pair result.0 ≡ reader_pair self }
    {
        match self.look() {
            Ok(look) => look.rows(window),
            Err(end) => (end, Err(PassError::NoEntry)),
        }
    }

    /// The rows of a window that show the attendee with this address, made once the read is over.
    pub(crate) fn rows_for(
        self,
        window: Window,
        address: &str,
    ) -> (ReadEnd, Result<Vec<Row>, PassError>)
        ensures rows { IfOk result.1 (λ rows. AreRowsWhere (Shows address.now) (heard (reader_seen result.0)) window rows.items) }
        ensures few { IfOk result.1 (λ rows. length rows.items ≤ row_limit) }
        ensures many { IsErrOf result.1 PassError.TooManyRows
            → AreTooManyWhere (Shows address.now) (heard (reader_seen result.0)) window }
        ensures causes { IsErrOf result.1 PassError.NoMemory → ⊥ }
        ensures grows { IsPrefix (reader_groups self) (reader_groups result.0) }
        ensures no_entry { IsErrOf result.1 PassError.NoEntry → reader_groups result.0 ≡ reader_groups self }
        ensures book { reader_pair result.0 ≡ reader_pair self }
    {
        match self.look() {
            Ok(look) => look.rows_for(window, address),
            Err(end) => (end, Err(PassError::NoEntry)),
        }
    }

    /// All that is kept.
    pub(crate) fn kept(self) -> (ReadEnd, Result<State, PassError>)
        ensures kept { IfOk result.1 (λ kept. AreKept kept (heard (reader_seen result.0))) }
        ensures causes { IfErr result.1 (λ e. (e ≡ PassError.NoMemory) ⊎ (e ≡ PassError.NoEntry)) }
        ensures grows { IsPrefix (reader_groups self) (reader_groups result.0) }
        ensures no_entry { IsErrOf result.1 PassError.NoEntry → reader_groups result.0 ≡ reader_groups self }
        ensures book { reader_pair result.0 ≡ reader_pair self }
    {
        match self.look() {
            Ok(look) => look.kept(),
            Err(end) => (end, Err(PassError::NoEntry)),
        }
    }

    /// What is kept of a UID.
    pub(crate) fn items_of(self, uid: &Uid) -> (ReadEnd, Result<Vec<SharedItem>, PassError>)
        ensures items { IfOk result.1 (λ items. AreKeptOf uid.now items.items (heard (reader_seen result.0))) }
        ensures causes { IfErr result.1 (λ e. (e ≡ PassError.NoMemory) ⊎ (e ≡ PassError.NoEntry)) }
        ensures grows { IsPrefix (reader_groups self) (reader_groups result.0) }
        ensures no_entry { IsErrOf result.1 PassError.NoEntry → reader_groups result.0 ≡ reader_groups self }
        ensures book { reader_pair result.0 ≡ reader_pair self }
    {
        match self.look() {
            Ok(look) => look.items_of(uid),
            Err(end) => (end, Err(PassError::NoEntry)),
        }
    }

    /// The kept items of the UIDs that moved after this tick.
    pub(crate) fn delta_since(self, tick: u64) -> (ReadEnd, Result<Batch, PassError>)
        ensures delta { IfOk result.1 (λ batch. IsDeltaAfter (reader_seen result.0) tick batch) }
        ensures causes { IfErr result.1 (λ e. (e ≡ PassError.NoMemory) ⊎ (e ≡ PassError.NoEntry)) }
        ensures grows { IsPrefix (reader_groups self) (reader_groups result.0) }
        ensures no_entry { IsErrOf result.1 PassError.NoEntry → reader_groups result.0 ≡ reader_groups self }
        ensures book { reader_pair result.0 ≡ reader_pair self }
    {
        match self.look() {
            Ok(look) => look.delta_since(tick),
            Err(end) => (end, Err(PassError::NoEntry)),
        }
    }

    /// Learns what the receipt tells.
    pub(crate) fn learn(&mut self, receipt: &Receipt)
        requires book { receipt.now.front.seen.book ≡ reader_pair self.old }
        ensures longer { (reader_groups self.new ≡ reader_groups self.old) ⊎ (reader_groups self.new ≡ publishes_told receipt.now) }
        ensures own { IsPrefix (reader_groups self.old) (reader_groups self.new) }
        ensures told { IsPrefix (publishes_told receipt.now) (reader_groups self.new) }
        ensures book { reader_pair self.new ≡ reader_pair self.old }
    {
        if !receipt.front.begins(&self.front) {
            self.front = receipt.front.again();
        }
    }
}
