//! An open read.
ghost use Rattle.std.specs.Prelude.{◌≡◌, ◌≤◌, [], false, length, IfOk, IfErr, IsErrOf, IsOk};
ghost use Rattle.left_right.specs.Sides.{view};
ghost use Rattle.itip_state.specs.Kept.{AreKept};
ghost use Rattle.itip_desk.specs.HeardSteps.{heard};
ghost use Rattle.itip_desk.specs.Desk.{IsDeskOf};
ghost use Rattle.itip_view.specs.ListText.{IsListText};
ghost use Rattle.itip_view.specs.Rows.{AreRows, AreTooMany, row_limit};
ghost use Rattle.itip_view.specs.Showing.{Shows, AreRowsWhere, AreTooManyWhere, IsListTextFor};
ghost use Rattle.itip_running.specs.Deltas.{IsDeltaAfter};
ghost use Rattle.itip_running.specs.Parts.{HasRowsOf, HasRowsFor, AreKeptOf};
ghost use Rattle.itip_running.specs.History.{batches_of};
ghost use Rattle.itip_running.specs.Pair.{name_of};
ghost use base.Stored.{Coded-set};
ghost use Rattle.std.specs.Coded.{coded_list};
ghost use Rattle.itip_items.specs.contracts.item.Item as item;

use crate::error::PassError;
use crate::front::Front;
use crate::monotonic_reads::ReadEnd;
use crate::outside::{rows_for, rows_in, state_of, text_for, text_in};
use crate::pair_protocol::PublishedReading;
use itip_desk::{Batch, Desk};
use itip_state::{SharedItem, State};
use itip_todo::Uid;
use itip_view::{Row, Window};
use std::alloc::Global;

/// An open read of what is published. It isn't `Drop`: leave it with `close`.
pub(crate) struct Look {
    pub(crate) alloc: Global,
    pub(crate) reading: PublishedReading,
    pub(crate) front: Front,
    /// Whether something is published that the reader has neither seen nor been told of.
    pub(crate) is_news: bool,
    ghost tied: { view reading.place ≡ name_of front.seen.book },
    ghost whole: { reading.part.value.history ≡ batches_of front.seen.log } by { Coded-set (coded_list (coded_list item.the_row.coded)) _ _ },
}

impl Look {
    ghost use Rattle.itip_running.specs.ContractViews.{reader_seen};

    /// The published desk.
    fn desk(&self) -> &Desk
        ensures { IsDeskOf (batches_of self.now.front.seen.log) 0 result.now }
    {
        &self.reading.get().desk
    }

    /// Leaves the read, with all of it seen.
    fn close(self) -> ReadEnd
        ensures { result.front.seen ≡ self.front.seen }
    {
        let Look {
            alloc,
            reading,
            front,
            is_news: _,
        } = self;
        let reader = reading.leave();
        ReadEnd {
            alloc,
            reader,
            front,
        }
    }

    /// Whether a list is made after the read, of shared items. It is if something is published that the pass has neither seen nor been told
    /// of, since the keeper is active then; but not if the desk keeps nothing, since there is nothing to share.
    fn is_shared(&self) -> bool
        ensures { heard (batches_of self.now.front.seen.log) ≡ [] → result ≡ false }
    {
        self.is_news && self.desk().state().uid_count() > 0
    }

    /// The text of the task list in a window. If the items are shared, only what the list is made of is taken during the read, so that the
    /// keeper waits for no row. Otherwise the list is made here, and nothing is copied.
    pub(crate) fn list(self, window: Window) -> (ReadEnd, Result<Vec<u8>, PassError>)
        ensures text { IfOk result.1 (λ text. IsListText (heard (reader_seen result.0)) window text.items) }
        ensures many { IsErrOf result.1 PassError.TooManyRows → AreTooMany (heard (reader_seen result.0)) window }
        ensures memory { IsErrOf result.1 PassError.NoMemory → ⊥ }
        ensures entry { IsErrOf result.1 PassError.NoEntry → ⊥ }
        ensures nothing { heard (reader_seen result.0) ≡ [] → IsOk result.1 }
        ensures end { result.0.front.seen ≡ self.front.seen }
    {
        if !self.is_shared() {
            return self.list_here(window);
        }
        let (end, part) = self.part_in(window);
        match part {
            Ok(part) => {
                let text = text_in(end.alloc, &part, window);
                (end, text)
            }
            Err(error) => (end, Err(error)),
        }
    }

    fn list_here(self, window: Window) -> (ReadEnd, Result<Vec<u8>, PassError>)
        ensures text { IfOk result.1 (λ text. IsListText (heard (reader_seen result.0)) window text.items) }
        ensures many { IsErrOf result.1 PassError.TooManyRows → AreTooMany (heard (reader_seen result.0)) window }
        ensures memory { IsErrOf result.1 PassError.NoMemory → ⊥ }
        ensures entry { IsErrOf result.1 PassError.NoEntry → ⊥ }
        ensures nothing { heard (reader_seen result.0) ≡ [] → IsOk result.1 }
        ensures end { result.0.front.seen ≡ self.front.seen }
    {
        let list = self.desk().list(window);
        let end = self.close();
        match list {
            Ok(text) => (end, Ok(text)),
            Err(fault) => (end, Err(fault.into())),
        }
    }

    /// The text of the rows in a window that show the attendee with this address, made like that of the task list.
    pub(crate) fn list_for(
        self,
        window: Window,
        address: &str,
    ) -> (ReadEnd, Result<Vec<u8>, PassError>)
        ensures text { IfOk result.1 (λ text. IsListTextFor address.now (heard (reader_seen result.0)) window text.items) }
        ensures many { IsErrOf result.1 PassError.TooManyRows
            → AreTooManyWhere (Shows address.now) (heard (reader_seen result.0)) window }
        ensures memory { IsErrOf result.1 PassError.NoMemory → ⊥ }
        ensures entry { IsErrOf result.1 PassError.NoEntry → ⊥ }
        ensures nothing { heard (reader_seen result.0) ≡ [] → IsOk result.1 }
        ensures end { result.0.front.seen ≡ self.front.seen }
    {
        if !self.is_shared() {
            return self.list_for_here(window, address);
        }
        let (end, part) = self.part_naming(address);
        match part {
            Ok(part) => {
                let text = text_for(end.alloc, &part, window, address);
                (end, text)
            }
            Err(error) => (end, Err(error)),
        }
    }

    fn list_for_here(self, window: Window, address: &str) -> (ReadEnd, Result<Vec<u8>, PassError>)
        ensures text { IfOk result.1 (λ text. IsListTextFor address.now (heard (reader_seen result.0)) window text.items) }
        ensures many { IsErrOf result.1 PassError.TooManyRows
            → AreTooManyWhere (Shows address.now) (heard (reader_seen result.0)) window }
        ensures memory { IsErrOf result.1 PassError.NoMemory → ⊥ }
        ensures entry { IsErrOf result.1 PassError.NoEntry → ⊥ }
        ensures nothing { heard (reader_seen result.0) ≡ [] → IsOk result.1 }
        ensures end { result.0.front.seen ≡ self.front.seen }
    {
        let list = self.desk().list_for(window, address);
        let end = self.close();
        match list {
            Ok(text) => (end, Ok(text)),
            Err(fault) => (end, Err(fault.into())),
        }
    }

    /// The rows of a window, made once the read is over.
    pub(crate) fn rows(self, window: Window) -> (ReadEnd, Result<Vec<Row>, PassError>)
        ensures rows { IfOk result.1 (λ rows. AreRows (heard (reader_seen result.0)) window rows.items) }
        ensures few { IfOk result.1 (λ rows. length rows.items ≤ row_limit) }
        ensures many { IsErrOf result.1 PassError.TooManyRows → AreTooMany (heard (reader_seen result.0)) window }
        ensures memory { IsErrOf result.1 PassError.NoMemory → ⊥ }
        ensures entry { IsErrOf result.1 PassError.NoEntry → ⊥ }
        ensures end { result.0.front.seen ≡ self.front.seen }
    {
        let (end, part) = self.part_in(window);
        match part {
            Ok(part) => {
                let rows = rows_in(end.alloc, &part, window);
                (end, rows)
            }
            Err(error) => (end, Err(error)),
        }
    }

    /// The rows of a window that show the attendee with this address, made once the read is over.
    pub(crate) fn rows_for(
        self,
        window: Window,
        address: &str,
    ) -> (ReadEnd, Result<Vec<Row>, PassError>)
        ensures rows { IfOk result.1 (λ rows. AreRowsWhere (Shows address.now) (heard (reader_seen result.0)) window rows.items) }
        ensures few { IfOk result.1 (λ rows. length rows.items ≤ row_limit) }
        ensures many { IsErrOf result.1 PassError.TooManyRows
            → AreTooManyWhere (Shows address.now) (heard (reader_seen result.0)) window }
        ensures memory { IsErrOf result.1 PassError.NoMemory → ⊥ }
        ensures entry { IsErrOf result.1 PassError.NoEntry → ⊥ }
        ensures end { result.0.front.seen ≡ self.front.seen }
    {
        let (end, part) = self.part_naming(address);
        match part {
            Ok(part) => {
                let rows = rows_for(end.alloc, &part, window, address);
                (end, rows)
            }
            Err(error) => (end, Err(error)),
        }
    }

    /// What is kept of the items that the rows of a window are made of. They are shared during the read, and put in order after it.
    fn part_in(self, window: Window) -> (ReadEnd, Result<State, PassError>)
        ensures rows { IfOk result.1 (λ part. HasRowsOf part (heard (reader_seen result.0)) window) }
        ensures cause { IfErr result.1 (λ e. e ≡ PassError.NoListMemory) }
        ensures end { result.0.front.seen ≡ self.front.seen }
    {
        let items = self.desk().items_in(window);
        let end = self.close();
        match items {
            Ok(items) => {
                let part = state_of(end.alloc, &items);
                (end, part)
            }
            Err(_) => (end, Err(PassError::NoListMemory)),
        }
    }

    /// What is kept of the items of which the rows that show the attendee with this address are made, taken like those of a window.
    fn part_naming(self, address: &str) -> (ReadEnd, Result<State, PassError>)
        ensures rows { IfOk result.1 (λ part. HasRowsFor address.now part (heard (reader_seen result.0))) }
        ensures cause { IfErr result.1 (λ e. e ≡ PassError.NoListMemory) }
        ensures end { result.0.front.seen ≡ self.front.seen }
    {
        let items = self.desk().items_naming(address);
        let end = self.close();
        match items {
            Ok(items) => {
                let part = state_of(end.alloc, &items);
                (end, part)
            }
            Err(_) => (end, Err(PassError::NoListMemory)),
        }
    }

    /// All that the desk keeps, each item shared.
    pub(crate) fn kept(self) -> (ReadEnd, Result<State, PassError>)
        ensures kept { IfOk result.1 (λ kept. AreKept kept (heard (reader_seen result.0))) }
        ensures cause { IfErr result.1 (λ e. e ≡ PassError.NoMemory) }
        ensures end { result.0.front.seen ≡ self.front.seen }
    {
        let mut kept = State::empty(self.alloc);
        let merged = kept.merge(self.desk().state());
        let end = self.close();
        match merged {
            Ok(()) => (end, Ok(kept)),
            Err(_) => (end, Err(PassError::NoMemory)),
        }
    }

    /// What the desk keeps of a UID, each item shared, in no particular order.
    pub(crate) fn items_of(self, uid: &Uid) -> (ReadEnd, Result<Vec<SharedItem>, PassError>)
        ensures items { IfOk result.1 (λ items. AreKeptOf uid.now items.items (heard (reader_seen result.0))) }
        ensures cause { IfErr result.1 (λ e. e ≡ PassError.NoMemory) }
        ensures end { result.0.front.seen ≡ self.front.seen }
    {
        let items = self.desk().state().shared_of(&[uid]);
        let end = self.close();
        match items {
            Ok(items) => (end, Ok(items)),
            Err(_) => (end, Err(PassError::NoMemory)),
        }
    }

    /// The kept items of the UIDs that moved after this tick.
    pub(crate) fn delta_since(self, tick: u64) -> (ReadEnd, Result<Batch, PassError>)
        ensures delta { IfOk result.1 (λ batch. IsDeltaAfter (reader_seen result.0) tick batch) }
        ensures cause { IfErr result.1 (λ e. e ≡ PassError.NoMemory) }
        ensures end { result.0.front.seen ≡ self.front.seen }
    {
        let delta = self.desk().delta_since(tick);
        let end = self.close();
        match delta {
            Ok(delta) => (end, Ok(delta)),
            Err(_) => (end, Err(PassError::NoMemory)),
        }
    }
}
