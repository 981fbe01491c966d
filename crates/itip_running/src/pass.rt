//! A pass, which reads beside the keeper.
ghost use Rattle.std.specs.Prelude.{◌≡◌, ◌⊎◌, ◌≤◌, [], length, Some, IsSome, IfOk, IfErr, IsTrue, IsErrOf};
ghost use mathlib.Core.List.{IsPrefix};

use crate::error::PassError;
use crate::front::Front;
use crate::monotonic_reads::ReadEnd;
use crate::receipt::Receipt;
use itip_desk::Batch;
use itip_state::{SharedItem, State};
use itip_todo::Uid;
use itip_view::{Row, Window};

/// The right to read a running desk, on any thread. It never waits. Contracts see the list of published groups of batches that it has
/// seen, which only grows: what it has seen is always everything up to the end of some call of `publish`, perhaps a refused one.
#[derive(Drop)]
pub struct Pass {
    pub(crate) end: Option<ReadEnd>,
    ghost there: { IsSome end },
}

impl Pass {
    ghost use Rattle.itip_state.specs.Kept.{AreKept};
    ghost use Rattle.itip_desk.specs.HeardSteps.{heard};
    ghost use Rattle.itip_view.specs.ListText.{IsListText};
    ghost use Rattle.itip_view.specs.Rows.{AreRows, AreTooMany, row_limit};
    ghost use Rattle.itip_view.specs.Showing.{Shows, AreRowsWhere, AreTooManyWhere, IsListTextFor};
    ghost use Rattle.itip_running.specs.Deltas.{IsDeltaAfter};
    ghost use Rattle.itip_running.specs.Parts.{AreKeptOf};
    ghost use Rattle.itip_running.specs.ContractViews.{publishes_seen, seen, pass_pair, publishes_told, told, receipt_pair};

    /// Returns the text of the task list in a window, of a list of published batches that begins with all that this pass had seen. The
    /// pass has then seen these batches.
    ///
    /// Fails with [`PassError::TooManyRows`] (31) if there are more than 100,000 rows, and with [`PassError::NoListMemory`] (32) if an
    /// allocation fails; the pass has seen the batches all the same. If these have no item, it fails with neither. Fails with
    /// [`PassError::NoEntry`] (45) if the pair lets nobody in or shows less than was seen; then the pass has seen nothing more.
    #[tactic(auto, using(crate::proofs::Groups::prefix_batches))]
    pub fn list(&mut self, window: Window) -> Result<Vec<u8>, PassError>
        ensures text { IfOk result (λ text. IsListText (heard (seen self.new)) window text.items) }
        ensures many { IsErrOf result PassError.TooManyRows → AreTooMany (heard (seen self.new)) window }
        ensures causes { IsErrOf result PassError.NoMemory → ⊥ }
        ensures nothing { heard (seen self.new) ≡ [] → IfErr result (λ e. e ≡ PassError.NoEntry) }
        ensures grows { IsPrefix (seen self.old) (seen self.new) }
        ensures whole { IsPrefix (publishes_seen self.old) (publishes_seen self.new) }
        ensures no_entry { IsErrOf result PassError.NoEntry → publishes_seen self.new ≡ publishes_seen self.old }
        ensures pair { pass_pair self.new ≡ pass_pair self.old }
    {
        let end = self.end.take().unwrap();
        let (end, text) = end.list(window);
        self.end = Some(end);
        text
    }

    /// Returns the text of the rows in a window that show the attendee with this address, of a list of published batches as in
    /// [`list`](Pass::list).
    ///
    /// Fails with [`PassError::TooManyRows`] (31) if more than 100,000 rows show the attendee, and with [`PassError::NoListMemory`] (32)
    /// if an allocation fails; the pass has seen the batches all the same. If these have no item, it fails with neither. Fails with
    /// [`PassError::NoEntry`] (45) if the pair lets nobody in or shows less than was seen; then the pass has seen nothing more.
    #[tactic(auto, using(crate::proofs::Groups::prefix_batches))]
    pub fn list_for(&mut self, window: Window, address: &str) -> Result<Vec<u8>, PassError>
        ensures text { IfOk result (λ text. IsListTextFor address.now (heard (seen self.new)) window text.items) }
        ensures many { IsErrOf result PassError.TooManyRows → AreTooManyWhere (Shows address.now) (heard (seen self.new)) window }
        ensures causes { IsErrOf result PassError.NoMemory → ⊥ }
        ensures nothing { heard (seen self.new) ≡ [] → IfErr result (λ e. e ≡ PassError.NoEntry) }
        ensures grows { IsPrefix (seen self.old) (seen self.new) }
        ensures whole { IsPrefix (publishes_seen self.old) (publishes_seen self.new) }
        ensures no_entry { IsErrOf result PassError.NoEntry → publishes_seen self.new ≡ publishes_seen self.old }
        ensures pair { pass_pair self.new ≡ pass_pair self.old }
    {
        let end = self.end.take().unwrap();
        let (end, text) = end.list_for(window, address);
        self.end = Some(end);
        text
    }

    /// Returns the rows of a window, at most 100,000, of a list of published batches as in [`list`](Pass::list).
    ///
    /// Fails with [`PassError::TooManyRows`] (31) if there are more rows, and with [`PassError::NoListMemory`] (32) if an allocation
    /// fails; the pass has seen the batches all the same. Fails with [`PassError::NoEntry`] (45) if the pair lets nobody in or shows less
    /// than was seen; then the pass has seen nothing more.
    #[tactic(auto, using(crate::proofs::Groups::prefix_batches))]
    pub fn rows(&mut self, window: Window) -> Result<Vec<Row>, PassError>
        ensures rows { IfOk result (λ rows. AreRows (heard (seen self.new)) window rows.items) }
        ensures few { IfOk result (λ rows. length rows.items ≤ row_limit) }
        ensures many { IsErrOf result PassError.TooManyRows → AreTooMany (heard (seen self.new)) window }
        ensures causes { IsErrOf result PassError.NoMemory → ⊥ }
        ensures grows { IsPrefix (seen self.old) (seen self.new) }
        ensures whole { IsPrefix (publishes_seen self.old) (publishes_seen self.new) }
        ensures no_entry { IsErrOf result PassError.NoEntry → publishes_seen self.new ≡ publishes_seen self.old }
        ensures pair { pass_pair self.new ≡ pass_pair self.old }
    {
        let end = self.end.take().unwrap();
        let (end, rows) = end.rows(window);
        self.end = Some(end);
        rows
    }

    /// Returns the rows of a window that show the attendee with this address, at most 100,000, of a list of published batches as in
    /// [`list`](Pass::list).
    ///
    /// Fails with [`PassError::TooManyRows`] (31) if more than 100,000 rows show the attendee, and with [`PassError::NoListMemory`] (32)
    /// if an allocation fails; the pass has seen the batches all the same. Fails with [`PassError::NoEntry`] (45) if the pair lets nobody
    /// in or shows less than was seen; then the pass has seen nothing more.
    #[tactic(auto, using(crate::proofs::Groups::prefix_batches))]
    pub fn rows_for(&mut self, window: Window, address: &str) -> Result<Vec<Row>, PassError>
        ensures rows { IfOk result (λ rows. AreRowsWhere (Shows address.now) (heard (seen self.new)) window rows.items) }
        ensures few { IfOk result (λ rows. length rows.items ≤ row_limit) }
        ensures many { IsErrOf result PassError.TooManyRows → AreTooManyWhere (Shows address.now) (heard (seen self.new)) window }
        ensures causes { IsErrOf result PassError.NoMemory → ⊥ }
        ensures grows { IsPrefix (seen self.old) (seen self.new) }
        ensures whole { IsPrefix (publishes_seen self.old) (publishes_seen self.new) }
        ensures no_entry { IsErrOf result PassError.NoEntry → publishes_seen self.new ≡ publishes_seen self.old }
        ensures pair { pass_pair self.new ≡ pass_pair self.old }
    {
        let end = self.end.take().unwrap();
        let (end, rows) = end.rows_for(window, address);
        self.end = Some(end);
        rows
    }

    /// Returns all that is kept of a list of published batches as in [`list`](Pass::list), each item shared with the desk: what reports
    /// and explanations are made of. Each kept item costs a reference count and its places in maps.
    ///
    /// Fails with [`PassError::NoMemory`] (40) if an allocation fails; the pass has seen the batches all the same. Fails with
    /// [`PassError::NoEntry`] (45) if the pair lets nobody in or shows less than was seen; then the pass has seen nothing more.
    #[tactic(auto, using(crate::proofs::Groups::prefix_batches))]
    pub fn kept(&mut self) -> Result<State, PassError>
        ensures kept { IfOk result (λ kept. AreKept kept (heard (seen self.new))) }
        ensures causes { IfErr result (λ e. (e ≡ PassError.NoMemory) ⊎ (e ≡ PassError.NoEntry)) }
        ensures grows { IsPrefix (seen self.old) (seen self.new) }
        ensures whole { IsPrefix (publishes_seen self.old) (publishes_seen self.new) }
        ensures no_entry { IsErrOf result PassError.NoEntry → publishes_seen self.new ≡ publishes_seen self.old }
        ensures pair { pass_pair self.new ≡ pass_pair self.old }
    {
        let end = self.end.take().unwrap();
        let (end, kept) = end.kept();
        self.end = Some(end);
        kept
    }

    /// Returns what is kept of a UID, each item shared with the desk, in no particular order, of a list of published batches as in
    /// [`list`](Pass::list). No other UID is looked at.
    ///
    /// Fails with [`PassError::NoMemory`] (40) if an allocation fails; the pass has seen the batches all the same. Fails with
    /// [`PassError::NoEntry`] (45) if the pair lets nobody in or shows less than was seen; then the pass has seen nothing more.
    #[tactic(auto, using(crate::proofs::Groups::prefix_batches))]
    pub fn items_of(&mut self, uid: &Uid) -> Result<Vec<SharedItem>, PassError>
        ensures items { IfOk result (λ items. AreKeptOf uid.now items.items (heard (seen self.new))) }
        ensures causes { IfErr result (λ e. (e ≡ PassError.NoMemory) ⊎ (e ≡ PassError.NoEntry)) }
        ensures grows { IsPrefix (seen self.old) (seen self.new) }
        ensures whole { IsPrefix (publishes_seen self.old) (publishes_seen self.new) }
        ensures no_entry { IsErrOf result PassError.NoEntry → publishes_seen self.new ≡ publishes_seen self.old }
        ensures pair { pass_pair self.new ≡ pass_pair self.old }
    {
        let end = self.end.take().unwrap();
        let (end, items) = end.items_of(uid);
        self.end = Some(end);
        items
    }

    /// Returns the kept items of the UIDs that moved after this tick of the desk, of a list of published batches as in
    /// [`list`](Pass::list). The desk began at tick 0.
    ///
    /// Fails with [`PassError::NoMemory`] (40) if an allocation fails; the pass has seen the batches all the same. Fails with
    /// [`PassError::NoEntry`] (45) if the pair lets nobody in or shows less than was seen; then the pass has seen nothing more.
    #[tactic(auto, using(crate::proofs::Groups::prefix_batches))]
    pub fn delta_since(&mut self, tick: u64) -> Result<Batch, PassError>
        ensures delta { IfOk result (λ batch. IsDeltaAfter (seen self.new) tick batch) }
        ensures causes { IfErr result (λ e. (e ≡ PassError.NoMemory) ⊎ (e ≡ PassError.NoEntry)) }
        ensures grows { IsPrefix (seen self.old) (seen self.new) }
        ensures whole { IsPrefix (publishes_seen self.old) (publishes_seen self.new) }
        ensures no_entry { IsErrOf result PassError.NoEntry → publishes_seen self.new ≡ publishes_seen self.old }
        ensures pair { pass_pair self.new ≡ pass_pair self.old }
    {
        let end = self.end.take().unwrap();
        let (end, delta) = end.delta_since(tick);
        self.end = Some(end);
        delta
    }

    /// Learns what the receipt tells: what is listed from now on begins with it. The receipt is one of the pass's own desk, and is left
    /// unchanged.
    #[tactic(auto, using(crate::proofs::Groups::prefix_batches))]
    pub fn learn(&mut self, receipt: &mut Receipt)
        requires pair { receipt_pair receipt.old ≡ pass_pair self.old }
        ensures receipt { receipt.new ≡ receipt.old }
        ensures longer { (publishes_seen self.new ≡ publishes_seen self.old) ⊎ (publishes_seen self.new ≡ publishes_told receipt.old) }
        ensures own { IsPrefix (publishes_seen self.old) (publishes_seen self.new) × IsPrefix (seen self.old) (seen self.new) }
        ensures told { IsPrefix (publishes_told receipt.old) (publishes_seen self.new) × IsPrefix (told receipt.old) (seen self.new) }
        ensures pair { pass_pair self.new ≡ pass_pair self.old }
    {
        if let Some(end) = &mut self.end {
            end.learn(receipt);
        }
    }

    /// The number of published batches that it has seen.
    pub fn seen(&self) -> u64
        ensures { result ≡ length (seen self.now) }
    {
        match &self.end {
            Some(end) => end.front.batches,
            None => 0,
        }
    }

    /// Returns a receipt of what it has seen.
    pub fn receipt(&self) -> Receipt
        ensures told { publishes_told result ≡ publishes_seen self.now }
        ensures pair { receipt_pair result ≡ pass_pair self.now }
    {
        match &self.end {
            Some(end) => Receipt {
                front: end.front.again(),
            },
            None => unreachable!(),
        }
    }

    /// Whether `front` begins with all that it has seen.
    pub(crate) fn is_within(&self, front: &Front) -> bool
        requires pair { pass_pair self.now ≡ Some front.now.seen.book }
        ensures { IsTrue result → IsPrefix (publishes_seen self.now) front.now.seen.log }
    {
        match &self.end {
            Some(end) => end.front.begins(front),
            None => false,
        }
    }
}
