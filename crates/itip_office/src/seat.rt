//! A worker's pass of a desk.
ghost use Rattle.std.specs.Prelude.{◌≡◌, ◌⊎◌, IfOk, IfErr, IsErrOf};
ghost use Rattle.itip_view.specs.ListText.{IsListText};
ghost use Rattle.itip_view.specs.Rows.{AreTooMany};
ghost use Rattle.itip_desk.specs.HeardSteps.{heard};
ghost use Rattle.itip_running.specs.Deltas.{IsDeltaAfter};
ghost use Rattle.itip_running.specs.ContractViews.{seen, pass_pair};

use crate::pairs::Pairs;
use crate::source::Source;
use itip_desk::Batch;
use itip_running::{Pass, PassError};
use itip_view::Window;
use std::marker::{Model, PhantomData};

/// A pass of a desk, whose type says which pair it belongs to. Contracts see the number of the desk and the batches that the pass has seen.
#[derive(Drop)]
pub struct Seat<N: Pairs> {
    desk: u64,
    pass: Pass,
    of: PhantomData<N>,
}

impl<N: Pairs> Model for Seat<N> {
    ghost use Rattle.std.specs.Prelude.{◌≡◌, ℕ, List};
    ghost use Rattle.std.specs.Coded.{coded×, coded_ℕ, coded_list};
    ghost use Rattle.itip_items.specs.declared.item.Item.{Item};
    ghost use Rattle.itip_items.specs.contracts.item.Item as item;
    ghost use Rattle.itip_running.specs.ContractViews.{seen, pass_pair};

    ghost Value = { ℕ × List (List Item) };

    ghost coded = { coded× coded_ℕ (coded_list (coded_list item.the_row.coded)) };

    ghost view = { λ s. (s.desk, seen s.pass) };

    ghost invariant = { λ s. pass_pair s.pass ≡ N.pair s.desk };
}

impl<N: Pairs> Seat<N> {
    /// A seat with this pass, which is one of the desk with this number.
    pub fn new(desk: u64, pass: Pass) -> Seat<N>
        requires pair { pass_pair pass ≡ N.pair desk }
        ensures { result ≡ (desk, seen pass) }
    {
        Seat {
            desk,
            pass,
            of: PhantomData,
        }
    }

    /// The text of the list of its desk in a window, and what it is a list of.
    pub(crate) fn list(&mut self, window: Window) -> (Result<Vec<u8>, PassError>, Source<N>)
        ensures text { IfOk result.0 (λ text. IsListText (heard result.1.1) window text.items) }
        ensures many { IsErrOf result.0 PassError.TooManyRows → AreTooMany (heard result.1.1) window }
    {
        let text = self.pass.list(window);
        let source = Source::new(self.desk, self.pass.receipt());
        (text, source)
    }

    /// All that its desk keeps, and what it was made of.
    pub(crate) fn all(&mut self) -> (Result<Batch, PassError>, Source<N>)
        ensures all { IfOk result.0 (λ batch. IsDeltaAfter result.1.1 0 batch) }
        ensures causes { IfErr result.0 (λ e. (e ≡ PassError.NoMemory) ⊎ (e ≡ PassError.NoEntry)) }
    {
        let all = self.pass.delta_since(0);
        let source = Source::new(self.desk, self.pass.receipt());
        (all, source)
    }
}
