//! What a pass of a desk had seen.
ghost use Rattle.std.specs.Prelude.{◌≡◌, ◌++◌, OnOk, IsTrue, option_to_list};
ghost use mathlib.Core.List.{IsPrefix};
ghost use Rattle.itip_running.specs.ContractViews.{published, keeper_pair, told, receipt_pair};

use crate::pairs::Pairs;
use itip_running::{Keeper, Receipt};
use std::alloc::AllocError;
use std::marker::{Model, PhantomData};

/// What a pass of a desk had seen when a job looked or carried. Contracts see the number of the desk and the batches.
#[derive(Drop)]
pub struct Source<N: Pairs> {
    desk: u64,
    receipt: Receipt,
    of: PhantomData<N>,
}

impl<N: Pairs> Model for Source<N> {
    ghost use Rattle.std.specs.Prelude.{◌≡◌, ℕ, List};
    ghost use Rattle.std.specs.Coded.{coded×, coded_ℕ, coded_list};
    ghost use Rattle.itip_items.specs.declared.item.Item.{Item};
    ghost use Rattle.itip_items.specs.contracts.item.Item as item;
    ghost use Rattle.itip_running.specs.ContractViews.{told, receipt_pair};

    ghost Value = { ℕ × List (List Item) };

    ghost coded = { coded× coded_ℕ (coded_list (coded_list item.the_row.coded)) };

    ghost view = { λ s. (s.desk, told s.receipt) };

    ghost invariant = { λ s. receipt_pair s.receipt ≡ N.pair s.desk };
}

impl<N: Pairs> Source<N> {
    /// What a receipt of the desk with this number tells.
    pub(crate) fn new(desk: u64, receipt: Receipt) -> Source<N>
        requires pair { receipt_pair receipt ≡ N.pair desk }
        ensures source { result ≡ (desk, told receipt) }
    {
        Source {
            desk,
            receipt,
            of: PhantomData,
        }
    }

    pub(crate) fn desk(&self) -> u64
        ensures { result ≡ self.now.0 }
    {
        self.desk
    }

    /// Whether the keeper of its desk has published all of it. In every run it has.
    pub(crate) fn is_published(&self, keeper: &Keeper) -> bool
        requires pair { keeper_pair keeper.now ≡ N.pair self.now.0 }
        ensures { IsTrue result → IsPrefix self.now.1 (published keeper.now) }
    {
        keeper.has_published(&self.receipt)
    }
}

/// Appends a source, if there is one.
pub(crate) fn push_some<N: Pairs>(
    all: &mut Vec<Source<N>>,
    one: Option<Source<N>>,
) -> Result<(), AllocError>
    ensures { OnOk result (all.new.items ≡ all.old.items ++ option_to_list one) }
{
    match one {
        Some(one) => {
            all.push(one)?;
            Ok(())
        }
        None => Ok(()),
    }
}
