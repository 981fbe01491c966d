//! A receipt that is sent through a channel.
ghost use Rattle.std.specs.Prelude.{◌≡◌};
ghost use Rattle.itip_running.specs.ContractViews.{publishes_told, receipt_pair};

use crate::receipt::Receipt;
use std::marker::{Brand, Model, PhantomData};

/// Names a pair. A function that is generic over it is called with [`Brand`], and the call picks the pair, such as that of its keeper.
pub trait Naming {
    ghost use Rattle.std.specs.Prelude.{Option};
    ghost use Rattle.logbook.specs.Pages.{Book};

    ghost pair: { Option Book };
}

impl Naming for Brand {
    ghost use Rattle.std.specs.Prelude.{None};

    ghost pair = { None };
}

/// A receipt whose type says which pair it is of. Nothing is known of a message but its type, so whoever receives this from a channel
/// knows that passes of the pair may learn it. Contracts see it as what it tells: the groups of batches that were published.
#[derive(Drop)]
pub struct NamedReceipt<N: Naming> {
    receipt: Receipt,
    of: PhantomData<N>,
}

impl<N: Naming> Model for NamedReceipt<N> {
    ghost use Rattle.std.specs.Prelude.{◌≡◌, List, Some};
    ghost use Rattle.std.specs.Coded.{coded_list};
    ghost use Rattle.itip_items.specs.declared.item.Item.{Item};
    ghost use Rattle.itip_items.specs.contracts.item.Item as item;

    ghost Value = { List (List (List Item)) };

    ghost coded = { coded_list (coded_list (coded_list item.the_row.coded)) };

    ghost view = { λ r. r.receipt.front.seen.log };

    ghost invariant = { λ r. Some r.receipt.front.seen.book ≡ N.pair };
}

impl<N: Naming> NamedReceipt<N> {
    /// Wraps a receipt of the pair that the type names.
    pub fn new(receipt: Receipt) -> NamedReceipt<N>
        requires pair { receipt_pair receipt ≡ N.pair }
        ensures told { result ≡ publishes_told receipt }
    {
        NamedReceipt {
            receipt,
            of: PhantomData,
        }
    }

    /// Returns a copy, which tells the same. It doesn't allocate.
    pub fn again(&self) -> NamedReceipt<N>
        ensures told { result ≡ self.now }
    {
        NamedReceipt {
            receipt: self.receipt.again(),
            of: PhantomData,
        }
    }

    /// Returns the receipt itself.
    pub fn into_receipt(self) -> Receipt
        ensures told { publishes_told result ≡ self }
        ensures pair { receipt_pair result ≡ N.pair }
    {
        let NamedReceipt { receipt, of: _ } = self;
        receipt
    }
}
