//! Receipts of what was published.
ghost use Rattle.std.specs.Prelude.{◌≡◌, length};

use crate::front::Front;

/// What was published when a keeper gave it, or what a pass had seen, for passes to learn. A pass that has learnt it lists no less.
///
/// It holds two numbers, and may be copied. What it tells stays true, wherever it is stored.
#[derive(Drop)]
pub struct Receipt {
    pub(crate) front: Front,
}

impl Receipt {
    ghost use Rattle.itip_running.specs.ContractViews.{publishes_told, told, receipt_pair};

    /// Returns a copy, which tells the same. It doesn't allocate.
    pub fn again(&self) -> Receipt
        ensures told { publishes_told result ≡ publishes_told self.now }
        ensures pair { receipt_pair result ≡ receipt_pair self.now }
    {
        Receipt {
            front: self.front.again(),
        }
    }

    /// The number of batches that it tells of.
    pub fn told(&self) -> u64
        ensures { result ≡ length (told self.now) }
    {
        self.front.batches
    }
}
