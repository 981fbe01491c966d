//! Running desks: one thread writes while others read, without a lock.
//!
//! [`start_desk`] returns a [`Keeper`] and one to eight [`Pass`]es. The keeper submits batches and publishes all that are pending at
//! once; a pass lists the desk as it was published, waits for nobody and never goes back. A [`Receipt`] of the keeper tells a pass
//! what had been published when it was made. A keeper can't be dropped: once the threads have returned, [`meet`] ends it and returns
//! the desk that is left.
//!
//! [`with_desk`] starts a desk for the length of a call in which `?` may be used: the work is passed an [`OpenDesk`], and whatever it
//! returns, the pair is taken apart in the end. A receipt that goes through a channel names its pair in its type ([`NamedReceipt`],
//! [`Naming`]).
//!
//! A batch that `submit` doesn't take comes back in its error, [`NotSubmitted`], which may go through `?`.
pub use itip_running::{
    Keeper, LiveError, Met, NamedReceipt, Naming, NotSubmitted, OpenDesk, Pass, PassError, Receipt,
    meet, start_desk, with_desk,
};
