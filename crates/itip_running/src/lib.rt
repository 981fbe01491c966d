//! Running desks: one keeper merges batches into a desk while passes read it, each on its own thread, without locks.
//!
//! A keeper takes batches and publishes all that are pending at once. A pass lists the desk as it was published, and never goes back. A
//! receipt tells a pass what was published when it was given; it may be copied, and sent through a channel. `meet` ends it all, once the
//! threads have returned. There are two copies of the desk: passes read one while the keeper merges into the other, and publishing
//! exchanges them (`left_right`). What each publish was to show, in order, is a history whose list exists only in the proofs (`logbook`);
//! what a pass has seen is a beginning of it.
#![tactic(auto)]

mod error;
mod front;
mod history;
mod history_book;
mod keeper;
mod meeting;
mod monotonic_reads;
mod named_receipt;
mod open_read;
mod outside;
mod pair_protocol;
mod pass;
mod published;
mod receipt;
mod scope;
mod start;
mod write_end;

pub use error::{LiveError, NotSubmitted, PassError};
pub use keeper::Keeper;
pub use meeting::{Met, meet};
pub use named_receipt::{NamedReceipt, Naming};
pub use pass::Pass;
pub use receipt::Receipt;
pub use scope::{OpenDesk, with_desk};
pub use start::start_desk;
