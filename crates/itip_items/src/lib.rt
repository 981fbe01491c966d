//! Items (RFC 5546 3.4): what a message's to-dos say, each under its key, with its place in the order of revisions and
//! its canonical octets.
#![tactic(auto)]

mod attendee_item;
mod canonical;
mod error;
mod item;
mod key;
mod kind;
mod laws;
mod make;
mod method_needs;
mod octet_order;
mod octets;
mod revision_order;
mod sequences;

pub use canonical::write_item;
pub use error::{FormError, MethodCause};
pub use item::Item;
pub use key::Key;
pub use kind::{BadMethod, Kind, Method, method_named};
pub use laws::{equal_octets, order_of_revisions};
pub use make::make_items;
pub use method_needs::method_cause;
pub use octets::Octets;
pub use std::alloc::AllocError as NoMemory;
