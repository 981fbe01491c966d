//! The kept items of what was heard.
//!
//! Of each key the best item is kept, unless it is dead (our own rule). A state is what is kept of a set of items; merging two states
//! gives their least upper bound.
#![tactic(auto)]

mod due;
mod hear;
mod held;
mod held_of_uid;
mod items_of_uid;
mod latest_revision;
mod laws;
mod organizers;
mod parts;
mod plain;
mod shared;
mod slot;
mod state;
mod told;
mod tracked;

pub use items_of_uid::ItemsOfUid;
pub use latest_revision::Revision;
pub use laws::{kept_of_kept, least_upper_bound, order_of_states, uid_by_uid};
pub use plain::kept;
pub use shared::{SharedItem, by_octets, uids};
pub use state::State;
pub use std::alloc::AllocError as NoMemory;
