//! Reading many messages on threads. Reading a single one is in `itip_message`, and needs no threads.
#![tactic(auto)]

mod many;

pub use many::read_all;
