//! Messages (RFC 5546 3.4): bytes are cut into messages, and a message is read into items. The canonical bytes of an item are read as
//! that one item.
#![tactic(auto)]

mod begun;
mod builder;
mod cause_lines;
mod components;
mod cutting;
mod draft;
mod error;
mod frame;
mod head;
mod laws;
mod parting;
mod read;
mod sort;

pub use begun::{BegunMessage, stand_in};
pub use builder::TodoBuilder;
pub use cutting::{cut_message, next_message};
pub use draft::read_draft;
pub use error::{MessageCause, MessageRefusal, ReadError};
pub use frame::Placed;
pub use laws::{message_cutting, one_draft, one_reading, read_again, read_as_before};
pub use parting::part_messages;
pub use read::read_message;
pub use sort::Component;
pub use std::alloc::AllocError as NoMemory;
