//! Desks for to-dos under iTIP (RFC 5546, VTODO), for a program of your own. Everything that such a program calls is here, in groups;
//! it need not name the crates below.
//!
//! | Group | What it has |
//! |---|---|
//! | [`messages`] | a message is read as items; items that a program makes; their parts: moments, UIDs, to-dos |
//! | [`desks`] | a desk takes what messages say, and keeps what counts |
//! | [`lists`] | the task list of a window, as rows or as text, and reports |
//! | [`deltas`] | what a desk has that another lacks, as bytes |
//! | [`writing`] | the messages that an office sends |
//! | [`running`] | a desk that one thread writes to while others read it |
//! | [`many`] | several desks: worlds of packets, and offices on threads |
//!
//! Each error of these turns into an [`Error`] by `?`, which has a number; of [`Stopped`](many::Stopped) it is the cause that does. What
//! allocates is passed an allocator, such as `rt.alloc()`; if an allocation fails, it says so and no desk has changed.
//!
//! Clauses of your own may cite the definitions of the crates below: `specs/Lib.antt` re-exports those that the contracts of a desk, a
//! list, a delta and a running desk cite.
#![tactic(auto)]

pub mod deltas;
pub mod desks;
mod error;
pub mod lists;
pub mod many;
pub mod messages;
pub mod running;
pub mod writing;

pub use error::Error;
pub use itip_desk::Refusal;
pub use itip_writing::VERSION;
