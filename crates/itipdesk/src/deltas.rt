//! Deltas: what one desk has and another lacks, as bytes that may be sent in any way.
//!
//! `desk.delta_since(tick)` is a [`Batch`](crate::desks::Batch) of what is kept of the UIDs that moved after a tick: what a copy of the
//! desk as it was at this tick lacks, and with tick 0 all that the desk keeps. [`write_delta`] writes it as canonical messages, one
//! after another, and [`read_delta`] reads them. Deltas may come late, twice and in any order: the desk that takes them keeps what a
//! desk keeps that heard everything. `itipdesk compact` writes such messages, too.
pub use itip_desk::{read_delta, write_delta};
