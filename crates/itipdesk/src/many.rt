//! Several desks.
//!
//! A [`World`] has desks, and plays one [`Event`] after another: a message comes to a desk, a desk posts a [`Packet`] of what changed
//! there, or a packet comes to a desk, perhaps late, twice or out of order. Each event has an [`EventOutcome`]. [`run_world`] plays them
//! all, over 1 to 16 desks.
//!
//! [`run_office`] has workers and keepers of desks do [`Job`]s on threads. The [`Office`] that it returns has one [`Outcome`] for each
//! job, and desks that all keep what is kept of one set.
pub use itip_office::{Gate, Job, Office, OfficeError, OpenGate, Outcome, Work, run_office};
pub use itip_world::{
    Cause, Event, Outcome as EventOutcome, Packet, Ran, Stopped, World, run_world,
};
