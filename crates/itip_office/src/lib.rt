//! An office: the jobs of a script, run on threads over a number of desks.
//!
//! Workers take jobs from one channel: they read texts, carry deltas from desk to desk and look at lists. What is to be merged they
//! send to a keeper of the desk. A keeper has a desk that takes only texts and, if some job looks or carries, also a running desk, where
//! it merges everything that comes and publishes it for readers. Once all jobs are done the desks of texts exchange everything.
//!
//! If an office answers, the same texts are taken whatever the schedule, and all desks end with what is kept of one set: the items of
//! these texts and no others, since what carries brought is in no desk of texts. So the desks keep what those of a single thread keep.
//! What a carry brings and what a look shows depends on the schedule: it is made of a prefix, perhaps empty, of the batches of a desk.
#![tactic(auto)]

mod answers;
mod desk_loop;
mod error;
mod exchange;
mod gate;
mod gather;
mod job;
mod job_loop;
mod laws;
mod merge;
mod office;
mod outcome;
mod outlet;
mod owned_keeper;
mod pairs;
mod replies;
mod script;
mod script_jobs;
mod seat;
mod source;
mod start;
mod team;
mod to_keepers;
mod watch;

pub use desk_loop::keeper_loop;
pub use error::{OfficeError, ScriptError};
pub use gate::{Gate, OpenGate};
pub use job::{Job, Work};
pub use job_loop::worker_loop;
pub use laws::one_end;
pub use merge::Merge;
pub use office::{Office, run_office};
pub use outcome::Outcome;
pub use outlet::Outlet;
pub use pairs::Pairs;
pub use script::run_jobs;
pub use seat::Seat;
pub use source::Source;
pub use watch::Watch;
