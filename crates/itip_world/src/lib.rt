//! Worlds of desks: messages and packets reach desks late, twice and in any order, and each desk keeps what the rules keep of all that it
//! has heard. A script runs over one world, command by command, and a stream of commands runs over desks that may have been read from
//! files.
#![tactic(auto)]

mod answer;
mod asked;
mod event;
mod hearing;
mod laws;
mod looks;
mod packet;
mod run;
mod script;
mod served;
mod shelf;
mod stop;
mod stream;
mod texts;
mod watch;
mod world;

pub use event::{Event, Outcome};
pub use laws::{desks_saved_whole, one_output};
pub use packet::Packet;
pub use run::{Ran, run_world};
pub use script::{run_script, run_script_watched};
pub use shelf::Shelf;
pub use std::alloc::AllocError as NoMemory;
pub use stop::{Cause, Stopped};
pub use stream::run_stream;
pub use watch::{Refused, Watch};
pub use world::World;
