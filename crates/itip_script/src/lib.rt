//! Scripts, which are read whole and cut into commands or jobs; and streams, which are read a command at a time.
//!
//! A script is a run of physical lines. A line that begins with `!` is a command; the lines after a `!take`, up to the next command, are
//! the message that it takes, byte for byte; any other line that isn't empty is out of place. The format is our own.
#![tactic(auto)]

mod body;
mod command;
mod commands;
mod input;
mod job;
mod laws;
mod line;
mod stream_limits;
mod stream_line;
mod word;

pub use body::{Body, read_body};
pub use command::{Command, read_report_name};
pub use commands::Commands;
pub use input::{MAX_OCTETS, read_script};
pub use itip_streams::StreamFault as ScriptFault;
pub use job::{JobCommand, JobCommands};
pub use laws::{one_cutting, one_spelling};
pub use stream_limits::{DELTA_OCTETS, LINE_OCTETS, MESSAGE_OCTETS};
pub use stream_line::StreamLine;
pub use word::read_number;
