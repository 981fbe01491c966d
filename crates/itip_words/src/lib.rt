//! The words that the program is called with: what they ask for, and the help that each shows.
#![tactic(auto)]

mod asked;
mod asked_values;
mod commands;
mod days;
mod filter;
mod help;
mod no_call;
mod options;
mod streamed;
mod told;
mod values;
mod words;
mod wrong;

pub use asked::Asked;
pub use days::now;
pub use filter::{Filter, Format, Intake, Listing, MAX_THREADS, Reported, Written};
pub use no_call::NoCall;
pub use streamed::{Load, Streamed};
pub use told::most_line;
pub use words::{Call, Scripted, read_words};
