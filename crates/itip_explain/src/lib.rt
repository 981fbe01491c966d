//! Why the rows of a to-do look as they do: for each item that messages told of it, whether it stands, counts or waits, or what it
//! gave way to (our own rules).
#![tactic(auto)]

mod asked;
mod fate;
mod fates;
mod latest;
mod laws;
mod line;
mod text;
mod told;

pub use fate::Fate;
pub use laws::{fates_and_rows, one_explanation};
pub use std::alloc::AllocError as NoMemory;
pub use text::explanation;
pub use told::{Place, ToldItem};
