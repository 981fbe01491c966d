//! A desk: it hears batches of items, keeps what the rules keep of them, and tells what has moved since a tick. A batch is written as
//! a delta, and read back from one. A desk is written as a file, and read back from it.
#![tactic(auto)]

mod batch;
mod delta_format;
mod desk;
mod entry;
mod error;
mod file_reading;
mod file_text;
mod file_writing;
mod found;
mod fronts;
mod index;
mod indexed;
mod laws;
mod listed;
mod listed_lines;
mod moved_since;
mod number;
mod refusal;
mod row_writing;

pub use batch::Batch;
pub use delta_format::{read_batch, read_delta, write_delta};
pub use desk::{Changed, Desk};
pub use error::{DeskError, FileError};
pub use file_reading::read_desk;
pub use file_writing::write_desk;
pub use laws::{
    delta_brings_up_to_date, delta_read_again, deltas_are_read_as_before, desk_read_again,
    desks_converge, heard_before_is_below, one_delta,
};
pub use listed::write_head;
pub use listed_lines::heads_count_lines;
pub use refusal::{FileRefusal, Refusal};
pub use row_writing::{write_listed, write_rows, write_some_rows};
pub use std::alloc::AllocError as NoMemory;
