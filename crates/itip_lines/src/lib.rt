//! Content lines (RFC 5545 3.1): bytes are parsed into numbered lines, or refused with the place of their first fault,
//! and a `Line` is written with folds.
//!
//! A `SeenLine` borrows from the bytes that it was read from where it can, and contracts see it as the `Line` that it is.
//! `Text`, `Bytes` and `ListOf` are strings and vectors that contracts see as plain lists. `Params`, `TextList` and `LineList`
//! hold one text each, which contracts see as the parameters, texts and lines in it.
#![tactic(auto)]

mod bytes;
mod error;
mod grammar;
mod laws;
mod line;
mod line_list;
mod line_octets;
mod list;
mod lookup;
mod params;
mod read;
mod seen_line;
mod text;
mod text_list;
mod unfold;
mod write;

pub use bytes::Bytes;
pub use error::{LineCause, LineError, LineRefusal};
pub use laws::{cutting_laws, reading_laws, writing_laws};
pub use line::{Line, NumberedLine, Param};
pub use line_list::LineList;
pub use list::ListOf;
pub use lookup::param_value;
pub use params::Params;
pub use read::read_lines;
pub use seen_line::SeenLine;
pub use text::Text;
pub use text_list::{TextList, Texts};
pub use unfold::cut_lf;
pub use write::{write_line, write_param, write_parts, write_text};

/// An allocation failed.
pub type NoMemory = std::alloc::AllocError;
