//! Reading bytes from a stream and writing them to one, with each failure told apart; the files, folders and standard input that
//! words name; and text with its control characters shown.
#![tactic(auto)]

mod fault;
mod folders;
mod input;
mod once;
mod output;
mod replacement;
mod shown_source;
mod source;
mod source_name;
mod terminal_writer;
mod visible;

pub use fault::StreamFault;
pub use folders::source_names;
pub use input::{MAX_READS, pass_octets, read_line_within, read_octets, read_some, read_within};
pub use once::{ReadOnce, WriteOnce};
pub use output::{write_at_once, write_if_many, write_output};
pub use replacement::Replacement;
pub use shown_source::ShownSource;
pub use source::{Source, sources_of};
pub use source_name::{SourceName, unread_line};
pub use terminal_writer::TerminalWriter;
pub use visible::{visible_octets, visible_text};
