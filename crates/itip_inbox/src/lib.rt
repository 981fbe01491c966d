//! Messages in, what counts out: sources of messages are read one after another, and all of them are heard.
//!
//! Each source is cut into messages by itself, by `itip_message`: `part_messages` splits the bytes that were read among the threads,
//! and each thread cuts its part with `next_message` and reads each message with `read_message`. Where a message is too long to be
//! held, `cut_message` finds its end. A refused message is not heard; the others are. While sources are read, what is kept is split
//! into shards by UID, and each shard hears the items of its UIDs on a thread of its own; then one state has all, except in `compact`,
//! which writes from the shards. What is kept of everything is a batch, sorted by canonical bytes and each item once, and is written as
//! `itip_desk` writes a delta. There a refused message refuses all bytes (`read_delta`); here it does not.
//!
//! Only the set of items that are told matters, and compacting compactions equals compacting everything. So parts of the sources may
//! be compacted apart, on any machine and in any order, and then their results; and `news` writes only the items that some sources
//! lack of others. To explain one to-do, the items that messages tell of it are followed while all messages are heard.
#![tactic(auto)]

mod compaction;
mod counts;
mod csv_records;
mod explained;
mod gathering;
mod inbox;
mod json_records;
mod lacking;
mod laws;
mod leb128;
mod list_form;
mod list_or_refusal;
mod merged_ranges;
mod messages;
mod numbered;
mod open_inbox;
mod read_pieces;
mod refusals;
mod refused;
mod refused_rows;
mod reports;
mod row_texts;
mod sent;
mod shard;
mod shards;
mod shown;
mod source_pieces;
mod source_reading;
mod texts;
mod waiting;
mod watch;

pub use compaction::{compact, write_items};
pub use csv_records::{CsvList, records_are_read};
pub use explained::{Explained, explain};
pub use inbox::Inbox;
pub use json_records::{JsonList, objects_are_read};
pub use lacking::news;
pub use laws::{
    compaction_of_compactions, compaction_with_news, items_of_parts, one_compaction, one_news,
    only_items_matter, outputs_of_parts,
};
pub use list_form::{ListForm, PageList, TextList};
pub use list_or_refusal::list;
pub use refusals::{Refusals, RefusalsIter};
pub use refused::RefusedMessage;
pub use reports::report;
pub use sent::{Sent, send};
pub use shown::{MAX_OCTETS, TOO_LONG, check};
pub use source_reading::read_sources;
pub use watch::Watch;
