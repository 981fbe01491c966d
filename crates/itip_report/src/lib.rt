//! What an office asks of a desk besides its list: how many rows show each attendee, how far rows are, what is cancelled, which
//! answers belong to nothing, who waits for a newer revision, what to send again, and the next sequence to use.
#![tactic(auto)]

mod empty;
mod laws;
mod line;
mod lines;
mod load;
mod named;
mod next_sequence;
mod of_rows;
mod places;
mod records;
mod report;
mod report_name;
mod reported;
mod row_progress;
mod sent_again;
mod sought;

pub use empty::no_rows;
pub use laws::{one_report, reports_of_kept, resend_is_read};
pub use line::{mark, put_instance, put_moment};
pub use lines::{cancelled, orphans, refresh_wanted};
pub use load::{load_by_attendee, load_records};
pub use named::report_lines;
pub use next_sequence::next_seq;
pub use places::{by_place, compare_places};
pub use records::{AttendeeLoad, RowProgress, progress_records, reports_are_texts};
pub use report::Report;
pub use report_name::ReportName;
pub use reported::report_items;
pub use row_progress::progress;
pub use sent_again::{Resent, resend, resent_items};
pub use sought::is_wanted;
pub use std::alloc::AllocError as NoMemory;
