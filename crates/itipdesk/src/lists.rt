//! Lists: the rows of a window of days, and reports.
//!
//! `Window::of(from, to)` has the days from one up to but not including another, at most 3,660. `desk.list(window)` is the text of the
//! list, and `desk.list_for(window, address)` that of one attendee. `desk.rows(window)` returns the rows a UID at a time
//! ([`RowsByUid`]), and [`rows`] all of them, at most 100,000; [`Wanted`] says which are asked for.
//!
//! Reports as records: [`load_records`] (how many rows show each attendee), [`progress_records`] (how far rows are), and
//! [`report_items`] (what is cancelled, what belongs to nothing, who waits). [`report_lines`] has the text of any by its name. If rows
//! have nothing to tell, the first two never fail.
pub use itip_report::{
    AttendeeLoad, Report, ReportName, RowProgress, load_records, no_rows, progress_records,
    report_items, report_lines,
};
pub use itip_view::{
    BadWindow, Row, RowCount, RowId, RowsByUid, ShownAttendee, ViewError, Wanted, Window, rows,
    rows_of, write_list,
};
