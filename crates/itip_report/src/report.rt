//! The reports over kept items.

/// A report over the kept items of a desk. Its lines are ordered by UID, then the to-do as a whole before its instances and ranges by
/// moment, an instance before a range of its moment, then by attendee, an answer before a refresh request.
#[derive(Clone, Copy, Debug, PartialEq, Eq)]
pub enum Report {
    /// What is cancelled.
    Cancelled,
    /// Answers and refresh requests that belong to nothing.
    Orphans,
    /// Refresh requests that wait for an answer.
    Refresh,
}
