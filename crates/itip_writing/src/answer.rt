//! The answer of an attendee.
use itip_todo::PartStat;

/// What an attendee answers to a to-do as a whole or to an instance of it.
#[derive(Clone, Copy, Debug, Drop)]
pub struct Answer<'a> {
    /// The address, compared with ASCII letters in lower case.
    pub attendee: &'a str,
    /// PARTSTAT.
    pub status: PartStat,
    /// PERCENT-COMPLETE, at most 100: a message with more can't be read back.
    pub percent: Option<u8>,
}
