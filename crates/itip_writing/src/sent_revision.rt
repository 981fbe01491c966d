//! The revision with which a message goes out.
use itip_moment::Stamp;

/// SEQUENCE and DTSTAMP of a message that is written.
#[derive(Clone, Copy, Debug, Drop)]
pub(crate) struct SentRevision {
    pub sequence: u32,
    pub stamp: Stamp,
}
