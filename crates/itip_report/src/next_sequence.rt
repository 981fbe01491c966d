//! The next sequence to use.
ghost use Rattle.itip_report.specs.NextSequence.{IsNext};

use itip_state::State;
use itip_todo::Uid;

/// The next SEQUENCE to use for a UID (RFC 5545 3.8.7.4): one more than the greatest effective sequence of its kept items of
/// REQUEST, ADD and CANCEL, or 0 if there are none; `None` if 2147483647 was used. Allocates nothing.
pub fn next_seq(state: &State, uid: &Uid) -> Option<u32>
    ensures { IsNext state.now uid.now result }
{
    match state.last_used(uid) {
        None => Some(0),
        Some(2_147_483_647) => None,
        Some(used) => Some(used + 1),
    }
}
