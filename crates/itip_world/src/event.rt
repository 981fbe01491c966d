//! What happens to a world, and what comes of it.
ghost use Rattle.std.specs.Prelude.{◌≡◌};
ghost use Rattle.itip_world.specs.Worlds.{desk_of};

use itip_desk::Refusal;
use itip_lines::Bytes;

/// What happens to a world of desks. Desks and packets are numbered from 0.
#[derive(Debug, Drop)]
pub enum Event {
    /// A text reaches a desk, which hears the items of the message, or nothing if the text is refused.
    Deliver { desk: usize, bytes: Bytes },
    /// A desk posts what changed there after a tick, as the next packet.
    Post { desk: usize, since: u64 },
    /// A packet reaches a desk, for the first time or again.
    Arrive { packet: usize, desk: usize },
}

impl Event {
    /// The desk that the event names.
    pub(crate) fn desk(&self) -> usize
        ensures { result ≡ desk_of self.now }
    {
        match self {
            Event::Deliver { desk, .. } | Event::Post { desk, .. } | Event::Arrive { desk, .. } => {
                *desk
            }
        }
    }
}

/// What came of an event that was done.
#[derive(Clone, Copy, PartialEq, Eq, Debug, Drop)]
pub enum Outcome {
    /// The desk's tick after it heard the items, and how many UIDs moved.
    Heard { tick: u64, changed: usize },
    /// The number of the packet, and how many items it has.
    Posted { packet: usize, items: usize },
    /// Why the text was refused; the desk is unchanged.
    Refused(Refusal),
}
