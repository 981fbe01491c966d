//! The answers to commands.
ghost use Rattle.std.specs.Prelude.{◌≡◌};
ghost use Rattle.std.specs.Option.{option_map};
ghost use Rattle.itip_world.specs.Running.{answer_of, refusal_of};

use crate::watch::Refused;
use itip_desk::Refusal;
use itip_report::ReportName;
use itip_view::MostRows;

/// The tick of a desk after it has heard something, and how many UIDs moved.
#[derive(Clone, Copy, Debug)]
pub(crate) struct Heard {
    pub(crate) tick: u64,
    pub(crate) changed: usize,
}

/// The answer to a command, other than a list. Desks and packets are numbered from 0.
#[derive(Drop)]
pub(crate) enum Answer {
    /// Why the command was refused.
    Refused(Refusal),
    /// There are too many rows to report on, and this to-do has the most of them.
    TooMany(MostRows),
    /// A desk took a message.
    Took {
        desk: usize,
        heard: Heard,
    },
    /// A packet of `items` items was posted.
    Posted {
        packet: usize,
        items: usize,
    },
    /// A packet arrived at a desk.
    Arrived {
        packet: usize,
        desk: usize,
        heard: Heard,
    },
    /// How many items a desk keeps.
    Counted {
        desk: u64,
        entries: usize,
    },
    /// The lines of a report of a desk.
    Reported {
        desk: u64,
        name: ReportName,
        lines: Vec<String>,
    },
    /// The messages that a desk sends again for a UID, or `None` if there are none.
    Resent {
        desk: u64,
        messages: Option<Vec<u8>>,
    },
    /// What changed at a desk, as the bytes of a delta of `items` items, and the tick of the desk.
    Sent {
        desk: u64,
        tick: u64,
        items: usize,
        octets: Vec<u8>,
    },
    /// A delta reached a desk.
    Reached {
        desk: u64,
        heard: Heard,
    },
    /// A desk was saved at a tick.
    Saved {
        desk: u64,
        tick: u64,
    },
    /// The next sequence of a UID at a desk, or `None` if none is left.
    Next {
        desk: u64,
        sequence: Option<u32>,
    },
}

impl Answer {
    /// Why the command was refused, if it was.
    pub(crate) fn refused(self) -> Option<Refused>
        ensures { option_map (λ r. r.refusal) result ≡ refusal_of (answer_of self) }
    {
        match self {
            Answer::Refused(refusal) => Some(Refused {
                refusal,
                most: None,
            }),
            Answer::TooMany(most) => Some(Refused::of_most(most)),
            _ => None,
        }
    }
}
