//! Sources, cut into pieces for threads, each of which gets about as many bytes.
ghost use Rattle.std.specs.Prelude.{◌≡◌, ◌++◌, ◌<◌, length, IfSome, OnOk};
ghost use Rattle.itip_message.specs.Parting.{StaysParted};
ghost use Rattle.itip_message.specs.Scanned.{messages_of};
ghost use Rattle.itip_inbox.specs.Inbox.{placed_from};
ghost use Rattle.itip_inbox.specs.Pieces.{pieces_from};

use itip_message::part_messages;
use std::alloc::AllocError;

// The fewest bytes that are worth a thread.
const LEAST: usize = 16_384;

/// A part of a source that is cut into messages by itself.
#[derive(Clone, Copy)]
pub(crate) struct Piece<'a> {
    /// The place of its source, from 0.
    pub(crate) source: usize,
    /// Whether its source begins with it. If not, it goes on where the piece before it ended.
    pub(crate) is_first: bool,
    /// Its bytes.
    pub(crate) octets: &'a [u8],
}

/// How long pieces are: of each `size` bytes of all sources, one begins.
#[derive(Drop)]
pub(crate) struct Sizes {
    size: usize,
    /// How many bytes are left of the `size` in which the next source begins.
    room: usize,
}

impl Sizes {
    /// The sizes for sources of `octets` bytes in all and for `threads` threads, or for one if that is 0.
    pub(crate) fn of(octets: usize, threads: usize) -> Sizes {
        let size = (octets / threads.max(1)).saturating_add(1);
        Sizes { size, room: size }
    }

    /// Goes on behind the last piece of a source, which has this length.
    fn pass(&mut self, length: usize) {
        self.room = if length < self.room {
            self.room - length
        } else {
            self.size
        };
    }
}

/// How many threads so many bytes are worth, of at most `threads`; at least one.
pub(crate) fn worth(octets: usize, threads: usize) -> usize {
    threads.min(octets / LEAST).max(1)
}

/// Appends the pieces of a source. If an allocation fails, some of them may have been appended.
pub(crate) fn cut_source<'a>(
    pieces: &mut Vec<Piece<'a>>,
    sizes: &mut Sizes,
    source: usize,
    octets: &'a [u8],
) -> Result<(), AllocError>
    ensures { OnOk result (pieces_from 0 pieces.new.items ≡
        pieces_from 0 pieces.old.items ++ placed_from source 1 (messages_of octets.now)) }
{
    let mut rest = octets;
    let mut is_first = true;
    while let Some((front, back)) = first_part(rest, sizes.room) {
        pieces.push(Piece {
            source,
            is_first,
            octets: front,
        })?;
        sizes.room = sizes.size;
        rest = back;
        is_first = false;
    }
    sizes.pass(rest.len());
    pieces.push(Piece {
        source,
        is_first,
        octets: rest,
    })?;
    Ok(())
}

/// Splits bytes between messages, behind `room` bytes or a little later. Returns `None` if that leaves nothing for the first part or the
/// second.
fn first_part(octets: &[u8], room: usize) -> Option<(&[u8], &[u8])>
    ensures parts { IfSome result (λ parts. StaysParted octets.now parts.0.now parts.1.now) }
    ensures less { IfSome result (λ parts. length parts.1.now < length octets.now) }
{
    if octets.len() <= room {
        return None;
    }
    match part_messages(octets, room) {
        Some((front, back)) if back.len() < octets.len() => Some((front, back)),
        _ => None,
    }
}
