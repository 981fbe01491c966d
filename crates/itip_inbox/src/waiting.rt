//! Sources that were read to their ends and are heard together, so that many small ones are worth several threads.
ghost use Rattle.std.specs.Prelude.{◌≡◌, ◌≢◌, IfOk, IfErr};
ghost use Rattle.std.specs.Option.{option_copied};
ghost use Rattle.itip_inbox.specs.Pieces.{pieces_from};
ghost use Rattle.itip_inbox.specs.Streaming.{Tells, waiting_of};

use crate::read_pieces::read_pieces;
use crate::shards::Shards;
use crate::source_pieces::{Piece, Sizes, cut_source};
use crate::texts::Heard;
use itip_streams::StreamFault;
use itip_todo::Uid;
use std::alloc::{AllocError, Global};
use std::thread::Threads;

/// A source that was read to its end.
#[derive(Drop)]
pub(crate) struct Waiting {
    /// Its place, from 0.
    pub(crate) source: usize,
    /// All of its bytes.
    pub(crate) octets: Vec<u8>,
}

/// What the messages of some sources tell, read on `threads` threads, or on one if that is 0. The sources have `octets` bytes in all: each
/// thread reads about as many of them.
pub(crate) fn read_waiting<R: Threads + Sync>(
    rt: &R,
    alloc: Global,
    kept: &Shards,
    about: Option<&Uid>,
    waiting: &[Waiting],
    octets: usize,
    threads: usize,
) -> Result<Heard, StreamFault>
    ensures tells { IfOk result (Tells (option_copied about.entry) kept.now (waiting_of waiting.now)) }
    ensures fault { IfErr result (λ fault. fault ≢ StreamFault.Write) }
{
    let pieces = cut_waiting(alloc, waiting, Sizes::of(octets, threads))?;
    read_pieces(rt, alloc, kept, about, pieces.as_slice(), threads)
}

/// The pieces of sources.
fn cut_waiting(
    alloc: Global,
    waiting: &[Waiting],
    sizes: Sizes,
) -> Result<Vec<Piece<'_>>, AllocError>
    ensures { IfOk result (λ pieces. pieces_from 0 pieces.items ≡ waiting_of waiting.now) }
{
    let mut sizes = sizes;
    let mut pieces = Vec::new(alloc);
    for one in waiting {
        cut_source(&mut pieces, &mut sizes, one.source, one.octets.as_slice())?;
    }
    Ok(pieces)
}
