//! Reads pieces of sources side by side, for what their messages tell beside what is kept.
ghost use Rattle.std.specs.Prelude.{◌≡◌, ◌≢◌, ◌++◌, ◌+◌, ◌≤◌, ℕ, List, Option, length, IfOk, IfErr};
ghost use Rattle.std.specs.Option.{option_copied};
ghost use Rattle.std.specs.Thread.{IsSync};
ghost use Rattle.itip_items.specs.declared.item.Item.{Item};
ghost use Rattle.itip_message.specs.Scanned.{messages_of};
ghost use Rattle.itip_inbox.specs.Inbox.{Placed, placed_from};
ghost use Rattle.itip_inbox.specs.Pieces.{AreRead, IsRead, count_before, pieces_from, texts_of};
ghost use Rattle.itip_inbox.specs.Streaming.{Tells};
ghost use Rattle.itip_inbox.specs.declared.source_pieces.Piece.{Piece};

use crate::counts::count_more;
use crate::shards::Shards;
use crate::source_pieces::{Piece, Sizes, cut_source, worth};
use crate::texts::{Heard, read_octets};
use itip_streams::StreamFault;
use itip_todo::Uid;
use std::alloc::Global;
use std::thread::{Threads, join};

/// What the messages of a piece tell, numbered from 1.
#[derive(Drop)]
pub(crate) struct ReadPiece {
    /// Whether its source begins with the piece.
    pub(crate) is_first: bool,
    pub(crate) heard: Heard,
}

/// What all messages of `octets` tell, numbered from 1 and read on at most `threads` threads.
pub(crate) fn read_share(
    rt: &(impl Threads + Sync),
    alloc: Global,
    kept: &Shards,
    about: Option<&Uid>,
    source: usize,
    octets: &[u8],
    threads: usize,
) -> Result<Heard, StreamFault>
    ensures tells { IfOk result (Tells (option_copied about.entry) kept.now (placed_from source 1 (messages_of octets.now))) }
    ensures fault { IfErr result (λ fault. fault ≢ StreamFault.Write) }
{
    let threads = worth(octets.len(), threads);
    let mut pieces = Vec::new(alloc);
    let mut sizes = Sizes::of(octets.len(), threads);
    cut_source(&mut pieces, &mut sizes, source, octets)?;
    read_pieces(rt, alloc, kept, about, pieces.as_slice(), threads)
}

/// What the messages of pieces tell, numbered within their sources and read on at most `threads` threads. The first piece begins its
/// source.
pub(crate) fn read_pieces<R: Threads + Sync>(
    rt: &R,
    alloc: Global,
    kept: &Shards,
    about: Option<&Uid>,
    pieces: &[Piece<'_>],
    threads: usize,
) -> Result<Heard, StreamFault>
    ensures tells { IfOk result (Tells (option_copied about.entry) kept.now (pieces_from 0 pieces.now)) }
    ensures fault { IfErr result (λ fault. fault ≢ StreamFault.Write) }
{
    let read = read_apart(rt, alloc, kept, about, pieces, threads)?;
    in_a_row(alloc, read)
}

/// What the messages of each piece tell, numbered from 1 in each piece and read on at most `threads` threads.
#[cycle(apart)]
fn read_apart<R: Threads + Sync>(
    rt: &R,
    alloc: Global,
    kept: &Shards,
    about: Option<&Uid>,
    pieces: &[Piece<'_>],
    threads: usize,
) -> Result<Vec<ReadPiece>, StreamFault>
    ensures each { IfOk result (λ read. AreRead (option_copied about.entry) kept.now pieces.now read.items) }
    ensures fault { IfErr result (λ fault. fault ≢ StreamFault.Write) }
{
    if threads < 2 {
        return read_each(alloc, kept, about, pieces);
    }
    let before = threads / 2;
    let after = threads - before;
    let octets = (octets_of(pieces) / threads).saturating_mul(before);
    let (front, back) = pieces.split_at(first_pieces(pieces, octets));
    let left = move || -> Result<Vec<ReadPiece>, StreamFault>
        requires { IsSync R.row }
        ensures each { IfOk result (λ read. AreRead (option_copied about.entry) kept.entry.now front.entry.now read.items) }
        ensures fault { IfErr result (λ fault. fault ≢ StreamFault.Write) }
    { read_apart(rt, alloc, kept, about, front, before) };
    let right = move || -> Result<Vec<ReadPiece>, StreamFault>
        requires { IsSync R.row }
        ensures each { IfOk result (λ read. AreRead (option_copied about.entry) kept.entry.now back.entry.now read.items) }
        ensures fault { IfErr result (λ fault. fault ≢ StreamFault.Write) }
    { read_apart(rt, alloc, kept, about, back, after) };
    let (ours, theirs) = join(rt, left, right);
    let mut read = ours?;
    let mut behind = theirs?;
    read.append(&mut behind)?;
    Ok(read)
}

/// How many bytes pieces have together; `usize::MAX` if there are more.
fn octets_of(pieces: &[Piece<'_>]) -> usize {
    let mut octets = 0usize;
    for piece in pieces {
        octets = octets.saturating_add(piece.octets.len());
    }
    octets
}

/// How many of the first pieces have about `octets` bytes together.
fn first_pieces(pieces: &[Piece<'_>], octets: usize) -> usize
    ensures { result ≤ length pieces.now }
{
    let mut count = 0;
    let mut left = octets;
    for piece in pieces {
        if piece.octets.len() / 2 >= left {
            return count;
        }
        left = left.saturating_sub(piece.octets.len());
        count += 1;
    }
    count
}

/// Like [`read_apart`], one piece after another.
fn read_each(
    alloc: Global,
    kept: &Shards,
    about: Option<&Uid>,
    pieces: &[Piece<'_>],
) -> Result<Vec<ReadPiece>, StreamFault>
    ensures each { IfOk result (λ read. AreRead (option_copied about.entry) kept.now pieces.now read.items) }
    ensures fault { IfErr result (λ fault. fault ≢ StreamFault.Write) }
{
    let mut read = Vec::new(alloc);
    for piece in pieces {
        let heard = read_octets(alloc, kept, about, piece.source, piece.octets)?;
        let is_first = piece.is_first;
        read.push(ReadPiece { is_first, heard })?;
    }
    Ok(read)
}

/// What pieces tell together, each numbered on after those of its source that come before it.
fn in_a_row(alloc: Global, read: Vec<ReadPiece>) -> Result<Heard, StreamFault>
    ensures tells { IfOk result (λ all. (about : Option (List ℕ)) (kept : List Item) (pieces : List Piece) →
        AreRead about kept pieces read.items → Tells about kept (pieces_from 0 pieces) all) }
    ensures fault { IfErr result (λ fault. fault ≢ StreamFault.Write) }
{
    let mut all = Heard::nothing(alloc);
    let mut count = 0u64;
    for piece in read {
        count = add_piece(alloc, &mut all, piece, count)?;
    }
    Ok(all)
}

/// Adds what a piece tells. `count` messages of its source come before it, or none if its source begins with it. Returns how many there
/// are up to its end. On an error a part of it may have been added.
fn add_piece(
    alloc: Global,
    all: &mut Heard,
    piece: ReadPiece,
    count: u64,
) -> Result<u64, StreamFault>
    ensures tells { IfOk result (λ next. (about : Option (List ℕ)) (kept : List Item) (before : List Placed) (one : Piece) →
        IsRead about kept one piece → Tells about kept before all.old →
        (next ≡ count_before count one + length (texts_of one)) ×
        Tells about kept (before ++ placed_from one.source (count_before count one + 1) (texts_of one)) all.new) }
    ensures fault { IfErr result (λ fault. fault ≢ StreamFault.Write) }
{
    let ReadPiece {
        is_first,
        mut heard,
    } = piece;
    if is_first {
        let next = heard.count;
        all.append(heard)?;
        return Ok(next);
    }
    let next = count_more(count, heard.count)?;
    heard.move_behind(alloc, count)?;
    all.append(heard)?;
    Ok(next)
}
