//! What some sources lack of others.
ghost use Rattle.std.specs.Prelude.{◌≡◌, ℕ, Bool, List, map, IfOk, OnErr, IsErrOf};
ghost use Rattle.std.specs.Io.KnownBytes.{Keeps};
ghost use Rattle.itip_items.specs.declared.item.Item.{Item};
ghost use Rattle.itip_state.specs.Kept.{AreKept};
ghost use Rattle.itip_streams.specs.Written.{AppendsFront, WritesOutput};
ghost use Rattle.itip_inbox.specs.Inbox.{AreInputs};
ghost use Rattle.itip_inbox.specs.News.{AreLacking, IsNews};

use crate::compaction::write_items;
use crate::source_reading::{Progress, read_more};
use crate::watch::Watch;
use itip_state::{SharedItem, State, by_octets};
use itip_streams::StreamFault;
use std::alloc::{AllocError, Global};
use std::io::{Read, Write};
use std::thread::Threads;

/// Reads `than` and then `sources` to their ends, and writes the bytes of what the former lack of the latter: of the items that are
/// kept of all their messages, those that are not kept of `than` alone, sorted by canonical bytes, each once. Returns whether a
/// message was refused. Compacted with `than`, the output gives what all sources give, and no item of it can be left out.
///
/// The watch is told of `than` and `sources` as one list, and of refused messages in its order, once all sources are read and before
/// anything is written. On [`StreamFault::Read`] nothing has been written; on another error a prefix of the output has been.
pub fn news<R: Read + Drop, W: Write, S: Watch>(
    rt: &(impl Threads + Sync),
    alloc: Global,
    than: Vec<R>,
    sources: Vec<R>,
    writer: &mut W,
    threads: usize,
    watch: &mut S,
) -> Result<bool, StreamFault>
    ensures output { IfOk result (λ refused. (known inputs : List (List ℕ)) →
        AreInputs R.remaining than.items known → AreInputs R.remaining sources.items inputs →
        WritesOutput (IsNews known inputs) (W.contents writer.old) (W.contents writer.new) refused) }
    ensures front { OnErr result ((known inputs : List (List ℕ)) →
        AreInputs R.remaining than.items known → AreInputs R.remaining sources.items inputs →
        (octets : List ℕ) (refused : Bool) → IsNews known inputs octets refused →
        AppendsFront (W.contents writer.old) (W.contents writer.new) octets) }
    ensures unread { IsErrOf result StreamFault.Read → Keeps (W.contents writer.old) (W.contents writer.new) }
{
    let mut progress = Progress::none();
    let known = read_more(rt, alloc, than, None, threads, &mut progress, watch)?;
    let inbox = read_more(rt, alloc, sources, None, threads, &mut progress, watch)?;
    watch.refused(0, &known.refusals);
    watch.refused(known.source, &inbox.refusals);
    let items = lacking(alloc, &known.state, &inbox.state)?;
    write_items(alloc, items.as_slice(), writer)?;
    let is_refused = known.has_refusals();
    Ok(is_refused || inbox.has_refusals())
}

/// The items that are kept of two states together and not of the first alone, sorted by canonical bytes, each once.
fn lacking(alloc: Global, known: &State, more: &State) -> Result<Vec<SharedItem>, AllocError>
    ensures { IfOk result (λ items. (told heard : List Item) → AreKept known.now told → AreKept more.now heard →
        AreLacking told heard items.items) }
{
    let told = more.shared_items()?;
    let news = known.news(told.as_slice())?;
    by_octets(shared(alloc, news.as_slice())?)
}

fn shared(alloc: Global, items: &[&SharedItem]) -> Result<Vec<SharedItem>, AllocError>
    ensures { IfOk result (λ shared. shared.items ≡ map (λ item. item.now) items.now) }
{
    let mut shared = Vec::new(alloc);
    for item in items {
        shared.push((*item).clone()?)?;
    }
    Ok(shared)
}
