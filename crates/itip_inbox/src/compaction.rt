//! The bytes of what is kept of some inputs.
ghost use Rattle.std.specs.Prelude.{◌≢◌, ℕ, Bool, List, IfOk, IfErr, OnOk, OnErr, IsErrOf};
ghost use Rattle.std.specs.Io.KnownBytes.{Appends, Keeps};
ghost use Rattle.itip_desk.specs.DeltaFormat.{delta_octets};
ghost use Rattle.itip_streams.specs.Written.{AppendsFront, WritesOutput};
ghost use Rattle.itip_inbox.specs.Compaction.{IsCompaction};
ghost use Rattle.itip_inbox.specs.Inbox.{AreInputs};

use crate::gathering::gather_shards;
use crate::watch::Watch;
use itip_state::SharedItem;
use itip_streams::{StreamFault, write_if_many, write_output};
use std::alloc::Global;
use std::io::{Read, Write};
use std::thread::Threads;

/// Reads sources to their ends and writes the bytes of what is kept of all their messages that are not refused. Returns whether one was
/// refused; a message that is too long is refused too.
///
/// The bytes are those of a delta of the kept items, sorted by canonical bytes, each once. Once all sources are read, and before
/// anything is written, `watch` is told of the refused messages in the order of the sources. On [`StreamFault::Read`] nothing has
/// been written; on another error a prefix of the output has been.
pub fn compact<R: Read + Drop, W: Write, S: Watch>(
    rt: &(impl Threads + Sync),
    alloc: Global,
    sources: Vec<R>,
    writer: &mut W,
    threads: usize,
    watch: &mut S,
) -> Result<bool, StreamFault>
    ensures output { IfOk result (λ refused. (inputs : List (List ℕ)) → AreInputs R.remaining sources.items inputs →
        WritesOutput (IsCompaction inputs) (W.contents writer.old) (W.contents writer.new) refused) }
    ensures front { OnErr result ((inputs : List (List ℕ)) → AreInputs R.remaining sources.items inputs →
        (octets : List ℕ) (refused : Bool) → IsCompaction inputs octets refused →
        AppendsFront (W.contents writer.old) (W.contents writer.new) octets) }
    ensures unread { IsErrOf result StreamFault.Read → Keeps (W.contents writer.old) (W.contents writer.new) }
{
    let inbox = gather_shards(rt, alloc, sources, threads, watch)?;
    let items = inbox.state.by_octets(rt)?;
    write_items(alloc, items.as_slice(), writer)?;
    inbox.state.let_go_of(rt, items);
    let is_refused = inbox.has_refusals();
    inbox.let_go(rt);
    Ok(is_refused)
}

/// Writes the canonical bytes of items, in their order. On an error, which is never [`StreamFault::Read`], a prefix of them has been
/// written.
pub fn write_items<W: Write>(
    alloc: Global,
    items: &[SharedItem],
    writer: &mut W,
) -> Result<(), StreamFault>
    ensures all { OnOk result (Appends (W.contents writer.old) (W.contents writer.new) (delta_octets items.now)) }
    ensures front { OnErr result (AppendsFront (W.contents writer.old) (W.contents writer.new) (delta_octets items.now)) }
    ensures fault { IfErr result (λ fault. fault ≢ StreamFault.Read) }
{
    let mut kept = Vec::new(alloc);
    for item in items {
        item.bytes.append_to(&mut kept)?;
        write_if_many(writer, &mut kept)?;
    }
    write_output(writer, kept.as_slice())
}
