//! Why the rows of one to-do look as they do.
ghost use Rattle.std.specs.Prelude.{ℕ, List, IfOk, OnErr, IsErrOf};
ghost use Rattle.std.specs.Io.KnownBytes.{Keeps};
ghost use Rattle.itip_inbox.specs.Explaining.{Explains, IsExplained};
ghost use Rattle.itip_inbox.specs.Inbox.{AreInputs};
ghost use Rattle.itip_inbox.specs.OfInbox.{WritesFront};

use crate::gathering::gather;
use crate::watch::Watch;
use itip_explain::explanation;
use itip_streams::{SourceName, StreamFault, write_output};
use itip_todo::Uid;
use std::alloc::Global;
use std::io::{Read, Write};
use std::thread::Threads;

/// What came of explaining a UID.
#[derive(Clone, Copy, Debug, PartialEq, Eq)]
pub enum Explained {
    /// The explanation was written.
    Told {
        /// Whether a message was refused.
        is_refused: bool,
    },
    /// No message tells an item of this UID, and nothing was written.
    Unknown,
}

/// Reads sources to their ends and writes a line for each item of a UID that their messages tell, as [`explanation`] does; or
/// nothing if no message tells one. `names` are those of the sources, in their order.
///
/// Once all sources are read, and before anything is written, `watch` is told of the refused messages in the order of the sources. On
/// [`StreamFault::Read`] nothing has been written; on another error a prefix of the explanation has been.
pub fn explain<R: Read + Drop, W: Write, S: Watch>(
    rt: &(impl Threads + Sync),
    alloc: Global,
    sources: Vec<R>,
    names: &[SourceName],
    uid: &Uid,
    writer: &mut W,
    threads: usize,
    watch: &mut S,
) -> Result<Explained, StreamFault>
    ensures output { IfOk result (λ explained. (inputs : List (List ℕ)) → AreInputs R.remaining sources.items inputs →
        Explains uid.now names.now inputs (W.contents writer.old) (W.contents writer.new) explained) }
    ensures front { OnErr result ((inputs : List (List ℕ)) → AreInputs R.remaining sources.items inputs →
        WritesFront (IsExplained uid.now names.now inputs) (W.contents writer.old) (W.contents writer.new)) }
    ensures unread { IsErrOf result StreamFault.Read → Keeps (W.contents writer.old) (W.contents writer.new) }
{
    let inbox = gather(rt, alloc, sources, Some(uid), threads, watch)?;
    let told = inbox.told.as_slice();
    if told.is_empty() {
        return Ok(Explained::Unknown);
    }
    let text = explanation(alloc, uid, told, names)?;
    write_output(writer, text.as_slice())?;
    Ok(Explained::Told {
        is_refused: inbox.has_refusals(),
    })
}
