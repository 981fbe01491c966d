//! Messages to send, given what some inputs tell.
ghost use Rattle.std.specs.Prelude.{◌≡◌, ◌≢◌, ℕ, List, IfOk, IfErr, OnOk, OnErr, IsErrOf};
ghost use Rattle.std.specs.Io.KnownBytes.{Appends, Keeps};
ghost use Rattle.itip_streams.specs.Written.{AppendsFront};
ghost use Rattle.itip_inbox.specs.Inbox.{AreInputs, is_some_refused};
ghost use Rattle.itip_inbox.specs.OfInbox.{WritesFront};
ghost use Rattle.itip_inbox.specs.Sending.{IsMessage, Sends};

use crate::gathering::gather;
use crate::inbox::Inbox;
use crate::watch::Watch;
use itip_moment::Stamp;
use itip_streams::{StreamFault, write_output};
use itip_todo::PropertyName;
use itip_writing::{Errand, Message, WritingError, message_for};
use std::alloc::Global;
use std::io::{Read, Write};
use std::thread::Threads;

/// What came of a message that was to be written.
#[derive(Debug, Drop)]
pub enum Sent {
    /// It was written.
    Done {
        /// Whether a message of the sources was refused.
        is_refused: bool,
        /// The properties that RFC 5546 3.4 wants in such a message and that it lacks, each once.
        lacking: Vec<PropertyName>,
    },
    /// It can't be written, and nothing was. The cause is never [`WritingError::NoMemory`].
    Undone(WritingError),
}

/// Reads sources to their ends and writes the message that `errand` asks for at the moment `at`, given what the sources tell; or
/// nothing if it can't be written.
///
/// Once all sources are read, and before anything is written, `watch` is told of the refused messages in the order of the sources. On
/// [`StreamFault::Read`] nothing has been written; on another error a prefix of the message has been.
pub fn send<R: Read + Drop, W: Write, S: Watch>(
    rt: &(impl Threads + Sync),
    alloc: Global,
    sources: Vec<R>,
    errand: &Errand<'_>,
    at: Stamp,
    writer: &mut W,
    threads: usize,
    watch: &mut S,
) -> Result<Sent, StreamFault>
    ensures output { IfOk result (λ sent. (inputs : List (List ℕ)) → AreInputs R.remaining sources.items inputs →
        Sends errand.now at inputs (W.contents writer.old) (W.contents writer.new) sent) }
    ensures front { OnErr result ((inputs : List (List ℕ)) → AreInputs R.remaining sources.items inputs →
        WritesFront (IsMessage errand.now at inputs) (W.contents writer.old) (W.contents writer.new)) }
    ensures unread { IsErrOf result StreamFault.Read → Keeps (W.contents writer.old) (W.contents writer.new) }
{
    let inbox = gather(rt, alloc, sources, None, threads, watch)?;
    match message_for(alloc, &inbox.state, errand, at) {
        Ok(message) => write_message(&inbox, message, writer),
        Err(error) => Ok(Sent::Undone(cause_of(error)?)),
    }
}

/// Writes a message, and returns what came of it. On an error a prefix of it has been written.
fn write_message<W: Write>(
    inbox: &Inbox,
    message: Message,
    writer: &mut W,
) -> Result<Sent, StreamFault>
    ensures all { OnOk result (Appends (W.contents writer.old) (W.contents writer.new) message.octets.items) }
    ensures sent { IfOk result (λ sent. sent ≡ Sent.Done (is_some_refused inbox.now.refusals) message.lacking) }
    ensures front { OnErr result (AppendsFront (W.contents writer.old) (W.contents writer.new) message.octets.items) }
    ensures unread { IsErrOf result StreamFault.Read → Keeps (W.contents writer.old) (W.contents writer.new) }
{
    let Message { octets, lacking } = message;
    write_output(writer, octets.as_slice())?;
    Ok(Sent::Done {
        is_refused: inbox.has_refusals(),
        lacking,
    })
}

/// Why a message can't be written, or [`StreamFault::Memory`] if an allocation failed.
fn cause_of(error: WritingError) -> Result<WritingError, StreamFault>
    ensures same { IfOk result (λ cause. cause ≡ error) }
    ensures not_memory { IfOk result (λ cause. cause ≢ WritingError.NoMemory) }
    ensures fault { IfErr result (λ fault. fault ≡ StreamFault.Memory) }
{
    match error {
        WritingError::NoMemory => Err(StreamFault::Memory),
        cause => Ok(cause),
    }
}
