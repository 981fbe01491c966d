//! A message, shown as its items.
ghost use Rattle.std.specs.Prelude.{◌≡◌, ◌≢◌, ℕ, Bool, List, Some, IfOk, IfErr, OnOk, OnErr, IsErrOf, IfSome};
ghost use Rattle.std.specs.Io.KnownBytes.{Keeps};
ghost use Rattle.itip_message.specs.RefusalNumbers.{number_of};
ghost use Rattle.itip_desk.specs.Refusals.{refused_text};
ghost use Rattle.itip_streams.specs.Once.{FailsReading, ReadsWell};
ghost use Rattle.itip_streams.specs.Written.{AppendsFront, WritesOutput};
ghost use Rattle.itip_inbox.specs.Shown.{items_text, refused_alone, IsShown, IsShownAs};

use crate::refusals::Refusals;
use crate::refused::{RefusedMessage, refusal_text};
use crate::watch::Watch;
use itip_desk::{Batch, Refusal, read_batch, write_delta};
use itip_lines::{LineCause, LineRefusal};
use itip_message::{MessageRefusal, ReadError};
use itip_streams::{ReadOnce, StreamFault, read_within, write_output};
use std::alloc::{AllocError, Global};
use std::io::{Read, Write};

/// The most bytes that a message may have. A text of more is refused for its length.
pub const MAX_OCTETS: usize = 1_048_576;

/// Why a text of more than [`MAX_OCTETS`] bytes is refused.
pub const TOO_LONG: LineRefusal = LineRefusal {
    cause: LineCause::TooLong,
    line: None,
};

/// Reads one message and writes `items N` and the canonical bytes of its N items, sorted by these bytes, each once; or `refused N` if
/// the text is no message. A text of more than 1,048,576 bytes is `refused 1`. Returns whether it was refused.
///
/// Once a refusal is written, `watch` is told of it, as that of message 1 of source 0. If it returns `Ok`, no read failed. On
/// [`StreamFault::Read`], which is also returned when [`MAX_READS`](itip_streams::MAX_READS) reads are not enough, nothing has been
/// written; if a read failed, it was the last. On another error a prefix of the output has been written.
pub fn check<R: Read + ReadOnce, W: Write, S: Watch>(
    alloc: Global,
    reader: &mut R,
    writer: &mut W,
    watch: &mut S,
) -> Result<bool, StreamFault>
    ensures output { IfOk result (λ refused. IfSome (R.remaining reader.old) (λ text.
        WritesOutput (IsShown text) (W.contents writer.old) (W.contents writer.new) refused)) }
    ensures front { OnErr result (IfSome (R.remaining reader.old) (λ text. (shown : List ℕ) (refused : Bool) →
        IsShown text shown refused → AppendsFront (W.contents writer.old) (W.contents writer.new) shown)) }
    ensures unread { IsErrOf result StreamFault.Read → Keeps (W.contents writer.old) (W.contents writer.new) }
    ensures untold { OnErr result (watch.new ≡ watch.old) }
    ensures well { OnOk result (ReadsWell R.reads reader.old reader.new) }
    ensures failed { IsErrOf result StreamFault.Read → FailsReading R.reads reader.old reader.new }
{
    let shown = read_shown(alloc, reader)?;
    let refusals = refused_alone(alloc, shown.refusal)?;
    write_output(writer, shown.text.as_slice())?;
    watch.refused(0, &refusals);
    Ok(shown.refusal.is_some())
}

/// What is shown of a text.
#[derive(Drop)]
struct Shown {
    text: Vec<u8>,
    refusal: Option<MessageRefusal>,
}

fn read_shown<R: Read + ReadOnce>(alloc: Global, reader: &mut R) -> Result<Shown, StreamFault>
    ensures shown { IfOk result (λ shown. IfSome (R.remaining reader.old) (λ text. IsShownAs text shown.refusal shown.text.items)) }
    ensures fault { IfErr result (λ fault. fault ≢ StreamFault.Write) }
    ensures well { OnOk result (ReadsWell R.reads reader.old reader.new) }
    ensures failed { IsErrOf result StreamFault.Read → FailsReading R.reads reader.old reader.new }
{
    match read_within(alloc, reader, MAX_OCTETS)? {
        Some(text) => shown_of(alloc, text.as_slice()),
        None => shown_refusal(alloc, MessageRefusal::from(TOO_LONG)),
    }
}

fn shown_of(alloc: Global, text: &[u8]) -> Result<Shown, StreamFault>
    ensures shown { IfOk result (λ shown. IsShownAs text.now shown.refusal shown.text.items) }
    ensures fault { IfErr result (λ fault. fault ≡ StreamFault.Memory) }
{
    match read_batch(alloc, text) {
        Ok(batch) => Ok(Shown {
            text: batch_text(alloc, &batch)?,
            refusal: None,
        }),
        Err(ReadError::Refused(refusal)) => shown_refusal(alloc, refusal),
        Err(ReadError::NoMemory) => Err(StreamFault::Memory),
    }
}

fn shown_refusal(alloc: Global, refusal: MessageRefusal) -> Result<Shown, StreamFault>
    ensures refusal { IfOk result (λ shown. shown.refusal ≡ Some refusal) }
    ensures text { IfOk result (λ shown. shown.text.items ≡ refused_text (number_of refusal)) }
    ensures fault { IfErr result (λ fault. fault ≡ StreamFault.Memory) }
{
    Ok(Shown {
        text: refusal_text(alloc, Refusal::Message(refusal))?,
        refusal: Some(refusal),
    })
}

/// The refusals of a text that is message 1 of source 0.
fn refused_alone(alloc: Global, refusal: Option<MessageRefusal>) -> Result<Refusals, AllocError>
    ensures { IfOk result (λ refusals. refusals ≡ refused_alone refusal) }
{
    let mut refusals = Refusals::none(alloc);
    if let Some(refusal) = refusal {
        refusals.push(RefusedMessage {
            source: 0,
            message: 1,
            refusal,
        })?;
    }
    Ok(refusals)
}

fn batch_text(alloc: Global, batch: &Batch) -> Result<Vec<u8>, AllocError>
    ensures { IfOk result (λ text. text.items ≡ items_text batch.now) }
{
    let count = batch.as_slice().len();
    let mut text = format!(in alloc; "items {count}\n")?.into_bytes();
    let octets = write_delta(alloc, batch)?;
    text.extend_from_slice(octets.as_slice())?;
    Ok(text)
}
