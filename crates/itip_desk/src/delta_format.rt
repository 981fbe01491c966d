//! Writing a batch as a delta, and reading a batch from bytes.
ghost use Rattle.std.specs.Prelude.{◌≡◌, [], IfOk, IfErr, IsOk};
ghost use Rattle.itip_message.specs.Message.{RefusesMessage};
ghost use Rattle.itip_message.specs.Refusals.{IfRefused};
ghost use Rattle.itip_desk.specs.DeltaFormat.{delta_octets, GivesBatch, ReadsDelta, RefusesDelta};

use crate::NoMemory;
use crate::batch::Batch;
use itip_message::{ReadError, next_message, read_message};
use std::alloc::Global;

/// The canonical bytes of the items of a batch, one after another, in order (our own format). They are read back as this batch.
///
/// Fails if an allocation fails. Allocates nothing if the batch is empty.
pub fn write_delta(alloc: Global, batch: &Batch) -> Result<Vec<u8>, NoMemory>
    ensures octets { IfOk result (λ octets. octets.items ≡ delta_octets batch.now) }
    ensures read_again { IfOk result (λ octets. ReadsDelta octets.items batch.now) }
    ensures succeeds { batch.now ≡ [] → IsOk result }
{
    let mut octets = Vec::new(alloc);
    for item in batch.as_slice() {
        item.bytes.append_to(&mut octets)?;
    }
    Ok(octets)
}

/// Reads one message as the batch of its items, which a desk can take.
///
/// Fails with the refusal of [`read_message`], and its place, if that refuses the text, and with [`ReadError::NoMemory`] if an
/// allocation fails.
pub fn read_batch(alloc: Global, text: &[u8]) -> Result<Batch, ReadError>
    ensures found { IfOk result (GivesBatch text.now) }
    ensures fault { IfErr result (λ e. IfRefused e (RefusesMessage text.now)) }
{
    let items = read_message(alloc, text)?;
    Ok(Batch::of_items(items)?)
}

/// Reads the messages of a delta as the batch of all their items.
///
/// The bytes are cut after each line that is END:VCALENDAR, unfolded and without regard to case, and each piece is read as a message,
/// with limits and line numbers of its own. Empty lines after the last are not a piece. A delta as a whole has no limit here; a stream
/// refuses one of more than 67,108,864 bytes.
///
/// Fails with the refusal of the first piece that is refused, and with [`ReadError::NoMemory`] only if an allocation fails.
pub fn read_delta(alloc: Global, octets: &[u8]) -> Result<Batch, ReadError>
    ensures found { IfOk result (ReadsDelta octets.now) }
    ensures fault { IfErr result (λ e. IfRefused e (RefusesDelta octets.now)) }
{
    let mut items = Vec::new(alloc);
    let mut rest = octets;
    while let Some((message, after)) = next_message(rest) {
        let mut given = read_message(alloc, message)?;
        items.append(&mut given)?;
        rest = after;
    }
    Ok(Batch::of_items(items)?)
}
