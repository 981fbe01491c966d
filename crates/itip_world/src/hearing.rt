//! What a desk hears: a batch, a message or a delta; or why it hears nothing.
ghost use Rattle.std.specs.Prelude.{◌≡◌, OnErr, IfOk, IfErr};
ghost use Rattle.itip_desk.specs.DeltaFormat.{GivesBatch, ReadsDelta, RefusesDelta};
ghost use Rattle.itip_message.specs.Message.{RefusesMessage};
ghost use Rattle.itip_world.specs.Looking.{HearsNow, HearsOctets, StopsOctets, read_as};
ghost use Rattle.itip_world.specs.Worlds.{HearsBatch, StopsHearing};
ghost use Rattle.itip_world.specs.declared.event.Outcome.TheVariants.{Heard as heard_as};

use crate::answer::Heard;
use crate::stop::Cause;
use itip_desk::{Batch, Desk, DeskError, Refusal, read_batch, read_delta};
use itip_message::ReadError;
use std::alloc::Global;

/// The desk with this number hears the items of a message. It hears nothing if the text is refused, if an allocation fails, or if a UID
/// would move at the last tick.
pub(crate) fn hear_message(
    alloc: Global,
    desk: &mut Desk,
    number: usize,
    text: &[u8],
) -> Result<Heard, Cause>
    ensures hears { IfOk result (HearsOctets (GivesBatch text.now) desk.old desk.new) }
    ensures cause { IfErr result (StopsOctets (GivesBatch text.now) (RefusesMessage text.now) number desk.old) }
    ensures err { OnErr result (desk.new ≡ desk.old) }
{
    let batch = read(read_batch(alloc, text))?;
    hear_batch(desk, number, &batch)
}

/// The desk with this number hears the items of a delta; or nothing, as with a message.
pub(crate) fn hear_delta(
    alloc: Global,
    desk: &mut Desk,
    number: usize,
    octets: &[u8],
) -> Result<Heard, Cause>
    ensures hears { IfOk result (HearsOctets (ReadsDelta octets.now) desk.old desk.new) }
    ensures cause { IfErr result (StopsOctets (ReadsDelta octets.now) (RefusesDelta octets.now) number desk.old) }
    ensures err { OnErr result (desk.new ≡ desk.old) }
{
    let batch = read(read_delta(alloc, octets))?;
    hear_batch(desk, number, &batch)
}

/// The batch that was read, or why none was.
fn read(found: Result<Batch, ReadError>) -> Result<Batch, Cause>
    ensures { result ≡ read_as found }
{
    match found {
        Ok(batch) => Ok(batch),
        Err(ReadError::NoMemory) => Err(Cause::NoMemory),
        Err(ReadError::Refused(refusal)) => Err(Cause::Refused(Refusal::Message(refusal))),
    }
}

/// The desk with this number hears a batch.
pub(crate) fn hear_batch(desk: &mut Desk, number: usize, batch: &Batch) -> Result<Heard, Cause>
    ensures hears { IfOk result (λ heard. HearsBatch desk.old batch.now desk.new (heard_as heard.tick heard.changed)) }
    ensures now { IfOk result (HearsNow desk.old batch.now desk.new) }
    ensures cause { IfErr result (λ cause. StopsHearing number desk.old batch.now cause) }
    ensures err { OnErr result (desk.new ≡ desk.old) }
{
    match desk.take(batch) {
        Ok(changed) => {
            // No code: this tells the proof that the desk has each kept item once.
            desk.state().lawful();
            Ok(Heard {
                tick: changed.tick,
                changed: changed.uids.len(),
            })
        }
        Err(DeskError::NoMemory) => Err(Cause::NoMemory),
        Err(DeskError::TicksSpent) => Err(Cause::Refused(Refusal::TicksSpent {
            desk: number as u64,
        })),
    }
}
