//! The answer that an attendee sends.
ghost use Rattle.std.specs.Prelude.{◌≡◌, ◌∷◌, [], IfOk, IfErr};
ghost use Rattle.std.specs.Option.{option_copied};
ghost use Rattle.itip_items.specs.declared.key.Key.TheVariants as keys;
ghost use Rattle.itip_items.specs.declared.kind.Method.TheVariants as methods;
ghost use Rattle.itip_writing.specs.Causes.{IfLate};
ghost use Rattle.itip_writing.specs.Replying.{IsReply, IsLacking, CannotReply, IsAnswerRevision, IsAnswerLate};
ghost use Rattle.itip_writing.specs.Replying.{answer_key, answer_line, no_less, reply_parts};
ghost use Rattle.itip_writing.specs.Sent.{sent_octets};

use crate::NoMemory;
use crate::answer::Answer;
use crate::asked::{AskedAttendee, asked_attendee};
use crate::brief::BriefTodo;
use crate::errand::Message;
use crate::error::WritingError;
use crate::lacking::lacking_organizer;
use crate::message::{readable, write_alone};
use crate::sent_revision::SentRevision;
use crate::stamping::{kept_item, latest_equal, stamp_after};
use itip_items::{Item, Key, Method};
use itip_lines::{Params, Text};
use itip_moment::{Moment, Stamp};
use itip_state::{ItemsOfUid, State};
use itip_todo::{PartStat, Property, Uid};
use std::alloc::Global;

/// The answer of an attendee to a to-do as a whole or to an instance of it, written at the moment `at` (RFC 5546 3.4.3).
///
/// It is a REPLY with UID, DTSTAMP, the ORGANIZER of the item that governs the row in question, the RECURRENCE-ID `id`,
/// PERCENT-COMPLETE if the answer has it, and ATTENDEE with PARTSTAT and the address as the item spells it. SEQUENCE is the greater of
/// that of the item and that of the attendee's kept answer to the same. DTSTAMP is `at`, or one second after that answer if it has this
/// SEQUENCE and isn't before `at`.
///
/// Fails with `NothingStands` if there is no row in question, with `NoSuchAttendee` if it shows no attendee with this address, with
/// `NoTimeLeft` if there is no second after that answer, with `Unreadable` if the message can't be read back, being too long or with a
/// percentage above 100, and with `NoMemory` if an allocation fails.
pub fn reply_to(
    alloc: Global,
    state: &State,
    uid: &Uid,
    id: Option<&Moment>,
    answer: &Answer<'_>,
    at: Stamp,
) -> Result<Message, WritingError>
    ensures found { IfOk result (λ message. IsReply state.now uid.now (option_copied id.entry) answer.now at message.octets.items) }
    ensures lacking { IfOk result (λ message. IsLacking state.now uid.now (option_copied id.entry) message.lacking.items) }
    ensures fault { IfErr result (CannotReply state.now uid.now (option_copied id.entry) answer.now at) }
{
    let items = state.of_uid(uid)?;
    reply_of(alloc, &items, id, answer, at)
}

/// The same, given the kept items of the UID.
fn reply_of(
    alloc: Global,
    items: &ItemsOfUid<'_>,
    id: Option<&Moment>,
    answer: &Answer<'_>,
    at: Stamp,
) -> Result<Message, WritingError>
    ensures found { IfOk result (λ message.
        IsReply items.now.items items.now.uid (option_copied id.entry) answer.now at message.octets.items) }
    ensures lacking { IfOk result (λ message. IsLacking items.now.items items.now.uid (option_copied id.entry) message.lacking.items) }
    ensures fault { IfErr result (CannotReply items.now.items items.now.uid (option_copied id.entry) answer.now at) }
{
    let asked = asked_attendee(alloc, items, id, answer.attendee)?;
    let revision = answer_revision(items, id, &asked, at)?;
    let text = reply_octets(alloc, items.uid(), id, &asked, revision, answer)?;
    let octets = readable(alloc, text)?;
    let lacking = lacking_organizer(alloc, &asked.item.todo.organizer)?;
    Ok(Message { octets, lacking })
}

/// SEQUENCE and DTSTAMP of an answer that is written at the moment `at`.
///
/// Fails with `NoTimeLeft` if an answer with the same sequence has the last possible DTSTAMP.
fn answer_revision(
    items: &ItemsOfUid<'_>,
    id: Option<&Moment>,
    asked: &AskedAttendee<'_>,
    at: Stamp,
) -> Result<SentRevision, WritingError>
    ensures revision { IfOk result (λ revision. IsAnswerRevision items.now.items
        (answer_key items.now.uid (option_copied id.entry) asked.now.address) asked.now.item.now.own at revision.sequence revision.stamp) }
    ensures late { IfErr result (IfLate (IsAnswerLate items.now.items
        (answer_key items.now.uid (option_copied id.entry) asked.now.address) asked.now.item.now.own at)) }
{
    let key = answer_key(items.uid(), id, &asked.key)?;
    let sequence = no_less(asked.item.own, kept_item(items, &key));
    let stamp = stamp_after(at, latest_equal(items, &key, sequence))?;
    Ok(SentRevision { sequence, stamp })
}

/// The key of an attendee's answer.
fn answer_key(uid: &Uid, id: Option<&Moment>, attendee: &Text) -> Result<Key, NoMemory>
    ensures { IfOk result (λ key. key ≡ keys.Answer uid.now (option_copied id.entry) attendee.now) }
{
    let uid = uid.clone()?;
    let id = copied_id(id)?;
    let attendee = attendee.clone()?;
    Ok(Key::Answer(uid, id, attendee))
}

/// A copy of a recurrence id, if there is one.
pub(crate) fn copied_id(id: Option<&Moment>) -> Result<Option<Moment>, NoMemory>
    ensures { IfOk result (λ copy. copy ≡ option_copied id.entry) }
{
    match id {
        Some(id) => Ok(Some(id.clone()?)),
        None => Ok(None),
    }
}

/// The greater of a sequence and that of an answer, if there is one.
fn no_less(own: u32, answer: Option<&Item>) -> u32
    ensures { result ≡ no_less own (option_copied answer.entry) }
{
    match answer {
        Some(answer) => own.max(answer.own),
        None => own,
    }
}

/// The bytes of an answer.
fn reply_octets(
    alloc: Global,
    uid: &Uid,
    id: Option<&Moment>,
    asked: &AskedAttendee<'_>,
    revision: SentRevision,
    answer: &Answer<'_>,
) -> Result<Vec<u8>, NoMemory>
    ensures { IfOk result (λ octets. octets.items ≡ sent_octets methods.Reply
        (reply_parts uid.now (option_copied id.entry) revision.stamp revision.sequence answer.now.percent
        asked.now.item.now.todo.organizer (answer_line asked.now.address answer.now.status) ∷ [])) }
{
    let line = answer_line(alloc, &asked.address, answer.status)?;
    let brief = BriefTodo {
        uid,
        stamp: revision.stamp,
        seq: revision.sequence,
        rid: id,
        range: false,
        status: None,
        percent: answer.percent,
        organizer: &asked.item.todo.organizer,
        attendees: line.as_slice(),
    };
    write_alone(alloc, Method::Reply, brief)
}

/// A list of one ATTENDEE line, that of an answer: the address, and PARTSTAT.
fn answer_line(alloc: Global, address: &Text, status: PartStat) -> Result<Vec<Property>, NoMemory>
    ensures { IfOk result (λ lines. lines.items ≡ answer_line address.now status ∷ []) }
{
    let params = Params::one(alloc, "PARTSTAT", status.as_str())?;
    let mut lines = Vec::new(alloc);
    lines.push(Property::new(alloc, &params, address.as_str())?)?;
    Ok(lines)
}
