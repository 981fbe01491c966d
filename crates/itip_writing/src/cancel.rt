//! Cancelling a to-do or an instance of it.
ghost use Rattle.std.specs.Prelude.{◌≡◌, ◌∷◌, [], IfOk, IfErr};
ghost use Rattle.std.specs.Option.{option_copied};
ghost use Rattle.itip_report.specs.NextSequence.{IsNext};
ghost use Rattle.itip_view.specs.InQuestion.{IsInQuestion, NoneInQuestion};
ghost use Rattle.itip_writing.specs.Cancelling.{IsCancelling, CannotCancel, IsSent, IsUnread, cancelled};
ghost use Rattle.itip_writing.specs.Causes.{IfNothing, IfUnread};
ghost use Rattle.itip_writing.specs.Replying.{IsLacking};
ghost use Rattle.itip_writing.specs.Sent.{brief_parts};

use crate::brief::BriefTodo;
use crate::errand::Message;
use crate::error::WritingError;
use crate::lacking::lacking_organizer;
use crate::message::{readable, write_alone};
use crate::sent_revision::SentRevision;
use itip_items::{Item, Method};
use itip_moment::{Moment, Stamp};
use itip_report::next_seq;
use itip_state::{ItemsOfUid, State};
use itip_todo::{Status, Uid};
use itip_view::InQuestion;
use std::alloc::Global;

/// The message that cancels a to-do as a whole or an instance of it, written at the moment `at` (RFC 5546 3.4.5).
///
/// It is a CANCEL with STATUS:CANCELLED, UID, the RECURRENCE-ID `id`, and the ORGANIZER and all ATTENDEE lines of the item that governs
/// the row in question. SEQUENCE is the next of the UID, which no series, instance or range item heard so far has, so DTSTAMP is `at`.
///
/// Fails with `NothingStands` if there is no row in question, with `NoSequenceLeft` if the greatest SEQUENCE has been used, with
/// `Unreadable` if the message is too long to be read back, and with `NoMemory` if an allocation fails.
pub fn cancellation(
    alloc: Global,
    state: &State,
    uid: &Uid,
    id: Option<&Moment>,
    at: Stamp,
) -> Result<Message, WritingError>
    ensures found { IfOk result (λ message. IsCancelling state.now uid.now (option_copied id.entry) at message.octets.items) }
    ensures lacking { IfOk result (λ message. IsLacking state.now uid.now (option_copied id.entry) message.lacking.items) }
    ensures fault { IfErr result (CannotCancel state.now uid.now (option_copied id.entry) at) }
{
    let items = state.of_uid(uid)?;
    cancellation_of(alloc, &items, id, next_seq(state, uid), at)
}

/// The same, given the kept items of the UID and its next sequence.
fn cancellation_of(
    alloc: Global,
    items: &ItemsOfUid<'_>,
    id: Option<&Moment>,
    next: Option<u32>,
    at: Stamp,
) -> Result<Message, WritingError>
    requires { IsNext items.now.items items.now.uid next }
    ensures found { IfOk result (λ message. IsCancelling items.now.items items.now.uid (option_copied id.entry) at message.octets.items) }
    ensures lacking { IfOk result (λ message. IsLacking items.now.items items.now.uid (option_copied id.entry) message.lacking.items) }
    ensures fault { IfErr result (CannotCancel items.now.items items.now.uid (option_copied id.entry) at) }
{
    let item = governing(alloc, items, id)?;
    let Some(sequence) = next else {
        return Err(WritingError::NoSequenceLeft);
    };
    // Each item of the key has a smaller sequence.
    let revision = SentRevision {
        sequence,
        stamp: at,
    };
    let brief = cancelled(items.uid(), item, id, false, revision);
    let octets = sent_alone(alloc, brief)?;
    let lacking = lacking_organizer(alloc, &item.todo.organizer)?;
    Ok(Message { octets, lacking })
}

/// The item that governs the row in question.
///
/// Fails with `NothingStands` if there is no such row.
pub(crate) fn governing<'a>(
    alloc: Global,
    items: &ItemsOfUid<'a>,
    id: Option<&Moment>,
) -> Result<&'a Item, WritingError>
    ensures item { IfOk result (λ item. IsInQuestion items.now.items items.now.uid (option_copied id.entry) item.now) }
    ensures none { IfErr result (IfNothing (NoneInQuestion items.now.items items.now.uid (option_copied id.entry))) }
{
    let question = InQuestion::of(alloc, items)?;
    match question.governing(id) {
        Some(item) => Ok(item),
        None => Err(WritingError::NothingStands),
    }
}

/// A to-do that cancels a to-do as a whole, an instance, or an instance and all after it, and goes to all attendees of an item.
pub(crate) fn cancelled<'a>(
    uid: &'a Uid,
    item: &'a Item,
    id: Option<&'a Moment>,
    range: bool,
    revision: SentRevision,
) -> BriefTodo<'a>
    ensures { brief_parts result ≡ cancelled uid.now item.now (option_copied id.entry) range revision.sequence revision.stamp }
{
    BriefTodo {
        uid,
        stamp: revision.stamp,
        seq: revision.sequence,
        rid: id,
        range,
        status: Some(Status::Cancelled),
        percent: None,
        organizer: &item.todo.organizer,
        attendees: item.todo.attendees.as_slice(),
    }
}

/// The bytes of a CANCEL with this to-do alone.
///
/// Fails with `Unreadable` if they can't be read back.
pub(crate) fn sent_alone(alloc: Global, brief: BriefTodo<'_>) -> Result<Vec<u8>, WritingError>
    ensures sent { IfOk result (λ octets. IsSent (brief_parts brief.entry ∷ []) octets.items) }
    ensures unread { IfErr result (IfUnread (IsUnread (brief_parts brief.entry ∷ []))) }
{
    let text = write_alone(alloc, Method::Cancel, brief)?;
    readable(alloc, text)
}
