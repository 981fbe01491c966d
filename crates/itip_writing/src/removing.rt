//! Removing attendees from a to-do or from an instance of it.
ghost use Rattle.std.specs.Prelude.{◌≡◌, ◌↔◌, ◌∷◌, [], IsTrue, IfOk, OnOk, IfErr, None, false, map};
ghost use Rattle.std.specs.Option.{option_copied};
ghost use Rattle.std.specs.String.{string_bytes};
ghost use Rattle.itip_items.specs.declared.key.Key.TheVariants as keys;
ghost use Rattle.itip_report.specs.NextSequence.{IsNext};
ghost use Rattle.itip_view.specs.InQuestion.{NoneInQuestion};
ghost use Rattle.itip_writing.specs.Cancelling.{IsSent, IsUnread, notice};
ghost use Rattle.itip_writing.specs.Causes.{IfCause, IfOvertaken, IfUnread};
ghost use Rattle.itip_writing.specs.Removing.{IsRemoving, CannotRemove, IsRemovable, IsNobody, IsOvertaken, ShowsAll, ShowsEach};
ghost use Rattle.itip_writing.specs.Removing.{IsNoGreater, IsGreater, lines_of, removed_keys, with_stamp};
ghost use Rattle.itip_writing.specs.Replying.{IsLacking};
ghost use Rattle.itip_writing.specs.Stamping.{IsEqualRevision, IsKeptOf, IsLatestOf, equal_stamp};

use crate::NoMemory;
use crate::asked::row_in_question;
use crate::attendee_keys::{has_key, keys_of, keys_of_shown};
use crate::brief::BriefTodo;
use crate::cancel::sent_alone;
use crate::errand::Message;
use crate::error::WritingError;
use crate::lacking::lacking_organizer;
use crate::sent_revision::SentRevision;
use crate::stamping::{later_stamp, stamp_after};
use itip_items::Item;
use itip_moment::{Moment, Stamp};
use itip_report::next_seq;
use itip_state::{ItemsOfUid, State};
use itip_todo::{Property, Uid, attendee_key};
use itip_view::ShownAttendee;
use std::alloc::Global;

/// The message that removes the attendees with these addresses from a to-do as a whole or from an instance of it, written at the
/// moment `at` (RFC 5546 3.4.5).
///
/// It is a CANCEL without STATUS, with UID, the RECURRENCE-ID `id`, the ORGANIZER of the item that governs the row in question, and
/// that item's ATTENDEE lines of these attendees, in its order. SEQUENCE is the next of the UID. DTSTAMP is `at`, or one second after
/// the latest of their kept answers to the same that have this SEQUENCE, if that isn't before `at`. So the removal is later than each
/// of their answers to the same.
///
/// Fails with `NothingStands` if there is no row in question, with `NoSuchAttendee` if no address is given or one is that of nobody that
/// the row shows, with `NoSequenceLeft` if the greatest SEQUENCE has been used, with `AnswerOvertakes` if one of their answers has a
/// greater SEQUENCE than the removal, with `NoTimeLeft` if there is no second after an answer with the same SEQUENCE, with `Unreadable`
/// if the message is too long to be read back, and with `NoMemory` if an allocation fails.
pub fn removal(
    alloc: Global,
    state: &State,
    uid: &Uid,
    id: Option<&Moment>,
    attendees: &[String],
    at: Stamp,
) -> Result<Message, WritingError>
    ensures found { IfOk result (λ message.
        IsRemoving state.now uid.now (option_copied id.entry) (map string_bytes attendees.now) at message.octets.items) }
    ensures lacking { IfOk result (λ message. IsLacking state.now uid.now (option_copied id.entry) message.lacking.items) }
    ensures fault { IfErr result (CannotRemove state.now uid.now (option_copied id.entry) (map string_bytes attendees.now) at) }
{
    let items = state.of_uid(uid)?;
    removal_of(alloc, &items, id, attendees, next_seq(state, uid), at)
}

/// The same, given the kept items of the UID and its next sequence.
fn removal_of(
    alloc: Global,
    items: &ItemsOfUid<'_>,
    id: Option<&Moment>,
    attendees: &[String],
    next: Option<u32>,
    at: Stamp,
) -> Result<Message, WritingError>
    requires { IsNext items.now.items items.now.uid next }
    ensures found { IfOk result (λ message.
        IsRemoving items.now.items items.now.uid (option_copied id.entry) (map string_bytes attendees.now) at message.octets.items) }
    ensures lacking { IfOk result (λ message. IsLacking items.now.items items.now.uid (option_copied id.entry) message.lacking.items) }
    ensures fault { IfErr result
        (CannotRemove items.now.items items.now.uid (option_copied id.entry) (map string_bytes attendees.now) at) }
{
    let item = removable(alloc, items, id, attendees)?;
    let Some(sequence) = next else {
        return Err(WritingError::NoSequenceLeft);
    };
    let lines = lines_of(alloc, item.todo.attendees.as_slice(), attendees)?;
    let latest = latest_answer(alloc, items, id, &lines, sequence)?;
    let stamp = stamp_after(at, latest)?;
    let revision = SentRevision { sequence, stamp };
    let octets = removal_octets(alloc, items.uid(), item, id, &lines, revision)?;
    let lacking = lacking_organizer(alloc, &item.todo.organizer)?;
    Ok(Message { octets, lacking })
}

/// The item that governs the row in question, if the row shows each of these attendees.
///
/// Fails with `NothingStands` if there is no such row, and with `NoSuchAttendee` if it doesn't show all of them or none is given.
fn removable<'a>(
    alloc: Global,
    items: &ItemsOfUid<'a>,
    id: Option<&Moment>,
    attendees: &[String],
) -> Result<&'a Item, WritingError>
    ensures found { IfOk result (λ item.
        IsRemovable items.now.items items.now.uid (option_copied id.entry) (map string_bytes attendees.now) item.now) }
    ensures fault { IfErr result (IfCause (NoneInQuestion items.now.items items.now.uid (option_copied id.entry))
        (IsNobody items.now.items items.now.uid (option_copied id.entry) (map string_bytes attendees.now)) ⊥ ⊥ ⊥ ⊥ (λ _. ⊥)) }
{
    let row = row_in_question(alloc, items, id)?;
    let each = shows_each(alloc, row.attendees.as_slice(), attendees)?;
    if each {
        Ok(row.item)
    } else {
        Err(WritingError::NoSuchAttendee)
    }
}

/// Whether at least one address is given, and each is that of a shown attendee.
fn shows_each(
    alloc: Global,
    shown: &[ShownAttendee],
    attendees: &[String],
) -> Result<bool, NoMemory>
    ensures { IfOk result (λ each. IsTrue each ↔ ShowsEach shown.now (map string_bytes attendees.now)) }
{
    if attendees.is_empty() {
        return Ok(false);
    }
    each_shown(alloc, shown, attendees)
}

/// Whether each of these addresses is that of a shown attendee. A program may give any number of them, so each is looked up.
fn each_shown(
    alloc: Global,
    shown: &[ShownAttendee],
    attendees: &[String],
) -> Result<bool, NoMemory>
    ensures { IfOk result (λ each. IsTrue each ↔ ShowsAll shown.now (map string_bytes attendees.now)) }
{
    let keys = keys_of_shown(alloc, shown)?;
    for address in attendees {
        let is_shown = has_key(alloc, &keys, address.as_str())?;
        if !is_shown {
            return Ok(false);
        }
    }
    Ok(true)
}

/// Copies of those ATTENDEE lines that have one of these addresses, in their order.
fn lines_of(
    alloc: Global,
    lines: &[Property],
    attendees: &[String],
) -> Result<Vec<Property>, NoMemory>
    ensures { IfOk result (λ found. found.items ≡ lines_of (map string_bytes attendees.now) lines.now) }
{
    let keys = keys_of(alloc, attendees)?;
    let mut found = Vec::new(alloc);
    for line in lines {
        let is_one = has_key(alloc, &keys, line.value())?;
        if !is_one {
            continue;
        }
        found.push(line.clone()?)?;
    }
    Ok(found)
}

/// The latest DTSTAMP among the kept answers with this sequence of the attendees on these lines, or `None` if there are none.
///
/// Fails with `AnswerOvertakes` if one of their answers has a greater sequence.
fn latest_answer(
    alloc: Global,
    items: &ItemsOfUid<'_>,
    id: Option<&Moment>,
    lines: &[Property],
    sequence: u32,
) -> Result<Option<Stamp>, WritingError>
    ensures latest { IfOk result (IsLatestOf (IsEqualRevision items.now.items
        (removed_keys items.now.uid (option_copied id.entry) lines.now) sequence)) }
    ensures first { OnOk result (¬ IsOvertaken items.now.items
        (removed_keys items.now.uid (option_copied id.entry) lines.now) sequence) }
    ensures overtaken { IfErr result (IfOvertaken (IsOvertaken items.now.items
        (removed_keys items.now.uid (option_copied id.entry) lines.now) sequence)) }
{
    let mut latest = None;
    for line in lines {
        let key = attendee_key(alloc, line.value())?;
        let answer = kept_answer(items, id, key.as_str());
        latest = with_answer(latest, answer, sequence)?;
    }
    Ok(latest)
}

/// The kept answer of the attendee with this key, or `None` if none is kept. Allocates nothing.
fn kept_answer<'a>(items: &ItemsOfUid<'a>, id: Option<&Moment>, attendee: &str) -> Option<&'a Item>
    ensures { IsKeptOf items.now.items (keys.Answer items.now.uid (option_copied id.entry) attendee.now) (option_copied result) }
{
    // For the proof: the contract of this call says that each of the items is kept beside the others.
    let _kept = items.as_slice();
    items.answer(id, attendee)
}

/// The later of a stamp and the DTSTAMP of an answer, if the answer has this sequence; else the stamp.
///
/// Fails with `AnswerOvertakes` if the answer has a greater one.
fn with_answer(
    latest: Option<Stamp>,
    answer: Option<&Item>,
    sequence: u32,
) -> Result<Option<Stamp>, WritingError>
    ensures latest { IfOk result (λ later. later ≡ with_stamp latest (equal_stamp sequence (option_copied answer.entry))) }
    ensures first { OnOk result (IsNoGreater sequence (option_copied answer.entry)) }
    ensures overtaken { IfErr result (IfOvertaken (IsGreater sequence (option_copied answer.entry))) }
{
    let Some(answer) = answer else {
        return Ok(latest);
    };
    if sequence < answer.eff {
        return Err(WritingError::AnswerOvertakes);
    }
    if answer.eff == sequence {
        Ok(Some(later_stamp(latest, answer.stamp)))
    } else {
        Ok(latest)
    }
}

/// The bytes of a message that removes the attendees on these lines.
///
/// Fails with `Unreadable` if they can't be read back.
fn removal_octets(
    alloc: Global,
    uid: &Uid,
    item: &Item,
    id: Option<&Moment>,
    lines: &[Property],
    revision: SentRevision,
) -> Result<Vec<u8>, WritingError>
    ensures sent { IfOk result (λ octets. IsSent (notice uid.now item.now (option_copied id.entry) false None lines.now
        revision.sequence revision.stamp ∷ []) octets.items) }
    ensures unread { IfErr result (IfUnread (IsUnread (notice uid.now item.now (option_copied id.entry) false None lines.now
        revision.sequence revision.stamp ∷ []))) }
{
    let brief = BriefTodo {
        uid,
        stamp: revision.stamp,
        seq: revision.sequence,
        rid: id,
        range: false,
        status: None,
        percent: None,
        organizer: &item.todo.organizer,
        attendees: lines,
    };
    sent_alone(alloc, brief)
}
