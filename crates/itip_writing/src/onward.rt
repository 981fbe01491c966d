//! Cancelling an instance of a to-do and all after it.
ghost use Rattle.std.specs.Prelude.{◌≡◌, ◌↔◌, ◌∷◌, [], IsTrue, IfOk, IfErr, Some, map};
ghost use Rattle.std.specs.List.{list_any};
ghost use Rattle.std.specs.Option.{is_none, option_copied};
ghost use Rattle.itip_view.specs.RowsOfUid.{StandsBesideOf};
ghost use Rattle.itip_view.specs.Standing.{IsLive};
ghost use Rattle.itip_report.specs.Lines.{AreReported};
ghost use Rattle.itip_report.specs.NextSequence.{IsNext};
ghost use Rattle.itip_report.specs.Sought.{IsAmong};
ghost use Rattle.itip_writing.specs.Cancelling.{IsCancellingOnward, CannotCancelOnward, IsOnwardLacking, IsAfter, IsSent, IsUnread};
ghost use Rattle.itip_writing.specs.Cancelling.{lacking_among};
ghost use Rattle.itip_writing.specs.Causes.{IfUnread};
ghost use Rattle.itip_writing.specs.Endings.{EndsLater, ending_of, endings_of, first_endings, instance_ending, names_instance};
ghost use Rattle.itip_writing.specs.Endings.{names_range, override_of};
ghost use Rattle.itip_writing.specs.Sent.{brief_parts};

use crate::NoMemory;
use crate::brief::BriefTodo;
use crate::cancel::{cancelled, governing};
use crate::errand::Message;
use crate::error::WritingError;
use crate::lacking::lacking_organizer;
use crate::message::{readable, write_briefs};
use crate::sent_revision::SentRevision;
use itip_items::{Item, Key, Method};
use itip_moment::{Moment, Stamp};
use itip_report::{by_place, next_seq};
use itip_state::{ItemsOfUid, State};
use itip_todo::{PropertyName, Uid};
use itip_view::{have_one_form, is_live, stands_beside};
use std::alloc::Global;

/// What is cancelled from a moment on, and the revision that cancels it.
#[derive(Clone, Copy, Drop)]
struct Onward<'a> {
    uid: &'a Uid,
    from: &'a Moment,
    revision: SentRevision,
}

/// The message that cancels an instance of a to-do and all after it, written at the moment `at` (RFC 5546 3.4.5, RFC 5545 3.2.13).
///
/// It is a CANCEL of the instance `id` with RANGE=THISANDFUTURE, with the ORGANIZER and all ATTENDEE lines of the item that governs the
/// row in question. It also has a to-do for each live instance item that stands at `id` or later, and for each live range item that
/// stands later, of the form and zone of `id`, each with its own ORGANIZER and ATTENDEE lines: without these, such items would still
/// stand under the cancelled range. The to-dos are ordered by moment, an instance before the range of its moment. All have
/// STATUS:CANCELLED, the next SEQUENCE of the UID, and `at` as DTSTAMP.
///
/// Fails with `NothingStands` if there is no row in question, with `NoSequenceLeft` if the greatest SEQUENCE has been used, with
/// `Unreadable` if the message is too long to be read back, and with `NoMemory` if an allocation fails.
pub fn onward_cancellation(
    alloc: Global,
    state: &State,
    uid: &Uid,
    id: &Moment,
    at: Stamp,
) -> Result<Message, WritingError>
    ensures found { IfOk result (λ message. IsCancellingOnward state.now uid.now id.now at message.octets.items) }
    ensures lacking { IfOk result (λ message. IsOnwardLacking state.now uid.now id.now message.lacking.items) }
    ensures fault { IfErr result (CannotCancelOnward state.now uid.now id.now at) }
{
    let items = state.of_uid(uid)?;
    onward_of(alloc, &items, id, next_seq(state, uid), at)
}

/// The same, given the kept items of the UID and its next sequence.
fn onward_of(
    alloc: Global,
    items: &ItemsOfUid<'_>,
    from: &Moment,
    next: Option<u32>,
    at: Stamp,
) -> Result<Message, WritingError>
    requires { IsNext items.now.items items.now.uid next }
    ensures found { IfOk result (λ message. IsCancellingOnward items.now.items items.now.uid from.now at message.octets.items) }
    ensures lacking { IfOk result (λ message. IsOnwardLacking items.now.items items.now.uid from.now message.lacking.items) }
    ensures fault { IfErr result (CannotCancelOnward items.now.items items.now.uid from.now at) }
{
    let item = governing(alloc, items, Some(from))?;
    let Some(sequence) = next else {
        return Err(WritingError::NoSequenceLeft);
    };
    // Each item of the keys has a smaller sequence.
    let revision = SentRevision {
        sequence,
        stamp: at,
    };
    let onward = Onward {
        uid: items.uid(),
        from,
        revision,
    };
    let later = later_items(alloc, items, from)?;
    let all = endings(alloc, onward, item, &later)?;
    let octets = sent_together(alloc, &all)?;
    let lacking = lacking_among(alloc, &all)?;
    Ok(Message { octets, lacking })
}

/// The live instance and range items of a UID that stand after a moment, of its form and zone, by place.
fn later_items<'a>(
    alloc: Global,
    items: &ItemsOfUid<'a>,
    from: &Moment,
) -> Result<Vec<&'a Item>, NoMemory>
    ensures { IfOk result (λ later. AreReported (EndsLater items.now.items items.now.uid from.now) (map (λ item. item.now) later.items)) }
{
    let mut later = Vec::new(alloc);
    for item in items.as_slice() {
        if ends_later(items, from, item) {
            later.push(*item)?;
        }
    }
    by_place(later)
}

/// Whether one of the kept items of a UID is a live instance or range item that stands after a moment, of its form and zone.
fn ends_later(items: &ItemsOfUid<'_>, from: &Moment, item: &Item) -> bool
    requires { IsAmong items.now item.now }
    ensures { IsTrue result ↔ EndsLater items.now.items items.now.uid from.now item.now }
{
    match override_of(&item.key) {
        Some(id) => ends_from(items, from, id, item),
        None => false,
    }
}

/// The same, given the moment of the item.
fn ends_from(items: &ItemsOfUid<'_>, from: &Moment, id: &Moment, item: &Item) -> bool
    requires among { IsAmong items.now item.now }
    requires named { override_of item.now.key ≡ Some id.now }
    ensures { IsTrue result ↔ EndsLater items.now.items items.now.uid from.now item.now }
{
    if is_after(from, id) {
        lives_beside(items.series(), item)
    } else {
        false
    }
}

/// Whether an instance or range item is live and stands beside the series item of its UID, if there is one.
fn lives_beside(series: Option<&Item>, item: &Item) -> bool
    ensures { IsTrue result ↔ (IsLive item.now × StandsBesideOf (option_copied series.entry) item.now) }
{
    if is_live(item.kind) {
        stands_beside(series, item)
    } else {
        false
    }
}

/// The moment of an instance key, or the first of a range key; `None` for other keys.
fn override_of(key: &Key) -> Option<&Moment>
    ensures { option_copied result ≡ override_of key.now }
{
    match key {
        Key::Instance(_, id) | Key::Range(_, id) => Some(id),
        Key::Series(_) | Key::Answer(_, _, _) | Key::Refresh(_, _, _) => None,
    }
}

/// Whether a moment has the form and zone of another and is after it.
fn is_after(from: &Moment, at: &Moment) -> bool
    ensures { IsTrue result ↔ IsAfter from.now at.now }
{
    if have_one_form(from, at) {
        at.cmp(from).is_gt()
    } else {
        false
    }
}

/// The to-dos that cancel the instance at the moment, if need be, and all from it on, by the item that governs the row in question; then
/// one for each later item.
fn endings<'a>(
    alloc: Global,
    onward: Onward<'a>,
    item: &'a Item,
    later: &[&'a Item],
) -> Result<Vec<BriefTodo<'a>>, NoMemory>
    ensures { IfOk result (λ all. map brief_parts all.items ≡ endings_of onward.entry.uid.now item.now onward.entry.from.now
        onward.entry.revision.sequence onward.entry.revision.stamp (map (λ item. item.now) later.now)) }
{
    let mut all = first_endings(alloc, onward, item)?;
    for one in later {
        all.push(ending(onward, *one))?;
    }
    Ok(all)
}

/// The to-dos that cancel the instance at the moment, if the item is that of an instance, and all from the moment on.
fn first_endings<'a>(
    alloc: Global,
    onward: Onward<'a>,
    item: &'a Item,
) -> Result<Vec<BriefTodo<'a>>, NoMemory>
    ensures { IfOk result (λ first. map brief_parts first.items ≡ first_endings onward.entry.uid.now item.now onward.entry.from.now
        onward.entry.revision.sequence onward.entry.revision.stamp) }
{
    let mut first = instance_ending(alloc, onward, item)?;
    first.push(cancelled(onward.uid, item, Some(onward.from), true, onward.revision))?;
    Ok(first)
}

/// The to-do that cancels the instance at the moment, if the item is that of an instance; else none.
fn instance_ending<'a>(
    alloc: Global,
    onward: Onward<'a>,
    item: &'a Item,
) -> Result<Vec<BriefTodo<'a>>, NoMemory>
    ensures { IfOk result (λ first. map brief_parts first.items ≡ instance_ending onward.entry.uid.now item.now onward.entry.from.now
        onward.entry.revision.sequence onward.entry.revision.stamp) }
{
    if names_instance(&item.key) {
        let brief = cancelled(onward.uid, item, Some(onward.from), false, onward.revision);
        alone(alloc, brief)
    } else {
        Ok(Vec::new(alloc))
    }
}

/// A list of this to-do alone.
fn alone<'a>(alloc: Global, brief: BriefTodo<'a>) -> Result<Vec<BriefTodo<'a>>, NoMemory>
    ensures { IfOk result (λ all. all.items ≡ brief.entry ∷ []) }
{
    let mut all = Vec::new(alloc);
    all.push(brief)?;
    Ok(all)
}

/// The to-do that cancels the instance or range of an item.
fn ending<'a>(onward: Onward<'a>, item: &'a Item) -> BriefTodo<'a>
    ensures { brief_parts result
        ≡ ending_of onward.entry.uid.now onward.entry.revision.sequence onward.entry.revision.stamp item.now }
{
    cancelled(
        onward.uid,
        item,
        item.key.instance(),
        names_range(&item.key),
        onward.revision,
    )
}

/// Whether a key is that of an instance alone.
fn names_instance(key: &Key) -> bool
    ensures { result ≡ names_instance key.now }
{
    matches!(key, Key::Instance(_, _))
}

/// Whether a key is that of an instance and all after it.
fn names_range(key: &Key) -> bool
    ensures { result ≡ names_range key.now }
{
    matches!(key, Key::Range(_, _))
}

/// The bytes of a CANCEL with these to-dos.
///
/// Fails with `Unreadable` if they can't be read back.
fn sent_together(alloc: Global, all: &[BriefTodo<'_>]) -> Result<Vec<u8>, WritingError>
    ensures sent { IfOk result (λ octets. IsSent (map brief_parts all.now) octets.items) }
    ensures unread { IfErr result (IfUnread (IsUnread (map brief_parts all.now))) }
{
    let text = write_briefs(alloc, Method::Cancel, all)?;
    readable(alloc, text)
}

/// ORGANIZER if one of these to-dos has none.
fn lacking_among(alloc: Global, all: &[BriefTodo<'_>]) -> Result<Vec<PropertyName>, NoMemory>
    ensures { IfOk result (λ names. names.items ≡ lacking_among (map brief_parts all.now)) }
{
    if some_lacks(all) {
        lacking_organizer(alloc, &None)
    } else {
        Ok(Vec::new(alloc))
    }
}

/// Whether one of these to-dos has no ORGANIZER.
fn some_lacks(all: &[BriefTodo<'_>]) -> bool
    ensures { result ≡ list_any (λ brief. is_none brief.organizer.now) all.now }
{
    all.iter().any(|brief| brief.organizer.is_none())
}
