//! The refresh request of an attendee, who asks for the latest revision.
ghost use Rattle.std.specs.Prelude.{◌≡◌, ◌∷◌, [], IfOk, IfErr};
ghost use Rattle.std.specs.Option.{option_copied};
ghost use Rattle.itip_items.specs.declared.key.Key.TheVariants as keys;
ghost use Rattle.itip_items.specs.declared.kind.Method.TheVariants as methods;
ghost use Rattle.itip_writing.specs.Causes.{IfLate};
ghost use Rattle.itip_writing.specs.Refreshing.{IsRefresh, CannotRefresh, IsBefore, refresh_key, refresh_line, refresh_parts};
ghost use Rattle.itip_writing.specs.Replying.{IsLacking};
ghost use Rattle.itip_writing.specs.Sent.{sent_octets};
ghost use Rattle.itip_writing.specs.Stamping.{IsStampAfter, IsTimeSpent};

use crate::NoMemory;
use crate::asked::{AskedAttendee, asked_attendee};
use crate::brief::BriefTodo;
use crate::errand::Message;
use crate::error::WritingError;
use crate::lacking::lacking_organizer;
use crate::message::{readable, write_alone};
use crate::reply::copied_id;
use crate::stamping::{later_stamp, latest_equal, stamp_after};
use itip_items::{Key, Method};
use itip_lines::{Params, Text};
use itip_moment::{Moment, Stamp};
use itip_state::{ItemsOfUid, State};
use itip_todo::{Property, Uid};
use std::alloc::Global;

/// The refresh request of an attendee for a to-do as a whole or for an instance of it, written at the moment `at` (RFC 5546 3.4.6).
///
/// It is a REFRESH with UID, DTSTAMP, the ORGANIZER of the item that governs the row in question, the RECURRENCE-ID `id`, and ATTENDEE
/// with the address as the item spells it. DTSTAMP is `at`, or one second after the later of that item and the attendee's kept refresh
/// request, if that isn't before `at`; a kept one with a SEQUENCE above 0 is passed over.
///
/// Fails with `NothingStands` if there is no row in question, with `NoSuchAttendee` if it shows no attendee with this address, with
/// `NoTimeLeft` if there is no such second, with `Unreadable` if the message is too long to be read back, and with `NoMemory` if an
/// allocation fails.
pub fn refresh_of(
    alloc: Global,
    state: &State,
    uid: &Uid,
    id: Option<&Moment>,
    attendee: &str,
    at: Stamp,
) -> Result<Message, WritingError>
    ensures found { IfOk result (λ message. IsRefresh state.now uid.now (option_copied id.entry) attendee.now at message.octets.items) }
    ensures lacking { IfOk result (λ message. IsLacking state.now uid.now (option_copied id.entry) message.lacking.items) }
    ensures fault { IfErr result (CannotRefresh state.now uid.now (option_copied id.entry) attendee.now at) }
{
    let items = state.of_uid(uid)?;
    refresh_among(alloc, &items, id, attendee, at)
}

/// The same, given the kept items of the UID.
fn refresh_among(
    alloc: Global,
    items: &ItemsOfUid<'_>,
    id: Option<&Moment>,
    attendee: &str,
    at: Stamp,
) -> Result<Message, WritingError>
    ensures found { IfOk result (λ message.
        IsRefresh items.now.items items.now.uid (option_copied id.entry) attendee.now at message.octets.items) }
    ensures lacking { IfOk result (λ message. IsLacking items.now.items items.now.uid (option_copied id.entry) message.lacking.items) }
    ensures fault { IfErr result (CannotRefresh items.now.items items.now.uid (option_copied id.entry) attendee.now at) }
{
    let asked = asked_attendee(alloc, items, id, attendee)?;
    let stamp = refresh_stamp(items, id, &asked, at)?;
    let text = refresh_octets(alloc, items.uid(), id, &asked, stamp)?;
    let octets = readable(alloc, text)?;
    let lacking = lacking_organizer(alloc, &asked.item.todo.organizer)?;
    Ok(Message { octets, lacking })
}

/// DTSTAMP of a refresh request that is written at the moment `at`.
///
/// Fails with `NoTimeLeft` if the item that governs, or a kept refresh request of sequence 0, has the last possible DTSTAMP.
fn refresh_stamp(
    items: &ItemsOfUid<'_>,
    id: Option<&Moment>,
    asked: &AskedAttendee<'_>,
    at: Stamp,
) -> Result<Stamp, WritingError>
    ensures stamp { IfOk result (IsStampAfter (IsBefore items.now.items
        (refresh_key items.now.uid (option_copied id.entry) asked.now.address) asked.now.item.now) at) }
    ensures late { IfErr result (IfLate (IsTimeSpent (IsBefore items.now.items
        (refresh_key items.now.uid (option_copied id.entry) asked.now.address) asked.now.item.now) at)) }
{
    let key = refresh_key(items.uid(), id, &asked.key)?;
    let latest = later_stamp(latest_equal(items, &key, 0), asked.item.stamp);
    stamp_after(at, Some(latest))
}

/// The key of an attendee's refresh request.
fn refresh_key(uid: &Uid, id: Option<&Moment>, attendee: &Text) -> Result<Key, NoMemory>
    ensures { IfOk result (λ key. key ≡ keys.Refresh uid.now (option_copied id.entry) attendee.now) }
{
    let uid = uid.clone()?;
    let id = copied_id(id)?;
    let attendee = attendee.clone()?;
    Ok(Key::Refresh(uid, id, attendee))
}

/// The bytes of a refresh request.
fn refresh_octets(
    alloc: Global,
    uid: &Uid,
    id: Option<&Moment>,
    asked: &AskedAttendee<'_>,
    stamp: Stamp,
) -> Result<Vec<u8>, NoMemory>
    ensures { IfOk result (λ octets. octets.items ≡ sent_octets methods.Refresh
        (refresh_parts uid.now (option_copied id.entry) stamp asked.now.item.now.todo.organizer asked.now.address ∷ [])) }
{
    let line = refresh_line(alloc, &asked.address)?;
    let brief = BriefTodo {
        uid,
        stamp,
        seq: 0,
        rid: id,
        range: false,
        status: None,
        percent: None,
        organizer: &asked.item.todo.organizer,
        attendees: line.as_slice(),
    };
    write_alone(alloc, Method::Refresh, brief)
}

/// A list of one ATTENDEE line, that of a refresh request: the address alone.
fn refresh_line(alloc: Global, address: &Text) -> Result<Vec<Property>, NoMemory>
    ensures { IfOk result (λ lines. lines.items ≡ refresh_line address.now ∷ []) }
{
    let params = Params::new(alloc);
    let mut lines = Vec::new(alloc);
    lines.push(Property::new(alloc, &params, address.as_str())?)?;
    Ok(lines)
}
