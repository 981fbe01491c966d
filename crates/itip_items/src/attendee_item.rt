//! What the item of an attendee keeps of its to-do.
ghost use Rattle.std.specs.Prelude.{◌≡◌, ◌∷◌, [], IfOk};
ghost use Rattle.itip_todo.specs.Lawful.{IsLawful};
ghost use Rattle.itip_todo.specs.PartsOf.{parts_of};
ghost use Rattle.itip_items.specs.Items.{only_of, kept_with, IsFrontOf, attendee_key_of, refreshes};

use crate::canonical::write_front;
use crate::key::Key;
use crate::kind::Kind;
use crate::octets::Front;
use itip_lines::{LineList, ListOf, NoMemory, TextList};
use itip_moment::Moment;
use itip_todo::{Property, Todo, Uid, attendee_key};
use std::alloc::Global;

/// The to-do with this one attendee and few properties (our own rule).
///
/// The attendee gets a text of its own, so that an answer that is kept does not keep the other attendees in memory.
pub(crate) fn only_of(alloc: Global, attendee: &Property, todo: &Todo) -> Result<Todo, NoMemory>
    requires { IsLawful (only_of attendee.now (parts_of todo.now)) }
    ensures { IfOk result (λ only. parts_of only ≡ only_of attendee.now (parts_of todo.now)) }
{
    let attendees = alone(alloc, attendee)?;
    kept_with(alloc, attendees, todo)
}

/// The octets that the canonical forms of all attendees' items begin with; `None` if there are fewer than two attendees.
pub(crate) fn shared_front(
    alloc: Global,
    kind: Kind,
    todo: &Todo,
) -> Result<Option<Front>, NoMemory>
    requires { IsLawful (kept_with [] (parts_of todo.now)) }
    ensures { IfOk result (IsFrontOf kind (kept_with [] (parts_of todo.now))) }
{
    if todo.attendees.len() < 2 {
        return Ok(None);
    }
    let kept = kept_with(alloc, ListOf::new(alloc), todo)?;
    let front = write_front(alloc, kind, &kept);
    drop(kept);
    Ok(Some(front?))
}

/// The to-do with these attendees and few other properties.
///
/// UID, the zone of RECURRENCE-ID and ORGANIZER are shared with the to-do, and so with all answers made of it.
fn kept_with(alloc: Global, attendees: ListOf<Property>, todo: &Todo) -> Result<Todo, NoMemory>
    requires { IsLawful (kept_with attendees (parts_of todo.now)) }
    ensures { IfOk result (λ kept. parts_of kept ≡ kept_with attendees (parts_of todo.now)) }
{
    let (uid, rid, organizer) = shared(todo)?;
    Ok(Todo {
        uid,
        stamp: todo.stamp,
        seq: todo.seq,
        base: None,
        rid,
        range: false,
        start: None,
        due: None,
        status: todo.status,
        percent: todo.percent,
        priority: None,
        summary: None,
        organizer,
        attendees,
        rule: TextList::new(alloc),
        rdates: ListOf::new(alloc),
        exdates: ListOf::new(alloc),
        others: LineList::new(alloc),
    })
}

/// A list of this attendee alone, with a text of its own.
fn alone(alloc: Global, attendee: &Property) -> Result<ListOf<Property>, NoMemory>
    ensures { IfOk result (λ list. list ≡ attendee.now ∷ []) }
{
    let mut attendees = Vec::with_capacity(alloc, 1)?;
    attendees.push(attendee.alone(alloc)?)?;
    Ok(ListOf::from_vec(attendees))
}

/// Clones of UID, RECURRENCE-ID and ORGANIZER, which share the memory of the to-do's.
fn shared(todo: &Todo) -> Result<(Uid, Option<Moment>, Option<Property>), NoMemory>
    ensures { IfOk result (λ copy. (copy.0 ≡ todo.now.uid) × (copy.1 ≡ todo.now.rid) × (copy.2 ≡ todo.now.organizer)) }
{
    let uid = todo.uid.clone()?;
    let rid = todo.rid.clone()?;
    let organizer = todo.organizer.clone()?;
    Ok((uid, rid, organizer))
}

/// The key of an attendee's answer or refresh; a removal has that of the answer.
pub(crate) fn key_of(
    alloc: Global,
    kind: Kind,
    todo: &Todo,
    attendee: &Property,
) -> Result<Key, NoMemory>
    ensures { IfOk result (λ key. key ≡ attendee_key_of kind (parts_of todo.now) attendee.now) }
{
    let uid = todo.uid.clone()?;
    let rid = todo.rid.clone()?;
    let name = attendee_key(alloc, attendee.value())?;
    if refreshes(kind) {
        Ok(Key::Refresh(uid, rid, name))
    } else {
        Ok(Key::Answer(uid, rid, name))
    }
}

/// Whether an item of this kind is an attendee's wish for the newest revision.
fn refreshes(kind: Kind) -> bool
    ensures { result ≡ refreshes kind }
{
    kind == Kind::Refresh
}
