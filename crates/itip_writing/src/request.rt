//! A request: the to-dos of a draft, each with the next SEQUENCE of its UID.
ghost use Rattle.std.specs.Prelude.{◌≡◌, ◌≤◌, ℕ, List, cond, Some, None, IfOk, OnOk, IfErr};
ghost use Rattle.std.specs.BTreeMap.{get, is_at};
ghost use Rattle.std.specs.Cmp.Lexicographic.{slice_cmp};
ghost use Rattle.std.specs.Ordering.{nat_cmp};
ghost use Rattle.itip_todo.specs.PartsOf.{parts_of};
ghost use Rattle.itip_todo.specs.declared.todo.Todo.{Todo};
ghost use Rattle.itip_report.specs.NextSequence.{IsNext};
ghost use Rattle.itip_writing.specs.Causes.{IfSpent};
ghost use Rattle.itip_writing.specs.Lacking.{lacking_in_request};
ghost use Rattle.itip_writing.specs.Requesting.{IsRequest, CannotRequest, AreRequested, AreNext};
ghost use Rattle.itip_writing.specs.Requesting.{requested, base_above};

use crate::NoMemory;
use crate::errand::Message;
use crate::error::WritingError;
use crate::lacking::lacking_in_request;
use crate::message::{readable, write_message};
use crate::same_key::has_twins;
use itip_items::Method;
use itip_moment::Stamp;
use itip_report::next_seq;
use itip_state::State;
use itip_todo::{Todo, Uid};
use std::alloc::Global;
use std::collections::BTreeMap;

/// The request of a draft (RFC 5546 3.4.2): one REQUEST with the to-dos of the draft in their order. DTSTAMP is `at`, the moment of
/// writing. SEQUENCE is the next of the UID, which is 0 if nothing sent by its organizer is kept. X-DESK-BASE stays if it is greater
/// than that; all other properties stay.
///
/// Each item of the request is later than everything heard of its key: its sequence is greater, so its DTSTAMP need not be. What
/// RFC 5546 requires and a to-do lacks is returned in `lacking`; the request is written all the same.
///
/// Fails with `NoSequenceLeft` if a UID has none left, with `TwoOfOneKey` if two to-dos have the same UID, RECURRENCE-ID and RANGE, with
/// `Unreadable` if the request can't be read back, as when it is too long or the draft has no to-do or more than 1,000, and with
/// `NoMemory` if an allocation fails.
pub fn request_of(
    alloc: Global,
    state: &State,
    draft: &[Todo],
    at: Stamp,
) -> Result<Message, WritingError>
    ensures found { IfOk result (λ message. IsRequest state.now draft.now at message.octets.items) }
    ensures lacking { IfOk result (λ message. message.lacking.items ≡ lacking_in_request draft.now) }
    ensures fault { IfErr result (CannotRequest state.now draft.now at) }
{
    let octets = request_octets(alloc, state, draft, at)?;
    let lacking = lacking_in_request(alloc, draft)?;
    Ok(Message { octets, lacking })
}

/// The bytes of the request of a draft.
fn request_octets(
    alloc: Global,
    state: &State,
    draft: &[Todo],
    at: Stamp,
) -> Result<Vec<u8>, WritingError>
    ensures found { IfOk result (λ octets. IsRequest state.now draft.now at octets.items) }
    ensures fault { IfErr result (CannotRequest state.now draft.now at) }
{
    let all = requested(alloc, state, draft, at)?;
    let twins = has_twins(alloc, draft)?;
    if twins {
        drop(all);
        return Err(WritingError::TwoOfOneKey);
    }
    let text = write_message(alloc, Method::Request, &all)?;
    drop(all);
    let octets = readable(alloc, text)?;
    Ok(octets)
}

/// The to-dos of a draft as they are written at the moment `at`.
fn requested(
    alloc: Global,
    state: &State,
    draft: &[Todo],
    at: Stamp,
) -> Result<Vec<Todo>, WritingError>
    ensures found { IfOk result (λ all. AreRequested state.now at draft.now all.items) }
    ensures fault { IfErr result (CannotRequest state.now draft.now at) }
{
    let mut known = BTreeMap::new(alloc);
    let mut all = Vec::with_capacity(alloc, draft.len())?;
    for todo in draft {
        let sequence = sequence_of(state, &mut known, &todo.uid)?;
        all.push(written(todo, at, sequence)?)?;
    }
    Ok(all)
}

/// The next SEQUENCE of a UID. It is noted in `known`, so that each UID is looked up in the state only once.
fn sequence_of(
    state: &State,
    known: &mut BTreeMap<Uid, u32>,
    uid: &Uid,
) -> Result<u32, WritingError>
    ensures next { IfOk result (λ sequence. AreNext state.now known.old → IsNext state.now uid.now (Some sequence)) }
    ensures rest { OnOk result (AreNext state.now known.old → AreNext state.now known.new) }
    ensures fault { IfErr result (IfSpent (IsNext state.now uid.now None)) }
{
    if let Some(sequence) = sequence_known(known, uid) {
        return Ok(sequence);
    }
    let Some(sequence) = next_seq(state, uid) else {
        return Err(WritingError::NoSequenceLeft);
    };
    note(known, uid, sequence)?;
    Ok(sequence)
}

fn sequence_known(known: &BTreeMap<Uid, u32>, uid: &Uid) -> Option<u32>
    ensures { result ≡ get (slice_cmp nat_cmp) known.now uid.now }
{
    known.get(uid).copied()
}

fn note(known: &mut BTreeMap<Uid, u32>, uid: &Uid, sequence: u32) -> Result<(), NoMemory>
    ensures { OnOk result ((other : List ℕ) → get (slice_cmp nat_cmp) known.new other
        ≡ cond (is_at (slice_cmp nat_cmp uid.now) other) (Some sequence) (get (slice_cmp nat_cmp) known.old other)) }
{
    known.insert(uid.clone()?, sequence)?;
    Ok(())
}

/// A to-do of a draft as it is written at the moment `at` with this SEQUENCE.
fn written(todo: &Todo, at: Stamp, sequence: u32) -> Result<Todo, NoMemory>
    requires { sequence ≤ 2147483647 }
    ensures { IfOk result (λ written. parts_of written ≡ requested at sequence (parts_of todo.now)) }
{
    let mut copy = todo.clone()?;
    copy.stamp = at;
    copy.seq = sequence;
    copy.base = base_above(sequence, todo.base);
    Ok(copy)
}

/// X-DESK-BASE if it is greater than the SEQUENCE, else `None`.
fn base_above(sequence: u32, base: Option<u32>) -> Option<u32>
    ensures { result ≡ base_above sequence base }
{
    match base {
        Some(base) => (sequence < base).then_some(base),
        None => None,
    }
}
