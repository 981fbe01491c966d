//! Reading, once more if an allocation fails.

use crate::error::CallError;
use crate::picture::octets;
use crate::refusal::note_refusal;
use itip_desk::{Batch, read_delta};
use itip_items::Item;
use itip_message::{ReadError, read_message};
use itip_reading::read_all;
use std::alloc::Global;
use std::thread::Threads;

/// The canonical bytes of the items of a message.
pub(crate) fn read_again<R: AllocGlobal + Eprint>(
    rt: &R,
    text: &[u8],
) -> Result<Vec<u8>, CallError> {
    octets(rt.alloc(), &items(rt, text)?)
}

fn items<R: AllocGlobal + Eprint>(rt: &R, text: &[u8]) -> Result<Vec<Item>, CallError> {
    match read_message(rt.alloc(), text) {
        Err(ReadError::NoMemory) => {
            note_refusal(rt);
            read_message(rt.alloc(), text).map_err(|_| CallError::NothingOnceMore)
        }
        read => Ok(read?),
    }
}

/// How many items a delta has.
pub(crate) fn read_delta_again<R: AllocGlobal + Eprint>(
    rt: &R,
    text: &[u8],
) -> Result<Vec<u8>, CallError> {
    let count = batch(rt, text)?.as_slice().len();
    Ok(format!(in rt.alloc(); "{count} items")?.into_bytes())
}

fn batch<R: AllocGlobal + Eprint>(rt: &R, text: &[u8]) -> Result<Batch, CallError> {
    match read_delta(rt.alloc(), text) {
        Err(ReadError::NoMemory) => {
            note_refusal(rt);
            read_delta(rt.alloc(), text).map_err(|_| CallError::NothingOnceMore)
        }
        read => Ok(read?),
    }
}

/// What comes of reading a text.
#[derive(Clone, Copy, PartialEq, Eq)]
enum Outcome {
    Items(usize),
    Refused(u32),
    NoMemory,
}

fn came_of(read: &Result<Vec<Item>, ReadError>) -> Outcome {
    match read {
        Ok(items) => Outcome::Items(items.len()),
        Err(ReadError::Refused(fault)) => Outcome::Refused(fault.number()),
        Err(ReadError::NoMemory) => Outcome::NoMemory,
    }
}

/// What comes of reading each text by [`read_all`], a line each. If an allocation fails for some of them, the others have to be read as
/// they are alone.
pub(crate) fn read_all_again<R: AllocGlobal + Eprint + Threads + Sync>(
    rt: &R,
    texts: &[Vec<u8>],
) -> Result<Vec<u8>, CallError> {
    let alone = all_alone(rt.alloc(), texts)?;
    if is_refused(rt, texts, &alone)? {
        note_refusal(rt);
        if is_refused(rt, texts, &alone)? {
            return Err(CallError::NothingOnceMore);
        }
    }
    lines(rt.alloc(), &alone)
}

fn all_alone(alloc: Global, texts: &[Vec<u8>]) -> Result<Vec<Outcome>, CallError> {
    let mut all = Vec::new(alloc);
    for text in texts {
        all.push(alone(alloc, text)?)?;
    }
    Ok(all)
}

fn alone(alloc: Global, text: &[u8]) -> Result<Outcome, CallError> {
    match came_of(&read_message(alloc, text)) {
        Outcome::NoMemory => Err(CallError::NoMemory),
        outcome => Ok(outcome),
    }
}

/// Reads all texts, and returns whether an allocation failed for one of them or for the call.
fn is_refused<R: AllocGlobal + Threads + Sync>(
    rt: &R,
    texts: &[Vec<u8>],
    alone: &[Outcome],
) -> Result<bool, CallError> {
    match read_all(rt, rt.alloc(), texts) {
        Ok(answers) => is_one_refused(&answers, alone),
        Err(_) => Ok(true),
    }
}

fn is_one_refused(
    answers: &[Result<Vec<Item>, ReadError>],
    alone: &[Outcome],
) -> Result<bool, CallError> {
    if answers.len() != alone.len() {
        return Err(CallError::Changed);
    }
    let mut is_refused = false;
    for (answer, wanted) in answers.iter().zip(alone) {
        let found = came_of(answer);
        if found == Outcome::NoMemory {
            is_refused = true;
        } else if found != *wanted {
            return Err(CallError::Changed);
        }
    }
    Ok(is_refused)
}

fn lines(alloc: Global, outcomes: &[Outcome]) -> Result<Vec<u8>, CallError> {
    let mut told = String::new(alloc);
    for outcome in outcomes {
        told.push_str(line(alloc, *outcome)?.as_str())?;
    }
    Ok(told.into_bytes())
}

fn line(alloc: Global, outcome: Outcome) -> Result<String, CallError> {
    match outcome {
        Outcome::Items(count) => Ok(format!(in alloc; "{count} items\n")?),
        Outcome::Refused(number) => Ok(format!(in alloc; "refused {number}\n")?),
        Outcome::NoMemory => Err(CallError::NoMemory),
    }
}
