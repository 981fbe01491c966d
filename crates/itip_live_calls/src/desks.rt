//! Calls of a desk, made once more if an allocation fails.

use crate::error::CallError;
use crate::picture::picture;
use crate::refusal::note_refusal;
use crate::texts::{batch, desk_after, window};
use itip_desk::{Batch, Desk, DeskError, write_delta};
use itip_view::{ViewError, Window};

/// All that a desk shows that has taken these messages, the last of them once more if an allocation failed.
pub(crate) fn take_again<R: AllocGlobal + Eprint>(
    rt: &R,
    texts: &[Vec<u8>],
) -> Result<Vec<u8>, CallError> {
    match texts {
        [before @ .., last] => taken(rt, before, last),
        [] => Err(CallError::NoSuchCall),
    }
}

fn taken<R: AllocGlobal + Eprint>(
    rt: &R,
    before: &[Vec<u8>],
    last: &[u8],
) -> Result<Vec<u8>, CallError> {
    let mut desk = desk_after(rt.alloc(), before)?;
    shown_after(rt, &mut desk, last)
}

fn shown_after<R: AllocGlobal + Eprint>(
    rt: &R,
    desk: &mut Desk,
    last: &[u8],
) -> Result<Vec<u8>, CallError> {
    take_text(rt, desk, last)?;
    picture(rt.alloc(), desk)
}

fn take_text<R: AllocGlobal + Eprint>(
    rt: &R,
    desk: &mut Desk,
    text: &[u8],
) -> Result<(), CallError> {
    let batch = batch(rt.alloc(), text)?;
    take(rt, desk, &batch)
}

fn take<R: AllocGlobal + Eprint>(rt: &R, desk: &mut Desk, batch: &Batch) -> Result<(), CallError> {
    let before = picture(rt.alloc(), desk)?;
    if is_taken(desk, batch)? {
        return Ok(());
    }
    note_refusal(rt);
    if picture(rt.alloc(), desk)? != before {
        return Err(CallError::Changed);
    }
    if is_taken(desk, batch)? {
        return Ok(());
    }
    Err(CallError::NothingOnceMore)
}

/// Takes a batch, and returns whether there was memory for it.
fn is_taken(desk: &mut Desk, batch: &Batch) -> Result<bool, CallError> {
    match desk.take(batch) {
        Ok(_) => Ok(true),
        Err(DeskError::NoMemory) => Ok(false),
        Err(error) => Err(CallError::from(error)),
    }
}

/// The bytes of the delta since a tick of a desk that has taken these messages.
pub(crate) fn since_again<R: AllocGlobal + Eprint>(
    rt: &R,
    tick: u64,
    texts: &[Vec<u8>],
) -> Result<Vec<u8>, CallError> {
    let desk = desk_after(rt.alloc(), texts)?;
    written_since(rt, &desk, tick)
}

fn written_since<R: AllocGlobal + Eprint>(
    rt: &R,
    desk: &Desk,
    tick: u64,
) -> Result<Vec<u8>, CallError> {
    let delta = since(rt, desk, tick)?;
    match write_delta(rt.alloc(), &delta) {
        Ok(octets) => Ok(octets),
        Err(error) => Err(CallError::from(error)),
    }
}

fn since<R: Eprint>(rt: &R, desk: &Desk, tick: u64) -> Result<Batch, CallError> {
    match desk.delta_since(tick) {
        Ok(delta) => Ok(delta),
        Err(_) => {
            note_refusal(rt);
            desk.delta_since(tick)
                .map_err(|_| CallError::NothingOnceMore)
        }
    }
}

/// The list of a desk that has taken these messages.
pub(crate) fn list_again<R: AllocGlobal + Eprint>(
    rt: &R,
    texts: &[Vec<u8>],
) -> Result<Vec<u8>, CallError> {
    list(rt, &desk_after(rt.alloc(), texts)?, window()?)
}

fn list<R: Eprint>(rt: &R, desk: &Desk, window: Window) -> Result<Vec<u8>, CallError> {
    match desk.list(window) {
        Err(ViewError::NoMemory) => {
            note_refusal(rt);
            desk.list(window).map_err(|_| CallError::NothingOnceMore)
        }
        list => Ok(list?),
    }
}

/// The rows of an attendee at a desk that has taken these messages.
pub(crate) fn list_for_again<R: AllocGlobal + Eprint>(
    rt: &R,
    address: &str,
    texts: &[Vec<u8>],
) -> Result<Vec<u8>, CallError> {
    list_for(rt, &desk_after(rt.alloc(), texts)?, window()?, address)
}

fn list_for<R: Eprint>(
    rt: &R,
    desk: &Desk,
    window: Window,
    address: &str,
) -> Result<Vec<u8>, CallError> {
    match desk.list_for(window, address) {
        Err(ViewError::NoMemory) => {
            note_refusal(rt);
            desk.list_for(window, address)
                .map_err(|_| CallError::NothingOnceMore)
        }
        list => Ok(list?),
    }
}
