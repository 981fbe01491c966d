//! Merging states, once more if an allocation fails.

use crate::error::CallError;
use crate::picture::octets;
use crate::refusal::note_refusal;
use itip_items::Item;
use itip_message::read_message;
use itip_state::State;
use std::alloc::Global;

/// The canonical bytes of what two states keep once they are merged: that of the first `count` messages and that of the others.
pub(crate) fn merge_again<R: AllocGlobal + Eprint>(
    rt: &R,
    count: u64,
    texts: &[Vec<u8>],
) -> Result<Vec<u8>, CallError> {
    let alloc = rt.alloc();
    let (mine, theirs) = texts.split_at(texts.len().min(count as usize));
    let mut state = state_of(alloc, mine)?;
    merge(rt, &mut state, &state_of(alloc, theirs)?)?;
    kept(alloc, &state)
}

fn merge<R: AllocGlobal + Eprint>(
    rt: &R,
    state: &mut State,
    other: &State,
) -> Result<(), CallError> {
    let before = kept(rt.alloc(), state)?;
    if state.merge(other).is_ok() {
        return Ok(());
    }
    note_refusal(rt);
    if kept(rt.alloc(), state)? != before {
        return Err(CallError::Changed);
    }
    state.merge(other).map_err(|_| CallError::NothingOnceMore)
}

fn kept(alloc: Global, state: &State) -> Result<Vec<u8>, CallError> {
    octets(alloc, &state.items()?)
}

fn state_of(alloc: Global, texts: &[Vec<u8>]) -> Result<State, CallError> {
    Ok(State::of_items(alloc, &all_items(alloc, texts)?)?)
}

fn all_items(alloc: Global, texts: &[Vec<u8>]) -> Result<Vec<Item>, CallError> {
    let mut items = Vec::new(alloc);
    for text in texts {
        let mut more = read_message(alloc, text)?;
        items.append(&mut more)?;
    }
    Ok(items)
}
