//! What arguments say: texts, numbers and messages.

use crate::error::CallError;
use itip_desk::{Batch, Desk};
use itip_message::read_message;
use itip_view::Window;
use std::alloc::Global;
use std::str;

/// The text of an argument.
pub(crate) fn text(argument: &[u8]) -> Result<&str, CallError> {
    str::from_utf8(argument).map_err(|_| CallError::NoSuchCall)
}

pub(crate) fn number(argument: &[u8]) -> Result<u64, CallError> {
    number_of(text(argument)?)
}

pub(crate) fn number_of(text: &str) -> Result<u64, CallError> {
    text.parse().map_err(|_| CallError::NoSuchCall)
}

/// The batch of a message.
pub(crate) fn batch(alloc: Global, text: &[u8]) -> Result<Batch, CallError> {
    Ok(Batch::of_items(read_message(alloc, text)?)?)
}

/// A desk that has taken these messages, one after another.
pub(crate) fn desk_after(alloc: Global, texts: &[Vec<u8>]) -> Result<Desk, CallError> {
    let mut desk = Desk::empty_at(alloc, 0);
    take_all(alloc, &mut desk, texts)?;
    Ok(desk)
}

fn take_all(alloc: Global, desk: &mut Desk, texts: &[Vec<u8>]) -> Result<(), CallError> {
    for text in texts {
        take(desk, &batch(alloc, text)?)?;
    }
    Ok(())
}

/// Has a desk take a batch, and drops what it tells of the change.
pub(crate) fn take(desk: &mut Desk, batch: &Batch) -> Result<(), CallError> {
    match desk.take(batch) {
        Ok(_) => Ok(()),
        Err(error) => Err(CallError::from(error)),
    }
}

/// The year 2026.
pub(crate) fn window() -> Result<Window, CallError> {
    Ok(Window::new(20_454, 20_819)?)
}
