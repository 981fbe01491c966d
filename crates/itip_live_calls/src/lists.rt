//! Batches of one item each, and the lists of a desk that takes them on one thread.

use crate::error::CallError;
use crate::texts::{batch, take};
use itip_desk::{Batch, Desk};
use itip_view::Window;
use std::alloc::Global;

/// How many to-dos the batches are about.
const TO_DOS: u64 = 20;

/// A revision of one of the to-dos; no two are alike.
pub(crate) fn revision(alloc: Global, number: u64) -> Result<Batch, CallError> {
    let to_do = number % TO_DOS;
    let message = format!(in alloc;
        "BEGIN:VCALENDAR\nVERSION:2.0\nMETHOD:REQUEST\nBEGIN:VTODO\nUID:u{to_do}\nSEQUENCE:{number}\nDTSTAMP:20260101T090000Z\nEND:VTODO\nEND:VCALENDAR\n"
    )?;
    batch(alloc, message.as_bytes())
}

/// The lists of the desks that have taken no revision, the first, the first two, and so on up to `count`.
pub(crate) fn lists(alloc: Global, count: u64, window: Window) -> Result<Vec<Vec<u8>>, CallError> {
    let mut desk = Desk::empty_at(alloc, 0);
    let mut lists = Vec::new(alloc);
    list_all(alloc, &mut desk, count, window, &mut lists)?;
    Ok(lists)
}

/// Adds the lists of a desk before and after each revision that it takes.
fn list_all(
    alloc: Global,
    desk: &mut Desk,
    count: u64,
    window: Window,
    lists: &mut Vec<Vec<u8>>,
) -> Result<(), CallError> {
    lists.push(list_of(desk, window)?)?;
    for number in 0..count {
        take(desk, &revision(alloc, number)?)?;
        lists.push(list_of(desk, window)?)?;
    }
    Ok(())
}

fn list_of(desk: &Desk, window: Window) -> Result<Vec<u8>, CallError> {
    Ok(desk.list(window)?)
}
