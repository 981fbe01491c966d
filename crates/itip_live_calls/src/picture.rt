//! All that a desk or a world shows, as bytes that can be compared.

use crate::error::CallError;
use crate::texts::window;
use itip_desk::{Desk, write_delta};
use itip_items::Item;
use itip_world::World;
use std::alloc::Global;

/// The canonical bytes of items, in their order.
pub(crate) fn octets(alloc: Global, items: &[Item]) -> Result<Vec<u8>, CallError> {
    let mut octets = Vec::new(alloc);
    for item in items {
        item.bytes.append_to(&mut octets)?;
    }
    Ok(octets)
}

/// The tick of a desk, the number of items that it keeps, what changed since each earlier tick, and its list.
pub(crate) fn picture(alloc: Global, desk: &Desk) -> Result<Vec<u8>, CallError> {
    let tick = desk.tick();
    let entries = desk.entries();
    let mut shown = format!(in alloc; "tick {tick} entries {entries}\n")?.into_bytes();
    for since in 0..tick {
        shown.extend_from_slice(&write_delta(alloc, &desk.delta_since(since)?)?)?;
        shown.extend_from_slice(b"--\n")?;
    }
    shown.extend_from_slice(&desk.list(window()?)?)?;
    Ok(shown)
}

/// What the desks of a world show, and its packets, after this many events.
pub(crate) fn world_picture(
    alloc: Global,
    world: &World,
    events: usize,
) -> Result<Vec<u8>, CallError> {
    let mut shown = format!(in alloc; "replies {events}\n")?.into_bytes();
    for desk in world.desks() {
        shown.extend_from_slice(&picture(alloc, desk)?)?;
    }
    for packet in world.packets() {
        shown.extend_from_slice(&packet.octets(alloc)?)?;
    }
    Ok(shown)
}
