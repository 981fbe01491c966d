//! Two desks that take two messages in both orders, and exchange what they posted.

use crate::error::CallError;
use crate::picture::world_picture;
use crate::refusal::note_refusal;
use itip_lines::Bytes;
use itip_world::{Cause, Event, Outcome, World, run_world};
use std::alloc::Global;

/// The eight events.
fn crossing(alloc: Global, one: &[u8], other: &[u8]) -> Result<Vec<Event>, CallError> {
    let mut events = Vec::new(alloc);
    events.push(deliver(alloc, 0, one)?)?;
    events.push(deliver(alloc, 0, other)?)?;
    events.push(deliver(alloc, 1, other)?)?;
    events.push(deliver(alloc, 1, one)?)?;
    events.push(Event::Post { desk: 0, since: 0 })?;
    events.push(Event::Arrive { packet: 0, desk: 1 })?;
    events.push(Event::Post { desk: 1, since: 0 })?;
    events.push(Event::Arrive { packet: 1, desk: 0 })?;
    Ok(events)
}

fn deliver(alloc: Global, desk: usize, text: &[u8]) -> Result<Event, CallError> {
    Ok(Event::Deliver {
        desk,
        bytes: Bytes::new(Vec::from_slice(alloc, text)?),
    })
}

/// All that the world shows after the events, each done once more if an allocation failed.
pub(crate) fn steps_again<R: AllocGlobal + Eprint>(
    rt: &R,
    one: &[u8],
    other: &[u8],
) -> Result<Vec<u8>, CallError> {
    let events = crossing(rt.alloc(), one, other)?;
    let mut world = World::start(rt.alloc(), 2)?;
    shown_after(rt, &mut world, &events)
}

fn shown_after<R: AllocGlobal + Eprint>(
    rt: &R,
    world: &mut World,
    events: &[Event],
) -> Result<Vec<u8>, CallError> {
    for event in events {
        step(rt, world, event)?;
    }
    world_picture(rt.alloc(), world, events.len())
}

fn step<R: AllocGlobal + Eprint>(
    rt: &R,
    world: &mut World,
    event: &Event,
) -> Result<(), CallError> {
    let before = world_picture(rt.alloc(), world, 0)?;
    if is_done(world, event)? {
        return Ok(());
    }
    note_refusal(rt);
    if world_picture(rt.alloc(), world, 0)? != before {
        return Err(CallError::Changed);
    }
    if is_done(world, event)? {
        return Ok(());
    }
    Err(CallError::NothingOnceMore)
}

/// Does an event, and returns whether there was memory for it.
fn is_done(world: &mut World, event: &Event) -> Result<bool, CallError> {
    match world.step(event) {
        Ok(_) => Ok(true),
        Err(Cause::NoMemory) => Ok(false),
        Err(cause) => Err(CallError::from(cause)),
    }
}

/// All that the world shows after the events. If an allocation fails, the run stops, and its outcomes have to be the first ones of the
/// whole run.
pub(crate) fn run_again<R: AllocGlobal + Eprint>(
    rt: &R,
    one: &[u8],
    other: &[u8],
) -> Result<Vec<u8>, CallError> {
    let events = crossing(rt.alloc(), one, other)?;
    match run_world(rt.alloc(), 2, &events) {
        Ok(ran) => world_picture(rt.alloc(), &ran.world, ran.outcomes.len()),
        Err(stopped) => {
            if stopped.cause != Cause::NoMemory {
                return Err(CallError::from(stopped.cause));
            }
            note_refusal(rt);
            whole_run(rt.alloc(), &events, &stopped.outcomes)
        }
    }
}

/// The whole run, which has to begin with these outcomes.
fn whole_run(alloc: Global, events: &[Event], begun: &[Outcome]) -> Result<Vec<u8>, CallError> {
    let ran = run_world(alloc, 2, events).map_err(|_| CallError::NothingOnceMore)?;
    if !ran.outcomes.starts_with(begun) {
        return Err(CallError::Changed);
    }
    world_picture(alloc, &ran.world, ran.outcomes.len())
}
