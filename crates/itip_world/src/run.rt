//! A run of events.
ghost use Rattle.std.specs.Prelude.{◌≡◌, ◌≤◌, [], vec_capacity, IfOk, IfErr};
ghost use Rattle.itip_world.specs.Worlds.{no_past, IsWorldOf, IsWorldAfter, StopsAfter};

use crate::NoMemory;
use crate::event::{Event, Outcome};
use crate::stop::{Cause, Stopped};
use crate::world::World;
use std::alloc::Global;

/// The world after a run, and what came of each event, in order.
#[derive(Debug, Drop)]
pub struct Ran {
    pub world: World,
    pub outcomes: Vec<Outcome>,
}

/// Runs events in order over 1 to 16 desks that have heard nothing. Each desk keeps what is kept of all that it has heard, and each
/// packet has the canonical bytes of what was kept of the UIDs that it tells of.
///
/// The run stops at an event that can't be done: [`Stopped`] has the number of events that were done, the world after them, what came of
/// each, and the cause. If there is no memory for the start, no event is done and the world has no desks.
pub fn run_world(alloc: Global, desks: usize, events: &[Event]) -> Result<Ran, Stopped>
    requires some { 1 ≤ desks }
    requires few { desks ≤ 16 }
    ensures world { IfOk result (λ ran. IsWorldAfter (no_past desks) events.now ran.world ran.outcomes.items) }
    ensures stopped { IfErr result (λ stopped.
        StopsAfter (no_past desks) events.now stopped.done stopped.world stopped.outcomes.items stopped.cause) }
{
    let Ok(ran) = start(alloc, desks, events.len()) else {
        return Err(Stopped {
            done: 0,
            world: World::empty(alloc),
            outcomes: Vec::new(alloc),
            cause: Cause::NoMemory,
        });
    };
    let Ran {
        mut world,
        mut outcomes,
    } = ran;
    for (done, event) in events.iter().enumerate() {
        match world.step(event) {
            Ok(outcome) => outcomes.push_reserved(outcome),
            Err(cause) => {
                return Err(Stopped {
                    done,
                    world,
                    outcomes,
                    cause,
                });
            }
        }
    }
    Ok(Ran { world, outcomes })
}

/// A run before its first event, with room for `events` outcomes.
fn start(alloc: Global, desks: usize, events: usize) -> Result<Ran, NoMemory>
    ensures world { IfOk result (λ ran. IsWorldOf (no_past desks) ran.world) }
    ensures outcomes { IfOk result (λ ran. ran.outcomes.items ≡ []) }
    ensures room { IfOk result (λ ran. events ≤ vec_capacity ran.outcomes) }
{
    Ok(Ran {
        world: World::start(alloc, desks)?,
        outcomes: Vec::with_capacity(alloc, events)?,
    })
}
