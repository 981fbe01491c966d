//! A world of desks.
ghost use Rattle.std.specs.Prelude.{ℕ, ◌≡◌, ◌≤◌, ◌<◌, OnOk, OnErr, IfOk, IfErr, IsErrOf, MatchOption, length};
ghost use Rattle.itip_world.specs.Worlds.{past_from, no_past, empty_world, IsWorldOf, HasPast, IsEntriesOf, Steps, OthersStay};
ghost use Rattle.itip_world.specs.Worlds.{StopsFor, HearsBatch, StopsHearing, desk_of, LacksOnlyPacket};

use crate::NoMemory;
use crate::event::{Event, Outcome};
use crate::hearing::hear_batch;
use crate::packet::Packet;
use crate::stop::Cause;
use itip_desk::{Batch, Desk, Refusal, read_batch};
use itip_message::ReadError;
use std::alloc::Global;
use std::marker::Model;

/// Desks that exchange only what events bring, and the packets that they posted. Each world has a past: the steps by which its desks and
/// packets came about, from desks that had heard nothing.
#[derive(Debug, Drop)]
pub struct World {
    desks: Vec<Desk>,
    packets: Vec<Packet>,
    alloc: Global,
}

impl Model for World {
    ghost use Rattle.itip_world.specs.Worlds.{ShownWorld, HasPast};

    ghost Value = { ShownWorld };

    ghost use Rattle.itip_world.specs.WorldCode.{shown_world_code};

    ghost coded = { shown_world_code };

    ghost view = { λ w. record { desks = w.desks.items; packets = w.packets.items } };

    ghost invariant = { λ w. HasPast (record { desks = w.desks.items; packets = w.packets.items }) };
}

impl World {
    /// Returns a world of desks that have heard nothing, at tick 0.
    pub fn start(alloc: Global, desks: usize) -> Result<World, NoMemory>
        ensures world { IfOk result (λ world. IsWorldOf (no_past desks) world) }
    {
        World::start_at(alloc, desks, 0)
    }

    /// Returns a world of desks that have heard nothing, at this tick.
    pub fn start_at(alloc: Global, desks: usize, tick: u64) -> Result<World, NoMemory>
        ensures world { IfOk result (λ world. IsWorldOf (past_from desks tick) world) }
    {
        let mut all = Vec::new(alloc);
        for _ in 0..desks {
            all.push(Desk::empty_at(alloc, tick))?;
        }
        Ok(World {
            desks: all,
            packets: Vec::new(alloc),
            alloc,
        })
    }

    /// A world without desks. Doesn't allocate.
    pub(crate) fn empty(alloc: Global) -> World
        ensures { result ≡ empty_world }
    {
        World {
            desks: Vec::new(alloc),
            packets: Vec::new(alloc),
            alloc,
        }
    }

    /// The desks, numbered from 0.
    pub fn desks(&self) -> &[Desk]
        ensures desks { result.now ≡ self.now.desks }
        ensures past { HasPast self.now }
    {
        self.desks.as_slice()
    }

    /// The packets that the desks posted, numbered from 0.
    pub fn packets(&self) -> &[Packet]
        ensures { result.now ≡ self.now.packets }
    {
        self.packets.as_slice()
    }

    /// Returns the number of items that a desk keeps of all that it has heard, each counted once: `usize::MAX` if there are more, `None`
    /// if no desk has this number. It doesn't allocate, and looks at each UID once.
    pub fn entries(&self, desk: usize) -> Option<usize>
        ensures { MatchOption result (length self.now.desks ≤ desk) (λ count. IsEntriesOf self.now desk count) }
    {
        Some(self.desks.get(desk)?.entries())
    }

    /// Does one event, and returns what came of it: a delivery or an arrival is heard by the desk, and a post is its delta since a tick.
    ///
    /// A refused text is an outcome and moves no desk. An event fails, and leaves the world unchanged, if no desk (50) or no packet (51)
    /// has its number, if an allocation fails (20), or if a UID would move at the last tick (21).
    pub fn step(&mut self, event: &Event) -> Result<Outcome, Cause>
        ensures past { HasPast self.old }
        ensures step { IfOk result (λ outcome. Steps self.old event.now outcome self.new) }
        ensures others { OnOk result (OthersStay self.old event.now self.new) }
        ensures cause { IfErr result (λ cause. StopsFor self.old event.now cause) }
        ensures no_desk { length self.old.desks ≤ desk_of event.now → IsErrOf result (Cause.Refused (Refusal.NoDesk (desk_of event.now))) }
        ensures no_packet { (packet : ℕ) → LacksOnlyPacket (length self.old.desks) (length self.old.packets) event.now packet
            → IsErrOf result (Cause.Refused (Refusal.NoPacket packet)) }
        ensures err { OnErr result (self.new ≡ self.old) }
    {
        let desk = event.desk();
        if desk >= self.desks.len() {
            return Err(Cause::Refused(Refusal::NoDesk(desk as u64)));
        }
        match event {
            Event::Deliver { desk, bytes } => self.deliver(*desk, bytes.as_slice()),
            Event::Post { desk, since } => Ok(self.post(*desk, *since)?),
            Event::Arrive { packet, desk } => {
                if *packet >= self.packets.len() {
                    return Err(Cause::Refused(Refusal::NoPacket(*packet as u64)));
                }
                self.arrive(*packet, *desk)
            }
        }
    }

    /// An existing desk hears the items of a text, or nothing if the text is refused.
    fn deliver(&mut self, desk: usize, bytes: &[u8]) -> Result<Outcome, Cause>
        requires { desk < length self.old.desks }
        ensures step { IfOk result (λ outcome. Steps self.old (Event.Deliver desk bytes.now) outcome self.new) }
        ensures others { OnOk result (OthersStay self.old (Event.Deliver desk bytes.now) self.new) }
        ensures cause { IfErr result (λ cause. StopsFor self.old (Event.Deliver desk bytes.now) cause) }
        ensures err { OnErr result (self.new ≡ self.old) }
    {
        let batch = match read_batch(self.alloc, bytes) {
            Ok(batch) => batch,
            Err(ReadError::NoMemory) => return Err(Cause::NoMemory),
            Err(ReadError::Refused(refusal)) => {
                return Ok(Outcome::Refused(Refusal::Message(refusal)));
            }
        };
        hear(&mut self.desks[desk], desk, &batch)
    }

    /// An existing desk posts what changed there after a tick.
    fn post(&mut self, desk: usize, since: u64) -> Result<Outcome, NoMemory>
        requires { desk < length self.old.desks }
        ensures step { IfOk result (λ outcome. Steps self.old (Event.Post desk since) outcome self.new) }
        ensures others { OnOk result (OthersStay self.old (Event.Post desk since) self.new) }
        ensures err { OnErr result (self.new ≡ self.old) }
    {
        let batch = self.desks[desk].delta_since(since)?;
        let items = batch.as_slice().len();
        let packet = Packet::of_batch(batch);
        let number = self.packets.len();
        self.packets.push(packet)?;
        Ok(Outcome::Posted {
            packet: number,
            items,
        })
    }

    /// An existing packet reaches an existing desk.
    fn arrive(&mut self, packet: usize, desk: usize) -> Result<Outcome, Cause>
        requires packet { packet < length self.old.packets }
        requires desk { desk < length self.old.desks }
        ensures step { IfOk result (λ outcome. Steps self.old (Event.Arrive packet desk) outcome self.new) }
        ensures others { OnOk result (OthersStay self.old (Event.Arrive packet desk) self.new) }
        ensures cause { IfErr result (λ cause. StopsFor self.old (Event.Arrive packet desk) cause) }
        ensures err { OnErr result (self.new ≡ self.old) }
    {
        let batch = self.packets[packet].batch();
        hear(&mut self.desks[desk], desk, batch)
    }
}

/// The desk with this number hears a batch.
fn hear(desk: &mut Desk, number: usize, batch: &Batch) -> Result<Outcome, Cause>
    ensures hears { IfOk result (λ outcome. HearsBatch desk.old batch.now desk.new outcome) }
    ensures cause { IfErr result (λ cause. StopsHearing number desk.old batch.now cause) }
    ensures err { OnErr result (desk.new ≡ desk.old) }
{
    let heard = hear_batch(desk, number, batch)?;
    Ok(Outcome::Heard {
        tick: heard.tick,
        changed: heard.changed,
    })
}
