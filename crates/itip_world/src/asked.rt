//! The commands of a script, each done and answered.
ghost use Rattle.std.specs.Prelude.{◌≡◌, ◌≢◌, IfOk, IfErr, OnErr, MatchBool, Some};
ghost use Rattle.itip_world.specs.Worlds.{no_past, IsWorldOf};
ghost use Rattle.itip_script.specs.Orders.{Order, order_of};
ghost use Rattle.itip_view.specs.declared.window.Window.{Window};
ghost use Rattle.itip_world.specs.Running.{Answers, answer_of, answer_to, heard_at, event_of, HasTick};
ghost use Rattle.itip_world.specs.Running.{Replies, RepliesFront};
ghost use Rattle.itip_world.specs.Looking.{OnlyAsks, MovesSomething};

use crate::answer::{Answer, Heard};
use crate::event::{Event, Outcome};
use crate::looks::{Look, told};
use crate::stop::Cause;
use crate::watch::Refused;
use crate::world::World;
use itip_desk::Refusal;
use itip_lines::Bytes;
use itip_script::Command;
use itip_streams::StreamFault;
use itip_view::Window;
use std::alloc::{AllocError, Global};
use std::io::Write;

/// The desks that commands go to, and the window of lists.
#[derive(Drop)]
pub(crate) struct Desks {
    pub(crate) alloc: Global,
    pub(crate) world: World,
    pub(crate) window: Window,
}

impl Desks {
    /// Desks that have heard nothing.
    pub(crate) fn start(alloc: Global, desks: usize, window: Window) -> Result<Desks, AllocError>
        ensures world { IfOk result (λ asked. IsWorldOf (no_past desks) asked.world) }
        ensures window { IfOk result (λ asked. asked.window ≡ window) }
    {
        Ok(Desks {
            alloc,
            world: World::start(alloc, desks)?,
            window,
        })
    }

    /// Does a command, and returns why it was refused, if it was. The answer is appended to the bytes in `kept`, which are to be written;
    /// if it is a list, they are written once there are 65,536 or more. On an error, a prefix of `kept` has been written, or of `kept`
    /// and the answer.
    pub(crate) fn reply<W: Write>(
        &mut self,
        command: &Command<'_>,
        writer: &mut W,
        kept: &mut Vec<u8>,
    ) -> Result<Option<Refused>, StreamFault>
        ensures replies { IfOk result (Replies self.old.window (order_of command.now) self.old.world self.new.world
            (W.contents writer.old) (W.contents writer.new) kept.old.items kept.new.items) }
        ensures window { self.new.window ≡ self.old.window }
        ensures front { OnErr result (RepliesFront self.old.window (order_of command.now) self.old.world
            (W.contents writer.old) (W.contents writer.new) kept.old.items) }
        ensures fault { IfErr result (λ fault. fault ≢ StreamFault.Read) }
    {
        if only_asks(command) {
            return self.look().reply(command, writer, kept);
        }
        let answer = self.answer(command)?;
        told(answer, kept)
    }

    /// The desks, for commands that only ask.
    fn look(&self) -> Look<'_>
        ensures desks { result.desks.now ≡ self.now.world.desks }
        ensures window { result.window ≡ self.now.window }
    {
        Look {
            alloc: self.alloc,
            desks: self.world.desks(),
            window: self.window,
        }
    }

    /// Does a command that brings something to a desk or has it post, or a malformed one, and answers it. The error is always
    /// [`StreamFault::Memory`].
    fn answer(&mut self, command: &Command<'_>) -> Result<Answer, StreamFault>
        requires { MovesSomething (order_of command.now) }
        ensures answers { IfOk result (λ answer.
            Answers self.old.window (order_of command.now) self.old.world (answer_of answer) self.new.world) }
        ensures window { self.new.window ≡ self.old.window }
        ensures fault { IfErr result (λ fault. fault ≡ StreamFault.Memory) }
    {
        match command {
            Command::Take { desk, text } => {
                let event = delivery(self.alloc, *desk, text)?;
                self.happen(&event)
            }
            Command::Post { desk, since } => self.happen(&Event::Post {
                desk: *desk as usize,
                since: *since,
            }),
            Command::Arrive { packet, desk } => self.happen(&Event::Arrive {
                packet: *packet as usize,
                desk: *desk as usize,
            }),
            Command::Malformed => Ok(Answer::Refused(Refusal::NoCommand)),
            _ => unreachable!(),
        }
    }

    /// Does the event that a command asks for.
    fn happen(&mut self, event: &Event) -> Result<Answer, StreamFault>
        ensures answers { IfOk result (λ answer. (window : Window) (order : Order) →
            event_of order ≡ Some event.now → Answers window order self.old.world (answer_of answer) self.new.world) }
        ensures window { self.new.window ≡ self.old.window }
        ensures fault { IfErr result (λ fault. fault ≡ StreamFault.Memory) }
    {
        match self.world.step(event) {
            Ok(outcome) => Ok(answer_to(event, outcome)),
            Err(Cause::Refused(refusal)) => Ok(Answer::Refused(refusal)),
            Err(Cause::NoMemory) => Err(StreamFault::Memory),
        }
    }
}

/// Whether a command only asks a desk.
fn only_asks(command: &Command<'_>) -> bool
    ensures { MatchBool result (OnlyAsks (order_of command.now)) (MovesSomething (order_of command.now)) }
{
    match command {
        Command::Take { .. } | Command::Post { .. } | Command::Arrive { .. } | Command::Malformed =>
            false,
        _ => true,
    }
}

fn delivery(alloc: Global, desk: u64, text: &[u8]) -> Result<Event, AllocError>
    ensures { IfOk result (λ event. event ≡ Event.Deliver desk text.now) }
{
    Ok(Event::Deliver {
        desk: desk as usize,
        bytes: Bytes::new(Vec::from_slice(alloc, text)?),
    })
}

/// The answer to an event with this outcome.
fn answer_to(event: &Event, outcome: Outcome) -> Answer
    ensures answer { answer_of result ≡ answer_to event.now outcome }
    ensures tick { HasTick outcome }
{
    match outcome {
        Outcome::Heard { tick, changed } => heard_at(event, Heard { tick, changed }),
        Outcome::Posted { packet, items } => Answer::Posted { packet, items },
        Outcome::Refused(refusal) => Answer::Refused(refusal),
    }
}

/// The answer if a desk has heard a message or a packet.
fn heard_at(event: &Event, heard: Heard) -> Answer
    ensures { answer_of result ≡ heard_at event.now heard.tick heard.changed }
{
    match event {
        Event::Deliver { desk, .. } | Event::Post { desk, .. } => Answer::Took {
            desk: *desk,
            heard,
        },
        Event::Arrive { packet, desk } => Answer::Arrived {
            packet: *packet,
            desk: *desk,
            heard,
        },
    }
}
