//! The commands of a stream, each read, done and answered before the next.
ghost use Rattle.std.specs.Prelude.{◌≡◌, ◌≢◌, [], Some, option_map, IfOk, IfErr, OnOk, OnErr, IfSome, IfNone};
ghost use Rattle.std.specs.Option.{option_copied};
ghost use Rattle.itip_script.specs.Stream.{whole, body_of, wish_of, AsksBy};
ghost use Rattle.itip_view.specs.declared.window.Window.{Window};
ghost use Rattle.itip_desk.specs.declared.refusal.Refusal.{Refusal};
ghost use Rattle.itip_desk.specs.declared.refusal.Refusal.TheVariants.{File};
ghost use Rattle.itip_desk.specs.declared.refusal.FileRefusal.TheVariants.{Unwritten};
ghost use Rattle.itip_world.specs.Running.{answer_of, refused};
ghost use Rattle.itip_world.specs.Serving.{Serves, ServesOne, ServesFront, EndsStream, Tells, TellsOne, TellsFront};
ghost use Rattle.itip_world.specs.Serving.{AsksOnly, RefusesAt, take, arrive, post, save};

use crate::answer::Answer;
use crate::hearing::{hear_delta, hear_message};
use crate::looks::{Look, told};
use crate::shelf::Shelf;
use crate::stop::Cause;
use crate::watch::{Refused, Watch};
use itip_desk::{Desk, FileRefusal, Refusal, write_delta};
use itip_lines::{LineCause, LineRefusal};
use itip_message::MessageRefusal;
use itip_script::{Body, DELTA_OCTETS, LINE_OCTETS, MESSAGE_OCTETS, StreamLine, read_body};
use itip_streams::{StreamFault, pass_octets, read_line_within, write_at_once};
use itip_view::Window;
use std::alloc::Global;
use std::io::{Read, Write};

// Why a message that is too long to hold is refused.
const LONG_MESSAGE: LineRefusal = LineRefusal {
    cause: LineCause::TooLong,
    line: None,
};

/// The desks of a stream, and the window of lists. Neither what was read nor the answers are held.
#[derive(Drop)]
pub(crate) struct Served {
    pub(crate) alloc: Global,
    pub(crate) desks: Vec<Desk>,
    pub(crate) window: Window,
}

impl Served {
    /// Reads one command, does it and writes its answer, before any byte after the command is read. Returns whether the command was
    /// refused, or `None` at the end of the input.
    ///
    /// On an error, nothing or a prefix of the answer has been written.
    pub(crate) fn step<R: Read, W: Write, S: Shelf, T: Watch>(
        &mut self,
        reader: &mut R,
        writer: &mut W,
        shelf: &mut S,
        watch: &mut T,
    ) -> Result<Option<bool>, StreamFault>
        ensures one { IfOk result (λ done. IfSome done (ServesOne self.old.window self.old.desks.items self.new.desks.items
            (R.remaining reader.old) (R.remaining reader.new) (W.contents writer.old) (W.contents writer.new))) }
        ensures end { IfOk result (λ done. IfNone done (EndsStream self.old.desks.items self.new.desks.items
            (R.remaining reader.old) (R.remaining reader.new) (W.contents writer.old) (W.contents writer.new))) }
        ensures window { self.new.window ≡ self.old.window }
        ensures front { OnErr result (ServesFront self.old.window self.old.desks.items
            (R.remaining reader.old) (R.remaining reader.new) (W.contents writer.old) (W.contents writer.new)) }
    {
        let found = read_line_within(self.alloc, reader, LINE_OCTETS)?;
        let Some(asked) = asked_by(found.as_deref()) else {
            return Ok(None);
        };
        let refused = self.answer_to(&asked, reader, writer, shelf, watch)?;
        Ok(Some(refused))
    }

    /// Reads the bytes that belong to a line, does what it asks for, and writes the answer. Returns whether that is a refusal.
    ///
    /// On an error, nothing or a prefix of the answer has been written.
    fn answer_to<R: Read, W: Write, S: Shelf, T: Watch>(
        &mut self,
        asked: &StreamLine<'_>,
        reader: &mut R,
        writer: &mut W,
        shelf: &mut S,
        watch: &mut T,
    ) -> Result<bool, StreamFault>
        requires { AsksOnly (wish_of asked.now) }
        ensures one { IfOk result (TellsOne self.old.window (wish_of asked.now) self.old.desks.items self.new.desks.items
            (R.remaining reader.old) (R.remaining reader.new) (W.contents writer.old) (W.contents writer.new)) }
        ensures window { self.new.window ≡ self.old.window }
        ensures front { OnErr result (TellsFront self.old.window (wish_of asked.now) self.old.desks.items
            (R.remaining reader.old) (R.remaining reader.new) (W.contents writer.old) (W.contents writer.new) []) }
    {
        let mut kept = Vec::new(self.alloc);
        let refused = self.reply(asked, reader, writer, shelf, &mut kept)?;
        write_at_once(writer, kept.as_slice())?;
        if !matches!(asked, StreamLine::Empty) {
            watch.answered(asked.word(), refused.as_ref());
        }
        Ok(refused.is_some())
    }

    /// Does what a line asks for, and returns why it was refused, if it was. The answer is appended to the bytes in `kept`, which are to
    /// be written; if it is a list, they are written once there are 65,536 or more. On an error, a prefix of `kept` has been written, or
    /// of `kept` and the answer.
    fn reply<R: Read, W: Write, S: Shelf>(
        &mut self,
        asked: &StreamLine<'_>,
        reader: &mut R,
        writer: &mut W,
        shelf: &mut S,
        kept: &mut Vec<u8>,
    ) -> Result<Option<Refused>, StreamFault>
        requires { AsksOnly (wish_of asked.now) }
        ensures tells { IfOk result (Tells self.old.window (wish_of asked.now) self.old.desks.items self.new.desks.items
            (R.remaining reader.old) (R.remaining reader.new) (W.contents writer.old) (W.contents writer.new)
            kept.old.items kept.new.items) }
        ensures window { self.new.window ≡ self.old.window }
        ensures front { OnErr result (TellsFront self.old.window (wish_of asked.now) self.old.desks.items
            (R.remaining reader.old) (R.remaining reader.new) (W.contents writer.old) (W.contents writer.new) kept.old.items) }
    {
        match asked {
            StreamLine::Take { desk, octets } => {
                let body = read_body(self.alloc, reader, *octets, MESSAGE_OCTETS)?;
                told(self.take(*desk, body)?, kept)
            }
            StreamLine::Arrive { desk, octets } => {
                let body = read_body(self.alloc, reader, *octets, DELTA_OCTETS)?;
                told(self.arrive(*desk, body)?, kept)
            }
            StreamLine::Post { desk, since } => told(self.post(*desk, *since)?, kept),
            StreamLine::Save { desk, file } => told(self.save(*desk, file, shelf)?, kept),
            StreamLine::Question(command) => self.look().reply(command, writer, kept),
            StreamLine::Malformed { octets } => {
                pass_octets(reader, *octets)?;
                told(Answer::Refused(Refusal::NoCommand), kept)
            }
            StreamLine::Empty => Ok(None),
        }
    }

    fn look(&self) -> Look<'_>
        ensures desks { result.desks.now ≡ self.now.desks.items }
        ensures window { result.window ≡ self.now.window }
    {
        Look {
            alloc: self.alloc,
            desks: self.desks.as_slice(),
            window: self.window,
        }
    }

    /// A desk takes a message.
    fn take(&mut self, desk: u64, body: Body) -> Result<Answer, StreamFault>
        ensures serves { IfOk result (λ answer. (window : Window) →
            Serves window self.old.desks.items (take desk (body_of body)) (Some (answer_of answer)) self.new.desks.items) }
        ensures window { self.new.window ≡ self.old.window }
        ensures err { OnErr result (self.new ≡ self.old) }
        ensures fault { IfErr result (λ fault. fault ≡ StreamFault.Memory) }
    {
        match body {
            Body::Whole(text) => self.take_text(desk, text.as_slice()),
            Body::Long => {
                let refusal = MessageRefusal::from(LONG_MESSAGE);
                Ok(self.refused_at(desk, Refusal::Message(refusal)))
            }
            Body::Cut => Ok(Answer::Refused(Refusal::NoCommand)),
        }
    }

    /// A desk takes a text as a message.
    fn take_text(&mut self, desk: u64, text: &[u8]) -> Result<Answer, StreamFault>
        ensures serves { IfOk result (λ answer. (window : Window) →
            Serves window self.old.desks.items (take desk (whole text.now)) (Some (answer_of answer)) self.new.desks.items) }
        ensures window { self.new.window ≡ self.old.window }
        ensures err { OnErr result (self.new ≡ self.old) }
        ensures fault { IfErr result (λ fault. fault ≡ StreamFault.Memory) }
    {
        let number = desk as usize;
        if number >= self.desks.len() {
            return Ok(Answer::Refused(Refusal::NoDesk(desk)));
        }
        match hear_message(self.alloc, &mut self.desks[number], number, text) {
            Ok(heard) => Ok(Answer::Took {
                desk: number,
                heard,
            }),
            Err(cause) => unheard(cause),
        }
    }

    /// A delta reaches a desk.
    fn arrive(&mut self, desk: u64, body: Body) -> Result<Answer, StreamFault>
        ensures serves { IfOk result (λ answer. (window : Window) →
            Serves window self.old.desks.items (arrive desk (body_of body)) (Some (answer_of answer)) self.new.desks.items) }
        ensures window { self.new.window ≡ self.old.window }
        ensures err { OnErr result (self.new ≡ self.old) }
        ensures fault { IfErr result (λ fault. fault ≡ StreamFault.Memory) }
    {
        match body {
            Body::Whole(octets) => self.arrive_octets(desk, octets.as_slice()),
            Body::Long => Ok(self.refused_at(desk, Refusal::LongDelta)),
            Body::Cut => Ok(Answer::Refused(Refusal::NoCommand)),
        }
    }

    /// These bytes reach a desk as a delta.
    fn arrive_octets(&mut self, desk: u64, octets: &[u8]) -> Result<Answer, StreamFault>
        ensures serves { IfOk result (λ answer. (window : Window) →
            Serves window self.old.desks.items (arrive desk (whole octets.now)) (Some (answer_of answer)) self.new.desks.items) }
        ensures window { self.new.window ≡ self.old.window }
        ensures err { OnErr result (self.new ≡ self.old) }
        ensures fault { IfErr result (λ fault. fault ≡ StreamFault.Memory) }
    {
        let number = desk as usize;
        if number >= self.desks.len() {
            return Ok(Answer::Refused(Refusal::NoDesk(desk)));
        }
        match hear_delta(self.alloc, &mut self.desks[number], number, octets) {
            Ok(heard) => Ok(Answer::Reached { desk, heard }),
            Err(cause) => unheard(cause),
        }
    }

    /// The answer if bytes for a desk are refused, or if there is no such desk.
    fn refused_at(&self, desk: u64, refusal: Refusal) -> Answer
        ensures { RefusesAt self.now.desks.items desk refusal (answer_of result) }
    {
        if desk as usize >= self.desks.len() {
            return Answer::Refused(Refusal::NoDesk(desk));
        }
        Answer::Refused(refusal)
    }

    /// A desk posts what changed there after a tick.
    fn post(&self, desk: u64, since: u64) -> Result<Answer, StreamFault>
        ensures serves { IfOk result (λ answer. (window : Window) →
            Serves window self.now.desks.items (post desk since) (Some (answer_of answer)) self.now.desks.items) }
        ensures fault { IfErr result (λ fault. fault ≡ StreamFault.Memory) }
    {
        let look = self.look();
        let Some(asked) = look.desk(desk) else {
            return Ok(Answer::Refused(Refusal::NoDesk(desk)));
        };
        let batch = asked.delta_since(since)?;
        let octets = write_delta(self.alloc, &batch)?;
        Ok(Answer::Sent {
            desk,
            tick: asked.tick(),
            items: batch.as_slice().len(),
            octets,
        })
    }

    /// Saves a desk. If it can't be saved, that is the answer, except that running out of memory is an error.
    fn save<S: Shelf>(&self, desk: u64, file: &[u8], shelf: &mut S) -> Result<Answer, StreamFault>
        ensures serves { IfOk result (λ answer. (window : Window) →
            Serves window self.now.desks.items (save desk file.now) (Some (answer_of answer)) self.now.desks.items) }
        ensures fault { IfErr result (λ fault. fault ≡ StreamFault.Memory) }
    {
        let look = self.look();
        let Some(saved) = look.desk(desk) else {
            return Ok(Answer::Refused(Refusal::NoDesk(desk)));
        };
        let Ok(name) = str::from_utf8(file) else {
            return Ok(unwritten(desk));
        };
        match shelf.save(name, saved) {
            Ok(()) => Ok(Answer::Saved {
                desk,
                tick: saved.tick(),
            }),
            Err(StreamFault::Memory) => Err(StreamFault::Memory),
            Err(_) => Ok(unwritten(desk)),
        }
    }
}

/// What a line that was read asks for, or `None` if nothing was left. A line that is too long (`found` is `None`) is malformed, and so is
/// one without a line end, which may have been cut off.
fn asked_by(found: Option<&[u8]>) -> Option<StreamLine<'_>>
    ensures asks { AsksBy (option_copied found.entry) (option_map wish_of result) }
    ensures only { IfSome result (λ asked. AsksOnly (wish_of asked)) }
{
    let Some(line) = found else {
        return Some(StreamLine::Malformed { octets: 0 });
    };
    if line.is_empty() {
        return None;
    }
    if !line.ends_with(b"\n") {
        return Some(StreamLine::Malformed { octets: 0 });
    }
    Some(StreamLine::of_line(line))
}

fn unwritten(desk: u64) -> Answer
    ensures { answer_of result ≡ refused (File (Unwritten desk)) }
{
    Answer::Refused(Refusal::File(FileRefusal::Unwritten { desk }))
}

/// The answer if a desk heard nothing for this cause.
fn unheard(cause: Cause) -> Result<Answer, StreamFault>
    ensures refused { IfOk result (λ answer. (why : Refusal) → cause ≡ Cause.Refused why → answer_of answer ≡ refused why) }
    ensures some { OnOk result (cause ≢ Cause.NoMemory) }
    ensures fault { IfErr result (λ fault. fault ≡ StreamFault.Memory) }
{
    match cause {
        Cause::Refused(refusal) => Ok(Answer::Refused(refusal)),
        Cause::NoMemory => Err(StreamFault::Memory),
    }
}
