//! A stream of commands: the files that its desks begin with, and those that they are saved in.
ghost use Rattle.std.specs.Prelude.{◌≡◌, ◌≢◌, ℕ, List, length, Option, Some, None, IfOk, IfErr, IfSome, IfNone, IsErrOf};
ghost use Rattle.std.specs.List.{Contains};
ghost use Rattle.itip_desk.specs.DeskFile.{TellsDesk, RefusesFile};
ghost use Rattle.itip_desk.specs.Refusals.{number_of_file};
ghost use Rattle.itip_desk.specs.declared.refusal.FileRefusal.{FileRefusal};
ghost use Rattle.itip_words.specs.Streams.{names_of};
ghost use Rattle.itip_app.specs.Status.{status_unloaded, status_served, IfRefused, IfFileRefused};
ghost use Rattle.itip_app.specs.Streamed.{Begins, AreBegun, IsUnbegun, BeginsUpTo, ServesStream, IsUnserved};
ghost use Rattle.itip_app.specs.Ended.{EndsServing};

use crate::status::{FAULT, NOT_DONE, refused_status};
use crate::tell::{Causes, Explainer, Says, complain, complain_of, complain_of_file};
use itip_desk::{Desk, FileError, FileRefusal, read_desk, write_desk};
use itip_streams::{Replacement, StreamFault, read_within, visible_text};
use itip_words::{Load, Streamed};
use itip_world::{Shelf, run_stream};
use std::alloc::Global;
use std::rt::Files;
use std::{fs, io};

/// Files by their names. What they hold is a relation that a function over any folder knows nothing about, so only a function that has
/// read a file can ensure what it holds.
pub(crate) trait Folder {
    /// What the file of a name may hold, or None if it can't be read.
    ghost holds: { Self → List ℕ → Option (List ℕ) → Type 0 };

    /// The bytes of a file. Fails with [`StreamFault::Memory`] if an allocation fails, and with another fault if the file can't be read.
    fn octets(&self, name: &str) -> Result<Vec<u8>, StreamFault>
        ensures read { IfOk result (λ octets. holds self.now name.now (Some octets.items)) }
        ensures unread { IfErr result (λ fault. fault ≢ StreamFault.Memory → holds self.now name.now None) };
}

/// Files of desks.
#[derive(Drop)]
pub(crate) struct DeskFiles<'a, R> {
    rt: &'a R,
}

impl<'a, R> DeskFiles<'a, R> {
    pub(crate) fn of(rt: &'a R) -> DeskFiles<'a, R> {
        DeskFiles { rt }
    }
}

impl<'a, R: Files + AllocGlobal> Folder for DeskFiles<'a, R> {
    ghost holds = { λ _ _ _. Unit {0} };

    fn octets(&self, name: &str) -> Result<Vec<u8>, StreamFault> {
        let Ok(mut reader) = fs::open(self.rt, name) else {
            return Err(StreamFault::Read);
        };
        match read_within(self.rt.alloc(), &mut reader, usize::MAX)? {
            Some(octets) => Ok(octets),
            None => Err(StreamFault::Read),
        }
    }
}

impl<'a, R: Files + AllocGlobal> Shelf for DeskFiles<'a, R> {
    fn save(&mut self, name: &str, desk: &Desk) -> Result<(), StreamFault> {
        let mut writer = Replacement::of(self.rt, name)?;
        let done = write_desk(self.rt.alloc(), desk, &mut writer);
        writer.end(done.map(|_| false))?;
        Ok(())
    }
}

/// Why a desk can't be loaded from its file.
#[derive(Clone, Copy)]
enum LoadFault {
    Read,
    Refused(FileRefusal),
    NoMemory,
}

/// Why a stream was not served to its end.
#[derive(Clone, Copy)]
enum Unserved<'a> {
    /// A desk can't be loaded from its file.
    Load { file: &'a str, fault: LoadFault },
    /// Commands could not be read, a reply could not be written, or an allocation failed.
    Stream(StreamFault),
}

/// Serves a stream from a reader, says what ended it early, if anything did, and returns the exit status.
pub(crate) fn stream<R: AllocGlobal + Says, F: Folder + Shelf, I: io::Read, W: io::Write>(
    rt: &R,
    folder: &mut F,
    reader: &mut I,
    writer: &mut W,
    asked: &Streamed,
    causes: Causes,
) -> u8
    ensures { EndsServing (F.holds folder.old) (R.tells rt.now) asked.now
        (I.remaining reader.old) (I.remaining reader.new) (W.contents writer.old) (W.contents writer.new) result }
{
    let mut watch = Explainer::new(rt, causes);
    let done = stream_on(rt.alloc(), folder, reader, writer, asked, &mut watch);
    served(rt, done, asked.scripted.why)
}

/// Serves a stream from a reader, over desks that begin as is asked for and in the window that is asked for. Returns whether any answer
/// was a refusal.
fn stream_on<'a, F: Folder + Shelf, I: io::Read, W: io::Write, S: itip_world::Watch>(
    alloc: Global,
    folder: &mut F,
    reader: &mut I,
    writer: &mut W,
    asked: &'a Streamed,
    watch: &mut S,
) -> Result<bool, Unserved<'a>>
    ensures served { IfOk result (ServesStream (F.holds folder.old) asked.now (I.remaining reader.old) (I.remaining reader.new)
        (W.contents writer.old) (W.contents writer.new)) }
    ensures unserved { IfErr result (IsUnserved (F.holds folder.old) asked.now (I.remaining reader.old) (I.remaining reader.new)
        (W.contents writer.old) (W.contents writer.new)) }
{
    match begun(alloc, &*folder, asked) {
        Ok(desks) => {
            let window = asked.scripted.window;
            match run_stream(alloc, reader, writer, desks, window, folder, watch) {
                Ok(is_refused) => Ok(is_refused),
                Err(fault) => Err(Unserved::Stream(fault)),
            }
        }
        Err(why) => Err(why),
    }
}

/// The desks of a stream as they begin. Fails at the first that doesn't.
fn begun<'a, F: Folder>(
    alloc: Global,
    folder: &F,
    asked: &'a Streamed,
) -> Result<Vec<Desk>, Unserved<'a>>
    ensures count { IfOk result (λ desks. length desks.items ≡ asked.now.scripted.desks) }
    ensures begun { IfOk result (λ desks. AreBegun (F.holds folder.now) (names_of asked.now.loads.items) 0 desks.items) }
    ensures unbegun { IfErr result (BeginsUpTo (F.holds folder.now) asked.now) }
{
    let mut desks = Vec::new(alloc);
    for number in 0..asked.scripted.desks {
        match begin(alloc, folder, asked.loads.as_slice(), number) {
            Ok(desk) => {
                if desks.push(desk).is_err() {
                    return Err(Unserved::Stream(StreamFault::Memory));
                }
            }
            Err(why) => return Err(why),
        }
    }
    Ok(desks)
}

/// The desk of this number as it begins.
fn begin<'a, F: Folder>(
    alloc: Global,
    folder: &F,
    loads: &'a [Load],
    number: u64,
) -> Result<Desk, Unserved<'a>>
    ensures begins { IfOk result (Begins (F.holds folder.now) (names_of loads.now) number) }
    ensures unbegun { IfErr result (IsUnbegun (F.holds folder.now) (names_of loads.now) number) }
{
    match file_of(loads, number) {
        Some(file) => match loaded(alloc, folder, file) {
            Ok(desk) => Ok(desk),
            Err(fault) => Err(Unserved::Load { file, fault }),
        },
        None => Ok(Desk::empty_at(alloc, 0)),
    }
}

/// The file that is named for the desk of this number, if one is.
fn file_of<'a>(loads: &'a [Load], number: u64) -> Option<&'a str>
    ensures named { IfSome result (λ file. Contains (names_of loads.now) (number, file.now)) }
    ensures none { IfNone result ((file : List ℕ) → Contains (names_of loads.now) (number, file) → ⊥) }
{
    for load in loads {
        if load.desk == number {
            return Some(load.file.as_str());
        }
    }
    None
}

/// The desk that a file tells.
fn loaded<F: Folder>(alloc: Global, folder: &F, file: &str) -> Result<Desk, LoadFault>
    ensures told { IfOk result (λ desk. (octets : List ℕ) × F.holds folder.now file.now (Some octets) × TellsDesk octets desk) }
    ensures unread { IsErrOf result LoadFault.Read → F.holds folder.now file.now None }
    ensures refused { (refusal : FileRefusal) → IsErrOf result (LoadFault.Refused refusal) →
        (octets : List ℕ) × F.holds folder.now file.now (Some octets) × RefusesFile octets refusal }
{
    match folder.octets(file) {
        Ok(octets) => match read_desk(alloc, octets.as_slice()) {
            Ok(desk) => Ok(desk),
            Err(FileError::Refused(refusal)) => Err(LoadFault::Refused(refusal)),
            Err(FileError::NoMemory) => Err(LoadFault::NoMemory),
        },
        Err(StreamFault::Memory) => Err(LoadFault::NoMemory),
        Err(_) => Err(LoadFault::Read),
    }
}

/// Says why a stream was not served to its end, if it wasn't, and returns the exit status.
fn served<R: AllocGlobal + Says>(rt: &R, done: Result<bool, Unserved<'_>>, why: bool) -> u8
    ensures status { result ≡ status_served done.entry }
    ensures told { IfFileRefused done.entry (λ refusal. R.tells rt.now (number_of_file refusal) why) }
{
    match done {
        Ok(is_refused) => refused_status(is_refused),
        Err(Unserved::Load { file, fault }) => complain_unloaded(rt, file, fault, why),
        Err(Unserved::Stream(fault)) => complain(rt, &fault, FAULT),
    }
}

/// Says why a desk can't be loaded from its file, and returns the exit status.
fn complain_unloaded<R: AllocGlobal + Says>(rt: &R, file: &str, fault: LoadFault, why: bool) -> u8
    ensures status { result ≡ status_unloaded fault }
    ensures told { IfRefused fault (λ refusal. R.tells rt.now (number_of_file refusal) why) }
{
    let status = unloaded_status(fault);
    let visible = visible_text(rt.alloc(), file);
    let name = match &visible {
        Ok(name) => name.as_str(),
        Err(_) => "a file",
    };
    match fault {
        LoadFault::Read => complain_of(rt, name, "read failed", status),
        LoadFault::NoMemory => complain(rt, &"no memory", status),
        LoadFault::Refused(refusal) => complain_of_file(rt, name, refusal, why, status),
    }
}

fn unloaded_status(fault: LoadFault) -> u8
    ensures { result ≡ status_unloaded fault }
{
    match fault {
        LoadFault::Read | LoadFault::NoMemory => FAULT,
        LoadFault::Refused(_) => NOT_DONE,
    }
}
