//! One run of the program: its words, and what they ask for.
ghost use Rattle.std.specs.Prelude.{◌≡◌, IfOk, IfErr, OnErr, IfSome, IsErrOf};
ghost use Rattle.std.specs.Io.KnownBytes.{Keeps};
ghost use Rattle.std.specs.Process.{exit_status};
ghost use Rattle.itip_streams.specs.Written.{WritesOutput};
ghost use Rattle.itip_world.specs.Running.{IsOutput, WritesRunFront};
ghost use Rattle.itip_office.specs.Scripts.{IsScriptOutput, WritesScriptFront};
ghost use Rattle.itip_office.specs.declared.error.OfficeError.{OfficeError};
ghost use Rattle.itip_words.specs.Calls.{IfRun, IfOffice, AreOffice};
ghost use Rattle.itip_words.specs.Words.{AreDesks, AreWorkers};
ghost use Rattle.itip_app.specs.Status.{status_shown, IsStatusOfNoCall};
ghost use Rattle.itip_app.specs.Ended.{EndsRun, EndsOffice, EndsShowing, EndsCall, EndsCalled, EndsProgram};

use crate::filters::filtered;
use crate::given::{Gives, NoWords};
use crate::status::{BAD_WORDS, FAULT, refused_status};
use crate::stream::{DeskFiles, Folder, stream};
use crate::tell::{Causes, Explainer, Says, complain};
use crate::thread_count::{WorkerCount, Works};
use itip_inbox::check;
use itip_office::{ScriptError, run_jobs};
use itip_streams::{Source, StreamFault};
use itip_words::{Call, NoCall, Scripted, read_words};
use itip_world::{Shelf, run_script_watched};
use std::alloc::Global;
use std::fmt::Display;
use std::io;
use std::io::BufReader;
use std::process::ExitCode;
use std::rt::Files;
use std::sync::Wait;
use std::thread::Threads;

/// Which streams are terminals.
#[derive(Clone, Copy)]
pub(crate) struct Terminals {
    /// Standard output.
    pub(crate) output: bool,
    /// Standard error.
    pub(crate) errors: bool,
}

/// Runs the program and returns how it ends.
pub(crate) fn exit_code<
    R: AllocGlobal + Gives + Input + Says + Files + Works + Wait + Copy + Send + Sync + 'static,
>(rt: &R, terminals: Terminals) -> ExitCode
    ensures { EndsProgram ⟦<Source<'static, R, R::Reader> as io::Read>⟧.remaining ⟦<R::Reader as io::Read>⟧.remaining
        (R.gives rt.now) (R.ticks rt.now) (R.shows rt.now) (R.explains rt.now) (R.tells rt.now) (R.reads rt.now) (R.employs rt.now)
        (exit_status result) }
{
    ExitCode::from(status(rt, terminals))
}

/// Runs the program and returns its exit status.
fn status<
    R: AllocGlobal + Gives + Input + Says + Files + Works + Wait + Copy + Send + Sync + 'static,
>(rt: &R, terminals: Terminals) -> u8
    ensures { EndsProgram ⟦<Source<'static, R, R::Reader> as io::Read>⟧.remaining ⟦<R::Reader as io::Read>⟧.remaining
        (R.gives rt.now) (R.ticks rt.now) (R.shows rt.now) (R.explains rt.now) (R.tells rt.now) (R.reads rt.now) (R.employs rt.now)
        result }
{
    let words = match rt.words() {
        Ok(words) => words,
        Err(NoWords::NoText) => return complain(rt, &"bad words", BAD_WORDS),
        Err(NoWords::NoMemory) => return complain(rt, &"no memory", FAULT),
    };
    done(
        rt,
        read_words(rt.alloc(), words.as_slice(), rt.moment()),
        terminals,
    )
}

/// Does what is asked for, or says why nothing is run, and returns the exit status.
fn done<R: AllocGlobal + Input + Says + Files + Works + Wait + Copy + Send + Sync + 'static>(
    rt: &R,
    call: Result<Call, NoCall>,
    terminals: Terminals,
) -> u8
    requires run { IfOk call (IfRun (λ scripted. AreDesks scripted.desks)) }
    requires office { IfOk call (IfOffice AreOffice) }
    ensures called { IfOk call (λ asked. EndsCalled ⟦<Source<'static, R, R::Reader> as io::Read>⟧.remaining
        ⟦<R::Reader as io::Read>⟧.remaining (R.explains rt.now) (R.tells rt.now) (R.reads rt.now) (R.employs rt.now) asked result) }
    ensures not_run { IfErr call (λ why. IsStatusOfNoCall (R.shows rt.now why) why result) }
{
    match call {
        Ok(call) => called(rt, call, terminals),
        Err(why) => not_run(rt, why),
    }
}

/// Does what is asked for, from standard input and to standard output, and returns the exit status.
fn called<R: AllocGlobal + Input + Says + Files + Works + Wait + Copy + Send + Sync + 'static>(
    rt: &R,
    call: Call,
    terminals: Terminals,
) -> u8
    requires run { IfRun (λ scripted. AreDesks scripted.desks) call }
    requires office { IfOffice AreOffice call }
    ensures { EndsCalled ⟦<Source<'static, R, R::Reader> as io::Read>⟧.remaining ⟦<R::Reader as io::Read>⟧.remaining
        (R.explains rt.now) (R.tells rt.now) (R.reads rt.now) (R.employs rt.now) call result }
{
    let Ok(mut reader) = BufReader::new(rt.alloc(), rt.reader()) else {
        return complain(rt, &"no memory", FAULT);
    };
    let mut writer = io::writer(rt);
    let mut files = DeskFiles::of(rt);
    call_on(rt, &mut files, &mut reader, &mut writer, call, terminals)
}

/// Does what is asked for, from a folder and a reader and to a writer, and returns the exit status. First it asks what the watch of this
/// call is to say. A filter has its own sources and output.
fn call_on<
    R: AllocGlobal + Input + Says + Files + Works + Wait + Copy + Send + Sync + 'static,
    F: Folder + Shelf,
    I: io::Read,
    W: io::Write,
>(rt: &R, folder: &mut F, reader: &mut I, writer: &mut W, call: Call, terminals: Terminals) -> u8
    requires run { IfRun (λ scripted. AreDesks scripted.desks) call }
    requires office { IfOffice AreOffice call }
    ensures explained { R.explains rt.now call }
    ensures ends { EndsCall (F.holds folder.old) ⟦<Source<'static, R, R::Reader> as io::Read>⟧.remaining (R.tells rt.now)
        (R.reads rt.now) (R.employs rt.now) call (I.remaining reader.old) (I.remaining reader.new)
        (W.contents writer.old) (W.contents writer.new) result }
{
    let causes = rt.causes(&call);
    match call {
        Call::Run(scripted) => run(rt, reader, writer, scripted, causes),
        Call::Stream(streamed) => stream(rt, folder, reader, writer, &streamed, causes),
        Call::Office { scripted, workers } => {
            office(rt, reader, writer, scripted, workers, causes)
        }
        Call::Check { .. } => show(rt, reader, writer, causes),
        Call::Filter(filter) => filtered(rt, &filter, causes, terminals),
    }
}

/// Says why nothing is run, and returns the exit status.
fn not_run<R: Says>(rt: &R, why: NoCall) -> u8
    ensures { IsStatusOfNoCall (R.shows rt.now why) why result }
{
    match &why {
        NoCall::Help(_) => match rt.show(&why) {
            Ok(()) => 0,
            Err(_) => complain(rt, &"write failed", FAULT),
        },
        NoCall::Refused(_) | NoCall::BadValue(_) => {
            let _ = rt.show(&why);
            complain(rt, &"bad words", BAD_WORDS)
        }
        NoCall::NoClock => complain(rt, &"clock: read failed", FAULT),
        NoCall::NoMemory => complain(rt, &"no memory", FAULT),
    }
}

/// Runs a script from a reader, says what failed, and returns the exit status.
fn run<R: AllocGlobal + Says, I: io::Read, W: io::Write>(
    rt: &R,
    reader: &mut I,
    writer: &mut W,
    asked: Scripted,
    causes: Causes,
) -> u8
    requires { AreDesks asked.desks }
    ensures { EndsRun asked (I.remaining reader.old) (W.contents writer.old) (W.contents writer.new) result }
{
    let mut watch = Explainer::new(rt, causes);
    ended(rt, run_on(rt.alloc(), reader, writer, asked, &mut watch))
}

/// Runs a script from a reader, with as many desks and in the window that are asked for. Returns whether the output tells of a
/// refusal. On [`StreamFault::Read`] nothing has been written; on another error a prefix of the output may have been.
fn run_on<I: io::Read, W: io::Write, S: itip_world::Watch>(
    alloc: Global,
    reader: &mut I,
    writer: &mut W,
    asked: Scripted,
    watch: &mut S,
) -> Result<bool, StreamFault>
    requires { AreDesks asked.desks }
    ensures output { IfOk result (λ refusal. IfSome (I.remaining reader.old) (λ script.
        WritesOutput (IsOutput asked.window asked.desks script) (W.contents writer.old) (W.contents writer.new) refusal)) }
    ensures front { OnErr result (IfSome (I.remaining reader.old) (λ script.
        WritesRunFront asked.window asked.desks (W.contents writer.old) (W.contents writer.new) script)) }
    ensures unread { IsErrOf result StreamFault.Read → Keeps (W.contents writer.old) (W.contents writer.new) }
{
    let desks = asked.desks as usize;
    run_script_watched(alloc, reader, writer, desks, asked.window, watch)
}

/// Does the jobs of a script from a reader, says what failed, and returns the exit status.
fn office<
    R: AllocGlobal + Says + Works + Wait + Copy + Send + Sync + 'static,
    I: io::Read,
    W: io::Write,
>(rt: &R, reader: &mut I, writer: &mut W, asked: Scripted, workers: u64, causes: Causes) -> u8
    requires desks { AreDesks asked.desks }
    requires workers { AreWorkers workers }
    ensures { EndsOffice (R.employs rt.now) asked workers (I.remaining reader.old) (W.contents writer.old) (W.contents writer.new)
        result }
{
    let workers = rt.worker_count(workers);
    let mut watch = Explainer::new(rt, causes);
    ended(
        rt,
        office_on(rt, reader, writer, asked, workers, &mut watch),
    )
}

/// Does the jobs of a script from a reader, at as many desks and in the window that are asked for. Returns whether the output tells of
/// a refusal. On [`StreamFault::Read`] and on [`ScriptError::Office`] nothing has been written; on another error a prefix of the
/// output may have been.
fn office_on<
    R: AllocGlobal + Threads + Wait + Copy + Send + Sync + 'static,
    I: io::Read,
    W: io::Write,
    S: itip_office::Watch,
>(
    rt: &R,
    reader: &mut I,
    writer: &mut W,
    asked: Scripted,
    workers: WorkerCount,
    watch: &mut S,
) -> Result<bool, ScriptError>
    requires desks { AreDesks asked.desks }
    requires workers { AreWorkers workers.count }
    ensures output { IfOk result (λ refusal. IfSome (I.remaining reader.old) (λ script.
        WritesOutput (IsScriptOutput asked.window asked.desks script) (W.contents writer.old) (W.contents writer.new) refusal)) }
    ensures front { OnErr result (IfSome (I.remaining reader.old) (λ script.
        WritesScriptFront asked.window asked.desks (W.contents writer.old) (W.contents writer.new) script)) }
    ensures unread { IsErrOf result (ScriptError.Stream StreamFault.Read) → Keeps (W.contents writer.old) (W.contents writer.new) }
    ensures unended { (error : OfficeError) → IsErrOf result (ScriptError.Office error) →
        Keeps (W.contents writer.old) (W.contents writer.new) }
{
    let desks = asked.desks as usize;
    let workers = workers.count();
    run_jobs(rt, reader, writer, desks, workers, asked.window, watch)
}

/// Shows the message from a reader, says what failed, and returns the exit status.
fn show<R: AllocGlobal + Says, I: io::Read, W: io::Write>(
    rt: &R,
    reader: &mut I,
    writer: &mut W,
    causes: Causes,
) -> u8
    ensures { EndsShowing (I.remaining reader.old) (W.contents writer.old) (W.contents writer.new) result }
{
    let mut watch = Explainer::new(rt, causes);
    ended(rt, check(rt.alloc(), reader, writer, &mut watch))
}

/// Says what failed, and returns the exit status of what was done: 1 if a refusal was written, 3 after a fault, else 0.
fn ended<R: Eprint, E: Display + Drop>(rt: &R, done: Result<bool, E>) -> u8
    ensures { result ≡ status_shown done }
{
    match done {
        Ok(is_refused) => refused_status(is_refused),
        Err(fault) => complain(rt, &fault, FAULT),
    }
}
