//! The words that read messages: their sources, and what comes of them.
ghost use Rattle.std.specs.Prelude.{◌≡◌, ℕ, List, [], Some, None, IfOk, OnErr, IsErrOf, MatchOption};
ghost use Rattle.std.specs.Io.KnownBytes.{Keeps};
ghost use Rattle.itip_inbox.specs.Inbox.{AreInputs};
ghost use Rattle.itip_inbox.specs.Compaction.{IsCompaction};
ghost use Rattle.itip_inbox.specs.Explaining.{IsExplained};
ghost use Rattle.itip_inbox.specs.News.{IsNews};
ghost use Rattle.itip_inbox.specs.OfInbox.{WritesFront};
ghost use Rattle.itip_inbox.specs.Reports.{IsReport};
ghost use Rattle.itip_message.specs.RefusalNumbers.{number_of};
ghost use Rattle.itip_message.specs.declared.error.MessageRefusal.{MessageRefusal};
ghost use Rattle.itip_app.specs.Status.{status_done, status_filtered, IsUnreadable};
ghost use Rattle.itip_app.specs.Filtered.{octets_in, Writes, WritesList, WritesExplanation, WritesMessage, Filters};
ghost use Rattle.itip_app.specs.Filtered.{WritesFrontOf, WritesListFront, WritesMessageFront, FiltersFront};
ghost use Rattle.itip_app.specs.Ended.{EndsFilter, EndsReplacing, EndsSources, EndsFiltered, ReplacesFile};
ghost use Rattle.itip_app.specs.declared.draft.Draft.{Draft};

use crate::draft::{Draft, draft_of};
use crate::run::Terminals;
use crate::status::{FAULT, NOT_DONE, refused_status};
use crate::tell::{Causes, Says, Teller, complain, complain_of, complain_refused, warn};
use crate::thread_count::{ThreadCount, Works};
use itip_inbox::{
    CsvList, Explained, JsonList, ListForm, PageList, Sent, TextList, Watch, compact, explain,
    list, news, read_sources, report, send,
};
use itip_message::MessageRefusal;
use itip_moment::Stamp;
use itip_streams::{
    Replacement, Source, SourceName, StreamFault, TerminalWriter, source_names, sources_of,
    unread_line, visible_text,
};
use itip_todo::{PropertyName, Uid};
use itip_words::{Asked, Filter, Format, Listing, Reported, Written};
use itip_writing::WritingError;
use std::alloc::AllocError;
use std::io;
use std::rt::Files;
use std::thread::Threads;

/// The names of what a filter reads.
#[derive(Drop)]
pub(crate) struct Named {
    /// The draft of a request, if there is one.
    draft: Vec<SourceName>,
    /// The sources that others are compared with.
    than: Vec<SourceName>,
    /// The sources.
    heard: Vec<SourceName>,
}

impl Named {
    /// The source at a place, from 0; those that others are compared with come first.
    pub(crate) fn at(&self, place: usize) -> Option<&SourceName> {
        match place.checked_sub(self.than.len()) {
            Some(place) => self.heard.get(place),
            None => self.than.get(place),
        }
    }
}

/// The outcome of a filter.
#[derive(Drop)]
struct Outcome {
    /// Whether a message was refused, or the list or the report.
    is_refused: bool,
    /// The properties that the written message should have and lacks.
    lacking: Vec<PropertyName>,
    /// Why nothing was written, if what was asked for can't be done.
    undone: Option<Undone>,
}

/// Why nothing was written.
#[derive(Clone, Copy)]
enum Undone {
    /// No message is about the to-do.
    Unknown,
    /// The message can't be made.
    Unwritten(WritingError),
    /// The draft can't be read as a request.
    Draft(MessageRefusal),
}

/// Filters messages and returns the exit status.
pub(crate) fn filtered<R: AllocGlobal + Input + Says + Files + Works + Copy + Sync + 'static>(
    rt: &R,
    filter: &Filter,
    causes: Causes,
    terminals: Terminals,
) -> u8
    ensures { EndsFiltered ⟦<Source<'static, R, R::Reader> as io::Read>⟧.remaining (R.tells rt.now) (R.reads rt.now) filter.now
        result }
{
    let named = match names_of(rt, filter) {
        Ok(named) => named,
        Err(_) => return complain(rt, &"no memory", FAULT),
    };
    let draft = match draft_of(rt, named.draft.as_slice()) {
        Ok(draft) => draft,
        Err(StreamFault::Read) => return complain_unread(rt, named.draft.first()),
        Err(fault) => return complain(rt, &fault, FAULT),
    };
    let mut teller = Teller::new(rt, &named, filter, causes, terminals.errors);
    filter_sources(rt, &named, filter, &draft, terminals.output, &mut teller)
}

/// Says what came of a filter, and returns the exit status. `last` is the source that was opened last.
fn status_of<R: AllocGlobal + Says>(
    rt: &R,
    filter: &Filter,
    done: Result<Outcome, StreamFault>,
    last: Option<&SourceName>,
) -> u8
    ensures status { result ≡ status_filtered done }
    ensures told { IfOk done (λ outcome. (refusal : MessageRefusal) → IsUnreadable outcome.undone refusal →
        R.tells rt.now (number_of refusal) filter.now.intake.why) }
{
    match done {
        Ok(outcome) => told(rt, &outcome, filter.intake.why),
        Err(StreamFault::Read) => complain_unread(rt, last),
        Err(StreamFault::Write) => complain_unwritten(rt, &filter.written),
        Err(fault) => complain(rt, &fault, FAULT),
    }
}

/// The names of what a filter reads.
fn names_of<R: Files + AllocGlobal + Clone + Drop>(
    rt: &R,
    filter: &Filter,
) -> Result<Named, AllocError> {
    let than = match &filter.written {
        Written::News { than } => sources_named(rt, than.as_slice())?,
        _ => Vec::new(rt.alloc()),
    };
    let draft = draft_name(rt, &filter.written)?;
    let heard = sources_named(rt, filter.intake.sources.as_slice())?;
    Ok(Named { draft, than, heard })
}

/// The sources that words name; none if there are no words.
fn sources_named<R: Files + AllocGlobal + Clone + Drop>(
    rt: &R,
    words: &[String],
) -> Result<Vec<SourceName>, AllocError> {
    if words.is_empty() {
        return Ok(Vec::new(rt.alloc()));
    }
    source_names(rt, words)
}

fn draft_name<R: AllocGlobal>(rt: &R, written: &Written) -> Result<Vec<SourceName>, AllocError> {
    let alloc = rt.alloc();
    let mut names = Vec::new(alloc);
    if let Written::Message {
        asked: Asked::Request { draft },
        ..
    } = written
    {
        let name = match draft.as_str() {
            "-" => SourceName::StandardInput,
            file => SourceName::File(String::from_str(alloc, file)?),
        };
        names.push(name)?;
    }
    Ok(names)
}

/// Filters the messages of the named sources, to a file or to standard output, and returns the exit status. `is_terminal` says whether
/// standard output is a terminal.
fn filter_sources<R: AllocGlobal + Input + Says + Files + Works + Copy + Sync + 'static>(
    rt: &R,
    named: &Named,
    filter: &Filter,
    draft: &Draft,
    is_terminal: bool,
    teller: &mut Teller<'_, R>,
) -> u8
    ensures { EndsSources ⟦<Source<'static, R, R::Reader> as io::Read>⟧.remaining (R.tells rt.now) (R.reads rt.now) filter.now
        draft.now result }
{
    if let Some(name) = replaced_file(&filter.written) {
        return replace(rt, named, filter, name, teller);
    }
    if is_terminal {
        let mut writer = TerminalWriter::new(rt.alloc(), io::writer(rt));
        return filter_to(rt, named, filter, draft, &mut writer, teller);
    }
    let mut writer = io::writer(rt);
    filter_to(rt, named, filter, draft, &mut writer, teller)
}

/// The name of the file that is to be replaced, if one is.
fn replaced_file(written: &Written) -> Option<&str>
    ensures { MatchOption result (¬ ReplacesFile written.now) (λ _. ReplacesFile written.now) }
{
    match written {
        Written::Compaction { output: Some(name) } => Some(name.as_str()),
        Written::Compaction { output: None } => None,
        Written::List(_) => None,
        Written::Report(_) => None,
        Written::News { .. } => None,
        Written::Explanation { .. } => None,
        Written::Message { .. } => None,
    }
}

/// Filters the messages of the named sources, and returns the exit status.
fn filter_to<R: AllocGlobal + Input + Says + Files + Works + Sync + 'static, W: io::Write>(
    rt: &R,
    named: &Named,
    filter: &Filter,
    draft: &Draft,
    writer: &mut W,
    teller: &mut Teller<'_, R>,
) -> u8
    requires { ¬ ReplacesFile filter.now.written }
    ensures { EndsSources ⟦<Source<'static, R, R::Reader> as io::Read>⟧.remaining (R.tells rt.now) (R.reads rt.now) filter.now
        draft.now result }
{
    let names = named.heard.as_slice();
    let Ok(than) = sources_of(rt, named.than.as_slice()) else {
        return complain(rt, &"no memory", FAULT);
    };
    let Ok(sources) = sources_of(rt, names) else {
        return complain(rt, &"no memory", FAULT);
    };
    filter_status(rt, than, sources, names, filter, draft, writer, teller)
}

/// Writes what is asked for of sources, as [`write_filtered`] does, on as many threads as the filter asks for, says what came of it and
/// returns the exit status.
fn filter_status<R: AllocGlobal + Says + Works + Sync, I: io::Read + Drop, W: io::Write>(
    rt: &R,
    than: Vec<I>,
    sources: Vec<I>,
    names: &[SourceName],
    filter: &Filter,
    draft: &Draft,
    writer: &mut W,
    teller: &mut Teller<'_, R>,
) -> u8
    ensures { EndsFilter I.remaining (R.tells rt.now) (R.reads rt.now) filter.now draft.now names.now than.items sources.items
        (W.contents writer.old) (W.contents writer.new) result }
{
    let threads = rt.thread_count(filter);
    let done = write_filtered(
        rt,
        than,
        sources,
        names,
        &filter.written,
        draft,
        writer,
        threads,
        teller,
    );
    teller.show_progress();
    status_of(rt, filter, done, teller.last_opened())
}

/// Replaces the file `name` with what is kept of the named sources, and returns the exit status.
fn replace<R: AllocGlobal + Input + Says + Files + Works + Copy + Sync + 'static>(
    rt: &R,
    named: &Named,
    filter: &Filter,
    name: &str,
    teller: &mut Teller<'_, R>,
) -> u8
    requires { ReplacesFile filter.now.written }
    ensures { (draft : Draft) → EndsSources ⟦<Source<'static, R, R::Reader> as io::Read>⟧.remaining (R.tells rt.now)
        (R.reads rt.now) filter.now draft result }
{
    let Ok(sources) = sources_of(rt, named.heard.as_slice()) else {
        return complain(rt, &"no memory", FAULT);
    };
    replace_status(rt, sources, filter, name, teller)
}

/// Replaces the file `name` with what is kept of sources, on as many threads as the filter asks for, says what came of it and returns the
/// exit status. No clause says anything of the file.
fn replace_status<R: AllocGlobal + Says + Files + Works + Copy + Sync, I: io::Read + Drop>(
    rt: &R,
    sources: Vec<I>,
    filter: &Filter,
    name: &str,
    teller: &mut Teller<'_, R>,
) -> u8
    ensures { EndsReplacing I.remaining (R.tells rt.now) (R.reads rt.now) filter.now sources.items result }
{
    let replaced = write_replacement(rt, sources, name, rt.thread_count(filter), teller);
    teller.show_progress();
    status_of(rt, filter, replaced, teller.last_opened())
}

/// Writes what is kept of sources in place of a file. Returns an outcome that says whether a message was refused.
fn write_replacement<R: AllocGlobal + Files + Threads + Copy + Sync, I: io::Read + Drop, S: Watch>(
    rt: &R,
    sources: Vec<I>,
    name: &str,
    threads: ThreadCount,
    watch: &mut S,
) -> Result<Outcome, StreamFault>
    ensures { IfOk result (λ outcome. (inputs : List (List ℕ)) → AreInputs I.remaining sources.items inputs →
        Writes (IsCompaction inputs) None None outcome) }
{
    let mut writer = Replacement::of(rt, name)?;
    let threads = threads.count();
    let done = compact(rt, rt.alloc(), sources, &mut writer, threads, watch);
    let is_refused = writer.end(done)?;
    Ok(done_with(rt, is_refused))
}

/// Writes what is asked for of `sources`, which have these names; `than` are those that they are compared with. On
/// [`StreamFault::Read`] nothing has been written; on another error a prefix of the output may have been.
fn write_filtered<R: AllocGlobal + Threads + Sync, I: io::Read + Drop, W: io::Write, S: Watch>(
    rt: &R,
    than: Vec<I>,
    sources: Vec<I>,
    names: &[SourceName],
    written: &Written,
    draft: &Draft,
    writer: &mut W,
    threads: ThreadCount,
    watch: &mut S,
) -> Result<Outcome, StreamFault>
    ensures output { IfOk result (λ outcome. (known inputs : List (List ℕ)) →
        AreInputs I.remaining than.items known → AreInputs I.remaining sources.items inputs →
        Filters written.now draft.now names.now known inputs (W.contents writer.old) (W.contents writer.new) outcome) }
    ensures front { OnErr result ((known inputs : List (List ℕ)) →
        AreInputs I.remaining than.items known → AreInputs I.remaining sources.items inputs →
        FiltersFront written.now draft.now names.now known inputs (W.contents writer.old) (W.contents writer.new)) }
    ensures unread { IsErrOf result StreamFault.Read → Keeps (W.contents writer.old) (W.contents writer.new) }
{
    let threads = threads.count();
    match written {
        Written::Compaction { .. } => write_compaction(rt, sources, writer, threads, watch),
        Written::List(asked) => write_list(rt, sources, writer, asked, threads, watch),
        Written::Report(asked) => write_report(rt, sources, writer, asked, threads, watch),
        Written::News { .. } => write_news(rt, than, sources, writer, threads, watch),
        Written::Explanation { uid } => {
            write_explanation(rt, names, sources, writer, uid, threads, watch)
        }
        Written::Message { asked, at } => {
            write_message(rt, draft, sources, writer, asked, *at, threads, watch)
        }
    }
}

fn write_compaction<R: AllocGlobal + Threads + Sync, I: io::Read + Drop, W: io::Write, S: Watch>(
    rt: &R,
    sources: Vec<I>,
    writer: &mut W,
    threads: usize,
    watch: &mut S,
) -> Result<Outcome, StreamFault>
    ensures output { IfOk result (λ outcome. (inputs : List (List ℕ)) → AreInputs I.remaining sources.items inputs →
        Writes (IsCompaction inputs) (W.contents writer.old) (W.contents writer.new) outcome) }
    ensures front { OnErr result ((inputs : List (List ℕ)) → AreInputs I.remaining sources.items inputs →
        WritesFrontOf (IsCompaction inputs) (W.contents writer.old) (W.contents writer.new)) }
    ensures unread { IsErrOf result StreamFault.Read → Keeps (W.contents writer.old) (W.contents writer.new) }
{
    let done = compact(rt, rt.alloc(), sources, writer, threads, watch)?;
    Ok(done_with(rt, done))
}

fn write_news<R: AllocGlobal + Threads + Sync, I: io::Read + Drop, W: io::Write, S: Watch>(
    rt: &R,
    than: Vec<I>,
    sources: Vec<I>,
    writer: &mut W,
    threads: usize,
    watch: &mut S,
) -> Result<Outcome, StreamFault>
    ensures output { IfOk result (λ outcome. (known inputs : List (List ℕ)) →
        AreInputs I.remaining than.items known → AreInputs I.remaining sources.items inputs →
        Writes (IsNews known inputs) (W.contents writer.old) (W.contents writer.new) outcome) }
    ensures front { OnErr result ((known inputs : List (List ℕ)) →
        AreInputs I.remaining than.items known → AreInputs I.remaining sources.items inputs →
        WritesFrontOf (IsNews known inputs) (W.contents writer.old) (W.contents writer.new)) }
    ensures unread { IsErrOf result StreamFault.Read → Keeps (W.contents writer.old) (W.contents writer.new) }
{
    let done = news(rt, rt.alloc(), than, sources, writer, threads, watch)?;
    Ok(done_with(rt, done))
}

fn write_list<R: AllocGlobal + Threads + Sync, I: io::Read + Drop, W: io::Write, S: Watch>(
    rt: &R,
    sources: Vec<I>,
    writer: &mut W,
    asked: &Listing,
    threads: usize,
    watch: &mut S,
) -> Result<Outcome, StreamFault>
    ensures output { IfOk result (λ outcome. (inputs : List (List ℕ)) → AreInputs I.remaining sources.items inputs →
        WritesList (octets_in asked.now.format) asked.now inputs (W.contents writer.old) (W.contents writer.new) outcome) }
    ensures front { OnErr result ((inputs : List (List ℕ)) → AreInputs I.remaining sources.items inputs →
        WritesListFront (octets_in asked.now.format) asked.now inputs (W.contents writer.old) (W.contents writer.new)) }
    ensures unread { IsErrOf result StreamFault.Read → Keeps (W.contents writer.old) (W.contents writer.new) }
{
    match asked.format {
        Format::Text => write_form(rt, sources, writer, asked, &TextList, threads, watch),
        Format::Html(today) => {
            let page = PageList { today };
            write_form(rt, sources, writer, asked, &page, threads, watch)
        }
        Format::Csv => write_form(rt, sources, writer, asked, &CsvList, threads, watch),
        Format::Json => write_form(rt, sources, writer, asked, &JsonList, threads, watch),
    }
}

fn write_form<
    R: AllocGlobal + Threads + Sync,
    I: io::Read + Drop,
    W: io::Write,
    S: Watch,
    F: ListForm,
>(
    rt: &R,
    sources: Vec<I>,
    writer: &mut W,
    asked: &Listing,
    form: &F,
    threads: usize,
    watch: &mut S,
) -> Result<Outcome, StreamFault>
    ensures output { IfOk result (λ outcome. (inputs : List (List ℕ)) → AreInputs I.remaining sources.items inputs →
        WritesList (F.octets form.now) asked.now inputs (W.contents writer.old) (W.contents writer.new) outcome) }
    ensures front { OnErr result ((inputs : List (List ℕ)) → AreInputs I.remaining sources.items inputs →
        WritesListFront (F.octets form.now) asked.now inputs (W.contents writer.old) (W.contents writer.new)) }
    ensures unread { IsErrOf result StreamFault.Read → Keeps (W.contents writer.old) (W.contents writer.new) }
{
    let wanted = asked.wanted();
    let done = list(
        rt,
        rt.alloc(),
        sources,
        writer,
        asked.window,
        &wanted,
        form,
        threads,
        watch,
    )?;
    Ok(done_with(rt, done))
}

fn write_report<R: AllocGlobal + Threads + Sync, I: io::Read + Drop, W: io::Write, S: Watch>(
    rt: &R,
    sources: Vec<I>,
    writer: &mut W,
    asked: &Reported,
    threads: usize,
    watch: &mut S,
) -> Result<Outcome, StreamFault>
    ensures output { IfOk result (λ outcome. (inputs : List (List ℕ)) → AreInputs I.remaining sources.items inputs →
        Writes (IsReport asked.now.name inputs asked.now.window) (W.contents writer.old) (W.contents writer.new) outcome) }
    ensures front { OnErr result ((inputs : List (List ℕ)) → AreInputs I.remaining sources.items inputs →
        WritesFrontOf (IsReport asked.now.name inputs asked.now.window) (W.contents writer.old) (W.contents writer.new)) }
    ensures unread { IsErrOf result StreamFault.Read → Keeps (W.contents writer.old) (W.contents writer.new) }
{
    let done = report(
        rt,
        rt.alloc(),
        sources,
        writer,
        asked.window,
        asked.name,
        threads,
        watch,
    )?;
    Ok(done_with(rt, done))
}

fn write_explanation<R: AllocGlobal + Threads + Sync, I: io::Read + Drop, W: io::Write, S: Watch>(
    rt: &R,
    names: &[SourceName],
    sources: Vec<I>,
    writer: &mut W,
    uid: &Uid,
    threads: usize,
    watch: &mut S,
) -> Result<Outcome, StreamFault>
    ensures output { IfOk result (λ outcome. (inputs : List (List ℕ)) → AreInputs I.remaining sources.items inputs →
        WritesExplanation uid.now names.now inputs (W.contents writer.old) (W.contents writer.new) outcome) }
    ensures front { OnErr result ((inputs : List (List ℕ)) → AreInputs I.remaining sources.items inputs →
        WritesFront (IsExplained uid.now names.now inputs) (W.contents writer.old) (W.contents writer.new)) }
    ensures unread { IsErrOf result StreamFault.Read → Keeps (W.contents writer.old) (W.contents writer.new) }
{
    match explain(rt, rt.alloc(), sources, names, uid, writer, threads, watch)? {
        Explained::Told { is_refused } => Ok(done_with(rt, is_refused)),
        Explained::Unknown => Ok(nothing_done(rt, Undone::Unknown)),
    }
}

/// Writes a message. If the draft of a request is refused, the messages are read all the same, and `watch` is told of the refused ones.
fn write_message<R: AllocGlobal + Threads + Sync, I: io::Read + Drop, W: io::Write, S: Watch>(
    rt: &R,
    draft: &Draft,
    sources: Vec<I>,
    writer: &mut W,
    asked: &Asked,
    at: Stamp,
    threads: usize,
    watch: &mut S,
) -> Result<Outcome, StreamFault>
    ensures output { IfOk result (λ outcome. (inputs : List (List ℕ)) → AreInputs I.remaining sources.items inputs →
        WritesMessage draft.now.refusal asked.now draft.now.todos.items at inputs (W.contents writer.old) (W.contents writer.new) outcome) }
    ensures front { OnErr result ((inputs : List (List ℕ)) → AreInputs I.remaining sources.items inputs →
        WritesMessageFront draft.now.refusal asked.now draft.now.todos.items at inputs (W.contents writer.old) (W.contents writer.new)) }
    ensures unread { IsErrOf result StreamFault.Read → Keeps (W.contents writer.old) (W.contents writer.new) }
{
    if let Some(refusal) = draft.refusal {
        hear_only(rt, sources, threads, watch)?;
        return Ok(nothing_done(rt, Undone::Draft(refusal)));
    }
    let errand = asked.errand(draft.todos.as_slice());
    match send(rt, rt.alloc(), sources, &errand, at, writer, threads, watch)? {
        Sent::Done {
            is_refused,
            lacking,
        } => Ok(Outcome {
            is_refused,
            lacking,
            undone: None,
        }),
        Sent::Undone(error) => Ok(nothing_done(rt, Undone::Unwritten(error))),
    }
}

/// Reads sources, and tells `watch` which of their messages are refused.
fn hear_only<R: AllocGlobal + Threads + Sync, I: io::Read + Drop, S: Watch>(
    rt: &R,
    sources: Vec<I>,
    threads: usize,
    watch: &mut S,
) -> Result<(), StreamFault> {
    let inbox = read_sources(rt, rt.alloc(), sources, None, threads, watch)?;
    watch.refused(0, &inbox.refusals);
    Ok(())
}

fn done_with<R: AllocGlobal>(rt: &R, is_refused: bool) -> Outcome
    ensures refused { result.is_refused ≡ is_refused }
    ensures whole { result.lacking.items ≡ [] }
    ensures is_done { result.undone ≡ None }
{
    Outcome {
        is_refused,
        lacking: Vec::new(rt.alloc()),
        undone: None,
    }
}

fn nothing_done<R: AllocGlobal>(rt: &R, why: Undone) -> Outcome
    ensures { result.undone ≡ Some why }
{
    Outcome {
        is_refused: false,
        lacking: Vec::new(rt.alloc()),
        undone: Some(why),
    }
}

/// Says what a message lacks, or why nothing was written, and returns the exit status.
fn told<R: Says>(rt: &R, outcome: &Outcome, why: bool) -> u8
    ensures status { result ≡ status_done outcome.now.undone outcome.now.is_refused }
    ensures told { (refusal : MessageRefusal) → IsUnreadable outcome.now.undone refusal → R.tells rt.now (number_of refusal) why }
{
    if let Some(undone) = outcome.undone {
        return complain_undone(rt, undone, why);
    }
    warn(rt, outcome.lacking.as_slice());
    refused_status(outcome.is_refused)
}

fn complain_undone<R: Says>(rt: &R, undone: Undone, why: bool) -> u8
    ensures status { result ≡ 4 }
    ensures told { (refusal : MessageRefusal) → IsUnreadable (Some undone) refusal → R.tells rt.now (number_of refusal) why }
{
    match undone {
        Undone::Unknown => complain(rt, &"no message about this to-do", NOT_DONE),
        Undone::Unwritten(WritingError::Unreadable(refusal)) => {
            complain_refused(rt, refusal, why, NOT_DONE)
        }
        Undone::Unwritten(error) => complain(rt, &error, NOT_DONE),
        Undone::Draft(refusal) => complain_refused(rt, refusal, why, NOT_DONE),
    }
}

/// Says that a source can't be read, and returns the exit status.
fn complain_unread<R: AllocGlobal + Eprint>(rt: &R, name: Option<&SourceName>) -> u8
    ensures { result ≡ 3 }
{
    let Some(name) = name else {
        return complain(rt, &"read failed", FAULT);
    };
    match unread_line(rt.alloc(), name) {
        Ok(line) => complain(rt, &line, FAULT),
        Err(_) => complain(rt, &"no memory", FAULT),
    }
}

/// Says that the output can't be written, with the name of its file if it has one, and returns the exit status.
fn complain_unwritten<R: AllocGlobal + Eprint>(rt: &R, written: &Written) -> u8
    ensures { result ≡ 3 }
{
    let Some(name) = replaced_file(written) else {
        return complain(rt, &"write failed", FAULT);
    };
    match visible_text(rt.alloc(), name) {
        Ok(name) => complain_of(rt, name.as_str(), "write failed", FAULT),
        Err(_) => complain(rt, &"no memory", FAULT),
    }
}
