//! What is said besides the output: help, what was refused, where and why, and how much has been read. What can't be written to
//! standard error, or has no memory, is left out.
ghost use Rattle.std.specs.Prelude.{◌≡◌, ◌++◌, ◌∷◌, [], ℕ, List, Bool, true, false, Some, None, IfOk, OnOk, OnErr};
ghost use Rattle.std.specs.String.{string_bytes};
ghost use Rattle.itip_desk.specs.Refusals.{number_of_file};
ghost use Rattle.itip_message.specs.RefusalNumbers.{number_of};
ghost use Rattle.itip_words.specs.declared.no_call.NoCall.{NoCall};
ghost use Rattle.itip_words.specs.declared.words.Call.{Call};
ghost use Rattle.itip_app.specs.Said.{IsRefusedLine, asks_causes};

use crate::filters::Named;
use itip_desk::{FileRefusal, Refusal};
use itip_inbox::{Refusals, RefusedMessage};
use itip_message::MessageRefusal;
use itip_streams::{ShownSource, SourceName};
use itip_todo::PropertyName;
use itip_view::MostRows;
use itip_words::{Call, Filter, NoCall, most_line};
use itip_world::Refused;
use std::alloc::{AllocError, Global};
use std::fmt::Display;
use std::io;

/// What the program says besides its output. Generic code knows nothing of these relations, so a function that ensures one must have asked
/// by the method that gives it, about that very value. What it does with the answer is open.
pub(crate) trait Says: Print + Eprint {
    /// Why nothing is run was said, or could not be.
    ghost shows: { Self → NoCall → Bool → Type 0 };

    /// It was asked what the watch of this call is to say.
    ghost explains: { Self → Call → Type 0 };

    /// A refusal with this number was said: with its cause if this flag is set, and by its number alone if it isn't.
    ghost tells: { Self → ℕ → Bool → Type 0 };

    /// Prints the help that is asked for, or says what is wrong with the words.
    fn show(&self, why: &NoCall) -> io::Result<()>
        ensures shown { OnOk result (shows self.now why.now true) }
        ensures unshown { OnErr result (shows self.now why.now false) };

    /// Whether the watch of a call is to say causes.
    fn causes(&self, call: &Call) -> Causes
        ensures known { explains self.now call.now }
        ensures flag { result.are_asked ≡ asks_causes call.now };

    /// Says with which number something is refused, and with `why` for what. It has a name, or is a draft or a message to be written.
    fn tell<T: Display>(&self, name: Option<&str>, number: u32, refusal: &T, why: bool)
        ensures { tells self.now number why };
}

impl<R: Print + Eprint> Says for R {
    ghost shows = { λ _ _ _. Unit {0} };

    ghost explains = { λ _ _. Unit {0} };

    ghost tells = { λ _ _ _. Unit {0} };

    fn show(&self, why: &NoCall) -> io::Result<()> {
        match why {
            NoCall::Help(error) => error.print(self),
            NoCall::Refused(error) => error.print(self),
            NoCall::BadValue(text) => self.eprint(text),
            NoCall::NoClock | NoCall::NoMemory => Ok(()),
        }
    }

    fn causes(&self, call: &Call) -> Causes {
        Causes {
            are_asked: asks_causes(call),
        }
    }

    fn tell<T: Display>(&self, name: Option<&str>, number: u32, refusal: &T, why: bool) {
        let _ = match (name, why) {
            (Some(name), true) => eprintln!(self; "itipdesk: {name}: refused {number}: {refusal}"),
            (Some(name), false) => eprintln!(self; "itipdesk: {name}: refused {number}"),
            (None, true) => eprintln!(self; "itipdesk: refused {number}: {refusal}"),
            (None, false) => eprintln!(self; "itipdesk: refused {number}"),
        };
    }
}

/// Whether a call asks where and why something was refused.
fn asks_causes(call: &Call) -> bool
    ensures { result ≡ asks_causes call.now }
{
    match call {
        Call::Run(scripted) => scripted.why,
        Call::Stream(streamed) => streamed.scripted.why,
        Call::Office { scripted, .. } => scripted.why,
        Call::Check { why } => *why,
        Call::Filter(filter) => filter.intake.why,
    }
}

/// Whether a watch says where and why something was refused. Only [`Says::causes`] makes it.
#[derive(Clone, Copy)]
pub(crate) struct Causes {
    are_asked: bool,
}

/// Names the refused messages of sources, and, where causes are asked for, the to-do with the most rows if there are too many; and shows
/// the progress of reading.
#[derive(Drop)]
pub(crate) struct Teller<'a, R> {
    rt: &'a R,
    named: &'a Named,
    filter: &'a Filter,
    causes: Causes,
    is_shown: bool,
    /// The place of the source that was opened last.
    opened: usize,
    progress: Progress,
    /// The progress that was shown last.
    shown: Progress,
}

/// How many messages and bytes of all sources have been read.
#[derive(Clone, Copy)]
struct Progress {
    messages: u64,
    octets: u64,
}

const NO_PROGRESS: Progress = Progress {
    messages: 0,
    octets: 0,
};

// How many bytes are read before progress is shown again: a folder of many small files has no line for each.
const SHARE: u64 = 1_048_576;

// How many bytes std's buffer for standard error has. A write costs more than the lines in it.
const WRITTEN_AT_ONCE: usize = 1_024;

impl<'a, R: AllocGlobal + Eprint> Teller<'a, R> {
    /// `is_terminal` says whether standard error is a terminal.
    pub(crate) fn new(
        rt: &'a R,
        named: &'a Named,
        filter: &'a Filter,
        causes: Causes,
        is_terminal: bool,
    ) -> Teller<'a, R>
        ensures { result.causes ≡ causes }
    {
        Teller {
            rt,
            named,
            filter,
            causes,
            is_shown: is_terminal || filter.intake.progress,
            opened: 0,
            progress: NO_PROGRESS,
            shown: NO_PROGRESS,
        }
    }

    /// The source that was opened last.
    pub(crate) fn last_opened(&self) -> Option<&SourceName> {
        self.named.at(self.opened)
    }

    /// Shows how much has been read, if progress is shown at all and there is more than was shown last.
    pub(crate) fn show_progress(&mut self) {
        let Progress { messages, octets } = self.progress;
        if self.is_shown && (octets > self.shown.octets || messages > self.shown.messages) {
            let _ = eprintln!(self.rt; "{messages} messages, {octets} octets");
            self.shown = self.progress;
        }
    }

    fn say(&self, line: Result<String, AllocError>) {
        if let Ok(line) = line {
            let _ = eprintln!(self.rt; "{line}");
        }
    }

    /// Adds a line to those that aren't written yet, and writes these before if all are too long for one write. A line that has no
    /// memory is left out.
    fn collect(&self, lines: &mut String, line: Result<String, AllocError>) {
        if let Ok(line) = line {
            if lines.len().saturating_add(line.len()) >= WRITTEN_AT_ONCE {
                self.write(lines);
            }
            if add_line(lines, line.as_str()).is_err() {
                self.write(lines);
                self.say(Ok(line));
            }
        }
    }

    /// Writes lines, and empties them.
    fn write(&self, lines: &mut String) {
        let _ = eprint!(self.rt; "{lines}");
        lines.clear();
    }

    /// The line about a refused message of a source.
    fn line_of(
        &self,
        source: &ShownSource<'_>,
        refused: &RefusedMessage,
    ) -> Result<String, AllocError>
        ensures bare { self.now.causes.are_asked ≡ false → IfOk result (λ line.
            IsRefusedLine source.now refused.now None (string_bytes line)) }
        ensures caused { self.now.causes.are_asked ≡ true → IfOk result (λ line. (cause : List ℕ) ×
            IsRefusedLine source.now refused.now (Some cause) (string_bytes line)) }
    {
        let alloc = self.rt.alloc();
        let refusal = Refusal::Message(refused.refusal);
        let number = refusal.number();
        if !self.causes.are_asked {
            return source.refused_line(alloc, refused.message, number);
        }
        let why = refusal.to_string(alloc)?;
        source.explained_line(alloc, refused.message, number, why.as_str())
    }
}

/// Adds a line and its line break. If an allocation fails, nothing is added.
fn add_line(lines: &mut String, line: &str) -> Result<(), AllocError>
    ensures adds { OnOk result (string_bytes lines.new ≡ string_bytes lines.old ++ (line.now ++ 10 ∷ [])) }
    ensures unchanged { OnErr result (string_bytes lines.new ≡ string_bytes lines.old) }
{
    lines.reserve(line.len() + 1)?;
    lines.push_str(line)?;
    lines.push('\n')
}

impl<'a, R: AllocGlobal + Eprint> itip_inbox::Watch for Teller<'a, R> {
    fn opens(&mut self, source: usize) {
        self.opened = source;
    }

    fn read(&mut self, messages: u64, octets: u64) {
        self.progress = Progress { messages, octets };
        if octets.saturating_sub(self.shown.octets) >= SHARE {
            self.show_progress();
        }
    }

    fn refused(&mut self, before: usize, refusals: &Refusals) {
        if refusals.is_empty() {
            return;
        }
        self.show_progress();
        let alloc = self.rt.alloc();
        let mut lines = String::new(alloc);
        let mut place = 0;
        let mut shown = None;
        for refused in refusals.iter() {
            let source = before.saturating_add(refused.source);
            if let Some(name) = self.named.at(source) {
                if shown.is_none() || place != source {
                    place = source;
                    shown = ShownSource::new(alloc, name).ok();
                }
                if let Some(shown) = &shown {
                    self.collect(&mut lines, self.line_of(shown, &refused));
                }
            }
        }
        self.write(&mut lines);
    }

    fn too_many_rows(&mut self, most: &MostRows) {
        if self.causes.are_asked {
            self.say(line_of_most(self.rt.alloc(), self.filter.written.word(), most));
        }
    }
}

/// Says where and why something was refused, if that is asked for.
#[derive(Drop)]
pub(crate) struct Explainer<'a, R> {
    rt: &'a R,
    causes: Causes,
    /// How many commands have been answered.
    answered: u64,
}

impl<'a, R: AllocGlobal + Eprint> Explainer<'a, R> {
    pub(crate) fn new(rt: &'a R, causes: Causes) -> Explainer<'a, R>
        ensures { result.causes ≡ causes }
    {
        Explainer {
            rt,
            causes,
            answered: 0,
        }
    }

    fn say(&self, name: &str, number: u64, refusal: Refusal) {
        if self.causes.are_asked {
            let shown = refusal.number();
            let _ = eprintln!(self.rt; "{name} {number}: refused {shown}: {refusal}");
        }
    }

    /// Says which to-do has the most rows, if that is asked for.
    fn say_most(&self, name: &str, number: u64, most: &MostRows) {
        if self.causes.are_asked {
            if let Ok(line) = self.line_of_most(name, number, most) {
                let _ = eprintln!(self.rt; "{line}");
            }
        }
    }

    fn line_of_most(&self, name: &str, number: u64, most: &MostRows) -> Result<String, AllocError> {
        let alloc = self.rt.alloc();
        let asked = format!(in alloc; "{name} {number}")?;
        line_of_most(alloc, asked.as_str(), most)
    }

    fn say_of_script(&self, refusal: Refusal) {
        if self.causes.are_asked {
            let shown = refusal.number();
            let _ = eprintln!(self.rt; "script: refused {shown}: {refusal}");
        }
    }
}

impl<'a, R: AllocGlobal + Eprint> itip_inbox::Watch for Explainer<'a, R> {
    fn opens(&mut self, _source: usize) {}

    fn read(&mut self, _messages: u64, _octets: u64) {}

    fn refused(&mut self, _before: usize, refusals: &Refusals) {
        for refused in refusals.iter() {
            self.say(
                "message",
                refused.message,
                Refusal::Message(refused.refusal),
            );
        }
    }

    fn too_many_rows(&mut self, _most: &MostRows) {}
}

impl<'a, R: AllocGlobal + Eprint> itip_world::Watch for Explainer<'a, R> {
    fn answered(&mut self, command: &'static str, refused: Option<&Refused>) {
        if let Some(refused) = refused {
            match &refused.most {
                Some(most) => self.say_most(command, self.answered, most),
                None => self.say(command, self.answered, refused.refusal),
            }
        }
        self.answered = self.answered.saturating_add(1);
    }

    fn refused_script(&mut self, refusal: Refusal) {
        self.say_of_script(refusal);
    }
}

impl<'a, R: AllocGlobal + Eprint> itip_office::Watch for Explainer<'a, R> {
    fn refused_job(&mut self, number: u64, refusal: Refusal) {
        self.say("job", number, refusal);
    }

    fn too_many_rows(&mut self, desk: u64, most: &MostRows) {
        self.say_most("desk", desk, most);
    }

    fn refused_script(&mut self, refusal: Refusal) {
        self.say_of_script(refusal);
    }
}

/// The line about a list or a report that is refused for too many rows: which to-do has the most.
fn line_of_most(alloc: Global, asked: &str, most: &MostRows) -> Result<String, AllocError> {
    let number = Refusal::TooManyRows.number();
    most_line(alloc, asked, number, most.uid.as_str(), most.rows)
}

/// Warns of the properties that a message should have (RFC 5546 3.4) and lacks.
pub(crate) fn warn<R: Eprint>(rt: &R, lacking: &[PropertyName]) {
    for property in lacking {
        let _ = eprintln!(rt; "warning: {property} is missing");
    }
}

/// Says with which number a draft or a message to be written is refused, and with `why` for what, and returns `status`.
pub(crate) fn complain_refused<R: Says>(
    rt: &R,
    refusal: MessageRefusal,
    why: bool,
    status: u8,
) -> u8
    ensures same { result ≡ status }
    ensures told { R.tells rt.now (number_of refusal) why }
{
    rt.tell(None, refusal.number(), &refusal, why);
    status
}

/// Says what failed of the thing with this name, and returns `status`.
pub(crate) fn complain_of<R: Eprint>(rt: &R, name: &str, what: &str, status: u8) -> u8
    ensures { result ≡ status }
{
    let _ = eprintln!(rt; "itipdesk: {name}: {what}");
    status
}

/// Says with which number the file of a desk is refused, and with `why` for what, and returns `status`.
pub(crate) fn complain_of_file<R: Says>(
    rt: &R,
    name: &str,
    refusal: FileRefusal,
    why: bool,
    status: u8,
) -> u8
    ensures same { result ≡ status }
    ensures told { R.tells rt.now (number_of_file refusal) why }
{
    rt.tell(Some(name), refusal.number(), &refusal, why);
    status
}

/// Says what was wrong, and returns `status`. If standard error can't be written, the status alone says that something was.
pub(crate) fn complain<R: Eprint, T: Display>(rt: &R, what: &T, status: u8) -> u8
    ensures { result ≡ status }
{
    let _ = eprintln!(rt; "itipdesk: {what}");
    status
}
