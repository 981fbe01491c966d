//! The words that read messages: `list`, `compact`, `report`, `news`, `explain`, and those that write a message.
ghost use Rattle.std.specs.Prelude.{◌≡◌, Option, IfOk, IfErr, IfSome, IfNone, IsTrue, codes, map, false};
ghost use Rattle.std.specs.Option.{option_copied, option_map, option_map_or};
ghost use Rattle.std.specs.String.{string_bytes};
ghost use Rattle.itip_moment.specs.declared.stamp.Stamp.{Stamp};
ghost use Rattle.itip_words.specs.Words.{threads_of, AreThreads};
ghost use Rattle.itip_words.specs.Days.{numbered, IsAskedWindow};
ghost use Rattle.itip_words.specs.Calls.{IsFilterOf, word_of, inputs_before, reads_input_once};
ghost use Rattle.itip_words.specs.Values.{is_input};
ghost use Rattle.itip_words.specs.Finding.{Never, Finds};
ghost use Rattle.itip_words.specs.NoCalls.{IsCause};
ghost use Rattle.itip_words.specs.Options.{options_of, value_of, values_of};
ghost use Rattle.itip_words.specs.Asking.{IsRead, AreThreadsOf, AsksIntake, AsksListing, IsReportNamed, AsksReport, AsksWritten, NoMessage};
ghost use Rattle.itip_words.specs.Asking.{IsToday, IsDueDay, IsFormatNamed, IsFormatGiven, IsWritingTime, is_page, names_days, file_named};
ghost use Rattle.itip_words.specs.Asking.{LacksToday, needs_today, names_window, is_due_today, is_of_page, sources_of};

use crate::asked::{Asked, asked_attendee, asked_of, asked_uid};
use crate::days::{asked_window, due_day, is_today, today_of};
use crate::no_call::NoCall;
use crate::options::{is_given, is_set, value_of, values_of};
use crate::values::{copies, inputs, is_input};
use crate::wrong::input_read_twice;
use clap::ArgMatches;
use itip_moment::{Day, Stamp, read_stamp};
use itip_report::ReportName;
use itip_script::{read_number, read_report_name};
use itip_todo::Uid;
use itip_view::{Wanted, Window};
use std::alloc::{AllocError, Global};

/// The most threads that read messages.
pub const MAX_THREADS: u64 = 8;

/// How messages are read, and what is written of them.
#[derive(Drop)]
pub struct Filter {
    pub intake: Intake,
    pub written: Written,
}

/// What is written of messages.
#[derive(Drop)]
pub enum Written {
    /// The bytes of what is kept: in place of the file of this name, or to standard output.
    Compaction { output: Option<String> },
    /// The task list.
    List(Listing),
    /// A report.
    Report(Reported),
    /// The bytes of what the sources of these words lack.
    News { than: Vec<String> },
    /// What is told of a to-do, and what came of it.
    Explanation { uid: Uid },
    /// A message, with the moment of writing.
    Message { asked: Asked, at: Stamp },
}

/// How the messages are read.
#[derive(Drop)]
pub struct Intake {
    /// The words that name the sources. If none does, this is `-`, for standard input, or nothing if a draft is read from there.
    pub sources: Vec<String>,
    /// 1 to 8; if absent, as many as there are processors, at most 8.
    pub threads: Option<u64>,
    /// Whether progress is shown even if standard error is no terminal.
    pub progress: bool,
    /// Whether standard error says where and why something was refused.
    pub why: bool,
}

/// Which rows of the task list are written, and how.
#[derive(Drop)]
pub struct Listing {
    pub window: Window,
    /// The address that rows have to show, if one is given.
    pub attendee: Option<String>,
    /// Whether only open rows are written.
    pub is_open: bool,
    /// The day that rows have to be due before, in days from 1970-01-01, if one is given.
    pub due_before: Option<i32>,
    pub format: Format,
}

/// How the rows are written.
#[derive(Clone, Copy, Debug, PartialEq, Eq)]
pub enum Format {
    /// The text of the list.
    Text,
    /// Comma-separated fields, for other programs.
    Csv,
    /// JSON objects, for other programs.
    Json,
    /// One page in HTML, with the day that is taken as today.
    Html(Day),
}

/// Which report is written.
#[derive(Clone, Copy)]
pub struct Reported {
    pub name: ReportName,
    /// The days of the rows that it tells of, if it is of rows.
    pub window: Window,
}

impl Written {
    /// The word that writes it.
    pub fn word(&self) -> &'static str
        ensures { result.now ≡ word_of self.now }
    {
        match self {
            Written::Compaction { .. } => "compact",
            Written::List(_) => "list",
            Written::Report(_) => "report",
            Written::News { .. } => "news",
            Written::Explanation { .. } => "explain",
            Written::Message { asked, .. } => asked.word(),
        }
    }

    /// How often standard input is read before the sources.
    fn inputs_before(&self) -> usize
        ensures { result ≡ inputs_before self.now }
    {
        match self {
            Written::News { than } => inputs(than.as_slice()),
            Written::Message { asked, .. } => asked.inputs_of_draft(),
            _ => 0,
        }
    }
}

impl Filter {
    /// Whether standard input is read at most once.
    fn reads_input_once(&self) -> bool
        ensures { result ≡ reads_input_once self.now }
    {
        let before = self.written.inputs_before();
        before <= 1 && inputs(self.intake.sources.as_slice()) <= 1 - before
    }
}

impl Listing {
    /// The rows that are asked for.
    pub fn wanted(&self) -> Wanted<'_>
        ensures attendee { option_copied result.attendee ≡ option_map string_bytes self.now.attendee }
        ensures open { result.is_open ≡ self.now.is_open }
        ensures due { result.due_before ≡ self.now.due_before }
    {
        let attendee = match &self.attendee {
            Some(address) => Some(address.as_str()),
            None => None,
        };
        Wanted {
            attendee,
            is_open: self.is_open,
            due_before: self.due_before,
        }
    }
}

/// The filter that a word asks for, at the moment of a clock. `None` if a value is bad.
pub(crate) fn filter_of(
    alloc: Global,
    word: &str,
    words: &ArgMatches<'_>,
    clock: Option<Stamp>,
) -> Result<Option<Filter>, NoCall>
    ensures found { IfOk result (Finds (IsFilterOf word.now (options_of words.now) clock)) }
    ensures fault { IfErr result (IsCause (Never (IsFilterOf word.now (options_of words.now) clock)) clock) }
{
    let Some(intake) = intake_of(alloc, words)? else {
        return Ok(None);
    };
    let Some(written) = written_of(alloc, word, words, clock)? else {
        return Ok(None);
    };
    Ok(Some(if_input_once(alloc, Filter { intake, written })?))
}

/// Returns the filter if it reads standard input at most once, else [`NoCall::BadValue`].
fn if_input_once(alloc: Global, filter: Filter) -> Result<Filter, NoCall>
    ensures same { IfOk result (λ same. same ≡ filter) }
    ensures once { IfOk result (λ same. IsTrue (reads_input_once same)) }
    ensures twice { (clock : Option Stamp) → IfErr result (IsCause (reads_input_once filter ≡ false) clock) }
{
    if filter.reads_input_once() {
        return Ok(filter);
    }
    drop(filter);
    Err(NoCall::BadValue(input_read_twice(alloc)?))
}

/// What a word asks to be written.
fn written_of(
    alloc: Global,
    word: &str,
    words: &ArgMatches<'_>,
    clock: Option<Stamp>,
) -> Result<Option<Written>, NoCall>
    ensures found { IfOk result (Finds (AsksWritten word.now (options_of words.now) clock)) }
    ensures fault { IfErr result (IsCause (Never (AsksWritten word.now (options_of words.now) clock)) clock) }
{
    if word == "compact" {
        return Ok(compaction_of(alloc, words)?);
    }
    if word == "list" {
        return list_of(alloc, words, clock);
    }
    if word == "report" {
        return report_of(words, clock);
    }
    if word == "news" {
        return Ok(news_of(alloc, words)?);
    }
    if word == "explain" {
        return Ok(explanation_of(alloc, words)?);
    }
    message_of(alloc, word, words, clock)
}

fn compaction_of(alloc: Global, words: &ArgMatches<'_>) -> Result<Option<Written>, AllocError>
    ensures { (clock : Option Stamp) → IfOk result (Finds (AsksWritten (codes "compact") (options_of words.now) clock)) }
{
    let name = value_of(words, "output");
    let output = file_named(alloc, name)?;
    Ok(Some(Written::Compaction { output }))
}

/// The name of the file that is written. `None` if it is `-`, for standard output, or absent.
fn file_named(alloc: Global, name: Option<&str>) -> Result<Option<String>, AllocError>
    ensures { IfOk result (λ file. option_map string_bytes file ≡ file_named (option_copied name.entry)) }
{
    let Some(name) = name else {
        return Ok(None);
    };
    if is_input(name) {
        return Ok(None);
    }
    Ok(Some(String::from_str(alloc, name)?))
}

fn list_of(
    alloc: Global,
    words: &ArgMatches<'_>,
    clock: Option<Stamp>,
) -> Result<Option<Written>, NoCall>
    ensures found { IfOk result (Finds (AsksWritten (codes "list") (options_of words.now) clock)) }
    ensures fault { IfErr result (IsCause (Never (AsksWritten (codes "list") (options_of words.now) clock)) clock) }
{
    let needs = needs_today(words);
    let Some(today) = asked_today(words, clock, needs)? else {
        return Ok(None);
    };
    match listing_of(alloc, words, clock, today)? {
        Some(listing) => Ok(Some(Written::List(listing))),
        None => Ok(None),
    }
}

/// The list that is asked for, on the day that is taken as today. `None` if a value is bad.
fn listing_of(
    alloc: Global,
    words: &ArgMatches<'_>,
    clock: Option<Stamp>,
    today: Option<Day>,
) -> Result<Option<Listing>, AllocError>
    requires { IsToday (value_of (codes "today") (options_of words.now)) clock (numbered today) }
    ensures { IfOk result (Finds (AsksListing (options_of words.now) clock)) }
{
    let is_due = is_given(words, "due-before");
    let Some(window) = window_in(words, today, is_due) else {
        return Ok(None);
    };
    let due = value_of(words, "due-before");
    let Some(due_before) = asked_due(due, today) else {
        return Ok(None);
    };
    let Some(format) = asked_format(words, today) else {
        return Ok(None);
    };
    let address = value_of(words, "attendee");
    let attendee = asked_attendee(alloc, address)?;
    let is_open = is_set(words, "open");
    Ok(Some(Listing {
        window,
        attendee,
        is_open,
        due_before,
        format,
    }))
}

fn report_of(words: &ArgMatches<'_>, clock: Option<Stamp>) -> Result<Option<Written>, NoCall>
    ensures found { IfOk result (Finds (AsksWritten (codes "report") (options_of words.now) clock)) }
    ensures fault { IfErr result (IsCause (Never (AsksWritten (codes "report") (options_of words.now) clock)) clock) }
{
    let needs = !names_window(words);
    let Some(today) = asked_today(words, clock, needs)? else {
        return Ok(None);
    };
    match reported_of(words, clock, today) {
        Some(reported) => Ok(Some(Written::Report(reported))),
        None => Ok(None),
    }
}

/// The report that is asked for, on the day that is taken as today. `None` if a value is bad.
fn reported_of(words: &ArgMatches<'_>, clock: Option<Stamp>, today: Option<Day>) -> Option<Reported>
    requires { IsToday (value_of (codes "today") (options_of words.now)) clock (numbered today) }
    ensures { Finds (AsksReport (options_of words.now) clock) result }
{
    let name = asked_report(words)?;
    let window = window_in(words, today, false)?;
    Some(Reported { name, window })
}

/// The report that is named. `None` if none is, or if it takes no days and words name some.
fn asked_report(words: &ArgMatches<'_>) -> Option<ReportName>
    ensures { Finds (IsReportNamed (options_of words.now)) result }
{
    let text = value_of(words, "name")?;
    let name = read_report_name(text.as_bytes())?;
    if name.is_of_rows() {
        return Some(name);
    }
    if names_days(words) {
        return None;
    }
    Some(name)
}

/// Whether words name days, or the day that is taken as today.
fn names_days(words: &ArgMatches<'_>) -> bool
    ensures { result ≡ names_days (options_of words.now) }
{
    is_given(words, "from") || is_given(words, "to") || is_given(words, "today")
}

fn news_of(alloc: Global, words: &ArgMatches<'_>) -> Result<Option<Written>, AllocError>
    ensures { (clock : Option Stamp) → IfOk result (Finds (AsksWritten (codes "news") (options_of words.now) clock)) }
{
    let Some(named) = values_of(words, "than") else {
        return Ok(None);
    };
    let than = copies(alloc, named)?;
    Ok(Some(Written::News { than }))
}

fn explanation_of(alloc: Global, words: &ArgMatches<'_>) -> Result<Option<Written>, AllocError>
    ensures { (clock : Option Stamp) → IfOk result (Finds (AsksWritten (codes "explain") (options_of words.now) clock)) }
{
    match asked_uid(alloc, words)? {
        Some(uid) => Ok(Some(Written::Explanation { uid })),
        None => Ok(None),
    }
}

fn message_of(
    alloc: Global,
    word: &str,
    words: &ArgMatches<'_>,
    clock: Option<Stamp>,
) -> Result<Option<Written>, NoCall>
    ensures found { IfOk result (λ found. IfSome found (AsksWritten word.now (options_of words.now) clock)) }
    ensures none { IfOk result (λ found. IfNone found (NoMessage word.now (options_of words.now) clock)) }
    ensures fault { IfErr result (IsCause (NoMessage word.now (options_of words.now) clock) clock) }
{
    let at = value_of(words, "at");
    let Some(at) = writing_time(at, clock)? else {
        return Ok(None);
    };
    match asked_of(alloc, word, words)? {
        Some(asked) => Ok(Some(Written::Message { asked, at })),
        None => Ok(None),
    }
}

/// The moment of writing: that of `--at`, else that of the clock. `None` if the word is no date-time in UTC.
///
/// Returns [`NoCall::NoClock`] if there is neither.
fn writing_time(word: Option<&str>, clock: Option<Stamp>) -> Result<Option<Stamp>, NoCall>
    ensures found { IfOk result (Finds (IsWritingTime (option_copied word.entry) clock)) }
    ensures fault { IfErr result (IsCause (Never (IsWritingTime (option_copied word.entry) clock)) clock) }
{
    match (word, clock) {
        (Some(text), _) => Ok(read_stamp(text)),
        (None, Some(now)) => Ok(Some(now)),
        (None, None) => Err(NoCall::NoClock),
    }
}

/// The day that is taken as today: that of `--today`, else that of the clock. `None` if the word is no date.
///
/// Returns [`NoCall::NoClock`] if there is neither and something depends on it.
fn asked_today(
    words: &ArgMatches<'_>,
    clock: Option<Stamp>,
    needs: bool,
) -> Result<Option<Option<Day>>, NoCall>
    ensures found { IfOk result (λ found. IfSome found (λ today.
        IsToday (value_of (codes "today") (options_of words.now)) clock (numbered today))) }
    ensures none { IfOk result (λ found. IfNone found (Never (IsToday (value_of (codes "today") (options_of words.now)) clock))) }
    ensures fault { IfErr result (IsCause (LacksToday (options_of words.now) clock needs) clock) }
{
    let day = value_of(words, "today");
    let Some(today) = today_of(day, clock) else {
        return Ok(None);
    };
    if !needs {
        return Ok(Some(today));
    }
    match today {
        Some(day) => Ok(Some(Some(day))),
        None => Err(NoCall::NoClock),
    }
}

/// Whether the rows, or how they are written, depend on the day that is taken as today.
fn needs_today(words: &ArgMatches<'_>) -> bool
    ensures { result ≡ needs_today (options_of words.now) }
{
    !names_window(words) || is_due_today(words) || is_of_page(words)
}

/// Whether words name an end of the window.
fn names_window(words: &ArgMatches<'_>) -> bool
    ensures { result ≡ names_window (options_of words.now) }
{
    is_given(words, "from") || is_given(words, "to")
}

fn is_due_today(words: &ArgMatches<'_>) -> bool
    ensures { result ≡ is_due_today (options_of words.now) }
{
    match value_of(words, "due-before") {
        Some(day) => is_today(day),
        None => false,
    }
}

fn is_of_page(words: &ArgMatches<'_>) -> bool
    ensures { result ≡ is_of_page (options_of words.now) }
{
    match value_of(words, "format") {
        Some(name) => is_page(name),
        None => false,
    }
}

fn window_in(words: &ArgMatches<'_>, today: Option<Day>, is_due: bool) -> Option<Window>
    ensures { Finds (IsAskedWindow (value_of (codes "from") (options_of words.now)) (value_of (codes "to") (options_of words.now))
        (numbered today) is_due) result }
{
    let from = value_of(words, "from");
    let to = value_of(words, "to");
    asked_window(from, to, today, is_due)
}

/// The day that rows are due before, if it is named. `None` if the word is no day.
fn asked_due(word: Option<&str>, today: Option<Day>) -> Option<Option<i32>>
    ensures { Finds (IsRead (IsDueDay (numbered today)) (option_copied word.entry)) result }
{
    let Some(text) = word else {
        return Some(None);
    };
    let day = due_day(text, today)?;
    Some(Some(day.number))
}

fn asked_format(words: &ArgMatches<'_>, today: Option<Day>) -> Option<Format>
    ensures { Finds (IsFormatGiven (options_of words.now) (numbered today)) result }
{
    let text = value_of(words, "format")?;
    format_named(text, today)
}

/// The format of this name. `None` for any other text, and for a page if today isn't known.
fn format_named(text: &str, today: Option<Day>) -> Option<Format>
    ensures { Finds (IsFormatNamed (numbered today) text.now) result }
{
    if text == "text" {
        return Some(Format::Text);
    }
    if text == "csv" {
        return Some(Format::Csv);
    }
    if text == "json" {
        return Some(Format::Json);
    }
    if !is_page(text) {
        return None;
    }
    let day = today?;
    Some(Format::Html(day))
}

/// Whether a word names a format.
pub(crate) fn names_format(word: &str) -> bool {
    matches!(word, "text" | "csv" | "json") || is_page(word)
}

/// Whether a word names the format of the page, which marks what is overdue today.
fn is_page(word: &str) -> bool
    ensures { result ≡ is_page word.now }
{
    word == "html"
}

fn intake_of(alloc: Global, words: &ArgMatches<'_>) -> Result<Option<Intake>, AllocError>
    ensures few { IfOk result (λ found. IfSome found (λ intake. IfSome intake.threads AreThreads)) }
    ensures asked { IfOk result (Finds (AsksIntake (options_of words.now))) }
{
    let text = value_of(words, "threads");
    let Some(threads) = asked_threads(text) else {
        return Ok(None);
    };
    let sources = asked_sources(alloc, words)?;
    let progress = is_set(words, "progress");
    let why = is_set(words, "why");
    Ok(Some(Intake {
        sources,
        threads,
        progress,
        why,
    }))
}

/// The number of threads, if it is given. `None` if the word is no such number.
fn asked_threads(word: Option<&str>) -> Option<Option<u64>>
    ensures few { IfSome result (λ threads. IfSome threads AreThreads) }
    ensures asked { Finds (IsRead AreThreadsOf (option_copied word.entry)) result }
{
    let Some(text) = word else {
        return Some(None);
    };
    let threads = threads_of(text)?;
    Some(Some(threads))
}

/// A decimal number from 1 to 8.
pub(crate) fn threads_of(text: &str) -> Option<u64>
    ensures { result ≡ threads_of text.now }
{
    read_number(text.as_bytes()).filter(|threads| (1..=MAX_THREADS).contains(threads))
}

/// The words that name sources. If there are none, it is standard input, unless a draft is read from there.
fn asked_sources(alloc: Global, words: &ArgMatches<'_>) -> Result<Vec<String>, AllocError>
    ensures { IfOk result (λ sources. map string_bytes sources.items ≡ sources_of (options_of words.now)) }
{
    if let Some(named) = values_of(words, "source") {
        return copies(alloc, named);
    }
    let draft = value_of(words, "draft");
    if is_input_named(draft) {
        return Ok(Vec::new(alloc));
    }
    copies(alloc, &["-"])
}

/// Whether a word is given and names standard input.
fn is_input_named(word: Option<&str>) -> bool
    ensures { result ≡ option_map_or is_input (option_copied word.entry) false }
{
    match word {
        Some(name) => is_input(name),
        None => false,
    }
}
