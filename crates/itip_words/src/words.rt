//! What a call of the program asks for.
ghost use Rattle.std.specs.Prelude.{◌≡◌, ℕ, Option, IfOk, IfErr, IfSome, IfNone, codes, map};
ghost use Rattle.std.specs.String.{string_bytes};
ghost use Rattle.clap.specs.Simple.{subcommand_rows_of};
ghost use Rattle.itip_moment.specs.declared.stamp.Stamp.{Stamp};
ghost use Rattle.itip_words.specs.Words.{AreDesks, desks_of, workers_of, IsWindowOf, IsScriptedOf};
ghost use Rattle.itip_words.specs.Calls.{IfRun, IfStream, IfOffice, IfFilter, AreStreamed, AreOffice, CanFilter};
ghost use Rattle.itip_words.specs.Calls.{IsCallBy, IsCallOf};
ghost use Rattle.itip_words.specs.Finding.{Never, Finds};
ghost use Rattle.itip_words.specs.Options.{options_of};
ghost use Rattle.itip_words.specs.Asking.{AsksScript, AsksRun};
ghost use Rattle.itip_words.specs.NoCalls.{IsCause};
ghost use Rattle.itip_words.specs.Program.{IsAskedBy, IsNoCall};
ghost use Rattle.itip_view.specs.declared.window.Window.{Window};
ghost use Rattle.itip_words.specs.declared.words.Scripted.{Scripted};

use crate::commands::command;
use crate::filter::{Filter, filter_of};
use crate::no_call::{NoCall, no_call};
use crate::options::{has_values, is_set, value_of, word_of};
use crate::streamed::{Streamed, streamed_of};
use crate::wrong::what_is_wrong;
use clap::ArgMatches;
use itip_moment::{Stamp, read_date};
use itip_script::read_number;
use itip_view::Window;
use std::alloc::{AllocError, Global};

/// The most desks of a run or an office.
const MAX_DESKS: u64 = 16;

/// The most workers of an office.
const MAX_WORKERS: u64 = 8;

/// What a call of the program asks for.
#[derive(Drop)]
pub enum Call {
    /// A script is run.
    Run(Scripted),
    /// A stream of commands is served.
    Stream(Streamed),
    /// The jobs of a script are run by `workers` workers, 1 to 8.
    Office { scripted: Scripted, workers: u64 },
    /// A message is read, and its items are shown.
    Check { why: bool },
    /// Messages are read, and what is asked for is written of them.
    Filter(Filter),
}

/// How a script is run: with 1 to 16 desks, and lists of the days of a window.
#[derive(Clone, Copy)]
pub struct Scripted {
    pub desks: u64,
    pub window: Window,
    /// Whether standard error says where and why something was refused.
    pub why: bool,
}

/// Reads the words, the first of which is the program's name. `clock` is the present moment, if it is known. The error says why
/// nothing is run.
pub fn read_words(alloc: Global, words: &[String], clock: Option<Stamp>) -> Result<Call, NoCall>
    ensures run { IfOk result (IfRun (λ scripted. AreDesks scripted.desks)) }
    ensures stream { IfOk result (IfStream AreStreamed) }
    ensures office { IfOk result (IfOffice AreOffice) }
    ensures filter { IfOk result (IfFilter CanFilter) }
    ensures asked { IfOk result (IsAskedBy (map string_bytes words.now) clock) }
    ensures no_call { IfErr result (IsNoCall (map string_bytes words.now) clock) }
{
    let matches = match command(alloc)?.try_get_matches_from(words) {
        Ok(matches) => matches,
        Err(error) => return Err(no_call(alloc, words, error)?),
    };
    match call_of(alloc, &matches, clock)? {
        Some(call) => Ok(call),
        None => Err(NoCall::BadValue(what_is_wrong(alloc, &matches)?)),
    }
}

/// The call that the words ask for. `None` if a value is bad.
fn call_of(
    alloc: Global,
    matches: &ArgMatches<'_>,
    clock: Option<Stamp>,
) -> Result<Option<Call>, NoCall>
    ensures found { IfOk result (Finds (IsCallBy (subcommand_rows_of matches.now) clock)) }
    ensures fault { IfErr result (IsCause (Never (IsCallBy (subcommand_rows_of matches.now) clock)) clock) }
{
    match word_of(matches) {
        Some((word, words)) => named_call(alloc, word, words, clock),
        None => Ok(None),
    }
}

/// The call of a word. `None` if a value is bad.
fn named_call(
    alloc: Global,
    word: &str,
    words: &ArgMatches<'_>,
    clock: Option<Stamp>,
) -> Result<Option<Call>, NoCall>
    ensures found { IfOk result (Finds (IsCallOf word.now (options_of words.now) clock)) }
    ensures fault { IfErr result (IsCause (Never (IsCallOf word.now (options_of words.now) clock)) clock) }
{
    if word == "check" {
        let why = is_set(words, "why");
        return Ok(Some(Call::Check { why }));
    }
    if word == "run" {
        return Ok(run_of(alloc, words)?);
    }
    if word == "office" {
        return Ok(office_of(words));
    }
    match filter_of(alloc, word, words, clock)? {
        Some(filter) => Ok(Some(Call::Filter(filter))),
        None => Ok(None),
    }
}

/// How the words have a script run, or a stream served. `None` if a value is bad.
fn run_of(alloc: Global, words: &ArgMatches<'_>) -> Result<Option<Call>, AllocError>
    ensures { (clock : Option Stamp) → IfOk result (Finds (IsCallOf (codes "run") (options_of words.now) clock)) }
{
    if !is_set(words, "stream") {
        return Ok(script_of(words).map(Call::Run));
    }
    match streamed_of(alloc, words)? {
        Some(streamed) => Ok(Some(Call::Stream(streamed))),
        None => Ok(None),
    }
}

/// How a script that is no stream is run. `None` if a value is bad, or a desk is to be loaded from a file.
fn script_of(words: &ArgMatches<'_>) -> Option<Scripted>
    ensures found { Finds (AsksRun (options_of words.now)) result }
    ensures desks { IfSome result (λ scripted. AreDesks scripted.desks) }
{
    if has_values(words, "load") {
        return None;
    }
    scripted_of(words)
}

/// How the words have the jobs of a script run. `None` if a value is bad.
pub(crate) fn office_of(words: &ArgMatches<'_>) -> Option<Call>
    ensures { (clock : Option Stamp) → Finds (IsCallOf (codes "office") (options_of words.now) clock) result }
{
    let scripted = scripted_of(words)?;
    let text = value_of(words, "workers")?;
    let workers = workers_of(text)?;
    Some(Call::Office { scripted, workers })
}

/// How a script is run. `None` if a value is bad.
pub(crate) fn scripted_of(words: &ArgMatches<'_>) -> Option<Scripted>
    ensures asked { IfSome result (AsksScript (options_of words.now)) }
    ensures none { IfNone result ((scripted : Scripted) → AsksScript (options_of words.now) scripted → ⊥) }
    ensures desks { IfSome result (λ scripted. AreDesks scripted.desks) }
{
    let desks = value_of(words, "desks")?;
    let from = value_of(words, "from")?;
    let to = value_of(words, "to")?;
    let why = is_set(words, "why");
    scripted_of_texts(desks, from, to, why)
}

/// What the values of the words ask for. `None` if one is bad.
fn scripted_of_texts(desks: &str, from: &str, to: &str, why: bool) -> Option<Scripted>
    ensures found { IfSome result (λ scripted. IsScriptedOf desks.now from.now to.now scripted.desks scripted.window) }
    ensures none { IfNone result ((count : ℕ) (window : Window) → IsScriptedOf desks.now from.now to.now count window → ⊥) }
    ensures desks { IfSome result (λ scripted. AreDesks scripted.desks) }
    ensures why { IfSome result (λ scripted. scripted.why ≡ why) }
{
    let desks = desks_of(desks)?;
    let window = window_of(from, to)?;
    Some(Scripted { desks, window, why })
}

/// The window from one date up to another, each spelled `YYYYMMDD`. `None` if one is no date, or there is no such window.
pub(crate) fn window_of(from: &str, to: &str) -> Option<Window>
    ensures found { IfSome result (IsWindowOf from.now to.now) }
    ensures none { IfNone result ((window : Window) → IsWindowOf from.now to.now window → ⊥) }
{
    let from = read_date(from)?;
    let to = read_date(to)?;
    Window::new(from.number, to.number).ok()
}

/// A decimal number from 1 to 16.
pub(crate) fn desks_of(text: &str) -> Option<u64>
    ensures { result ≡ desks_of text.now }
{
    read_number(text.as_bytes()).filter(|desks| (1..=MAX_DESKS).contains(desks))
}

/// A decimal number from 1 to 8.
pub(crate) fn workers_of(text: &str) -> Option<u64>
    ensures { result ≡ workers_of text.now }
{
    read_number(text.as_bytes()).filter(|workers| (1..=MAX_WORKERS).contains(workers))
}
