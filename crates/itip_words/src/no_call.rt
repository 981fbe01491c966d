//! Why nothing is run.
ghost use Rattle.std.specs.Prelude.{◌≡◌, IfOk};
ghost use Rattle.itip_words.specs.declared.no_call.NoCall.TheVariants.{NoMemory};
ghost use Rattle.itip_words.specs.NoCalls.{IsToldOf};

use crate::commands::command;
use clap::Error;
use clap::error::ErrorKind;
use itip_streams::visible_text;
use std::alloc::{AllocError, Global};

/// Why nothing is run.
#[derive(Drop)]
pub enum NoCall {
    /// Help or the version was asked for; the error prints it.
    Help(Error),
    /// `clap` doesn't take the words; the error prints what is wrong with them.
    Refused(Error),
    /// A word doesn't take its value, an option lacks or excludes another, or standard input would be read twice; this says which, in
    /// lines of its own.
    BadValue(String),
    /// The word needs today or the moment of writing, and neither the words nor the clock tell it.
    NoClock,
    NoMemory,
}

impl From<AllocError> for NoCall {
    ghost from_gives = { λ _ e. e ≡ NoMemory };

    fn from(_: AllocError) -> NoCall {
        NoCall::NoMemory
    }
}

/// Why there is no call for words for which `clap` returned this error.
pub(crate) fn no_call(alloc: Global, words: &[String], error: Error) -> Result<NoCall, AllocError>
    ensures { IfOk result (IsToldOf error) }
{
    match error.kind() {
        ErrorKind::DisplayHelp => Ok(NoCall::Help(error)),
        ErrorKind::DisplayVersion => Ok(NoCall::Help(error)),
        ErrorKind::OutOfMemory => Err(AllocError),
        _ => Ok(NoCall::Refused(visible_error(alloc, words, error)?)),
    }
}

/// What is wrong with words that `clap` doesn't take. They are parsed again with their control characters shown as their bytes, so
/// that no word can write a line of its own.
fn visible_error(alloc: Global, words: &[String], error: Error) -> Result<Error, AllocError> {
    let mut shown = Vec::new(alloc);
    for word in words {
        shown.push(visible_text(alloc, word.as_str())?)?;
    }
    match command(alloc)?.try_get_matches_from(shown.as_slice()) {
        Ok(_) => Ok(error),
        Err(again) => Ok(again),
    }
}
