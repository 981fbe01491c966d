//! The words that write a message.
ghost use Rattle.std.specs.Prelude.{◌≡◌, ◌≢◌, Some, IfOk, IfSome, IfNone, IsSomeAnd, codes, true};
ghost use Rattle.std.specs.Option.{option_copied, option_map};
ghost use Rattle.std.specs.String.{string_bytes};
ghost use Rattle.itip_words.specs.Asked.{asked_word, inputs_of_draft, IsErrandOf};
ghost use Rattle.itip_todo.specs.declared.attendee.PartStat.{PartStat};
ghost use Rattle.itip_words.specs.AskedValues.{IsMomentName, answer_named};
ghost use Rattle.itip_words.specs.Finding.{Never, Finds};
ghost use Rattle.itip_words.specs.Values.{address_of};
ghost use Rattle.itip_words.specs.Options.{options_of, value_of, is_set};
ghost use Rattle.itip_words.specs.Asking.{IsRead, IsPercent, AsksAbout, AsksMessage};

use crate::asked_values::{answer_named, named_moment, percent_of};
use crate::options::{has_values, is_set, value_of, values_of};
use crate::values::{address_of, addresses_of, is_input};
use clap::ArgMatches;
use itip_moment::Moment;
use itip_todo::{PartStat, Todo, Uid};
use itip_writing::{Answer, Errand};
use std::alloc::{AllocError, Global};

/// Which message is written.
#[derive(Drop)]
pub enum Asked {
    /// What is sent again of a to-do.
    Resend {
        uid: Uid,
    },
    /// A request of the to-dos in a draft.
    Request {
        /// The name of the file that has it; `-` is standard input.
        draft: String,
    },
    /// An attendee's answer to a to-do, or to an instance of it.
    Reply {
        uid: Uid,
        id: Option<Moment>,
        attendee: String,
        status: PartStat,
        percent: Option<u8>,
    },
    /// An attendee's wish to be sent a to-do, or an instance of it, again.
    Refresh {
        uid: Uid,
        id: Option<Moment>,
        attendee: String,
    },
    /// The cancellation of a to-do, or of an instance of it.
    Cancel {
        uid: Uid,
        id: Option<Moment>,
    },
    /// The cancellation of an instance and all after it.
    CancelOnward {
        uid: Uid,
        id: Moment,
    },
    /// The removal of attendees from a to-do, or from an instance of it.
    Remove {
        uid: Uid,
        id: Option<Moment>,
        attendees: Vec<String>,
    },
}

impl Asked {
    /// The word that asks for it.
    pub fn word(&self) -> &'static str
        ensures { result.now ≡ asked_word self.now }
    {
        match self {
            Asked::Resend { .. } => "resend",
            Asked::Request { .. } => "request",
            Asked::Reply { .. } => "reply",
            Asked::Refresh { .. } => "refresh",
            Asked::Cancel { .. } => "cancel",
            Asked::CancelOnward { .. } => "cancel",
            Asked::Remove { .. } => "cancel",
        }
    }

    /// What is to be written. A request is of the to-dos of `draft`.
    pub fn errand<'a>(&'a self, draft: &'a [Todo]) -> Errand<'a>
        ensures { IsErrandOf self.now draft.now result }
    {
        match self {
            Asked::Resend { uid } => Errand::Resend { uid },
            Asked::Request { .. } => Errand::Request { draft },
            Asked::Reply {
                uid,
                id,
                attendee,
                status,
                percent,
            } => Errand::Reply {
                uid,
                id: id.as_ref(),
                answer: Answer {
                    attendee: attendee.as_str(),
                    status: *status,
                    percent: *percent,
                },
            },
            Asked::Refresh { uid, id, attendee } => Errand::Refresh {
                uid,
                id: id.as_ref(),
                attendee: attendee.as_str(),
            },
            Asked::Cancel { uid, id } => Errand::Cancel {
                uid,
                id: id.as_ref(),
            },
            Asked::CancelOnward { uid, id } => Errand::CancelOnward { uid, id },
            Asked::Remove { uid, id, attendees } => Errand::Remove {
                uid,
                id: id.as_ref(),
                attendees: attendees.as_slice(),
            },
        }
    }

    /// How often standard input is read for a draft.
    pub(crate) fn inputs_of_draft(&self) -> usize
        ensures { result ≡ inputs_of_draft self.now }
    {
        match self {
            Asked::Request { draft } if is_input(draft.as_str()) => 1,
            _ => 0,
        }
    }
}

/// The message that a word asks for. `None` if a value is bad.
pub(crate) fn asked_of(
    alloc: Global,
    word: &str,
    words: &ArgMatches<'_>,
) -> Result<Option<Asked>, AllocError>
    ensures { IfOk result (Finds (AsksMessage word.now (options_of words.now))) }
{
    if word == "request" {
        return request_of(alloc, words);
    }
    let Some(uid) = asked_uid(alloc, words)? else {
        return Ok(None);
    };
    if word == "resend" {
        return Ok(Some(Asked::Resend { uid }));
    }
    let text = value_of(words, "id");
    let Some(id) = asked_id(alloc, text)? else {
        return Ok(None);
    };
    asked_about(alloc, word, words, uid, id)
}

fn request_of(alloc: Global, words: &ArgMatches<'_>) -> Result<Option<Asked>, AllocError>
    ensures { IfOk result (Finds (AsksMessage (codes "request") (options_of words.now))) }
{
    let Some(name) = value_of(words, "draft") else {
        return Ok(None);
    };
    let draft = String::from_str(alloc, name)?;
    Ok(Some(Asked::Request { draft }))
}

/// The message that a word asks for about a to-do, or an instance of it. `None` if a value is bad.
fn asked_about(
    alloc: Global,
    word: &str,
    words: &ArgMatches<'_>,
    uid: Uid,
    id: Option<Moment>,
) -> Result<Option<Asked>, AllocError>
    requires { AsksAbout (options_of words.now) uid id }
    ensures asked { IfOk result (λ found. IfSome found (AsksMessage word.now (options_of words.now))) }
    ensures none { word.now ≢ codes "request" → word.now ≢ codes "resend" →
        IfOk result (λ found. IfNone found (Never (AsksMessage word.now (options_of words.now)))) }
{
    if word == "reply" {
        return reply_of(alloc, words, uid, id);
    }
    if word == "refresh" {
        return refresh_of(alloc, words, uid, id);
    }
    if word == "cancel" {
        return cancel_of(alloc, words, uid, id);
    }
    Ok(None)
}

fn reply_of(
    alloc: Global,
    words: &ArgMatches<'_>,
    uid: Uid,
    id: Option<Moment>,
) -> Result<Option<Asked>, AllocError>
    requires { AsksAbout (options_of words.now) uid id }
    ensures { IfOk result (Finds (AsksMessage (codes "reply") (options_of words.now))) }
{
    let Some(status) = asked_answer(words) else {
        return Ok(None);
    };
    let text = value_of(words, "percent");
    let Some(percent) = asked_percent(text) else {
        return Ok(None);
    };
    let address = value_of(words, "attendee");
    let Some(attendee) = asked_attendee(alloc, address)? else {
        return Ok(None);
    };
    Ok(Some(Asked::Reply {
        uid,
        id,
        attendee,
        status,
        percent,
    }))
}

fn refresh_of(
    alloc: Global,
    words: &ArgMatches<'_>,
    uid: Uid,
    id: Option<Moment>,
) -> Result<Option<Asked>, AllocError>
    requires { AsksAbout (options_of words.now) uid id }
    ensures { IfOk result (Finds (AsksMessage (codes "refresh") (options_of words.now))) }
{
    let address = value_of(words, "attendee");
    let Some(attendee) = asked_attendee(alloc, address)? else {
        return Ok(None);
    };
    Ok(Some(Asked::Refresh { uid, id, attendee }))
}

fn cancel_of(
    alloc: Global,
    words: &ArgMatches<'_>,
    uid: Uid,
    id: Option<Moment>,
) -> Result<Option<Asked>, AllocError>
    requires { AsksAbout (options_of words.now) uid id }
    ensures { IfOk result (Finds (AsksMessage (codes "cancel") (options_of words.now))) }
{
    if is_set(words, "onward") {
        return Ok(onward_of(words, uid, id));
    }
    let Some(named) = values_of(words, "attendee") else {
        return Ok(Some(Asked::Cancel { uid, id }));
    };
    let attendees = addresses_of(alloc, named)?;
    Ok(Some(Asked::Remove { uid, id, attendees }))
}

/// The cancellation of an instance and all after it. `None` if attendees are named, or no instance is.
fn onward_of(words: &ArgMatches<'_>, uid: Uid, id: Option<Moment>) -> Option<Asked>
    requires about { AsksAbout (options_of words.now) uid id }
    requires onward { is_set (codes "onward") (options_of words.now) ≡ true }
    ensures { Finds (AsksMessage (codes "cancel") (options_of words.now)) result }
{
    if has_values(words, "attendee") {
        return None;
    }
    match id {
        Some(id) => Some(Asked::CancelOnward { uid, id }),
        None => None,
    }
}

/// The UID that is named, if one is.
pub(crate) fn asked_uid(alloc: Global, words: &ArgMatches<'_>) -> Result<Option<Uid>, AllocError>
    ensures { IfOk result (λ found. value_of (codes "uid") (options_of words.now) ≡ found) }
{
    match value_of(words, "uid") {
        Some(uid) => Ok(Some(Uid::copy(alloc, uid)?)),
        None => Ok(None),
    }
}

/// The address that a word stands for, if it is given.
pub(crate) fn asked_attendee(
    alloc: Global,
    word: Option<&str>,
) -> Result<Option<String>, AllocError>
    ensures { IfOk result (λ found. option_map string_bytes found ≡ option_map address_of (option_copied word.entry)) }
{
    match word {
        Some(word) => Ok(Some(address_of(alloc, word)?)),
        None => Ok(None),
    }
}

/// The instance that a word names, if it is given. `None` if the word is no moment.
fn asked_id(alloc: Global, word: Option<&str>) -> Result<Option<Option<Moment>>, AllocError>
    ensures { IfOk result (Finds (IsRead IsMomentName (option_copied word.entry))) }
{
    let Some(text) = word else {
        return Ok(Some(None));
    };
    match named_moment(alloc, text)? {
        Some(id) => Ok(Some(Some(id))),
        None => Ok(None),
    }
}

fn asked_answer(words: &ArgMatches<'_>) -> Option<PartStat>
    ensures { Finds (λ (status : PartStat).
        IsSomeAnd (value_of (codes "status") (options_of words.now)) (λ text. answer_named text ≡ Some status)) result }
{
    let text = value_of(words, "status")?;
    answer_named(text)
}

/// The percentage of a word, if it is given. `None` if the word is no percentage.
fn asked_percent(word: Option<&str>) -> Option<Option<u8>>
    ensures { Finds (IsRead IsPercent (option_copied word.entry)) result }
{
    let Some(text) = word else {
        return Some(None);
    };
    let percent = percent_of(text)?;
    Some(Some(percent))
}
