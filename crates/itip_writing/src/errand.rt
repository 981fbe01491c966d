//! What an office asks for, and the message that is written for it.
ghost use Rattle.std.specs.Prelude.{IfOk, IfErr, None};
ghost use Rattle.itip_report.specs.Resending.{IsResend, IsResendOf};
ghost use Rattle.itip_writing.specs.Causes.{IfNothing};
ghost use Rattle.itip_writing.specs.Errands.{CannotBeWritten, IsWritten, LacksOf};
ghost use Rattle.itip_writing.specs.Lacking.{IsResendLacking};

use crate::answer::Answer;
use crate::cancel::cancellation;
use crate::error::WritingError;
use crate::lacking::lacking_of_items;
use crate::onward::onward_cancellation;
use crate::refresh::refresh_of;
use crate::removing::removal;
use crate::reply::reply_to;
use crate::request::request_of;
use itip_moment::{Moment, Stamp};
use itip_report::{resend, resent_items};
use itip_state::{ItemsOfUid, State};
use itip_todo::{PropertyName, Todo, Uid};
use std::alloc::Global;

/// What an office asks for: a message about a to-do that it has heard of, or the request of a draft.
#[derive(Clone, Copy, Debug, Drop)]
pub enum Errand<'a> {
    /// The messages of a to-do, sent again.
    Resend {
        uid: &'a Uid,
    },
    /// An answer to a to-do as a whole or to an instance.
    Reply {
        uid: &'a Uid,
        id: Option<&'a Moment>,
        answer: Answer<'a>,
    },
    /// A refresh request of the attendee with this address, for a to-do as a whole or an instance.
    Refresh {
        uid: &'a Uid,
        id: Option<&'a Moment>,
        attendee: &'a str,
    },
    /// The cancellation of a to-do as a whole or of an instance.
    Cancel {
        uid: &'a Uid,
        id: Option<&'a Moment>,
    },
    /// The cancellation of an instance and all after it.
    CancelOnward {
        uid: &'a Uid,
        id: &'a Moment,
    },
    /// The removal of the attendees with these addresses from a to-do as a whole or from an instance.
    Remove {
        uid: &'a Uid,
        id: Option<&'a Moment>,
        attendees: &'a [String],
    },
    /// A request of these to-dos.
    Request {
        draft: &'a [Todo],
    },
}

/// A message to send; for a resend, the messages one after the other.
#[derive(Debug, Drop)]
pub struct Message {
    /// The bytes to send.
    pub octets: Vec<u8>,
    /// The properties that RFC 5546 3.4 requires in such a message and that are missing, each once, in canonical order. Messages that
    /// are sent again are checked for ORGANIZER only.
    pub lacking: Vec<PropertyName>,
}

/// The message that an errand asks for, written at the moment `at`; `state` keeps what has been heard so far.
///
/// The errors are those of each message: see [`reply_to`], [`refresh_of`], [`cancellation`], [`onward_cancellation`], `removal` and
/// [`request_of`]. A resend fails with `NothingStands` if no series item of the UID is live, and with `NoMemory` if an allocation fails.
pub fn message_for(
    alloc: Global,
    state: &State,
    errand: &Errand<'_>,
    at: Stamp,
) -> Result<Message, WritingError>
    ensures written { IfOk result (λ message. IsWritten errand.now state.now at message.octets.items) }
    ensures lacking { IfOk result (λ message. LacksOf errand.now state.now message.lacking.items) }
    ensures fault { IfErr result (CannotBeWritten errand.now state.now at) }
{
    match errand {
        Errand::Resend { uid } => sent_again(alloc, state, uid),
        Errand::Reply { uid, id, answer } => reply_to(alloc, state, uid, *id, answer, at),
        Errand::Refresh { uid, id, attendee } => refresh_of(alloc, state, uid, *id, attendee, at),
        Errand::Cancel { uid, id } => cancellation(alloc, state, uid, *id, at),
        Errand::CancelOnward { uid, id } => onward_cancellation(alloc, state, uid, id, at),
        Errand::Remove { uid, id, attendees } => removal(alloc, state, uid, *id, attendees, at),
        Errand::Request { draft } => request_of(alloc, state, draft, at),
    }
}

/// The messages of a to-do, to be sent again. They lack ORGANIZER if one of them has none.
///
/// Fails with `NothingStands` if no series item of the UID is live.
fn sent_again(alloc: Global, state: &State, uid: &Uid) -> Result<Message, WritingError>
    ensures written { IfOk result (λ message. IsResend state.now uid.now message.octets.items) }
    ensures lacking { IfOk result (λ message. IsResendLacking state.now uid.now message.lacking.items) }
    ensures fault { IfErr result (IfNothing (IsResendOf state.now uid.now None)) }
{
    let lacking = resend_lacking(alloc, state, uid)?;
    match resend(alloc, state, uid)? {
        Some(octets) => Ok(Message { octets, lacking }),
        None => Err(WritingError::NothingStands),
    }
}

/// What the messages of a to-do lack when they are sent again.
///
/// Fails with `NothingStands` if no series item of the UID is live.
fn resend_lacking(
    alloc: Global,
    state: &State,
    uid: &Uid,
) -> Result<Vec<PropertyName>, WritingError>
    ensures lacking { IfOk result (λ lacking. IsResendLacking state.now uid.now lacking.items) }
    ensures fault { IfErr result (IfNothing (IsResendOf state.now uid.now None)) }
{
    let items = state.of_uid(uid)?;
    lacking_in(alloc, &items)
}

/// The same, given the kept items of the UID.
fn lacking_in(alloc: Global, items: &ItemsOfUid<'_>) -> Result<Vec<PropertyName>, WritingError>
    ensures lacking { IfOk result (λ lacking. IsResendLacking items.now.items items.now.uid lacking.items) }
    ensures fault { IfErr result (IfNothing (IsResendOf items.now.items items.now.uid None)) }
{
    let Some(resent) = resent_items(alloc, items)? else {
        return Err(WritingError::NothingStands);
    };
    let lacking = lacking_of_items(alloc, resent.series, &resent.overrides)?;
    Ok(lacking)
}
