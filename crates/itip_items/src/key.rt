ghost use Rattle.std.specs.Prelude.{◌≡◌, IfOk};

use itip_lines::{NoMemory, Text};
use itip_moment::Moment;
use itip_todo::Uid;
use std::cmp::Ordering;

/// What an item speaks of. Of the items of one key the latest revision counts.
///
/// An attendee is identified by the address with ASCII letters in lower case.
#[derive(Debug, PartialEq, Eq, PartialOrd, Ord, Drop)]
pub enum Key {
    /// The to-do of a UID.
    Series(Uid),
    /// The instance of a UID at a recurrence id.
    Instance(Uid, Moment),
    /// The instance of a UID at a recurrence id and all after it (RANGE=THISANDFUTURE).
    Range(Uid, Moment),
    /// The answer of an attendee of a UID, or of its instance at a recurrence id. A removal of the attendee has the same key.
    Answer(Uid, Option<Moment>, Text),
    /// The request of an attendee of a UID, or of its instance at a recurrence id, for the newest revision.
    Refresh(Uid, Option<Moment>, Text),
}

impl Key {
    ghost use Rattle.std.specs.Prelude.{◌≡◌, option_copied};
    ghost use Rattle.std.specs.Option.{option_cmp};
    ghost use Rattle.itip_moment.specs.Order.{moment_cmp};
    ghost use Rattle.itip_items.specs.KeyParts.{uid_of, rank_of, instance_of, attendee_of};

    /// The UID that the key is about.
    pub fn uid(&self) -> &Uid
        ensures { result.now ≡ uid_of self.now }
    {
        match self {
            Key::Series(uid)
            | Key::Instance(uid, _)
            | Key::Range(uid, _)
            | Key::Answer(uid, _, _)
            | Key::Refresh(uid, _, _) => uid,
        }
    }

    /// The rank of the kind of the key: 0 for a to-do, 1 for an instance, 2 for a range, 3 for an answer, 4 for a refresh
    /// request.
    pub fn rank(&self) -> u8
        ensures { result ≡ rank_of self.now }
    {
        match self {
            Key::Series(_) => 0,
            Key::Instance(_, _) => 1,
            Key::Range(_, _) => 2,
            Key::Answer(_, _, _) => 3,
            Key::Refresh(_, _, _) => 4,
        }
    }

    /// The recurrence id of the instance or range that the key is about, or `None` if it is about the to-do as a whole.
    pub fn instance(&self) -> Option<&Moment>
        ensures { option_copied result ≡ instance_of self.now }
    {
        match self {
            Key::Series(_) => None,
            Key::Instance(_, id) | Key::Range(_, id) => Some(id),
            Key::Answer(_, id, _) | Key::Refresh(_, id, _) => id.as_ref(),
        }
    }

    /// The order of what two keys are about: the to-do as a whole, then its instances and ranges by recurrence id.
    pub fn cmp_instances(&self, other: &Key) -> Ordering
        ensures { result ≡ option_cmp moment_cmp (instance_of self.now) (instance_of other.now) }
    {
        self.instance().cmp(&other.instance())
    }

    /// The attendee that the key is about; empty if it is about none.
    pub fn attendee(&self) -> &str
        ensures { result.now ≡ attendee_of self.now }
    {
        match self {
            Key::Series(_) | Key::Instance(_, _) | Key::Range(_, _) => "",
            Key::Answer(_, _, attendee) | Key::Refresh(_, _, attendee) => attendee.as_str(),
        }
    }
}

impl Clone for Key {
    ghost use Rattle.std.specs.Prelude.{◌≡◌};

    ghost is_clone = { λ key copy. copy ≡ key };

    fn clone(&self) -> Result<Key, NoMemory> {
        match self {
            Key::Series(uid) => Ok(Key::Series(uid.clone()?)),
            Key::Instance(uid, at) => Ok(Key::Instance(uid.clone()?, at.clone()?)),
            Key::Range(uid, at) => Ok(Key::Range(uid.clone()?, at.clone()?)),
            Key::Answer(uid, at, attendee) => {
                let (uid, at, attendee) = copy_parts(uid, at, attendee)?;
                Ok(Key::Answer(uid, at, attendee))
            }
            Key::Refresh(uid, at, attendee) => {
                let (uid, at, attendee) = copy_parts(uid, at, attendee)?;
                Ok(Key::Refresh(uid, at, attendee))
            }
        }
    }
}

fn copy_parts(
    uid: &Uid,
    at: &Option<Moment>,
    attendee: &Text,
) -> Result<(Uid, Option<Moment>, Text), NoMemory>
    ensures { IfOk result (λ copy. (copy.0 ≡ uid.now) × (copy.1 ≡ at.now) × (copy.2 ≡ attendee.now)) }
{
    let uid = uid.clone()?;
    let attendee = attendee.clone()?;
    let at = at.clone()?;
    Ok((uid, at, attendee))
}
