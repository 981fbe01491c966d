//! The parts of a key, by which an item is looked up without making a key.
ghost use Rattle.std.specs.Prelude.{◌≡◌};
ghost use Rattle.std.specs.Option.{option_copied};
ghost use Rattle.itip_items.specs.declared.key.Key.TheVariants as key;
ghost use Rattle.itip_state.specs.Parts.{HasParts, tied_beside, within_beside, rest_beside, parts_cmp};

use crate::slot::compare_times;
use itip_items::Key;
use itip_moment::Moment;
use itip_todo::Uid;
use std::cmp::Ordering;

/// The parts of a key, borrowed, so that a look-up needs no key of its own.
#[derive(Clone, Copy, Drop)]
pub(crate) struct KeyParts<'k> {
    uid: &'k Uid,
    /// The place of the kind of the key (`Key::rank`).
    rank: u8,
    instance: Option<&'k Moment>,
    attendee: &'k str,
}

impl<'k> KeyParts<'k> {
    /// The parts of this key.
    pub(crate) fn of(key: &'k Key) -> KeyParts<'k>
        ensures { HasParts key.now result }
    {
        KeyParts {
            uid: key.uid(),
            rank: key.rank(),
            instance: key.instance(),
            attendee: key.attendee(),
        }
    }

    /// The parts of the key of an instance.
    pub(crate) fn of_instance(uid: &'k Uid, at: &'k Moment) -> KeyParts<'k>
        ensures { HasParts (key.Instance uid.now at.now) result }
    {
        KeyParts {
            uid,
            // The rank of an instance, by `Key::rank`.
            rank: 1,
            instance: Some(at),
            attendee: "",
        }
    }

    /// The parts of the key of an attendee's answer to an instance, or to the to-do as a whole if `at` is `None`.
    pub(crate) fn of_answer(uid: &'k Uid, at: Option<&'k Moment>, attendee: &'k str) -> KeyParts<'k>
        ensures { HasParts (key.Answer uid.now (option_copied at.entry) attendee.now) result }
    {
        KeyParts {
            uid,
            // The rank of an answer, by `Key::rank`.
            rank: 3,
            instance: at,
            attendee,
        }
    }
}

/// Compares a key with the parts of another as slots are compared: by the rest, then by UID.
pub(crate) fn compare(key: &Key, parts: &KeyParts<'_>) -> Ordering
    ensures { result ≡ parts_cmp key.now parts.now }
{
    match compare_rest(key, parts) {
        Ordering::Equal => key.uid().cmp(parts.uid),
        unequal => unequal,
    }
}

/// Compares by kind of key, day and second of the instance, attendee, and whole instance.
fn compare_rest(key: &Key, parts: &KeyParts<'_>) -> Ordering
    ensures { result ≡ rest_beside key.now parts.now }
{
    match key.rank().cmp(&parts.rank) {
        Ordering::Equal => compare_within(key, parts),
        unequal => unequal,
    }
}

/// Compares by day and second of the instance, attendee, and whole instance.
fn compare_within(key: &Key, parts: &KeyParts<'_>) -> Ordering
    ensures { result ≡ within_beside key.now parts.now }
{
    match compare_times(key.instance(), parts.instance) {
        Ordering::Equal => compare_tied(key, parts),
        unequal => unequal,
    }
}

/// Compares by attendee and instance.
fn compare_tied(key: &Key, parts: &KeyParts<'_>) -> Ordering
    ensures { result ≡ tied_beside key.now parts.now }
{
    match key.attendee().cmp(parts.attendee) {
        Ordering::Equal => key.instance().cmp(&parts.instance),
        unequal => unequal,
    }
}
