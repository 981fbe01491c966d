//! What a state keeps of one UID.
ghost use Rattle.std.specs.Prelude.{◌≡◌, map};
ghost use Rattle.std.specs.Option.{option_copied};
ghost use Rattle.itip_items.specs.declared.key.Key.TheVariants as key;
ghost use Rattle.itip_items.specs.declared.key.Key.{Key};
ghost use Rattle.itip_state.specs.Kept.{IsBestOf};
ghost use Rattle.itip_state.specs.OfUid.{UidPart, IsUidPart};
ghost use Rattle.itip_state.specs.Parts.{HasParts};

use crate::parts::{KeyParts, compare};
use itip_items::{Item, Key};
use itip_moment::Moment;
use itip_todo::Uid;
use std::marker::Model;

/// The kept items of one UID in the order of their keys: the series item, then instances and then ranges, each by recurrence id, then
/// answers and then refresh requests, each by the day and the second of the instance, attendee and instance.
#[derive(Debug, Drop)]
pub struct ItemsOfUid<'a> {
    uid: &'a Uid,
    items: Vec<&'a Item>,
}

impl<'a> Model for ItemsOfUid<'a> {
    ghost use Rattle.std.specs.Prelude.{map};
    ghost use Rattle.itip_state.specs.OfUid.{UidPart, uid_part_code, IsUidPart};

    ghost Value = { UidPart };

    ghost coded = { uid_part_code };

    ghost view = { λ o. record { uid = o.uid.now; items = map (λ item. item.now) o.items.items } };

    ghost invariant = { λ o. IsUidPart (record { uid = o.uid.now; items = map (λ item. item.now) o.items.items }) };
}

impl<'a> ItemsOfUid<'a> {
    /// These items of a UID.
    pub(crate) fn new(uid: &'a Uid, items: Vec<&'a Item>) -> ItemsOfUid<'a>
        requires { IsUidPart (record { uid = uid.now; items = map (λ item. item.now) items.items }) }
        ensures { result ≡ record { uid = uid.now; items = map (λ item. item.now) items.entry.items } }
    {
        ItemsOfUid { uid, items }
    }

    /// The UID.
    pub fn uid(&self) -> &'a Uid
        ensures { result.now ≡ self.now.uid }
    {
        self.uid
    }

    /// The items, in the order that [`ItemsOfUid`] tells.
    pub fn as_slice(&self) -> &[&'a Item]
        ensures items { map (λ item. item.now) result.now ≡ self.now.items }
        ensures part { IsUidPart self.now }
    {
        self.items.as_slice()
    }

    /// The item of a key, or `None` if none is kept. Allocates nothing.
    pub fn best(&self, key: &Key) -> Option<&'a Item>
        ensures { IsBestOf self.now.items key.now (option_copied result) }
    {
        self.found(&KeyParts::of(key))
    }

    /// The item whose key has these parts.
    fn found(&self, parts: &KeyParts<'_>) -> Option<&'a Item>
        ensures { (key : Key) → HasParts key parts.now → IsBestOf self.now.items key (option_copied result) }
    {
        let items = self.items.as_slice();
        match items.binary_search_by(|item| compare(&item.key, parts)) {
            Ok(place) => Some(items[place]),
            Err(_) => None,
        }
    }

    /// The series item, or `None` if none is kept. Allocates nothing.
    pub fn series(&self) -> Option<&'a Item>
        ensures { IsBestOf self.now.items (key.Series self.now.uid) (option_copied result) }
    {
        // It comes before all others.
        let [first, ..] = self.items.as_slice() else {
            return None;
        };
        match &first.key {
            Key::Series(_) => Some(*first),
            _ => None,
        }
    }

    /// The instance item of a moment, or `None` if none is kept. Allocates nothing.
    pub fn instance(&self, at: &Moment) -> Option<&'a Item>
        ensures { IsBestOf self.now.items (key.Instance self.now.uid at.now) (option_copied result) }
    {
        self.found(&KeyParts::of_instance(self.uid, at))
    }

    /// The answer of an attendee, by its key (`itip_todo::attendee_key`), to the instance of a moment, or to the to-do as a whole if `at`
    /// is `None`. It may be a removal, which has the same key. Returns `None` if none is kept. Allocates nothing.
    pub fn answer(&self, at: Option<&Moment>, attendee: &str) -> Option<&'a Item>
        ensures { IsBestOf self.now.items (key.Answer self.now.uid (option_copied at.entry) attendee.now) (option_copied result) }
    {
        self.found(&KeyParts::of_answer(self.uid, at, attendee))
    }
}
