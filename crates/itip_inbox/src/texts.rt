//! Reads many messages at once, for what they tell beside what is kept.
ghost use Rattle.std.specs.Prelude.{◌≡◌, ◌≢◌, ◌+◌, ◌++◌, ◌∷◌, ℕ, List, Option, [], map, filter, IfOk, IfErr, OnOk};
ghost use Rattle.std.specs.Option.{option_copied};
ghost use Rattle.itip_items.specs.declared.item.Item.{Item};
ghost use Rattle.itip_message.specs.Scanned.{messages_of};
ghost use Rattle.itip_state.specs.Told.{AreNews};
ghost use Rattle.itip_inbox.specs.Following.{is_about, items_about, told_in};
ghost use Rattle.itip_inbox.specs.Inbox.{Placed, placed_from};
ghost use Rattle.itip_inbox.specs.Placing.{later_refusal, later_told};
ghost use Rattle.itip_inbox.specs.Streaming.{Tells};

use crate::counts::count_more;
use crate::numbered::Numbered;
use crate::refusals::Refusals;
use crate::refused::RefusedMessage;
use crate::shards::Shards;
use itip_desk::Batch;
use itip_explain::{Place, ToldItem};
use itip_items::Item;
use itip_message::{ReadError, next_message, read_message};
use itip_state::SharedItem;
use itip_streams::StreamFault;
use itip_todo::Uid;
use std::alloc::{AllocError, Global};
use std::mem;

/// What messages tell beside what is kept.
#[derive(Drop)]
pub(crate) struct Heard {
    /// How many messages there are, refused ones included.
    pub(crate) count: u64,
    /// The items of theirs that are news.
    pub(crate) news: Vec<Numbered>,
    /// The refused messages, in their order.
    pub(crate) refusals: Refusals,
    /// Their items of the followed UID, in their order.
    pub(crate) told: Vec<ToldItem>,
}

/// What all messages of `octets` tell, numbered from 1 and read one after another.
pub(crate) fn read_octets(
    alloc: Global,
    kept: &Shards,
    about: Option<&Uid>,
    source: usize,
    octets: &[u8],
) -> Result<Heard, StreamFault>
    ensures tells { IfOk result (Tells (option_copied about.entry) kept.now (placed_from source 1 (messages_of octets.now))) }
    ensures fault { IfErr result (λ fault. fault ≢ StreamFault.Write) }
{
    let mut heard = Heard::nothing(alloc);
    let mut rest = octets;
    while let Some((text, after)) = next_message(rest) {
        heard.add(alloc, kept, about, source, text)?;
        rest = after;
    }
    Ok(heard)
}

/// What messages tell, numbered from 1 and read one after another.
pub(crate) fn read_texts(
    alloc: Global,
    kept: &Shards,
    about: Option<&Uid>,
    source: usize,
    texts: &[&[u8]],
) -> Result<Heard, StreamFault>
    ensures tells { IfOk result (Tells (option_copied about.entry) kept.now
        (placed_from source 1 (map (λ text. text.now) texts.now))) }
    ensures fault { IfErr result (λ fault. fault ≢ StreamFault.Write) }
{
    let mut heard = Heard::nothing(alloc);
    for text in texts {
        heard.add(alloc, kept, about, source, text)?;
    }
    Ok(heard)
}

impl Heard {
    /// What no messages tell.
    pub(crate) fn nothing(alloc: Global) -> Heard
        ensures { (about : Option (List ℕ)) (kept : List Item) → Tells about kept [] result }
    {
        Heard {
            count: 0,
            news: Vec::new(alloc),
            refusals: Refusals::none(alloc),
            told: Vec::new(alloc),
        }
    }

    /// Adds what the messages after these tell. On an error a part of it may have been added.
    pub(crate) fn append(&mut self, others: Heard) -> Result<(), StreamFault>
        ensures tells { OnOk result ((about : Option (List ℕ)) (kept : List Item) (before after : List Placed) →
            Tells about kept before self.old → Tells about kept after others → Tells about kept (before ++ after) self.new) }
        ensures fault { IfErr result (λ fault. fault ≢ StreamFault.Write) }
    {
        let Heard {
            count,
            mut news,
            refusals,
            mut told,
        } = others;
        let sum = count_more(self.count, count)?;
        self.count = sum;
        self.news.append(&mut news)?;
        self.refusals.append(refusals)?;
        self.told.append(&mut told)?;
        Ok(())
    }

    /// Numbers the messages anew, after `count` others of their source. On an error some may have their new numbers, and what they tell
    /// of the followed UID may be gone.
    pub(crate) fn move_behind(&mut self, alloc: Global, count: u64) -> Result<(), StreamFault>
        ensures tells { OnOk result ((about : Option (List ℕ)) (kept : List Item) (source first : ℕ) (texts : List (List ℕ)) →
            Tells about kept (placed_from source first texts) self.old →
            Tells about kept (placed_from source (first + count) texts) self.new) }
        ensures count { OnOk result (self.new.count ≡ self.old.count) }
        ensures fault { IfErr result (λ fault. fault ≢ StreamFault.Write) }
    {
        let refusals = refusals_behind(alloc, &self.refusals, count)?;
        self.refusals = refusals;
        let told = mem::replace(&mut self.told, Vec::new(alloc));
        let later = told_behind(alloc, told, count)?;
        self.told = later;
        Ok(())
    }

    /// Reads one more message of a source, with the next number, and adds what it tells, or its refusal. On an error a part of that may
    /// have been added.
    fn add(
        &mut self,
        alloc: Global,
        kept: &Shards,
        about: Option<&Uid>,
        source: usize,
        text: &[u8],
    ) -> Result<(), StreamFault>
        ensures tells { OnOk result ((texts : List (List ℕ)) →
            Tells (option_copied about.entry) kept.now (placed_from source 1 texts) self.old →
            Tells (option_copied about.entry) kept.now (placed_from source 1 (texts ++ text.now ∷ [])) self.new) }
        ensures fault { IfErr result (λ fault. fault ≢ StreamFault.Write) }
    {
        let message = count_more(self.count, 1)?;
        let place = Place { source, message };
        self.count = message;
        match read_message(alloc, text) {
            Ok(items) => {
                note(&mut self.told, about, place, items.as_slice())?;
                add_news(&mut self.news, alloc, kept, items)?;
                Ok(())
            }
            Err(ReadError::Refused(refusal)) => {
                self.refusals.push(RefusedMessage {
                    source: place.source,
                    message: place.message,
                    refusal,
                })?;
                Ok(())
            }
            Err(ReadError::NoMemory) => Err(StreamFault::Memory),
        }
    }
}

/// Refused messages, numbered anew after `count` others.
fn refusals_behind(alloc: Global, refusals: &Refusals, count: u64) -> Result<Refusals, StreamFault>
    ensures later { IfOk result (λ later. later ≡ map (later_refusal count) refusals.now) }
    ensures fault { IfErr result (λ fault. fault ≢ StreamFault.Write) }
{
    let mut later = Refusals::none(alloc);
    for refused in refusals.iter() {
        let message = count_more(refused.message, count)?;
        later.push(RefusedMessage {
            source: refused.source,
            message,
            refusal: refused.refusal,
        })?;
    }
    Ok(later)
}

/// Told items, their messages numbered anew after `count` others.
fn told_behind(alloc: Global, told: Vec<ToldItem>, count: u64) -> Result<Vec<ToldItem>, StreamFault>
    ensures later { IfOk result (λ later. later.items ≡ map (later_told count) told.items) }
    ensures fault { IfErr result (λ fault. fault ≢ StreamFault.Write) }
{
    let mut later = Vec::new(alloc);
    for one in told {
        let ToldItem { place, item } = one;
        let place = Place {
            source: place.source,
            message: count_more(place.message, count)?,
        };
        later.push(ToldItem { place, item })?;
    }
    Ok(later)
}

/// Notes copies of the items of the followed UID, if there is one, with the place of the message that tells them. If an allocation
/// fails, a part of them has been noted.
fn note(
    told: &mut Vec<ToldItem>,
    about: Option<&Uid>,
    place: Place,
    items: &[Item],
) -> Result<(), AllocError>
    ensures { OnOk result (told.new.items ≡ told.old.items ++ told_in place (items_about (option_copied about.entry) items.now)) }
{
    match about {
        Some(uid) => note_of(told, uid, place, items),
        None => Ok(()),
    }
}

fn note_of(
    told: &mut Vec<ToldItem>,
    uid: &Uid,
    place: Place,
    items: &[Item],
) -> Result<(), AllocError>
    ensures { OnOk result (told.new.items ≡ told.old.items ++ told_in place (filter (is_about uid.now) items.now)) }
{
    for item in items {
        if is_about(item, uid) {
            told.push(ToldItem {
                place,
                item: item.clone()?,
            })?;
        }
    }
    Ok(())
}

fn is_about(item: &Item, uid: &Uid) -> bool
    ensures { result ≡ is_about uid.now item.now }
{
    *item.key.uid() == *uid
}

/// Adds copies of the items that are news to what is kept. If an allocation fails, a part of them may have been added.
fn add_news(
    news: &mut Vec<Numbered>,
    alloc: Global,
    kept: &Shards,
    items: Vec<Item>,
) -> Result<(), AllocError>
    ensures { OnOk result ((told : List Item) → AreNews kept.now told news.old.items →
        AreNews kept.now (told ++ items.items) news.new.items) }
{
    let batch = Batch::of_items(items)?;
    let new = kept.news(alloc, batch.as_slice())?;
    add_copies(news, alloc, kept, new.as_slice())
}

// Copies are kept because they have no spare capacity. What is made while a text is read has some, and lies among what is freed.
fn add_copies(
    copies: &mut Vec<Numbered>,
    alloc: Global,
    kept: &Shards,
    items: &[&SharedItem],
) -> Result<(), AllocError>
    ensures { OnOk result (copies.new.items ≡ copies.old.items ++ map (λ item. item.now) items.now) }
{
    for item in items {
        let copy = SharedItem::new(alloc, item.item().clone()?)?;
        copies.push(kept.numbered(copy))?;
    }
    Ok(())
}
