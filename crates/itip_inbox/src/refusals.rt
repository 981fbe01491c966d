//! Refused messages in few bytes each.
ghost use Rattle.std.specs.Prelude.{◌≡◌, ◌≢◌, ◌==◌, ◌++◌, ◌∷◌, [], ℕ, List, length, take, MatchOption, OnOk, OnErr};
ghost use Rattle.std.specs.Iterator.{YieldsFirst, item_count};
ghost use Rattle.itip_inbox.specs.declared.refused.RefusedMessage.{RefusedMessage};
ghost use Rattle.itip_inbox.specs.Leb128.{numbers, Spells};
ghost use Rattle.itip_inbox.specs.PackedRefusals.{known, places, first_unpacked, after_first, Fits};

use crate::leb128::{first_if, first_number, push_if_some, push_number};
use crate::refused::RefusedMessage;
use itip_message::{MessageCause, MessageRefusal};
use std::alloc::{AllocError, Global};
use std::marker::Model;

/// Refused messages in their order, in about ten bytes each. Contracts see it as the list of them.
#[derive(Drop)]
pub struct Refusals {
    /// Why each was refused.
    causes: Vec<MessageCause>,
    /// Where each was, as numbers of as few bytes as they need: which of its to-do and its line are known, its source, its message, and
    /// then its to-do and its line if they are known.
    places: Vec<u8>,
}

impl Model for Refusals {
    ghost use Rattle.std.specs.Prelude.{List};
    ghost use Rattle.itip_inbox.specs.declared.refused.RefusedMessage.{RefusedMessage};

    ghost Value = { List RefusedMessage };

    ghost use Rattle.itip_inbox.specs.Leb128.{numbers};
    ghost use Rattle.itip_inbox.specs.PackedRefusals.{unpacked, ArePacked};

    ghost view = { λ r. unpacked r.causes.items (numbers r.places.items) };

    ghost invariant = { λ r. ArePacked r.causes.items r.places.items };
}

impl Refusals {
    /// No refused messages.
    pub fn none(alloc: Global) -> Refusals
        ensures { result ≡ [] }
    {
        Refusals {
            causes: Vec::new(alloc),
            places: Vec::new(alloc),
        }
    }

    /// Whether there are none.
    pub fn is_empty(&self) -> bool
        ensures { result ≡ (length self.now == 0) }
    {
        self.causes.is_empty()
    }

    /// Adds a refused message. If an allocation fails, nothing has changed.
    pub fn push(&mut self, refused: RefusedMessage) -> Result<(), AllocError>
        ensures adds { OnOk result (self.new ≡ self.old ++ refused ∷ []) }
        ensures unchanged { OnErr result (self.new ≡ self.old) }
    {
        self.causes.push(refused.refusal.cause)?;
        let before = self.places.len();
        match push_places(&mut self.places, refused) {
            Ok(()) => Ok(()),
            Err(failed) => {
                self.causes.pop();
                self.places.truncate(before);
                Err(failed)
            }
        }
    }

    /// Adds others behind these. If an allocation fails, nothing has changed.
    pub(crate) fn append(&mut self, others: Refusals) -> Result<(), AllocError>
        ensures adds { OnOk result (self.new ≡ self.old ++ others) }
        ensures unchanged { OnErr result (self.new ≡ self.old) }
    {
        let Refusals {
            mut causes,
            mut places,
        } = others;
        let before = self.causes.len();
        self.causes.append(&mut causes)?;
        match self.places.append(&mut places) {
            Ok(()) => Ok(()),
            Err(failed) => {
                self.causes.truncate(before);
                Err(failed)
            }
        }
    }

    /// The refused messages one after another.
    pub fn iter(&self) -> RefusalsIter<'_>
        ensures { result ≡ self.now }
    {
        RefusalsIter {
            causes: self.causes.as_slice(),
            places: self.places.as_slice(),
        }
    }
}

/// The refused messages of [`Refusals`] that are left.
#[derive(Drop)]
pub struct RefusalsIter<'a> {
    causes: &'a [MessageCause],
    places: &'a [u8],
}

impl<'a> Model for RefusalsIter<'a> {
    ghost use Rattle.std.specs.Prelude.{List};
    ghost use Rattle.itip_inbox.specs.declared.refused.RefusedMessage.{RefusedMessage};

    ghost Value = { List RefusedMessage };

    ghost use Rattle.itip_inbox.specs.Leb128.{numbers};
    ghost use Rattle.itip_inbox.specs.PackedRefusals.{unpacked, ArePlaces};

    ghost view = { λ r. unpacked r.causes.now (numbers r.places.now) };

    ghost invariant = { λ r. ArePlaces r.causes.now (numbers r.places.now) };
}

impl<'a> Iterator for RefusalsIter<'a> {
    type Item = RefusedMessage;

    ghost next_gives = { YieldsFirst (λ rest. rest) };

    ghost remaining = { item_count (λ rest. rest) };

    fn next(&mut self) -> Option<RefusedMessage> {
        let (cause, causes) = self.causes.split_first()?;
        let (refused, places) = first_refused(*cause, self.places)?;
        self.causes = causes;
        self.places = places;
        Some(refused)
    }
}

/// Adds the numbers of a refused message. If an allocation fails, a part of their bytes may have been added.
fn push_places(octets: &mut Vec<u8>, refused: RefusedMessage) -> Result<(), AllocError>
    ensures adds { OnOk result ((before : List ℕ) → Spells octets.old.items before →
        Spells octets.new.items (before ++ places refused)) }
    ensures keeps { take (length octets.old.items) octets.new.items ≡ octets.old.items }
{
    let MessageRefusal { todo, line, .. } = refused.refusal;
    push_number(octets, known(todo, line))?;
    push_number(octets, refused.source as u64)?;
    push_number(octets, refused.message)?;
    push_if_some(octets, todo)?;
    push_if_some(octets, line)
}

/// Which of a to-do and a line are known, as a number.
fn known(todo: Option<usize>, line: Option<usize>) -> u64
    ensures { result ≡ known todo line }
{
    match (todo, line) {
        (None, None) => 0,
        (Some(_), None) => 1,
        (None, Some(_)) => 2,
        (Some(_), Some(_)) => 3,
    }
}

/// The message refused for this cause whose numbers come first, and the bytes after them. `None` only if they are not the numbers of one.
fn first_refused(cause: MessageCause, octets: &[u8]) -> Option<(RefusedMessage, &[u8])>
    ensures { MatchOption result
        ((refused : RefusedMessage) (ns : List ℕ) → Fits refused → numbers octets.now ≢ places refused ++ ns)
        (λ first. (first.0 ≡ first_unpacked cause (numbers octets.now)) × (numbers first.1.now ≡ after_first (numbers octets.now))) }
{
    let (known, rest) = first_number(octets)?;
    let (source, rest) = first_number(rest)?;
    let (message, rest) = first_number(rest)?;
    let (todo, rest) = first_if(known == 1 || known == 3, rest)?;
    let (line, rest) = first_if(known >= 2, rest)?;
    let refusal = MessageRefusal { cause, todo, line };
    Some((
        RefusedMessage {
            source: source as usize,
            message,
            refusal,
        },
        rest,
    ))
}
