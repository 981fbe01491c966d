//! Texts stored in one block of memory.
ghost use Rattle.std.specs.Prelude.{◌≡◌, ◌↔◌, ◌∷◌, ◌++◌, [], ℕ, List, IsTrue, IfOk, OnOk, OnErr, MatchOption, count_by, length};
ghost use Rattle.std.specs.List.{AllByRecursion};
ghost use Rattle.itip_lines.specs.Joining.{is_break, joined, texts_in, IsOneLine, AreJoined};
ghost use Rattle.itip_lines.specs.TextsLeft.{texts_left};

use crate::bytes::{Bytes, append};
use crate::text::Text;
use std::alloc::{AllocError, Global};
use std::fmt;
use std::marker::Model;

/// Texts in order, none of which has a line feed.
///
/// They are stored one after another in one block of memory, each followed by LF. A copy has no spare capacity.
#[derive(Drop)]
pub struct TextList {
    octets: Bytes,
}

impl Model for TextList {
    ghost use Rattle.std.specs.Prelude.{List, ℕ};

    ghost Value = { List (List ℕ) };

    ghost use Rattle.itip_lines.specs.Joining.{texts_in, AreJoined};

    ghost view = { λ l. texts_in l.octets };

    ghost invariant = { λ l. AreJoined l.octets };
}

impl TextList {
    /// The empty list. Does not allocate.
    pub fn new(alloc: Global) -> TextList
        ensures { result ≡ [] }
    {
        TextList::from_octets(Vec::new(alloc))
    }

    /// Copies these texts into a list.
    pub fn copy(alloc: Global, texts: &[Text]) -> Result<TextList, AllocError>
        requires { AllByRecursion IsOneLine texts.now }
        ensures { IfOk result (λ copy. copy ≡ texts.now) }
    {
        let mut octets = Vec::new(alloc);
        for text in texts {
            append(text.as_str().as_bytes(), &mut octets)?;
        }
        Ok(TextList::from_octets(octets))
    }

    /// The texts in these octets, each followed by LF. Spare capacity is released.
    pub(crate) fn from_octets(mut octets: Vec<u8>) -> TextList
        requires { AreJoined octets.items }
        ensures { (texts : List (List ℕ)) → AllByRecursion IsOneLine texts → octets.items ≡ joined texts → result ≡ texts }
    {
        octets.shrink_to_fit();
        TextList {
            octets: Bytes::new(octets),
        }
    }

    /// Appends a text. If an allocation fails, the list is left unchanged.
    pub fn push(&mut self, text: &str) -> Result<(), AllocError>
        requires { IsOneLine text.now }
        ensures pushed { OnOk result (self.new ≡ self.old ++ text.now ∷ []) }
        ensures err { OnErr result (self.new ≡ self.old) }
    {
        self.octets.push_text(text.as_bytes())
    }

    /// The same texts, without spare capacity.
    pub fn exact(self) -> TextList
        ensures { result ≡ self }
    {
        TextList::from_octets(self.octets.into_vec())
    }

    /// The texts as they are stored, each followed by LF.
    fn as_str(&self) -> &str
        ensures { texts_in result.now ≡ self.now }
    {
        // By the invariant the texts are UTF-8, and so is LF.
        unsafe { str::from_utf8_unchecked(self.octets.as_slice()) }
    }

    /// An iterator over the texts.
    pub fn iter(&self) -> Texts<'_>
        ensures { texts_left result ≡ self.now }
    {
        Texts {
            rest: self.as_str(),
        }
    }

    /// The number of texts. Goes through all of them, without allocating.
    pub fn len(&self) -> usize
        ensures { result ≡ length self.now }
    {
        breaks(self.octets.as_slice())
    }

    /// Whether the list is empty.
    pub fn is_empty(&self) -> bool
        ensures { IsTrue result ↔ (length self.now ≡ 0) }
    {
        self.octets.as_slice().is_empty()
    }
}

/// The number of line feeds.
fn breaks(octets: &[u8]) -> usize
    ensures { result ≡ count_by is_break octets.now }
{
    octets.iter().filter(|octet| **octet == b'\n').count()
}

/// What comes before and after the first LF.
fn cut_text(text: &str) -> Option<(&str, &str)>
    ensures { MatchOption result (texts_in text.now ≡ []) (λ p. texts_in text.now ≡ p.0.now ∷ texts_in p.1.now) }
{
    text.split_once('\n')
}

impl Clone for TextList {
    ghost is_clone = { λ list copy. copy ≡ list };

    fn clone(&self) -> Result<TextList, AllocError> {
        let octets = self.octets.clone()?;
        Ok(TextList { octets })
    }
}

impl fmt::Debug for TextList {
    fn fmt<W: fmt::Write>(&self, f: &mut fmt::Formatter<W>) -> fmt::Result {
        fmt::Debug::fmt(self.as_str(), f)
    }
}

/// An iterator over the texts of a list.
#[derive(Drop)]
pub struct Texts<'a> {
    rest: &'a str,
}

impl<'a> Iterator for Texts<'a> {
    ghost use Rattle.std.specs.Iterator.{item_count, YieldsFirstRef};
    ghost use Rattle.itip_lines.specs.TextsLeft.{texts_left};

    type Item = &'a str;

    ghost next_gives = { YieldsFirstRef texts_left };

    ghost remaining = { item_count texts_left };

    fn next(&mut self) -> Option<&'a str> {
        let (text, rest) = cut_text(self.rest)?;
        self.rest = rest;
        Some(text)
    }
}
