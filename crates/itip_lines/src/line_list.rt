//! Lines stored in one block of memory.
ghost use Rattle.std.specs.Prelude.{◌≡◌, ◌∷◌, ◌++◌, [], OnOk, OnErr, length, map};
ghost use Rattle.std.specs.List.{list_any};
ghost use Rattle.itip_lines.specs.LineTexts.{AreLineTexts, AreLineTexts-prop, has_line, name_in};
ghost use Rattle.itip_lines.specs.TextsLeft.{texts_left};
ghost use Rattle.itip_lines.specs.Lookup.{same_text};
ghost use Rattle.itip_lines.specs.Writing.{unfolded_text};

use crate::grammar::{Octets, cut_run};
use crate::lookup::is_named;
use crate::seen_line::SeenLine;
use crate::text_list::{TextList, Texts};
use std::alloc::{AllocError, Global};
use std::marker::Model;

/// Lines in order, for uses that do not read their parts.
///
/// Each is stored as it is written, without folds, in a list of texts.
#[derive(Debug, Drop)]
pub struct LineList {
    texts: TextList,
    ghost lines: { AreLineTexts texts } by { AreLineTexts-prop texts },
}

impl Model for LineList {
    ghost use Rattle.std.specs.Prelude.{List};
    ghost use Rattle.itip_lines.specs.declared.line.Line.{Line};

    ghost Value = { List Line };

    ghost use Rattle.std.specs.Coded.{coded_list};
    ghost use Rattle.itip_lines.specs.contracts.line.Line as line;

    ghost coded = { coded_list line.the_row.coded };

    ghost use Rattle.std.specs.List.{list_any};
    ghost use Rattle.itip_lines.specs.LineTexts.{lines_in};

    ghost view = { λ l. lines_in l.texts l.lines };
}

impl LineList {
    /// The empty list. Does not allocate.
    pub fn new(alloc: Global) -> LineList
        ensures { result ≡ [] }
    {
        LineList {
            texts: TextList::new(alloc),
        }
    }

    /// Appends a copy of a line. If an allocation fails, the list is left unchanged.
    pub fn push(&mut self, line: &SeenLine<'_>) -> Result<(), AllocError>
        ensures pushed { OnOk result (self.new ≡ self.old ++ line.now ∷ []) }
        ensures err { OnErr result (self.new ≡ self.old) }
    {
        self.texts.push(line.as_str())
    }

    /// The same lines, without spare capacity.
    pub fn exact(self) -> LineList
        ensures { result ≡ self }
    {
        LineList {
            texts: self.texts.exact(),
        }
    }

    /// An iterator over the lines as they are written, without folds and line breaks.
    pub fn texts(&self) -> Texts<'_>
        ensures { texts_left result ≡ map unfolded_text self.now }
    {
        self.texts.iter()
    }

    /// Whether there is a line with this name, given in upper case. Does not allocate.
    pub fn has(&self, name: &str) -> bool
        ensures { result ≡ has_line name.now self.now }
    {
        any_named(self.texts(), name)
    }

    /// The number of lines. Goes through all of them, without allocating.
    pub fn len(&self) -> usize
        ensures { result ≡ length self.now }
    {
        self.texts.len()
    }
}

/// Whether one of these texts is a line with this name, given in upper case.
fn any_named(mut texts: Texts<'_>, name: &str) -> bool
    ensures { result ≡ list_any (λ text. same_text (name_in text) name.now) (texts_left texts.entry) }
{
    texts.any(|text| has_name(text, name))
}

/// Whether the line in `text` has this name, given in upper case.
fn has_name(text: &str, name: &str) -> bool
    ensures { result ≡ same_text (name_in text.now) name.now }
{
    let (spelled, _) = cut_run(text.as_bytes(), Octets::Name);
    is_named(spelled, name)
}

impl Clone for LineList {
    ghost is_clone = { λ lines copy. copy ≡ lines };

    fn clone(&self) -> Result<LineList, AllocError> {
        let texts = self.texts.clone()?;
        Ok(LineList { texts })
    }
}
