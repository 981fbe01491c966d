//! A content line in the text that it was read from.
ghost use Rattle.std.specs.Prelude.{◌≡◌, IfOk};
ghost use Rattle.std.specs.List.{AllByRecursion};
ghost use Rattle.itip_lines.specs.Lawful.{params_text, IsLawfulParam};
ghost use Rattle.itip_lines.specs.LinePlaces.{IsLineAt, IsLineAt-prop};
ghost use Rattle.itip_lines.specs.Lookup.{has_param, param_value};
ghost use Rattle.itip_lines.specs.SeenOctets.{octets_of};
ghost use Rattle.itip_lines.specs.Writing.{unfolded_text};

use crate::grammar::append_line;
use crate::line::Line;
use crate::line_octets::LineOctets;
use crate::lookup::{param_value, values_of};
use crate::params::Params;
use crate::text::Text;
use std::alloc::{AllocError, Global};
use std::fmt;
use std::marker::Model;

/// A content line (RFC 5545 3.1), borrowed where possible from the text that it was read from.
///
/// Its octets are those of the line as it is written without folds. If the text has exactly these octets, the line borrows them and
/// does not allocate. A line that is folded, has lower-case letters in its names, or has quotes that no value needs owns its octets.
#[derive(Drop)]
pub struct SeenLine<'a> {
    octets: LineOctets<'a>,
    /// The length of the name, in octets.
    name: u32,
    /// The offset of the value, in octets.
    value: u32,
    ghost stands: { IsLineAt (octets_of octets) name value } by { IsLineAt-prop (octets_of octets) name value },
}

impl<'a> Model for SeenLine<'a> {
    ghost use Rattle.itip_lines.specs.declared.line.Line.{Line};

    ghost Value = { Line };

    ghost use Rattle.itip_lines.specs.contracts.line.Line as line;

    ghost coded = { line.the_row.coded };

    ghost use Rattle.itip_lines.specs.LinePlaces.{line_in};
    ghost use Rattle.itip_lines.specs.SeenOctets.{octets_of};

    ghost view = { λ s. line_in (octets_of s.octets) s.stands.is_line };
}

impl<'a> SeenLine<'a> {
    ghost use Rattle.itip_lines.specs.declared.line.Line.{Line};

    /// The line in these octets: its name has `name` octets, and its value begins at offset `value`.
    pub(crate) fn new(octets: LineOctets<'a>, name: usize, value: usize) -> SeenLine<'a>
        requires { IsLineAt (octets_of octets) name value }
        ensures { (line : Line) → octets_of octets.entry ≡ unfolded_text line → result ≡ line }
    {
        SeenLine {
            octets,
            name: name as u32,
            value: value as u32,
        }
    }

    /// A copy of a line, with octets of its own.
    pub fn copy(alloc: Global, line: &Line) -> Result<SeenLine<'static>, AllocError>
        ensures { IfOk result (λ copy. copy ≡ line.now) }
    {
        let name = line.name.as_str();
        let params = line.params.as_str();
        let mut octets = Vec::new(alloc);
        append_line(
            name.as_bytes(),
            params.as_bytes(),
            line.value.as_str().as_bytes(),
            &mut octets,
        )?;
        let name = name.len();
        let value = name + params.len() + 1;
        Ok(SeenLine::new(LineOctets::Own(octets), name, value))
    }

    /// The line as it is written, without folds and line break.
    pub fn as_str(&self) -> &str
        ensures { result.now ≡ unfolded_text self.now }
    {
        // Each part of a line is UTF-8.
        unsafe { str::from_utf8_unchecked(self.octets.as_slice()) }
    }

    /// The octets of the name, of the parameters as they are written, and of the value.
    fn parts(&self) -> (&[u8], &[u8], &[u8])
        ensures name { result.0.now ≡ self.now.name }
        ensures params { result.1.now ≡ params_text self.now.params }
        ensures value { result.2.now ≡ self.now.value }
    {
        let octets = self.octets.as_slice();
        let (name, tail) = octets.split_at(self.name as usize);
        let (params, behind) = tail.split_at((self.value - self.name - 1) as usize);
        let (_, value) = behind.split_at(1);
        (name, params, value)
    }

    /// The name, in upper case.
    pub fn name(&self) -> &str
        ensures { result.now ≡ self.now.name }
    {
        let (name, _, _) = self.parts();
        unsafe { str::from_utf8_unchecked(name) }
    }

    /// The parameters as they are written, each with its leading `;`.
    pub fn params(&self) -> &str
        ensures text { result.now ≡ params_text self.now.params }
        ensures lawful { AllByRecursion IsLawfulParam self.now.params }
    {
        let (_, params, _) = self.parts();
        unsafe { str::from_utf8_unchecked(params) }
    }

    /// The value.
    pub fn value(&self) -> &str
        ensures { result.now ≡ self.now.value }
    {
        let (_, _, value) = self.parts();
        unsafe { str::from_utf8_unchecked(value) }
    }

    /// Whether there is a parameter with this name, given in upper case. Does not allocate.
    pub fn has_param(&self, name: &str) -> bool
        ensures { result ≡ has_param name.now self.now.params }
    {
        values_of(name, self.params().as_bytes()).is_some()
    }

    /// The first value of the first parameter with this name, given in upper case; empty if there is none. Does not
    /// allocate.
    pub fn first_value(&self, name: &str) -> &str
        ensures { result.now ≡ param_value name.now self.now.params }
    {
        param_value(self.params(), name)
    }

    /// The same line, owning its octets.
    pub fn into_own(self, alloc: Global) -> Result<SeenLine<'static>, AllocError>
        ensures { IfOk result (λ own. own ≡ self.entry) }
    {
        let name = self.name as usize;
        let value = self.value as usize;
        let octets = self.octets.into_own(alloc)?;
        Ok(SeenLine::new(octets, name, value))
    }

    /// Copies the line into a `Line`, which owns each part.
    pub fn to_line(&self, alloc: Global) -> Result<Line, AllocError>
        ensures { IfOk result (λ line. line ≡ self.now) }
    {
        let name = Text::copy(alloc, self.name())?;
        let params = Vec::from_slice(alloc, self.params().as_bytes())?;
        let value = Text::copy(alloc, self.value())?;
        Ok(Line {
            name,
            params: Params::from_text(params),
            value,
        })
    }
}

impl fmt::Debug for SeenLine<'_> {
    fn fmt<W: fmt::Write>(&self, f: &mut fmt::Formatter<W>) -> fmt::Result {
        fmt::Debug::fmt(self.as_str(), f)
    }
}
