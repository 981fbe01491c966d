//! One content line.
ghost use Rattle.itip_lines.specs.Lawful.{IsLawful, IsLawful-prop};
ghost use Rattle.std.specs.Prelude.{◌≡◌};

use crate::list::ListOf;
use crate::params::Params;
use crate::seen_line::SeenLine;
use crate::text::Text;
use std::alloc::AllocError;

/// A parameter of a line, as contracts see each one in `Params`: its name in upper case, and its values without quotes.
#[derive(Drop)]
pub struct Param {
    pub name: Text,
    pub values: ListOf<Text>,
}

/// A content line (RFC 5545 3.1).
///
/// A line is lawful: names are not empty and have only upper-case letters, digits and `-`, no value has a control character except HTAB,
/// no parameter value has a quote, each parameter has a value, and the line has at most 65,536 octets when written without folds.
#[derive(PartialEq, Debug, Drop)]
pub struct Line {
    pub name: Text,
    pub params: Params,
    pub value: Text,
    pub ghost lawful: { IsLawful name params value } by { IsLawful-prop name params value },
}

/// A content line, with its place in the text.
#[derive(Debug, Drop)]
pub struct NumberedLine<'a> {
    /// The number, from 1, of the physical line where the line begins. A physical line ends at LF; folded and empty ones
    /// count.
    pub number: usize,
    pub line: SeenLine<'a>,
}

impl Clone for Line {
    ghost is_clone = { λ line copy. copy ≡ line };

    fn clone(&self) -> Result<Line, AllocError> {
        let name = self.name.clone()?;
        let params = self.params.clone()?;
        let value = self.value.clone()?;
        Ok(Line {
            name,
            params,
            value,
        })
    }
}
