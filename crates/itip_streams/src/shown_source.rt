//! What is said of the messages of a source.
ghost use Rattle.std.specs.Prelude.{◌≡◌, Some, None, IfOk};
ghost use Rattle.std.specs.String.{string_bytes};
ghost use Rattle.itip_streams.specs.Told.{place_of, refusal_at};
ghost use Rattle.itip_streams.specs.Visible.{visible};

use crate::source_name::SourceName;
use crate::visible::visible_text;
use std::alloc::{AllocError, Global};
use std::marker::Model;

/// A source with what is shown of it before the number of a message. Made once, it serves many lines of [`ShownSource::refused_line`].
/// Contracts see it as the name of the source.
#[derive(Drop)]
pub struct ShownSource<'a> {
    name: &'a SourceName,
    front: String,
}

impl<'a> Model for ShownSource<'a> {
    ghost use Rattle.std.specs.Prelude.{◌≡◌};
    ghost use Rattle.std.specs.String.{string_bytes};
    ghost use Rattle.itip_streams.specs.declared.source_name.SourceName.{SourceName};

    ghost Value = { SourceName };

    ghost use Rattle.itip_streams.specs.contracts.source_name.SourceName as source;

    ghost coded = { source.the_row.coded };

    ghost use Rattle.itip_streams.specs.Told.{front_of};
    ghost use Rattle.itip_streams.specs.Visible.{visible};

    ghost view = { λ s. s.name.now };

    ghost invariant = { λ s. string_bytes s.front ≡ visible (front_of s.name.now) };
}

impl<'a> ShownSource<'a> {
    /// What is shown of the source of this name. Fails if an allocation fails.
    pub fn new(alloc: Global, name: &'a SourceName) -> Result<ShownSource<'a>, AllocError>
        ensures { IfOk result (λ shown. shown ≡ name.now) }
    {
        let whole = name.front(alloc)?;
        let front = visible_text(alloc, whole.as_str())?;
        Ok(ShownSource { name, front })
    }

    /// The line that says that a message, by its number from 1, was refused with a number: `NAME message 2: refused 9`. Control
    /// characters are shown as their bytes. Fails if an allocation fails.
    pub fn refused_line(
        &self,
        alloc: Global,
        message: u64,
        number: u32,
    ) -> Result<String, AllocError>
        ensures { IfOk result (λ line. string_bytes line ≡ visible (refusal_at (place_of self.now message) number None)) }
    {
        let front = self.front.as_str();
        Ok(format!(in alloc; "{front}{message}: refused {number}")?)
    }

    /// The line that says that a message, by its number from 1, was refused with a number, and why:
    /// `NAME message 2: refused 9: DTSTAMP is missing in to-do 1`. Control characters are shown as their bytes. Fails if an allocation
    /// fails.
    pub fn explained_line(
        &self,
        alloc: Global,
        message: u64,
        number: u32,
        why: &str,
    ) -> Result<String, AllocError>
        ensures { IfOk result (λ line. string_bytes line ≡ visible (refusal_at (place_of self.now message) number (Some why.now))) }
    {
        let place = self.name.place_of(alloc, message)?;
        let line = explained(alloc, place.as_str(), number, why)?;
        visible_text(alloc, line.as_str())
    }
}

fn explained(alloc: Global, place: &str, number: u32, why: &str) -> Result<String, AllocError>
    ensures { IfOk result (λ line. string_bytes line ≡ refusal_at place.now number (Some why.now)) }
{
    Ok(format!(in alloc; "{place}: refused {number}: {why}")?)
}
