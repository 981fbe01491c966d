//! The names of sources, and what is said of them.
ghost use Rattle.std.specs.Prelude.{◌≡◌, ◌++◌, IfOk, codes};
ghost use Rattle.std.specs.String.{string_bytes};
ghost use Rattle.itip_streams.specs.Told.{called, front_of, place_of, unread};
ghost use Rattle.itip_streams.specs.Visible.{visible};

use crate::visible::visible_text;
use std::alloc::{AllocError, Global};

/// A source, by its name.
#[derive(Drop)]
pub enum SourceName {
    /// Standard input.
    StandardInput,
    /// The file of this name.
    File(String),
    /// Something that can't be read, and the name to report it by.
    Unreadable(String),
}

impl SourceName {
    /// The name to report it by if it can't be read.
    pub fn as_str(&self) -> &str
        ensures { result.now ≡ called self.now }
    {
        match self {
            SourceName::StandardInput => "standard input",
            SourceName::File(name) => name.as_str(),
            SourceName::Unreadable(name) => name.as_str(),
        }
    }

    /// The place of a message, by its number from 1: `message N` in standard input, `NAME message N` in a file. Fails if an allocation
    /// fails.
    pub fn place_of(&self, alloc: Global, message: u64) -> Result<String, AllocError>
        ensures { IfOk result (λ place. string_bytes place ≡ place_of self.now message) }
    {
        let front = self.front(alloc)?;
        Ok(format!(in alloc; "{front}{message}")?)
    }

    /// What stands before the number of a message in its place. Fails if an allocation fails.
    pub(crate) fn front(&self, alloc: Global) -> Result<String, AllocError>
        ensures { IfOk result (λ front. string_bytes front ≡ front_of self.now) }
    {
        match self {
            SourceName::StandardInput => String::from_str(alloc, "message "),
            SourceName::File(name) => front_of_file(alloc, name.as_str()),
            SourceName::Unreadable(name) => front_of_file(alloc, name.as_str()),
        }
    }
}

fn front_of_file(alloc: Global, name: &str) -> Result<String, AllocError>
    ensures { IfOk result (λ front. string_bytes front ≡ name.now ++ codes " message ") }
{
    Ok(format!(in alloc; "{name} message ")?)
}

/// The line about a source that can't be read: `NAME: read failed`. Control characters are shown as their bytes. Fails if an allocation
/// fails.
pub fn unread_line(alloc: Global, name: &SourceName) -> Result<String, AllocError>
    ensures { IfOk result (λ line. string_bytes line ≡ visible (unread (called name.now))) }
{
    let line = unread(alloc, name.as_str())?;
    visible_text(alloc, line.as_str())
}

fn unread(alloc: Global, name: &str) -> Result<String, AllocError>
    ensures { IfOk result (λ line. string_bytes line ≡ unread name.now) }
{
    format!(in alloc; "{name}: read failed")
}
