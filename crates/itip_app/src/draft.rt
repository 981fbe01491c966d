//! The draft of a request: to-dos in a file, or on standard input.
use itip_inbox::{MAX_OCTETS, TOO_LONG};
use itip_message::{MessageRefusal, ReadError, read_draft};
use itip_streams::{SourceName, StreamFault, read_within, sources_of};
use itip_todo::Todo;
use std::alloc::Global;
use std::rt::Files;

/// What was read of a draft.
#[derive(Drop)]
pub(crate) struct Draft {
    /// Its to-dos; none if no draft is named, or if it is refused.
    pub(crate) todos: Vec<Todo>,
    /// Why it can't be read as a request, if it can't.
    pub(crate) refusal: Option<MessageRefusal>,
}

/// Reads a draft, if one is named. If it is longer than a message may be, it is read only as far as shows that.
pub(crate) fn draft_of<R: AllocGlobal + Input + Files>(
    rt: &R,
    name: &[SourceName],
) -> Result<Draft, StreamFault> {
    let alloc = rt.alloc();
    let mut sources = sources_of(rt, name)?;
    let Some(mut source) = sources.pop() else {
        return Ok(without_todos(alloc, None));
    };
    match read_within(alloc, &mut source, MAX_OCTETS)? {
        Some(text) => draft_in(alloc, text.as_slice()),
        None => Ok(without_todos(alloc, Some(MessageRefusal::from(TOO_LONG)))),
    }
}

fn draft_in(alloc: Global, text: &[u8]) -> Result<Draft, StreamFault> {
    match read_draft(alloc, text) {
        Ok(todos) => Ok(Draft {
            todos,
            refusal: None,
        }),
        Err(ReadError::Refused(refusal)) => Ok(without_todos(alloc, Some(refusal))),
        Err(ReadError::NoMemory) => Err(StreamFault::Memory),
    }
}

fn without_todos(alloc: Global, refusal: Option<MessageRefusal>) -> Draft {
    Draft {
        todos: Vec::new(alloc),
        refusal,
    }
}
