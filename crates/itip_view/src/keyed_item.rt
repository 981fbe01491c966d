//! Items that govern rows.
ghost use Rattle.std.specs.Prelude.{◌≡◌, IfOk, map};
ghost use Rattle.itip_todo.specs.Table.{attendee_key};

use crate::NoMemory;
use itip_items::Item;
use itip_lines::Text;
use itip_todo::{Property, attendee_key};
use std::alloc::Global;

/// An ATTENDEE line, and the key of its attendee.
#[derive(Drop)]
pub(crate) struct AttendeeLine<'a> {
    pub(crate) line: &'a Property,
    pub(crate) key: Text,
    pub(crate) ghost of_line: { key ≡ attendee_key line.now.value },
}

/// An item that can govern rows, and its ATTENDEE lines with their keys, made once for all of these rows.
#[derive(Drop)]
pub(crate) struct KeyedItem<'a> {
    pub(crate) item: &'a Item,
    pub(crate) lines: Vec<AttendeeLine<'a>>,
    pub(crate) ghost of_item: { map (λ line. line.line.now) lines.items ≡ item.now.todo.attendees },
}

impl<'a> KeyedItem<'a> {
    /// An item, with the keys of its ATTENDEE lines.
    pub(crate) fn of(alloc: Global, item: &'a Item) -> Result<KeyedItem<'a>, NoMemory>
        ensures { IfOk result (λ governing. governing.item.now ≡ item.now) }
    {
        let lines = with_keys(alloc, item.todo.attendees.as_slice())?;
        Ok(KeyedItem { item, lines })
    }
}

/// ATTENDEE lines with their keys, in order.
fn with_keys(alloc: Global, lines: &[Property]) -> Result<Vec<AttendeeLine<'_>>, NoMemory>
    ensures { IfOk result (λ keyed. map (λ line. line.line.now) keyed.items ≡ lines.now) }
{
    let mut keyed = Vec::with_capacity(alloc, lines.len())?;
    for line in lines {
        let key = attendee_key(alloc, line.value())?;
        keyed.push(AttendeeLine { line, key })?;
    }
    Ok(keyed)
}
