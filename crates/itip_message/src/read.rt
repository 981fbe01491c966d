//! Reading a message.
ghost use Rattle.std.specs.Prelude.{IfOk, IfErr};
ghost use Rattle.itip_message.specs.Refusals.{IfRefused};
ghost use Rattle.itip_message.specs.Message.{ReadsMessage, RefusesMessage};

use crate::components::read_components;
use crate::error::ReadError;
use crate::frame::frame;
use crate::head::read_head;
use crate::sort::sort;
use itip_items::{Item, make_items};
use itip_lines::read_lines;
use std::alloc::Global;

/// Returns the items of a message (RFC 5546 3.4), by to-do and then by ATTENDEE line, or the first cause for refusing it.
///
/// Causes are looked for in the order of reading: length, lines, frame, head, components, canonical forms. The error is `NoMemory` only
/// if an allocation failed.
pub fn read_message(alloc: Global, text: &[u8]) -> Result<Vec<Item>, ReadError>
    ensures found { IfOk result (λ items. ReadsMessage text.now items.items) }
    ensures fault { IfErr result (λ e. IfRefused e (RefusesMessage text.now)) }
{
    let lines = read_lines(alloc, text)?;
    let placed = frame(alloc, lines)?;
    let (calendar, components) = sort(alloc, placed)?;
    let method = read_head(alloc, &calendar, &components)?;
    let all = read_components(alloc, method, &components)?;
    Ok(make_items(alloc, method, all)?)
}
