//! Reading a to-do.
ghost use Rattle.std.specs.Prelude.{◌≡◌, IfOk, OnOk, IfErr, Some};
ghost use Rattle.itip_lines.specs.Reading.{plain_lines};
ghost use Rattle.itip_todo.specs.Drafts.{Takes, Refuses};
ghost use Rattle.itip_todo.specs.Reading.{ReadsTodo, RefusesTodo, IfRefused};
ghost use Rattle.itip_todo.specs.Table.{property_of};

use crate::add::add_line;
use crate::draft::Draft;
use crate::error::TodoError;
use crate::finish::finish;
use crate::todo::Todo;
use itip_lines::NumberedLine;
use std::alloc::Global;

/// Parses the lines between BEGIN:VTODO and END:VTODO, without nested components, as a to-do (RFC 5545 3.6.2).
///
/// The first faulty line decides: a property that may appear once and appears again, then a RANGE other than THISANDFUTURE on
/// RECURRENCE-ID, then a bad value, then too many attendees, then two with the same address. If no line is faulty, a missing UID
/// decides, and then a missing DTSTAMP; neither is at a line. Of RANGE the first value of the first one counts, ignoring case; on
/// other properties it is ignored.
pub fn read_todo(alloc: Global, lines: &[NumberedLine<'_>]) -> Result<Todo, TodoError>
    ensures found { IfOk result (λ todo. ReadsTodo (plain_lines lines.now) todo) }
    ensures refused { IfErr result (λ e. IfRefused e (RefusesTodo lines.now)) }
{
    let mut draft = Draft::new(alloc);
    for line in lines {
        add_numbered(alloc, &mut draft, line)?;
    }
    finish(alloc, draft)
}

/// Takes one more line. A refusal names its place.
fn add_numbered(alloc: Global, draft: &mut Draft, line: &NumberedLine<'_>) -> Result<(), TodoError>
    ensures taken { OnOk result (Takes (property_of line.now.line) line.now.line draft.old draft.new) }
    ensures refused { IfErr result (λ e. IfRefused e (λ refusal.
        (refusal.line ≡ Some line.now.number) × Refuses (property_of line.now.line) line.now.line draft.old refusal.cause)) }
{
    match add_line(alloc, draft, &line.line) {
        Ok(()) => Ok(()),
        Err(error) => Err(error.at(line.number)),
    }
}
