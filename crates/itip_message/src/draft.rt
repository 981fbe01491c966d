//! Reading a draft: a message that is to be sent as a REQUEST.
ghost use Rattle.std.specs.Prelude.{◌≡◌, ◌++◌, map, IfOk, OnOk, IfErr};
ghost use Rattle.std.specs.List.{filter};
ghost use Rattle.itip_message.specs.Refusals.{IfRefused};
ghost use Rattle.itip_message.specs.Drafts.{ReadsDraft, RefusesDraft, HasDraftTodos, AreDated, IsFirstStamp, dated, is_undated};
ghost use Rattle.itip_items.specs.declared.item.Item.{Item};

use crate::cause_lines::is_named;
use crate::components::read_components;
use crate::error::ReadError;
use crate::frame::frame;
use crate::head::read_draft_head;
use crate::sort::{Component, sort};
use itip_items::{Item, Method, make_items};
use itip_lines::{Line, ListOf, NoMemory, NumberedLine, Params, SeenLine, Text, read_lines};
use itip_todo::{PropertyName, Todo};
use std::alloc::Global;

/// Returns the to-dos of a draft in order, as a REQUEST gives them (RFC 5546 3.4.2), or the first cause for refusing it.
///
/// METHOD is ignored, and so are DTSTAMP and SEQUENCE of the to-dos: each is returned with DTSTAMP 19700101T000000Z and SEQUENCE 0,
/// whatever it has or lacks. X-DESK-BASE is in canonical form: only a to-do with RECURRENCE-ID has it, and it is above 0. Causes are
/// looked for in the order of reading: length, lines, frame, head, components, canonical forms. The error is `NoMemory` only if an
/// allocation failed.
pub fn read_draft(alloc: Global, text: &[u8]) -> Result<Vec<Todo>, ReadError>
    ensures found { IfOk result (λ todos. ReadsDraft text.now todos.items) }
    ensures fault { IfErr result (λ e. IfRefused e (RefusesDraft text.now)) }
{
    let all = read_todos(alloc, text)?;
    let items = make_items(alloc, Method::Request, all)?;
    let todos = todos_of(alloc, items)?;
    Ok(todos)
}

/// The to-dos of a draft, unchanged except for DTSTAMP and SEQUENCE, if each is what a REQUEST needs.
fn read_todos(alloc: Global, text: &[u8]) -> Result<Vec<Todo>, ReadError>
    ensures found { IfOk result (λ all. HasDraftTodos text.now all.items) }
    ensures fault { IfErr result (λ e. IfRefused e (RefusesDraft text.now)) }
{
    let lines = read_lines(alloc, text)?;
    let placed = frame(alloc, lines)?;
    let (calendar, components) = sort(alloc, placed)?;
    read_draft_head(&calendar, &components)?;
    let dated = date_all(alloc, components)?;
    let all = read_components(alloc, Method::Request, &dated)?;
    Ok(all)
}

/// The to-dos of items.
fn todos_of(alloc: Global, items: Vec<Item>) -> Result<Vec<Todo>, NoMemory>
    ensures { IfOk result (λ todos. todos.items ≡ map (λ (item : Item). item.todo) items.items) }
{
    items.into_iter().map(todo_of).collect(alloc)
}

/// The to-do of an item.
fn todo_of(item: Item) -> Todo
    ensures { result ≡ item.todo }
{
    item.todo
}

/// The to-dos of a draft, each with a DTSTAMP of the first second of 1970 in place of its DTSTAMP and SEQUENCE lines.
fn date_all<'a>(
    alloc: Global,
    components: Vec<Component<'a>>,
) -> Result<Vec<Component<'a>>, NoMemory>
    ensures { IfOk result (λ all. AreDated components.entry.items all.items) }
{
    let stamp = first_stamp(alloc)?;
    let all = date_with(alloc, &stamp, components)?;
    Ok(all)
}

/// The DTSTAMP line of the first second of 1970.
fn first_stamp(alloc: Global) -> Result<Line, NoMemory>
    ensures { IfOk result IsFirstStamp }
{
    let name = Text::copy(alloc, "DTSTAMP")?;
    let value = Text::copy(alloc, "19700101T000000Z")?;
    Ok(Line {
        name,
        params: Params::new(alloc),
        value,
    })
}

/// The to-dos of a draft, each with this line in place of its DTSTAMP and SEQUENCE lines.
fn date_with<'a>(
    alloc: Global,
    stamp: &Line,
    components: Vec<Component<'a>>,
) -> Result<Vec<Component<'a>>, NoMemory>
    ensures { IfOk result (λ all. all.items ≡ map (dated stamp.now) components.entry.items) }
{
    let mut all = Vec::with_capacity(alloc, components.len())?;
    for component in components {
        all.push(date(alloc, stamp, component)?)?;
    }
    Ok(all)
}

/// A to-do of a draft, with this line in place of its DTSTAMP and SEQUENCE lines. The line gets the number of the one that begins the
/// to-do. No refusal names it, since nothing is wrong with it.
fn date<'a>(
    alloc: Global,
    stamp: &Line,
    component: Component<'a>,
) -> Result<Component<'a>, NoMemory>
    ensures { IfOk result (λ new. new ≡ dated stamp.now component.entry) }
{
    let begins = component.begins;
    let others = component.lines.into_vec();
    let mut lines = Vec::new(alloc);
    lines.push(NumberedLine {
        number: begins,
        line: SeenLine::copy(alloc, stamp)?,
    })?;
    add_undated(&mut lines, others)?;
    Ok(Component {
        begins,
        lines: ListOf::from_vec(lines),
    })
}

/// Appends the other lines, except those of DTSTAMP and SEQUENCE.
fn add_undated<'a>(
    lines: &mut Vec<NumberedLine<'a>>,
    others: Vec<NumberedLine<'a>>,
) -> Result<(), NoMemory>
    ensures { OnOk result (lines.new.items ≡ lines.old.items ++ filter is_undated others.entry.items) }
{
    for line in others {
        if is_undated(&line) {
            lines.push(line)?;
        } else {
            drop(line);
        }
    }
    Ok(())
}

/// Whether a line says neither when its to-do was sent nor as which revision.
fn is_undated(line: &NumberedLine<'_>) -> bool
    ensures { result ≡ is_undated line.now }
{
    !is_named(PropertyName::DtStamp, line) && !is_named(PropertyName::Sequence, line)
}
