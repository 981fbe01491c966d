//! Nested components: where each line of a message belongs.
ghost use Rattle.std.specs.Prelude.{◌≡◌, ◌<◌, ◌∷◌, ◌++◌, [], ℕ, List, length, true, false, Some, IfOk, IfErr, Ok, Err};
ghost use Rattle.std.specs.Str.{str_to_ascii_uppercase};
ghost use Rattle.std.specs.Option.{option_to_list};
ghost use Rattle.std.specs.Vec.Iter.{into_iter_items};
ghost use Rattle.itip_lines.specs.declared.line.NumberedLine.{NumberedLine};
ghost use Rattle.itip_message.specs.Refusals.{IfRefused, at_line};
ghost use Rattle.itip_message.specs.declared.error.MessageCause.TheVariants as causes;
ghost use Rattle.itip_message.specs.declared.error.ReadError.TheVariants as error;
ghost use Rattle.itip_message.specs.Frame.{frame, place, innermost_first, with_front, opening, property, component_name};
ghost use Rattle.itip_items.specs.MethodNeeds.{is_begin, is_end};
ghost use Rattle.itip_todo.specs.Participation.{same_text};

use crate::error::{MessageCause, MessageRefusal, ReadError};
use itip_lines::{NoMemory, NumberedLine, SeenLine, Text};
use std::alloc::Global;
use std::vec::IntoIter;

/// The deepest nesting of components, counting the VCALENDAR (our own limit).
const DEPTH_LIMIT: usize = 32;

/// A line of a message, with its place. No public function returns one; contracts of dependent crates speak of them.
#[derive(Drop)]
pub enum Placed<'a> {
    /// A property directly in the VCALENDAR.
    CalendarLine(NumberedLine<'a>),
    /// A VTODO directly in the VCALENDAR begins on the line with this number.
    TodoBegins(usize),
    /// A property directly in that VTODO.
    TodoLine(NumberedLine<'a>),
}

/// Places the lines of a message, leaving out those of other components (RFC 5545 3.4).
pub(crate) fn frame<'a>(
    alloc: Global,
    lines: Vec<NumberedLine<'a>>,
) -> Result<Vec<Placed<'a>>, ReadError>
    ensures found { IfOk result (λ placed. frame lines.entry.items ≡ Ok placed.items) }
    ensures fault { IfErr result (λ e. IfRefused e (λ f. frame lines.entry.items ≡ Err f)) }
{
    let mut lines = lines.into_iter();
    let Some(first) = lines.next() else {
        return Err(no_calendar(None));
    };
    let name = component_name(alloc, &first.line)?;
    if !is_begin(&first.line) || name.as_str() != "VCALENDAR" {
        return Err(no_calendar(Some(first.number)));
    }
    place_lines(alloc, name, lines)
}

fn no_calendar(line: Option<usize>) -> ReadError
    ensures { result ≡ error.Refused (at_line causes.NoCalendar line) }
{
    ReadError::Refused(MessageRefusal::at_line(MessageCause::NoCalendar, line))
}

fn nested(line: Option<usize>) -> ReadError
    ensures { result ≡ error.Refused (at_line causes.Nesting line) }
{
    ReadError::Refused(MessageRefusal::at_line(MessageCause::Nesting, line))
}

/// Places the lines that follow the BEGIN of the component `name`.
fn place_lines<'a>(
    alloc: Global,
    name: Text,
    lines: IntoIter<NumberedLine<'a>>,
) -> Result<Vec<Placed<'a>>, ReadError>
    ensures found { IfOk result (λ placed. place (name ∷ []) (into_iter_items lines.entry) ≡ Ok placed.items) }
    ensures fault { IfErr result (λ e. IfRefused e (λ f. place (name ∷ []) (into_iter_items lines.entry) ≡ Err f)) }
{
    let mut inside = Vec::new(alloc);
    inside.push(name)?;
    let mut placed = Vec::with_capacity(alloc, lines.len())?;
    for line in lines {
        if let Some(place) = place_line(alloc, &mut inside, line)? {
            placed.push(place)?;
        }
    }
    if !inside.is_empty() {
        return Err(nested(None));
    }
    Ok(placed)
}

/// Places one line. `inside` has the names of the open components, the innermost last.
fn place_line<'a>(
    alloc: Global,
    inside: &mut Vec<Text>,
    line: NumberedLine<'a>,
) -> Result<Option<Placed<'a>>, ReadError>
    ensures placed { IfOk result (λ placed. (lines : List NumberedLine)
        → place (innermost_first inside.old.items) (line.entry ∷ lines)
        ≡ with_front (option_to_list placed) (place (innermost_first inside.new.items) lines)) }
    ensures fault { IfErr result (λ e. IfRefused e (λ f. (lines : List NumberedLine)
        → place (innermost_first inside.old.items) (line.entry ∷ lines) ≡ Err f)) }
{
    if inside.is_empty() {
        let number = line.number;
        drop(line);
        return Err(nested(Some(number)));
    }
    if is_begin(&line.line) {
        let placed = place_begin(alloc, inside, &line);
        drop(line);
        return placed;
    }
    if is_end(&line.line) {
        let placed = place_end(alloc, inside, &line);
        drop(line);
        return placed;
    }
    Ok(property(inside, line))
}

/// Places the line that begins a component inside those that are open.
fn place_begin<'a>(
    alloc: Global,
    inside: &mut Vec<Text>,
    line: &NumberedLine<'a>,
) -> Result<Option<Placed<'a>>, ReadError>
    requires { (is_begin line.now.line ≡ true) × (0 < length inside.old.items) }
    ensures placed { IfOk result (λ placed. (lines : List NumberedLine)
        → place (innermost_first inside.old.items) (line.now ∷ lines)
        ≡ with_front (option_to_list placed) (place (innermost_first inside.new.items) lines)) }
    ensures fault { IfErr result (λ e. IfRefused e (λ f. (lines : List NumberedLine)
        → place (innermost_first inside.old.items) (line.now ∷ lines) ≡ Err f)) }
{
    if inside.len() >= DEPTH_LIMIT {
        return Err(nested(Some(line.number)));
    }
    let name = component_name(alloc, &line.line)?;
    let placed = opening(inside, &name, line.number);
    inside.push(name)?;
    Ok(placed)
}

/// Places the line that ends a component. It has to end the innermost.
fn place_end<'a>(
    alloc: Global,
    inside: &mut Vec<Text>,
    line: &NumberedLine<'a>,
) -> Result<Option<Placed<'a>>, ReadError>
    requires { (is_begin line.now.line ≡ false) × (is_end line.now.line ≡ true) × (0 < length inside.old.items) }
    ensures placed { IfOk result (λ placed. (lines : List NumberedLine)
        → place (innermost_first inside.old.items) (line.now ∷ lines)
        ≡ with_front (option_to_list placed) (place (innermost_first inside.new.items) lines)) }
    ensures fault { IfErr result (λ e. IfRefused e (λ f. (lines : List NumberedLine)
        → place (innermost_first inside.old.items) (line.now ∷ lines) ≡ Err f)) }
{
    let name = component_name(alloc, &line.line)?;
    let ended = end(inside, &name);
    drop(name);
    if !ended {
        return Err(nested(Some(line.number)));
    }
    Ok(None)
}

pub(crate) fn is_begin(line: &SeenLine<'_>) -> bool
    ensures { result ≡ is_begin line.now }
{
    line.name() == "BEGIN"
}

pub(crate) fn is_end(line: &SeenLine<'_>) -> bool
    ensures { result ≡ is_end line.now }
{
    line.name() == "END"
}

/// The name of the component that a BEGIN or END names, in upper case.
fn component_name(alloc: Global, line: &SeenLine<'_>) -> Result<Text, NoMemory>
    ensures { IfOk result (λ name. name ≡ component_name line.now) }
{
    upper_case(alloc, line.value())
}

/// A text with its ASCII letters in upper case.
pub(crate) fn upper_case(alloc: Global, text: &str) -> Result<Text, NoMemory>
    ensures { IfOk result (λ upper. upper ≡ str_to_ascii_uppercase text.now) }
{
    let mut upper = Text::copy(alloc, text)?;
    upper.make_ascii_uppercase();
    Ok(upper)
}

/// What the BEGIN of a component of this name adds, on the line with this number, inside these open components.
fn opening<'a>(inside: &[Text], name: &Text, number: usize) -> Option<Placed<'a>>
    ensures { option_to_list result ≡ opening (innermost_first inside.now) name.now number }
{
    if inside.len() == 1 && name.as_str() == "VTODO" {
        return Some(Placed::TodoBegins(number));
    }
    None
}

/// Closes the innermost component, and returns whether it has this name.
fn end(inside: &mut Vec<Text>, name: &Text) -> bool
    ensures { (inner : List ℕ) (outer : List (List ℕ)) → inside.old.items ≡ outer ++ inner ∷ []
        → (result ≡ same_text name.now inner) × (inside.new.items ≡ outer) }
{
    inside.pop().is_some_and(|inner| *name == inner)
}

/// What a property inside these open components adds.
fn property<'a>(inside: &[Text], line: NumberedLine<'a>) -> Option<Placed<'a>>
    ensures { option_to_list result ≡ property (innermost_first inside.now) line.entry }
{
    if inside.len() == 1 {
        return Some(Placed::CalendarLine(line));
    }
    if inside.len() == 2 && inside[1].as_str() == "VTODO" {
        return Some(Placed::TodoLine(line));
    }
    None
}
