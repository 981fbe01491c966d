//! Where a to-do is not what its method needs.
ghost use Rattle.std.specs.Prelude.{◌≡◌};
ghost use Rattle.std.specs.List.{filter};
ghost use Rattle.itip_message.specs.CauseLines.{line_of_cause, is_named, is_recurring, first_line, second_line};
ghost use Rattle.itip_todo.specs.declared.property_name.PropertyName.TheVariants as name;

use itip_items::MethodCause;
use itip_lines::NumberedLine;
use itip_todo::PropertyName;

/// The number of the line of a to-do that isn't what its method needs; `None` if something is missing.
pub(crate) fn line_of_cause(cause: MethodCause, lines: &[NumberedLine<'_>]) -> Option<usize>
    ensures { result ≡ line_of_cause cause lines.now }
{
    match cause {
        MethodCause::Missing(_) => None,
        MethodCause::Twice(property) => second_named(property, lines),
        MethodCause::Range => first_named(PropertyName::RecurrenceId, lines),
        MethodCause::AddForm => first_recurring(lines),
    }
}

fn first_named(property: PropertyName, lines: &[NumberedLine<'_>]) -> Option<usize>
    ensures { result ≡ first_line (filter (is_named property) lines.now) }
{
    for line in lines {
        if is_named(property, line) {
            return Some(line.number);
        }
    }
    None
}

fn second_named(property: PropertyName, lines: &[NumberedLine<'_>]) -> Option<usize>
    ensures { result ≡ second_line (filter (is_named property) lines.now) }
{
    let mut is_found = false;
    for line in lines {
        if is_named(property, line) {
            if is_found {
                return Some(line.number);
            }
            is_found = true;
        }
    }
    None
}

fn first_recurring(lines: &[NumberedLine<'_>]) -> Option<usize>
    ensures { result ≡ first_line (filter is_recurring lines.now) }
{
    for line in lines {
        if is_recurring(line) {
            return Some(line.number);
        }
    }
    None
}

/// Whether a line has the name of the property.
pub(crate) fn is_named(property: PropertyName, line: &NumberedLine<'_>) -> bool
    ensures { result ≡ is_named property line.now }
{
    PropertyName::named(line.line.name()) == property
}

/// Whether a line has the name of a property that makes a to-do one of an instance or lets it recur.
fn is_recurring(line: &NumberedLine<'_>) -> bool
    ensures { result ≡ is_recurring line.now }
{
    is_named(PropertyName::RecurrenceId, line)
        || is_named(PropertyName::RRule, line)
        || is_named(PropertyName::RDate, line)
}
