//! The properties that RFC 5546 3.4 requires in a message and that are missing.
ghost use Rattle.std.specs.Prelude.{◌≡◌, ◌∷◌, map, IfOk};
ghost use Rattle.std.specs.List.{list_any};
ghost use Rattle.std.specs.Option.{is_none};
ghost use Rattle.itip_todo.specs.PartsOf.{parts_of};
ghost use Rattle.itip_todo.specs.declared.todo.Todo.{Todo};
ghost use Rattle.itip_writing.specs.Lacking.{lacking_organizer, lacking_of_items, lacking_in_request, lacks};

use crate::NoMemory;
use itip_items::Item;
use itip_todo::{Property, PropertyName, Todo};
use std::alloc::Global;

/// What a REQUEST requires in each to-do besides what is always written (RFC 5546 3.4.2), in canonical order.
const WANTED_IN_REQUEST: [PropertyName; 5] = [
    PropertyName::DtStart,
    PropertyName::Priority,
    PropertyName::Summary,
    PropertyName::Organizer,
    PropertyName::Attendee,
];

/// ORGANIZER if there is none: REPLY and CANCEL require it (RFC 5546 3.4.3 and 3.4.5), and for REFRESH we want it as for an event (3.2.6).
pub(crate) fn lacking_organizer(
    alloc: Global,
    organizer: &Option<Property>,
) -> Result<Vec<PropertyName>, NoMemory>
    ensures { IfOk result (λ names. names.items ≡ lacking_organizer organizer.now) }
{
    let mut names = Vec::new(alloc);
    if organizer.is_none() {
        names.push(PropertyName::Organizer)?;
    }
    Ok(names)
}

/// ORGANIZER if the to-do of one of these items has none: each message that is sent again, a REQUEST, an ADD or a CANCEL, requires it
/// (RFC 5546 3.4.2, 3.4.4 and 3.4.5).
pub(crate) fn lacking_of_items(
    alloc: Global,
    series: &Item,
    overrides: &[&Item],
) -> Result<Vec<PropertyName>, NoMemory>
    ensures { IfOk result (λ names. names.items ≡ lacking_of_items (series.now ∷ map (λ item. item.now) overrides.now)) }
{
    if some_lacks(overrides) {
        lacking_organizer(alloc, &None)
    } else {
        lacking_organizer(alloc, &series.todo.organizer)
    }
}

/// Whether the to-do of one of these items has no ORGANIZER.
fn some_lacks(items: &[&Item]) -> bool
    ensures { result ≡ list_any (λ item. is_none item.now.todo.organizer) items.now }
{
    items.iter().any(|item| item.todo.organizer.is_none())
}

/// The properties that a REQUEST requires and some to-do of a draft lacks, each once, in canonical order.
pub(crate) fn lacking_in_request(
    alloc: Global,
    draft: &[Todo],
) -> Result<Vec<PropertyName>, NoMemory>
    ensures { IfOk result (λ names. names.items ≡ lacking_in_request draft.now) }
{
    WANTED_IN_REQUEST
        .iter()
        .copied()
        .filter(|property| is_lacking(*property, draft))
        .collect(alloc)
}

/// Whether some to-do lacks a property that a REQUEST requires.
fn is_lacking(property: PropertyName, draft: &[Todo]) -> bool
    ensures { result ≡ list_any (λ (todo : Todo). lacks property (parts_of todo)) draft.now }
{
    draft.iter().any(|todo| lacks(property, todo))
}

/// Whether a to-do lacks a property that a REQUEST requires; `false` for any other property.
fn lacks(property: PropertyName, todo: &Todo) -> bool
    ensures { result ≡ lacks property (parts_of todo.now) }
{
    match property {
        PropertyName::DtStart => todo.start.is_none(),
        PropertyName::Priority => todo.priority.is_none(),
        PropertyName::Summary => todo.summary.is_none(),
        PropertyName::Organizer => todo.organizer.is_none(),
        PropertyName::Attendee => todo.attendees.as_slice().is_empty(),
        _ => false,
    }
}
