//! What a method needs of a to-do besides UID and DTSTAMP.
ghost use Rattle.std.specs.Prelude.{◌≡◌};
ghost use Rattle.itip_todo.specs.PartsOf.{parts_of};
ghost use Rattle.itip_items.specs.MethodNeeds.{method_cause, recurs, removes, has_some, wants_some, wants_one};

use crate::error::MethodCause;
use crate::kind::Method;
use itip_lines::ListOf;
use itip_todo::{Property, PropertyName, Todo, has_period};

/// Why a to-do is not what its method needs, or `None` if it is (our own rule).
pub fn method_cause(method: Method, todo: &Todo) -> Option<MethodCause>
    ensures { result ≡ method_cause method (parts_of todo.now) }
{
    match method {
        Method::Request => None,
        Method::Add => {
            if todo.start.is_none() {
                Some(MethodCause::Missing(PropertyName::DtStart))
            } else if recurs(todo) {
                Some(MethodCause::AddForm)
            } else {
                None
            }
        }
        Method::Cancel => (removes(todo) && todo.range).then_some(MethodCause::Range),
        Method::Reply => wants_some(todo.attendees.as_slice()),
        Method::Refresh => wants_one(todo.attendees.as_slice()),
    }
}

/// Whether a to-do has RECURRENCE-ID, RRULE or RDATE. RDATE with `/` in its value is among the others.
fn recurs(todo: &Todo) -> bool
    ensures { result ≡ recurs (parts_of todo.now) }
{
    todo.rid.is_some()
        || !todo.rule.is_empty()
        || has_some(&todo.rdates)
        || has_period(&todo.others)
}

/// Whether a to-do in a CANCEL removes attendees: it has no STATUS and names some.
pub(crate) fn removes(todo: &Todo) -> bool
    ensures { result ≡ removes (parts_of todo.now) }
{
    todo.status.is_none() && has_some(&todo.attendees)
}

fn has_some<T>(list: &ListOf<T>) -> bool
    ensures { result ≡ has_some list.now }
{
    !list.is_empty()
}

fn wants_some(attendees: &[Property]) -> Option<MethodCause>
    ensures { result ≡ wants_some attendees.now }
{
    match attendees {
        [] => Some(MethodCause::Missing(PropertyName::Attendee)),
        [_, ..] => None,
    }
}

fn wants_one(attendees: &[Property]) -> Option<MethodCause>
    ensures { result ≡ wants_one attendees.now }
{
    match attendees {
        [] => Some(MethodCause::Missing(PropertyName::Attendee)),
        [_] => None,
        [_, _, ..] => Some(MethodCause::Twice(PropertyName::Attendee)),
    }
}
