//! The days on which the rows of an item can fall, and which items can govern rows.
ghost use Rattle.std.specs.Prelude.{◌≡◌};
ghost use Rattle.itip_view.specs.RowDays.{days_from, has_rows, row_days, whole_days};

use crate::dates::{day_of, instance_day};
use crate::standing::is_live;
use itip_items::{Item, Key};
use itip_recur::recurs;
use itip_todo::Todo;

/// The days on which the rows of an item can fall.
#[derive(Clone, Copy, Debug, PartialEq, Eq)]
pub enum RowDays {
    /// Only this day, counted from 1970-01-01.
    One(i32),
    /// Any day: for the rows of a to-do that recurs, and for a row that has no day.
    Any,
}

/// Whether an item can govern a row: a REQUEST or an ADD of a to-do as a whole, of an instance, or of an instance and all after it.
pub fn has_rows(item: &Item) -> bool
    ensures { result ≡ has_rows item.now }
{
    match &item.key {
        Key::Series(_) | Key::Instance(_, _) | Key::Range(_, _) => is_live(item.kind),
        Key::Answer(_, _, _) | Key::Refresh(_, _, _) => false,
    }
}

/// The days on which the rows of a live series or instance item can fall; `None` for any other item. The rows of an instance and
/// all after it fall on the days of the to-do as a whole.
pub fn row_days(item: &Item) -> Option<RowDays>
    ensures { result ≡ row_days item.now }
{
    if !is_live(item.kind) {
        return None;
    }
    match &item.key {
        Key::Series(_) => Some(whole_days(&item.todo)),
        Key::Instance(_, at) => instance_day(at, &item.todo).map(RowDays::One),
        Key::Range(_, _) | Key::Answer(_, _, _) | Key::Refresh(_, _, _) => None,
    }
}

/// The days on which the rows of a to-do as a whole can fall.
fn whole_days(todo: &Todo) -> RowDays
    ensures { result ≡ whole_days todo.now }
{
    days_from(recurs(todo), day_of(todo))
}

/// The one day of a to-do that doesn't recur and has a day, else any day.
fn days_from(recurs: bool, day: Option<i32>) -> RowDays
    ensures { result ≡ days_from recurs day }
{
    match (recurs, day) {
        (false, Some(day)) => RowDays::One(day),
        _ => RowDays::Any,
    }
}
