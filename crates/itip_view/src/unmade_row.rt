//! Rows before they are made: what governs a row, what identifies it, and which dates it shows.
ghost use Rattle.std.specs.Prelude.{◌≡◌, IfOk};
ghost use Rattle.itip_view.specs.UnmadeRows.{HasDates, governing_item, id_of, questions_of};

use crate::NoMemory;
use crate::answers::{Questions, in_turn, in_turn_under, only};
use crate::dates::{due_from, due_of, start_from};
use crate::keyed_item::KeyedItem;
use crate::row::RowId;
use itip_items::Item;
use itip_moment::Moment;

/// The item that governs a row, with the keys of its attendees if they are already made.
#[derive(Clone, Copy, Drop)]
pub(crate) enum Governing<'p> {
    Plain(&'p Item),
    Keyed(&'p KeyedItem<'p>),
}

/// The kind of a row.
#[derive(Clone, Copy, Drop)]
pub(crate) enum RowKind<'p> {
    /// Of a to-do that doesn't recur.
    Single,
    /// Of a to-do whose recurrence isn't expanded.
    Opaque,
    /// Of an instance.
    Instance(&'p Moment),
    /// Of an occurrence of a series that begins at `start`.
    Occurrence {
        at: &'p Moment,
        start: &'p Moment,
    },
    /// Of an occurrence of `series` that is ruled by a range item from `id` on.
    Ranged {
        at: &'p Moment,
        id: &'p Moment,
        series: &'p Item,
    },
}

/// A row before it is made.
#[derive(Clone, Copy, Drop)]
pub(crate) struct UnmadeRow<'p> {
    pub(crate) governing: Governing<'p>,
    pub(crate) kind: RowKind<'p>,
}

/// START and DUE of a row.
#[derive(Drop)]
pub(crate) struct ShownDates {
    pub(crate) start: Option<Moment>,
    pub(crate) due: Option<Moment>,
}

impl<'p> UnmadeRow<'p> {
    /// The item that governs the row.
    pub(crate) fn item(&self) -> &'p Item
        ensures { result.now ≡ governing_item self.now.governing }
    {
        match self.governing {
            Governing::Plain(item) => item,
            Governing::Keyed(keyed) => keyed.item,
        }
    }

    /// What identifies the row, besides its UID.
    pub(crate) fn id(&self) -> Result<RowId, NoMemory>
        ensures { IfOk result (λ id. id ≡ id_of self.now.kind) }
    {
        Ok(match self.kind {
            RowKind::Single => RowId::Single,
            RowKind::Opaque => RowId::Opaque,
            RowKind::Instance(at) | RowKind::Occurrence { at, .. } | RowKind::Ranged { at, .. } =>
                RowId::At(at.clone()?),
        })
    }

    /// The dates that the row shows.
    pub(crate) fn dates(&self) -> Result<ShownDates, NoMemory>
        ensures { IfOk result (λ dates. HasDates (governing_item self.now.governing) self.now.kind dates.start dates.due) }
    {
        let todo = &self.item().todo;
        match self.kind {
            RowKind::Single | RowKind::Opaque | RowKind::Instance(_) => Ok(ShownDates {
                start: todo.start.clone()?,
                due: todo.due.clone()?,
            }),
            RowKind::Occurrence { at, start } => Ok(ShownDates {
                start: Some(at.clone()?),
                due: due_of(&todo.due, start, at)?,
            }),
            RowKind::Ranged { at, id, .. } => Ok(ShownDates {
                start: start_from(&todo.start, id, at)?,
                due: due_from(&todo.due, id, at)?,
            }),
        }
    }

    /// Which answers the row asks for.
    pub(crate) fn questions(&self) -> Questions<'p>
        ensures { result ≡ questions_of (governing_item self.now.governing) self.now.kind }
    {
        let item = self.item();
        match self.kind {
            RowKind::Single | RowKind::Opaque => only(None, item.own),
            RowKind::Instance(at) => only(Some(at), item.own),
            RowKind::Occurrence { at, .. } => in_turn(at, item.own, item.own),
            RowKind::Ranged { at, series, .. } => in_turn_under(at, item, series),
        }
    }
}
