//! A to-do as a whole, ready to be asked where it occurs.
ghost use Rattle.std.specs.Prelude.{◌↔◌, ℕ, List, Some, IfOk, IsTrue};
ghost use Rattle.itip_items.specs.declared.item.Item.{Item};
ghost use Rattle.itip_view.specs.OccurringWhole.{IsOccurringWhole, IsOccurringOf};
ghost use Rattle.itip_view.specs.InQuestion.{OccursAt};
ghost use Rattle.itip_view.specs.RowsOfUid.{IsWhole};

use crate::NoMemory;
use crate::whole::{Whole, whole_of};
use itip_items::Item;
use itip_moment::Moment;
use itip_recur::{Occurring, Shape};
use itip_state::ItemsOfUid;
use std::alloc::Global;

/// The live series item of a UID, and its series ready to be asked, if it repeats.
#[derive(Drop)]
pub(crate) struct OccurringWhole<'a> {
    pub(crate) item: &'a Item,
    pub(crate) occurring: Option<Occurring>,
}

/// The to-do as a whole, ready to be asked; `None` if it is cancelled or not known.
pub(crate) fn occurring_whole<'a>(
    alloc: Global,
    items: &ItemsOfUid<'a>,
) -> Result<Option<OccurringWhole<'a>>, NoMemory>
    ensures { IfOk result (IsOccurringWhole items.now.items items.now.uid) }
{
    match whole_of(alloc, items)? {
        Some(whole) => Ok(Some(ready(whole)?)),
        None => Ok(None),
    }
}

/// The series of a to-do that repeats, ready to be asked.
fn occurring_of(shape: Shape) -> Result<Option<Occurring>, NoMemory>
    ensures { IfOk result (IsOccurringOf shape) }
{
    match shape {
        Shape::Repeats(series) => Ok(Some(Occurring::of(series)?)),
        Shape::Single | Shape::Opaque => Ok(None),
    }
}

/// A to-do as a whole, its series ready to be asked.
fn ready(whole: Whole<'_>) -> Result<OccurringWhole<'_>, NoMemory>
    ensures { IfOk result (λ ready. (heard : List Item) (uid : List ℕ)
        → IsWhole heard uid (Some whole.entry) → IsOccurringWhole heard uid (Some ready)) }
{
    let occurring = occurring_of(whole.shape)?;
    Ok(OccurringWhole {
        item: whole.item,
        occurring,
    })
}

/// Whether a to-do has an occurrence at a moment; false unless it repeats.
pub(crate) fn occurs_at(whole: &Option<OccurringWhole<'_>>, at: &Moment) -> bool
    ensures { (heard : List Item) (uid : List ℕ)
        → IsOccurringWhole heard uid whole.now → IsTrue result ↔ OccursAt heard uid at.now }
{
    let Some(whole) = whole else {
        return false;
    };
    match &whole.occurring {
        Some(occurring) => occurring.has(at),
        None => false,
    }
}
