//! A to-do as a whole, and the moments at which it occurs.
ghost use Rattle.std.specs.Prelude.{◌↔◌, ℕ, List, IfOk};
ghost use Rattle.std.specs.List.{Contains};
ghost use Rattle.std.specs.List.Sorted.{IsStrictlySortedBy};
ghost use Rattle.itip_items.specs.declared.item.Item.{Item};
ghost use Rattle.itip_moment.specs.declared.moment.Moment.{Moment};
ghost use Rattle.itip_moment.specs.Order.{moment_cmp};
ghost use Rattle.itip_view.specs.RowsOfUid.{IsWhole, AreOccurrencesOf};

use crate::NoMemory;
use crate::standing::is_live;
use crate::window::Window;
use itip_items::Item;
use itip_moment::Moment;
use itip_recur::{Shape, all_occurrences, shape};
use itip_state::ItemsOfUid;
use std::alloc::Global;

/// The live series item of a UID, and how it recurs.
#[derive(Drop)]
pub(crate) struct Whole<'a> {
    pub(crate) item: &'a Item,
    pub(crate) shape: Shape,
}

/// The to-do as a whole; `None` if it is cancelled or not known.
pub(crate) fn whole_of<'a>(
    alloc: Global,
    items: &ItemsOfUid<'a>,
) -> Result<Option<Whole<'a>>, NoMemory>
    ensures { IfOk result (IsWhole items.now.items items.now.uid) }
{
    match items.series() {
        Some(item) if is_live(item.kind) => Ok(Some(Whole {
            item,
            shape: shape(alloc, &item.todo)?,
        })),
        _ => Ok(None),
    }
}

/// The given moments in ascending order, each once.
pub(crate) fn sorted_moments(moments: Vec<Moment>) -> Result<Vec<Moment>, NoMemory>
    ensures ascend { IfOk result (λ sorted. IsStrictlySortedBy moment_cmp sorted.items) }
    ensures same { IfOk result (λ sorted. (at : Moment) → Contains sorted.items at ↔ Contains moments.items at) }
{
    let mut moments = moments;
    moments.sort()?;
    moments.dedup();
    Ok(moments)
}

/// The occurrences of a to-do in a window; none unless it repeats.
pub(crate) fn occurrences(
    alloc: Global,
    whole: &Option<Whole<'_>>,
    window: Window,
) -> Result<Vec<Moment>, NoMemory>
    ensures { IfOk result (λ moments. (heard : List Item) (uid : List ℕ)
        → IsWhole heard uid whole.now → AreOccurrencesOf heard window uid moments.items) }
{
    let Some(whole) = whole else {
        return Ok(Vec::new(alloc));
    };
    match &whole.shape {
        Shape::Repeats(series) => all_occurrences(alloc, series, window.from, window.to),
        Shape::Single | Shape::Opaque => Ok(Vec::new(alloc)),
    }
}
