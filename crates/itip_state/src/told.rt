//! Which items add nothing to what is held.
ghost use Rattle.std.specs.Prelude.{◌↔◌, IsTrue, map};
ghost use Rattle.itip_items.specs.RevisionOrder.{IsLater};
ghost use Rattle.itip_state.specs.Held.{items_of, AreHeld};
ghost use Rattle.itip_state.specs.UidStates.{uid_state};
ghost use Rattle.itip_state.specs.Told.{IsOutdone, AreOutdone, HoldsNoEarlier};

use crate::held::Held;
use crate::held_of_uid::{HeldOfUid, is_dead_below};
use crate::latest_revision::Best;
use crate::shared::SharedItem;
use itip_items::Item;
use itip_join::Lift;

/// Whether `item` is not later than `best`, which is held at its key.
fn is_no_later(item: &Item, best: &Best) -> bool
    ensures { IsTrue result ↔ (¬ IsLater item.now best.now.value) }
{
    item.cmp_rev(best.value.item()).is_le()
}

/// Whether something is held at the key of `item` that is no earlier than it. `series` is what is held of its UID.
fn holds_no_earlier(series: &HeldOfUid, item: &SharedItem) -> bool
    ensures { IsTrue result ↔ HoldsNoEarlier (uid_state series.now) item.now }
{
    match item.slot() {
        None => match &series.guard {
            Lift::Nothing => false,
            Lift::Known(best) => is_no_later(item.item(), best),
        },
        Some(slot) => match series.entries.get(slot) {
            None => false,
            Some(best) => is_no_later(item.item(), best),
        },
    }
}

/// Whether hearing an item changes nothing: an item of its key is held that is no earlier, or it is dead below the series item held.
pub(crate) fn outdoes(held: &Held, item: &SharedItem) -> bool
    ensures { AreHeld held.now → IsTrue result ↔ IsOutdone (items_of held.now) item.now }
{
    let Some(series) = held.get(item.uid()) else {
        return false;
    };
    holds_no_earlier(series, item) || is_dead_below(&series.guard, item.key(), item.item())
}

/// Whether hearing these items changes nothing. Allocates nothing.
pub(crate) fn outdoes_all(held: &Held, items: &[&SharedItem]) -> bool
    ensures { AreHeld held.now → IsTrue result ↔ AreOutdone (items_of held.now) (map (λ item. item.now) items.now) }
{
    for item in items {
        if !outdoes(held, item) {
            return false;
        }
    }
    true
}
