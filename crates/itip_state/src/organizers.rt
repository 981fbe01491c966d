//! The sequences that organizers have used.
ghost use Rattle.std.specs.Prelude.{◌≡◌, None};
ghost use Rattle.itip_state.specs.Held.{uid_state_items};
ghost use Rattle.itip_state.specs.UidStates.{uid_state};
ghost use Rattle.itip_state.specs.Organizers.{used_by, greater, greatest};

use crate::held_of_uid::HeldOfUid;
use itip_items::{Item, Kind};
use itip_join::Lift;

/// The effective sequence of an item, if an organizer has sent it.
fn used_by(item: &Item) -> Option<u32>
    ensures { result ≡ used_by item.now }
{
    match item.kind {
        Kind::Request | Kind::Add | Kind::Remove | Kind::Cancel => Some(item.eff),
        Kind::Reply | Kind::Refresh => None,
    }
}

/// The greater of two sequences, if there are any.
fn greater(last: Option<u32>, used: Option<u32>) -> Option<u32>
    ensures { result ≡ greater last used }
{
    match (last, used) {
        (None, used) => used,
        (last, None) => last,
        (Some(last), Some(used)) => Some(last.max(used)),
    }
}

/// The greatest effective sequence of the items of one UID that its organizer has sent, if there are any.
pub(crate) fn greatest(series: &HeldOfUid) -> Option<u32>
    ensures { result ≡ greatest None (uid_state_items (uid_state series.now)) }
{
    let mut last = match &series.guard {
        Lift::Nothing => None,
        Lift::Known(best) => used_by(best.value.item()),
    };
    for (_, best) in series.entries.map.iter() {
        last = greater(last, used_by(best.value.item()));
    }
    last
}
