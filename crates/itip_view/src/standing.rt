//! Which item stands at an instance.
ghost use Rattle.std.specs.Prelude.{◌≡◌, ◌↔◌, IsTrue, MatchOption};
ghost use Rattle.std.specs.Option.{option_copied};
ghost use Rattle.itip_view.specs.RowsOfUid.{StandsBesideOf};
ghost use Rattle.itip_view.specs.Standing.{if_live, is_live, Stands, NoneStands};

use itip_items::{Item, Kind};
use itip_moment::Moment;
use itip_state::ItemsOfUid;

/// Whether an item of this kind is live: a REQUEST or an ADD. Series, instance and range items of any other kind are cancelled.
pub fn is_live(kind: Kind) -> bool
    ensures { result ≡ is_live kind }
{
    matches!(kind, Kind::Request | Kind::Add)
}

/// The item if it is live, else `None`.
pub fn if_live<'a>(item: Option<&'a Item>) -> Option<&'a Item>
    ensures { option_copied result ≡ if_live (option_copied item.entry) }
{
    match item {
        Some(item) if is_live(item.kind) => Some(item),
        _ => None,
    }
}

/// Whether an instance or range item stands beside the series item of its UID; true if there is none.
pub fn stands_beside(series: Option<&Item>, item: &Item) -> bool
    ensures { IsTrue result ↔ StandsBesideOf (option_copied series.entry) item.now }
{
    match series {
        None => true,
        Some(series) => {
            if is_live(series.kind) {
                series.eff <= item.eff
            } else {
                series.eff < item.eff
            }
        }
    }
}

/// The item that stands at an instance of a UID, if any. It takes no memory.
pub(crate) fn standing_item<'a>(items: &ItemsOfUid<'a>, at: &Moment) -> Option<&'a Item>
    ensures { MatchOption (option_copied result)
        (NoneStands items.now.items items.now.uid at.now)
        (Stands items.now.items items.now.uid at.now) }
{
    let Some(item) = items.instance(at) else {
        return None;
    };
    if stands_beside(items.series(), item) {
        Some(item)
    } else {
        None
    }
}
