//! Which item governs a to-do as a whole, or an instance.
ghost use Rattle.std.specs.Prelude.{◌≡◌, MatchOption};
ghost use Rattle.std.specs.Option.{option_copied};
ghost use Rattle.itip_items.specs.declared.item.Item.{Item};
ghost use Rattle.itip_view.specs.Standing.{Governs, GovernsBetween};

use crate::ranges::Ranges;
use crate::standing::{if_live, standing_item};
use itip_items::Item;
use itip_moment::Moment;
use itip_state::ItemsOfUid;

/// The item that governs a to-do as a whole (`id` is `None`), or an instance of it; `None` if nothing does. `ranges` must be those of
/// the same items. It takes no memory.
pub fn governing<'a>(
    items: &ItemsOfUid<'a>,
    ranges: &Ranges<'_, 'a>,
    id: &Option<Moment>,
) -> Option<&'a Item>
    requires { ranges.now ≡ items.now }
    ensures { MatchOption (option_copied result)
        ((item : Item) → ¬ Governs items.now.items items.now.uid id.now item)
        (Governs items.now.items items.now.uid id.now) }
{
    let Some(at) = id else {
        return if_live(items.series());
    };
    match standing_item(items, at) {
        Some(instance) => if_live(Some(instance)),
        None => governing_between(items, ranges, at),
    }
}

/// The item that governs a moment at which no instance item stands.
pub(crate) fn governing_between<'a>(
    items: &ItemsOfUid<'a>,
    ranges: &Ranges<'_, 'a>,
    at: &Moment,
) -> Option<&'a Item>
    requires { ranges.now ≡ items.now }
    ensures { MatchOption (option_copied result)
        ((item : Item) → ¬ GovernsBetween items.now.items items.now.uid at.now item)
        (GovernsBetween items.now.items items.now.uid at.now) }
{
    match ranges.ruling(at) {
        Some(range) => if_live(Some(range.item)),
        None => if_live(items.series()),
    }
}
