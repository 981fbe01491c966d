//! What governs the occurrences of a to-do at which no instance item stands.
ghost use Rattle.std.specs.Prelude.{IfOk};
ghost use Rattle.itip_view.specs.RowsOfUid.{IsWhole, AreOccurrencesOf, IsBetween};
ghost use Rattle.itip_view.specs.declared.window.Window.{Window};

use crate::NoMemory;
use crate::keyed_item::KeyedItem;
use crate::ranges::Ranges;
use crate::whole::Whole;
use itip_moment::Moment;
use itip_state::ItemsOfUid;
use std::alloc::Global;

/// The live series item of a UID, and the range items that stand.
#[derive(Drop)]
pub(crate) struct Between<'v, 'a> {
    pub(crate) series: KeyedItem<'a>,
    pub(crate) ranges: Ranges<'v, 'a>,
}

impl<'v, 'a> Between<'v, 'a> {
    /// What governs the occurrences of a UID in a window; `None` if there are none.
    pub(crate) fn of(
        alloc: Global,
        items: &'v ItemsOfUid<'a>,
        whole: &Option<Whole<'a>>,
        occurrences: &[Moment],
    ) -> Result<Option<Between<'v, 'a>>, NoMemory>
        requires { IsWhole items.now.items items.now.uid whole.now }
        ensures { IfOk result (λ between. (window : Window)
            → AreOccurrencesOf items.now.items window items.now.uid occurrences.now → IsBetween items.now window between) }
    {
        let Some(whole) = whole else {
            return Ok(None);
        };
        // Nothing occurs, so no attendee keys are needed.
        if occurrences.is_empty() {
            return Ok(None);
        }
        let series = KeyedItem::of(alloc, whole.item)?;
        let ranges = Ranges::of(alloc, items)?;
        Ok(Some(Between { series, ranges }))
    }
}
