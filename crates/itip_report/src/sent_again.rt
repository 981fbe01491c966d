//! What an organizer sends again.
ghost use Rattle.std.specs.Prelude.{◌≡◌, ◌++◌, [], IfOk, IsOk, OnOk, MatchOption, map};
ghost use Rattle.std.specs.List.{flat_map};
ghost use Rattle.std.specs.Option.{option_map};
ghost use Rattle.itip_items.specs.declared.item.Item.{Item};
ghost use Rattle.itip_state.specs.Kept.{ArePart};
ghost use Rattle.itip_view.specs.Standing.{IsLiveSeries};
ghost use Rattle.itip_report.specs.Resending.{AreResent, IsResendOf};

use crate::NoMemory;
use crate::sought::{Sought, sought_items};
use itip_items::Item;
use itip_state::{ItemsOfUid, State};
use itip_todo::Uid;
use itip_view::if_live;
use std::alloc::Global;

/// The items of a UID whose messages are to be sent again.
#[derive(Drop)]
pub struct Resent<'a> {
    /// The live series item.
    pub series: &'a Item,
    /// The instance and range items that stand, by moment, an instance before a range of its moment.
    pub overrides: Vec<&'a Item>,
}

/// The items of a UID whose messages are to be sent again, from those that are kept of it; `None` if no series item of the UID is live.
/// Fails if an allocation fails.
pub fn resent_items<'a>(
    alloc: Global,
    items: &ItemsOfUid<'a>,
) -> Result<Option<Resent<'a>>, NoMemory>
    ensures { IfOk result (λ resent. MatchOption resent ((item : Item) → ¬ IsLiveSeries items.now.items items.now.uid item)
        (λ r. AreResent items.now.items items.now.uid r.series.now (map (λ item. item.now) r.overrides.items))) }
{
    let Some(series) = if_live(items.series()) else {
        return Ok(None);
    };
    let overrides = sought_items(alloc, items, &Sought::Standing)?;
    Ok(Some(Resent { series, overrides }))
}

/// The messages of a UID to send again: the canonical bytes of its live series item, then those of the instance and range items that
/// stand, by moment, an instance before a range of its moment; `None` if no series item of the UID is live. Fails if an allocation
/// fails. Allocates nothing if nothing of the UID is kept.
pub fn resend(alloc: Global, state: &State, uid: &Uid) -> Result<Option<Vec<u8>>, NoMemory>
    ensures messages { IfOk result (λ messages. IsResendOf state.now uid.now (option_map (λ bytes. bytes.items) messages)) }
    ensures succeeds { ArePart uid.now [] state.now → IsOk result }
{
    if !state.keeps(uid) {
        return Ok(None);
    }
    let items = state.of_uid(uid)?;
    resend_of(alloc, &items)
}

/// The messages of a UID to send again, from the items that are kept of it.
fn resend_of(alloc: Global, items: &ItemsOfUid<'_>) -> Result<Option<Vec<u8>>, NoMemory>
    ensures { IfOk result (λ messages. IsResendOf items.now.items items.now.uid (option_map (λ bytes. bytes.items) messages)) }
{
    let Some(resent) = resent_items(alloc, items)? else {
        return Ok(None);
    };
    let mut messages = Vec::new(alloc);
    resent.series.bytes.append_to(&mut messages)?;
    put_messages(&mut messages, &resent.overrides)?;
    Ok(Some(messages))
}

/// Appends the canonical bytes of items.
fn put_messages(out: &mut Vec<u8>, items: &[&Item]) -> Result<(), NoMemory>
    ensures { OnOk result (out.new.items ≡ out.old.items ++ flat_map (λ item. item.now.bytes) items.now) }
{
    for item in items {
        item.bytes.append_to(out)?;
    }
    Ok(())
}
