//! The items that a report is about.
ghost use Rattle.std.specs.Prelude.{◌≡◌, [], IfOk, IsOk, map};
ghost use Rattle.itip_report.specs.Lines.{AreReported};
ghost use Rattle.itip_report.specs.Reports.{IsReported};

use crate::NoMemory;
use crate::report::Report;
use crate::sought::{Sought, sought_items};
use itip_items::Item;
use itip_state::{ItemsOfUid, State};
use std::alloc::Global;

/// The kept items that a report is about, by place: its lines are the texts of these. Fails if an allocation fails. Allocates nothing
/// if nothing is kept.
pub fn report_items<'a>(
    alloc: Global,
    state: &'a State,
    report: Report,
) -> Result<Vec<&'a Item>, NoMemory>
    ensures items { IfOk result (λ items. AreReported (IsReported report state.now) (map (λ item. item.now) items.items)) }
    ensures succeeds { state.now ≡ [] → IsOk result }
{
    if state.entries() == 0 {
        return Ok(Vec::new(alloc));
    }
    all_reported(alloc, state, report)
}

/// The same, if something is kept.
fn all_reported<'a>(
    alloc: Global,
    state: &'a State,
    report: Report,
) -> Result<Vec<&'a Item>, NoMemory>
    ensures { IfOk result (λ items. AreReported (IsReported report state.now) (map (λ item. item.now) items.items)) }
{
    let uids = state.uids()?;
    let mut items = Vec::new(alloc);
    for uid in &uids {
        let of_uid = state.of_uid(uid)?;
        let mut more = reported_of_uid(alloc, &of_uid, report)?;
        items.append(&mut more)?;
    }
    Ok(items)
}

/// The items of one UID that a report is about, by place.
fn reported_of_uid<'a>(
    alloc: Global,
    items: &ItemsOfUid<'a>,
    report: Report,
) -> Result<Vec<&'a Item>, NoMemory>
    ensures { IfOk result (λ found. AreReported (IsReported report items.now.items) (map (λ item. item.now) found.items)) }
{
    let sought = Sought::by(alloc, report, items)?;
    sought_items(alloc, items, &sought)
}
