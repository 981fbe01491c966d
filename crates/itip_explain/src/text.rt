//! The explanation of a to-do.
ghost use Rattle.std.specs.Prelude.{IfOk};
ghost use Rattle.itip_state.specs.Kept.{AreOf};
ghost use Rattle.itip_explain.specs.Explanation.{AreLines, IsExplanation};
ghost use Rattle.itip_explain.specs.Knowing.{told_to, IsSound};
ghost use Rattle.itip_explain.specs.Told.{heard_of};

use crate::NoMemory;
use crate::fates::Fates;
use crate::latest::Latest;
use crate::line::line_of;
use crate::told::ToldItem;
use itip_streams::SourceName;
use itip_todo::Uid;
use std::alloc::Global;

/// A line, with its end, for each told item, in the order told: `WHERE: KIND ID [ADDRESS] seq S stamp T FATE`. All of `told` must be of
/// this UID.
///
/// WHERE is the place of the message, as [`SourceName::place_of`] writes it; a source without a name is named like standard input.
/// ID is `-`, or the moment of the instance, with `+` after it if the item is of an instance and all after it. ADDRESS is that of the
/// attendee of an answer, a removal or a refresh request, with ASCII letters in lower case. S is the item's own SEQUENCE, T its DTSTAMP,
/// and FATE what became of it: its [`Fate`](crate::Fate) in words. Fails only if an allocation fails.
///
/// Told items are found by binary search, and RDATE is sorted once, so twice as many of either take about twice the time.
pub fn explanation(
    alloc: Global,
    uid: &Uid,
    told: &[ToldItem],
    names: &[SourceName],
) -> Result<Vec<u8>, NoMemory>
    requires { AreOf uid.now (heard_of told.now) }
    ensures { IfOk result (λ text. IsExplanation uid.now told.now names.now text.items) }
{
    let latest = Latest::of(alloc, told)?;
    let state = latest.state(alloc)?;
    let items = state.of_uid(uid)?;
    let fates = Fates::of(alloc, &latest, &items)?;
    lines(alloc, &fates, names)
}

/// The lines of all that was told.
fn lines(
    alloc: Global,
    fates: &Fates<'_, '_, '_>,
    names: &[SourceName],
) -> Result<Vec<u8>, NoMemory>
    requires { IsSound fates.now }
    ensures { IfOk result (λ text. AreLines (told_to fates.now) names.now (told_to fates.now) text.items) }
{
    let mut text = Vec::new(alloc);
    for one in fates.told() {
        let became = fates.fate(&one.item);
        let line = line_of(alloc, names, one, became)?;
        text.extend_from_slice(line.as_str().as_bytes())?;
    }
    Ok(text)
}
