//! The text of a list, or its refusal if it has too many rows.
ghost use Rattle.std.specs.Prelude.{◌≡◌, [], IfOk, IsOk, IsErrOf, map};
ghost use Rattle.itip_state.specs.Kept.{AscendTexts};
ghost use Rattle.itip_view.specs.Showing.{AreTooManyWhere, IsAmong, IsTextAmong};
ghost use Rattle.itip_view.specs.Wanting.{Wants};

use crate::error::ViewError;
use crate::row_count::ROW_LIMIT;
use crate::wanted::Wanted;
use crate::wanted_rows::put_shown;
use crate::window::Window;
use itip_state::State;
use itip_todo::Uid;
use std::alloc::Global;

/// The text of the rows of these UIDs in a window that are asked for, at most 100,000. Besides the text, one row is held at a time.
/// Without UIDs it takes no memory.
pub(crate) fn text_within_limit(
    alloc: Global,
    state: &State,
    uids: &[&Uid],
    window: Window,
    wanted: &Wanted<'_>,
) -> Result<Vec<u8>, ViewError>
    requires { AscendTexts (map (λ uid. uid.now) uids.now) }
    ensures text { IfOk result (λ text. IsTextAmong
        (Wants wanted.now) state.now window (map (λ uid. uid.now) uids.now) text.items) }
    ensures many { IsErrOf result ViewError.TooManyRows
        → AreTooManyWhere (IsAmong (map (λ uid. uid.now) uids.now) (Wants wanted.now)) state.now window }
    ensures succeeds { uids.now ≡ [] → IsOk result }
{
    let mut text = Vec::new(alloc);
    let mut number: usize = 0;
    for uid in uids {
        let more = put_shown(alloc, state, uid, window, wanted, &mut text)?;
        if more > ROW_LIMIT - number {
            return Err(ViewError::TooManyRows);
        }
        number += more;
    }
    Ok(text)
}
