//! No rows of a state.
ghost use Rattle.std.specs.Prelude.{IfOk};
ghost use Rattle.itip_view.specs.ByUid.{AreAsked};

use crate::NoMemory;
use itip_state::State;
use itip_view::{RowsByUid, Wanted, Window};
use std::alloc::Global;

/// No rows of a state, for [`report_lines`](crate::report_lines) of a report that isn't of rows. Fails if an allocation fails.
pub fn no_rows(alloc: Global, state: &State, window: Window) -> Result<RowsByUid<'_, '_>, NoMemory>
    ensures { IfOk result (AreAsked (λ row. ⊥) state.now window) }
{
    RowsByUid::among(alloc, state, Vec::new(alloc), window, &Wanted::all())
}
