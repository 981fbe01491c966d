//! How values of a row are spelled.
ghost use Rattle.std.specs.Prelude.{◌≡◌, IfOk};
ghost use Rattle.std.specs.Option.{option_map};
ghost use Rattle.std.specs.String.{string_bytes};
ghost use Rattle.itip_moment.specs.Shown.{shown_moment};
ghost use Rattle.itip_inbox.specs.Csv.{row_name};

use itip_moment::Moment;
use itip_view::RowId;
use std::alloc::{AllocError, Global};

/// What names a row besides its UID: a moment, or `opaque`. Returns `None` for the one row of a to-do that doesn't recur.
pub(crate) fn id_text(alloc: Global, id: &RowId) -> Result<Option<String>, AllocError>
    ensures { IfOk result (λ text. option_map string_bytes text ≡ row_name id.now) }
{
    match id {
        RowId::Single => Ok(None),
        RowId::At(moment) => Ok(Some(moment.to_string(alloc)?)),
        RowId::Opaque => Ok(Some(String::from_str(alloc, "opaque")?)),
    }
}

/// A moment as the list shows it, if there is one.
pub(crate) fn moment_text(
    alloc: Global,
    moment: &Option<Moment>,
) -> Result<Option<String>, AllocError>
    ensures { IfOk result (λ text. option_map string_bytes text ≡ option_map shown_moment moment.now) }
{
    match moment {
        Some(moment) => Ok(Some(moment.to_string(alloc)?)),
        None => Ok(None),
    }
}
