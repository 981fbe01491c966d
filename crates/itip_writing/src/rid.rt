//! Writing RECURRENCE-ID.
ghost use Rattle.std.specs.Prelude.{◌≡◌, ◌++◌, OnOk};
ghost use Rattle.std.specs.Option.{option_copied};
ghost use Rattle.itip_todo.specs.Written.{contents_octets, optional, rid_line};

use itip_moment::Moment;
use itip_todo::write_recurrence_id;
use std::alloc::AllocError;

/// Appends the RECURRENCE-ID of an instance, or of it and all after it (RFC 5545 3.2.13), if there is one.
pub(crate) fn write_rid(
    range: bool,
    id: Option<&Moment>,
    out: &mut Vec<u8>,
) -> Result<(), AllocError>
    ensures { OnOk result (out.new.items ≡ out.old.items ++ contents_octets (optional (rid_line range) (option_copied id.entry))) }
{
    match id {
        Some(id) => write_recurrence_id(range, id, out),
        None => Ok(()),
    }
}
