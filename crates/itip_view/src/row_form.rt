//! The forms in which rows are written.
ghost use Rattle.std.specs.Prelude.{◌≡◌, ◌++◌, ℕ, List, OnOk};
ghost use Rattle.itip_view.specs.ListText.{row_text};
ghost use Rattle.itip_view.specs.declared.row.Row.{Row};

use crate::row::Row;
use crate::row_text::write_row;
use std::alloc::AllocError;

/// A form in which rows are written, each on its own.
pub trait RowForm {
    /// The bytes of a row.
    ghost octets: { Self → Row → List ℕ };

    /// Appends the bytes of a row. On an error (out of memory) part of them may have been appended.
    fn put(&self, row: &Row, out: &mut Vec<u8>) -> Result<(), AllocError>
        ensures { OnOk result (out.new.items ≡ out.old.items ++ octets self.now row.now) };
}

/// The text form of the list.
#[derive(Clone, Copy, Debug)]
pub struct PlainRows;

impl RowForm for PlainRows {
    ghost octets = { λ _ row. row_text row };

    fn put(&self, row: &Row, out: &mut Vec<u8>) -> Result<(), AllocError> {
        write_row(row, out)
    }
}
