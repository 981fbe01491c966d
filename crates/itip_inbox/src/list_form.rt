//! Forms in which a task list is written.
ghost use Rattle.std.specs.Prelude.{◌≢◌, ℕ, List, OnOk, OnErr, IfErr};
ghost use Rattle.std.specs.Io.KnownBytes.{Appends};
ghost use Rattle.itip_view.specs.ByUid.{AreFewLeft};
ghost use Rattle.itip_view.specs.ListText.{list_text};
ghost use Rattle.itip_view.specs.declared.row.Row.{Row};
ghost use Rattle.itip_view.specs.declared.window.Window.{Window};
ghost use Rattle.itip_streams.specs.Written.{AppendsFront};
ghost use Rattle.itip_page.specs.Page.{page_markup};

use itip_desk::write_rows;
use itip_moment::Day;
use itip_page::{PageRows, put_foot, put_head};
use itip_streams::{StreamFault, write_output};
use itip_view::{PlainRows, RowsByUid, Window};
use std::alloc::Global;
use std::io::Write;

/// A form in which the rows of a window are written.
pub trait ListForm {
    /// The bytes of these rows of a window.
    ghost octets: { Self → Window → List Row → List ℕ };

    /// Writes the `number` rows that are left, which are made a UID at a time. On an error, which is never [`StreamFault::Read`], a
    /// prefix has been written.
    fn write<W: Write>(
        &self,
        alloc: Global,
        window: Window,
        rows: RowsByUid<'_, '_>,
        number: usize,
        writer: &mut W,
    ) -> Result<(), StreamFault>
        ensures all { OnOk result ((few : AreFewLeft rows.entry number) →
            Appends (W.contents writer.old) (W.contents writer.new) (octets self.now window few.rows)) }
        ensures front { OnErr result ((few : AreFewLeft rows.entry number) →
            AppendsFront (W.contents writer.old) (W.contents writer.new) (octets self.now window few.rows)) }
        ensures fault { IfErr result (λ fault. fault ≢ StreamFault.Read) };
}

/// The text of the list.
#[derive(Clone, Copy, Debug)]
pub struct TextList;

impl ListForm for TextList {
    ghost octets = { λ _ _ rows. list_text rows };

    fn write<W: Write>(
        &self,
        alloc: Global,
        _window: Window,
        rows: RowsByUid<'_, '_>,
        _number: usize,
        writer: &mut W,
    ) -> Result<(), StreamFault> {
        let mut kept = Vec::new(alloc);
        write_rows(rows, &PlainRows, writer, &mut kept)?;
        write_output(writer, kept.as_slice())
    }
}

/// One HTML page, with the window and the day that is taken as today.
#[derive(Clone, Copy, Debug)]
pub struct PageList {
    pub today: Day,
}

impl ListForm for PageList {
    ghost octets = { λ page window rows. page_markup window page.today.number rows };

    fn write<W: Write>(
        &self,
        alloc: Global,
        window: Window,
        rows: RowsByUid<'_, '_>,
        number: usize,
        writer: &mut W,
    ) -> Result<(), StreamFault> {
        let mut kept = Vec::new(alloc);
        put_head(&mut kept, window, self.today, number)?;
        let form = PageRows { today: self.today };
        write_rows(rows, &form, writer, &mut kept)?;
        put_foot(&mut kept)?;
        write_output(writer, kept.as_slice())
    }
}
