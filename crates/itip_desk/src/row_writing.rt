//! Writing rows, one UID at a time.
ghost use Rattle.std.specs.Prelude.{◌≢◌, ◌++◌, List, OnOk, OnErr, IfOk, IfErr};
ghost use Rattle.std.specs.List.{flat_map};
ghost use Rattle.itip_streams.specs.Written.{AppendsFront, MovesOut};
ghost use Rattle.itip_view.specs.ByUid.{AreLeft};
ghost use Rattle.itip_view.specs.declared.row.Row.{Row};
ghost use Rattle.itip_desk.specs.WrittenRows.{WritesListed, WritesListedFront};

use crate::listed::write_head;
use crate::refusal::Refusal;
use itip_streams::{StreamFault, write_if_many};
use itip_view::{MostRows, PlainRows, Row, RowCount, RowForm, RowsByUid};
use std::io::Write;

/// Writes the remaining rows in a form, one UID at a time. They are appended to `kept`, the bytes that wait to be written, which are
/// written once there are 65,536 or more; those that are left in `kept` at the end are for the caller to write.
///
/// Fails with [`StreamFault::Write`] or [`StreamFault::Memory`]; a prefix of what `kept` had and of the rows has been written then.
pub fn write_rows<F: RowForm, W: Write>(
    rows: RowsByUid<'_, '_>,
    form: &F,
    writer: &mut W,
    kept: &mut Vec<u8>,
) -> Result<(), StreamFault>
    ensures moved { OnOk result ((all : List Row) → AreLeft rows.entry all →
        MovesOut (W.contents writer.old) (W.contents writer.new) (kept.old.items ++ flat_map (F.octets form.now) all) kept.new.items) }
    ensures front { OnErr result ((all : List Row) → AreLeft rows.entry all →
        AppendsFront (W.contents writer.old) (W.contents writer.new) (kept.old.items ++ flat_map (F.octets form.now) all)) }
    ensures fault { IfErr result (λ fault. fault ≢ StreamFault.Read) }
{
    let mut rows = rows;
    while let Some(some) = rows.next()? {
        let done = write_some_rows(some.as_slice(), form, writer, kept);
        drop(some);
        done?;
    }
    Ok(())
}

/// Writes some rows as [`write_rows`] does, and fails as it does.
pub fn write_some_rows<F: RowForm, W: Write>(
    rows: &[Row],
    form: &F,
    writer: &mut W,
    kept: &mut Vec<u8>,
) -> Result<(), StreamFault>
    ensures moved { OnOk result (MovesOut (W.contents writer.old) (W.contents writer.new)
        (kept.old.items ++ flat_map (F.octets form.now) rows.now) kept.new.items) }
    ensures front { OnErr result (AppendsFront (W.contents writer.old) (W.contents writer.new)
        (kept.old.items ++ flat_map (F.octets form.now) rows.now)) }
    ensures fault { IfErr result (λ fault. fault ≢ StreamFault.Read) }
{
    for row in rows {
        form.put(row, kept)?;
        write_if_many(writer, kept)?;
    }
    Ok(())
}

/// Writes a line with a word, the number of the desk and the number of remaining rows, and then the text of these rows. If there are
/// more than 100,000, writes `refused 31` instead, and returns the to-do that has the most of them. Writes, and fails, as
/// [`write_rows`] does.
pub fn write_listed<W: Write>(
    word: &str,
    desk: u64,
    rows: RowsByUid<'_, '_>,
    writer: &mut W,
    kept: &mut Vec<u8>,
) -> Result<Option<MostRows>, StreamFault>
    ensures listed { IfOk result (WritesListed word.now desk rows.entry
        (W.contents writer.old) (W.contents writer.new) kept.old.items kept.new.items) }
    ensures front { OnErr result (WritesListedFront word.now desk rows.entry
        (W.contents writer.old) (W.contents writer.new) kept.old.items) }
    ensures fault { IfErr result (λ fault. fault ≢ StreamFault.Read) }
{
    match rows.count()? {
        RowCount::Few(number) => {
            write_head(word, desk, number, kept)?;
            write_rows(rows, &PlainRows, writer, kept)?;
            Ok(None)
        }
        RowCount::TooMany(most) => {
            Refusal::TooManyRows.append(kept)?;
            Ok(Some(most))
        }
    }
}
