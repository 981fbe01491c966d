//! The reports over some inputs.
ghost use Rattle.std.specs.Prelude.{◌≡◌, ◌≢◌, ℕ, Bool, List, map, IfOk, IfErr, OnErr, IsErrOf};
ghost use Rattle.std.specs.Io.KnownBytes.{Keeps};
ghost use Rattle.std.specs.List.{flat_map};
ghost use Rattle.std.specs.String.{string_bytes};
ghost use Rattle.itip_view.specs.ByUid.{AreLeft};
ghost use Rattle.itip_view.specs.declared.row.Row.{Row};
ghost use Rattle.itip_view.specs.declared.window.Window.{Window};
ghost use Rattle.itip_report.specs.Named.{AreRowsFor, HasRowsFor};
ghost use Rattle.itip_streams.specs.Written.{AppendsFront, WritesOutput};
ghost use Rattle.itip_inbox.specs.Inbox.{AreInputs};
ghost use Rattle.itip_inbox.specs.OfInbox.{WritesKept, WritesKeptFront};
ghost use Rattle.itip_inbox.specs.Reports.{IsReport, IsReportText, IsReported, ended};

use crate::gathering::gather;
use crate::inbox::Inbox;
use crate::refused_rows::refuse_rows;
use crate::watch::Watch;
use itip_report::{ReportName, no_rows, report_lines};
use itip_state::State;
use itip_streams::{StreamFault, write_output};
use itip_view::{RowCount, RowsByUid, Wanted, Window};
use std::alloc::{AllocError, Global};
use std::io::{Read, Write};
use std::thread::Threads;

/// Reads sources to their ends and writes the lines of a report over all their messages; or `refused 31` if the report tells of the
/// rows of the window and there are more than 100,000. Returns whether a message was refused, or the report.
///
/// Once all sources are read, and before anything is written, `watch` is told of the refused messages in the order of the sources. On
/// [`StreamFault::Read`] nothing has been written; on another error a prefix of the output has been.
pub fn report<R: Read + Drop, W: Write, S: Watch>(
    rt: &(impl Threads + Sync),
    alloc: Global,
    sources: Vec<R>,
    writer: &mut W,
    window: Window,
    name: ReportName,
    threads: usize,
    watch: &mut S,
) -> Result<bool, StreamFault>
    ensures output { IfOk result (λ refused. (inputs : List (List ℕ)) → AreInputs R.remaining sources.items inputs →
        WritesOutput (IsReport name inputs window) (W.contents writer.old) (W.contents writer.new) refused) }
    ensures front { OnErr result ((inputs : List (List ℕ)) → AreInputs R.remaining sources.items inputs →
        (text : List ℕ) (refused : Bool) → IsReport name inputs window text refused →
        AppendsFront (W.contents writer.old) (W.contents writer.new) text) }
    ensures unread { IsErrOf result StreamFault.Read → Keeps (W.contents writer.old) (W.contents writer.new) }
{
    let inbox = gather(rt, alloc, sources, None, threads, watch)?;
    let is_over = write_report(alloc, &inbox, window, name, writer, watch)?;
    let is_refused = inbox.has_refusals();
    Ok(is_refused | is_over)
}

/// Writes a report over an inbox, or `refused 31` if there are too many rows, and returns whether there are. The rows are made a UID
/// at a time.
fn write_report<W: Write, S: Watch>(
    alloc: Global,
    inbox: &Inbox,
    window: Window,
    name: ReportName,
    writer: &mut W,
    watch: &mut S,
) -> Result<bool, StreamFault>
    ensures written { IfOk result (WritesKept (λ heard. IsReported name heard window) inbox.now.state
        (W.contents writer.old) (W.contents writer.new)) }
    ensures front { OnErr result (WritesKeptFront (λ heard. IsReported name heard window) inbox.now.state
        (W.contents writer.old) (W.contents writer.new)) }
    ensures fault { IfErr result (λ fault. fault ≢ StreamFault.Read) }
{
    let rows = report_rows(alloc, &inbox.state, window, name)?;
    match rows.count()? {
        RowCount::Few(_) => {
            let text = report_text(alloc, &inbox.state, name, rows)?;
            write_output(writer, text.as_slice())?;
            Ok(false)
        }
        RowCount::TooMany(most) => {
            refuse_rows(alloc, inbox, most, writer, watch)?;
            Ok(true)
        }
    }
}

/// The rows that a report tells of, or none if it tells of no rows.
fn report_rows(
    alloc: Global,
    state: &State,
    window: Window,
    name: ReportName,
) -> Result<RowsByUid<'_, '_>, AllocError>
    ensures { IfOk result (AreRowsFor name state.now window) }
{
    if name.is_of_rows() {
        RowsByUid::of(alloc, state, window, &Wanted::all())
    } else {
        no_rows(alloc, state, window)
    }
}

/// The text of a report over the rows that are left.
fn report_text(
    alloc: Global,
    state: &State,
    name: ReportName,
    rows: RowsByUid<'_, '_>,
) -> Result<Vec<u8>, AllocError>
    ensures { IfOk result (λ text. (window : Window) (all : List Row) → AreLeft rows.entry all → HasRowsFor name state.now window all →
        IsReportText name state.now window text.items) }
{
    let lines = report_lines(alloc, state, name, rows)?;
    ended_lines(alloc, lines.as_slice())
}

/// The text of lines, each with LF after it.
fn ended_lines(alloc: Global, lines: &[String]) -> Result<Vec<u8>, AllocError>
    ensures { IfOk result (λ text. text.items ≡ flat_map ended (map string_bytes lines.now)) }
{
    let mut text = Vec::new(alloc);
    for line in lines {
        text.extend_from_slice(line.as_bytes())?;
        text.push(b'\n')?;
    }
    Ok(text)
}
