//! The task list of some inputs, or its refusal if it has too many rows.
ghost use Rattle.std.specs.Prelude.{◌≢◌, ℕ, Bool, List, IfOk, IfErr, OnErr, IsErrOf};
ghost use Rattle.std.specs.Io.KnownBytes.{Keeps};
ghost use Rattle.itip_view.specs.Wanting.{Wants};
ghost use Rattle.itip_streams.specs.Written.{AppendsFront, WritesOutput};
ghost use Rattle.itip_inbox.specs.Inbox.{AreInputs};
ghost use Rattle.itip_inbox.specs.OfInbox.{WritesKept, WritesKeptFront};
ghost use Rattle.itip_inbox.specs.TaskList.{IsTaskList, IsListed};

use crate::gathering::gather;
use crate::inbox::Inbox;
use crate::list_form::ListForm;
use crate::refused_rows::refuse_rows;
use crate::watch::Watch;
use itip_streams::StreamFault;
use itip_view::{RowCount, RowsByUid, Wanted, Window};
use std::alloc::Global;
use std::io::{Read, Write};
use std::thread::Threads;

/// Reads sources to their ends and writes, in the form `form`, the task list of all their messages: the rows of a window that are
/// wanted; or `refused 31` if these are more than 100,000. Returns whether a message was refused, or the list.
///
/// Once all sources are read, and before anything is written, `watch` is told of the refused messages in the order of the sources,
/// and the rows are counted. They are made and written a UID at a time. On [`StreamFault::Read`] nothing has been written; on another
/// error a prefix of the output has been.
pub fn list<R: Read + Drop, W: Write, S: Watch, F: ListForm>(
    rt: &(impl Threads + Sync),
    alloc: Global,
    sources: Vec<R>,
    writer: &mut W,
    window: Window,
    wanted: &Wanted<'_>,
    form: &F,
    threads: usize,
    watch: &mut S,
) -> Result<bool, StreamFault>
    ensures output { IfOk result (λ refused. (inputs : List (List ℕ)) → AreInputs R.remaining sources.items inputs →
        WritesOutput (IsTaskList (F.octets form.now) (Wants wanted.now) inputs window)
        (W.contents writer.old) (W.contents writer.new) refused) }
    ensures front { OnErr result ((inputs : List (List ℕ)) → AreInputs R.remaining sources.items inputs →
        (text : List ℕ) (refused : Bool) → IsTaskList (F.octets form.now) (Wants wanted.now) inputs window text refused →
        AppendsFront (W.contents writer.old) (W.contents writer.new) text) }
    ensures unread { IsErrOf result StreamFault.Read → Keeps (W.contents writer.old) (W.contents writer.new) }
{
    let inbox = gather(rt, alloc, sources, None, threads, watch)?;
    let is_over = write_list(alloc, &inbox, window, wanted, form, writer, watch)?;
    let is_refused = inbox.has_refusals();
    Ok(is_refused | is_over)
}

/// Writes the list of an inbox, or `refused 31` if there are too many rows, and returns whether there are.
fn write_list<W: Write, S: Watch, F: ListForm>(
    alloc: Global,
    inbox: &Inbox,
    window: Window,
    wanted: &Wanted<'_>,
    form: &F,
    writer: &mut W,
    watch: &mut S,
) -> Result<bool, StreamFault>
    ensures written { IfOk result (WritesKept (λ heard. IsListed (F.octets form.now window) (Wants wanted.now) heard window)
        inbox.now.state (W.contents writer.old) (W.contents writer.new)) }
    ensures front { OnErr result (WritesKeptFront (λ heard. IsListed (F.octets form.now window) (Wants wanted.now) heard window)
        inbox.now.state (W.contents writer.old) (W.contents writer.new)) }
    ensures fault { IfErr result (λ fault. fault ≢ StreamFault.Read) }
{
    let rows = RowsByUid::of(alloc, &inbox.state, window, wanted)?;
    match rows.count()? {
        RowCount::Few(number) => {
            form.write(alloc, window, rows, number, writer)?;
            Ok(false)
        }
        RowCount::TooMany(most) => {
            refuse_rows(alloc, inbox, most, writer, watch)?;
            Ok(true)
        }
    }
}
