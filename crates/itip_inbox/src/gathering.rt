//! Reads sources, and tells what was refused of them.
ghost use Rattle.std.specs.Prelude.{◌≢◌, ℕ, List, IfOk, IfErr};
ghost use Rattle.std.specs.Option.{option_copied};
ghost use Rattle.itip_inbox.specs.Following.{HasHeard, TellAbout};
ghost use Rattle.itip_inbox.specs.Inbox.{AreInputs, Holds};

use crate::inbox::Inbox;
use crate::open_inbox::OpenInbox;
use crate::source_reading::{Progress, hear_sources, read_sources};
use crate::watch::Watch;
use itip_streams::StreamFault;
use itip_todo::Uid;
use std::alloc::Global;
use std::io::Read;
use std::thread::Threads;

/// Reads sources as [`read_sources`] does, and once all are read tells the watch of the refused messages.
pub(crate) fn gather<R: Read + Drop, S: Watch>(
    rt: &(impl Threads + Sync),
    alloc: Global,
    sources: Vec<R>,
    about: Option<&Uid>,
    threads: usize,
    watch: &mut S,
) -> Result<Inbox, StreamFault>
    ensures holds { IfOk result (λ inbox. (inputs : List (List ℕ)) → AreInputs R.remaining sources.items inputs →
        Holds inputs inbox.state inbox.refusals) }
    ensures told { IfOk result (λ inbox. (inputs : List (List ℕ)) → AreInputs R.remaining sources.items inputs →
        TellAbout (option_copied about.entry) inputs inbox.told.items) }
    ensures heard { IfOk result (λ inbox.
        HasHeard (option_copied about.entry) inbox.state inbox.refusals inbox.told.items) }
{
    let inbox = read_sources(rt, alloc, sources, about, threads, watch)?;
    watch.refused(0, &inbox.refusals);
    Ok(inbox)
}

/// Like [`gather`], but follows no UID and returns an inbox that may hear more: what it keeps is in shards.
pub(crate) fn gather_shards<R: Read + Drop, S: Watch>(
    rt: &(impl Threads + Sync),
    alloc: Global,
    sources: Vec<R>,
    threads: usize,
    watch: &mut S,
) -> Result<OpenInbox, StreamFault>
    ensures holds { IfOk result (λ inbox. (inputs : List (List ℕ)) → AreInputs R.remaining sources.items inputs →
        Holds inputs inbox.state inbox.refusals) }
    ensures fault { IfErr result (λ fault. fault ≢ StreamFault.Write) }
{
    let mut progress = Progress::none();
    let inbox = hear_sources(rt, alloc, sources, None, threads, &mut progress, watch)?;
    watch.refused(0, &inbox.refusals);
    Ok(inbox)
}
