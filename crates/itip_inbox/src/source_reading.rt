//! Reads sources to their ends, a share of one at a time.
ghost use Rattle.std.specs.Prelude.{◌≡◌, ◌≢◌, ◌++◌, ◌+◌, ℕ, List, false, length, map, IfOk, IfErr, OnOk, IfSome, IsTrue};
ghost use Rattle.std.specs.Option.{option_copied};
ghost use Rattle.itip_message.specs.Parting.{StaysParted};
ghost use Rattle.itip_message.specs.Scanned.{messages_of};
ghost use Rattle.itip_inbox.specs.Following.{HasHeard, TellAbout};
ghost use Rattle.itip_inbox.specs.Inbox.{AreInputs, Holds, Placed, placed_from};
ghost use Rattle.itip_inbox.specs.Streaming.{AreReadFor, Fills, HasGot, HasSome, HearsFirst, IsHeld, is_left_long};

use crate::inbox::Inbox;
use crate::messages::{Held, all_messages, first_messages};
use crate::open_inbox::OpenInbox;
use crate::shown::MAX_OCTETS;
use crate::watch::Watch;
use itip_message::{part_messages, stand_in};
use itip_streams::{StreamFault, read_some};
use itip_todo::Uid;
use std::alloc::Global;
use std::io::Read;
use std::thread::Threads;

// How many bytes are read for each thread before messages are heard.
const SHARE: usize = 1_048_576;

// The most bytes of one read.
const ROOM: usize = 65_536;

/// How much has been read, as the watch is told.
#[derive(Clone, Copy)]
pub(crate) struct Progress {
    // How many sources were read to their ends.
    sources: usize,
    // How many messages the lists of sources before this one had.
    messages: u64,
    // How many bytes were read.
    octets: u64,
}

impl Progress {
    /// Nothing has been read.
    pub(crate) fn none() -> Progress {
        Progress {
            sources: 0,
            messages: 0,
            octets: 0,
        }
    }

    /// Tells the watch that `octets` more bytes were read, and that `heard` messages of this list of sources were heard or refused.
    fn tell<W: Watch>(&mut self, octets: usize, heard: u64, watch: &mut W) {
        self.octets = self.octets.saturating_add(octets as u64);
        watch.read(self.messages.saturating_add(heard), self.octets);
    }
}

/// Reads sources one after another, each to its end, and hears their messages. These are cut, read and heard on at most `threads`
/// threads, a share at a time: about a mebibyte for each thread, or two on one thread if a message is as long as one may be. A share is
/// a part of a source, or of several sources that are no longer than a share. Of a message that is too long, at most 20 bytes are held
/// between shares. If `about` names a UID, the items that the messages tell of it are followed.
///
/// Each source is cut into messages by itself, as a delta is. A refused message is noted and not heard. A source is dropped at its
/// end. The first failed read is returned as [`StreamFault::Read`], and so are too many messages; a failed allocation is returned as
/// [`StreamFault::Memory`]. After an error no other source is read.
pub fn read_sources<R: Read + Drop, W: Watch>(
    rt: &(impl Threads + Sync),
    alloc: Global,
    sources: Vec<R>,
    about: Option<&Uid>,
    threads: usize,
    watch: &mut W,
) -> Result<Inbox, StreamFault>
    ensures holds { IfOk result (λ inbox. (inputs : List (List ℕ)) → AreInputs R.remaining sources.items inputs →
        Holds inputs inbox.state inbox.refusals) }
    ensures told { IfOk result (λ inbox. (inputs : List (List ℕ)) → AreInputs R.remaining sources.items inputs →
        TellAbout (option_copied about.entry) inputs inbox.told.items) }
    ensures heard { IfOk result (λ inbox.
        HasHeard (option_copied about.entry) inbox.state inbox.refusals inbox.told.items) }
    ensures source { IfOk result (λ inbox. inbox.source ≡ length sources.items) }
    ensures fault { IfErr result (λ fault. fault ≢ StreamFault.Write) }
{
    let mut progress = Progress::none();
    read_more(rt, alloc, sources, about, threads, &mut progress, watch)
}

/// Reads sources as [`read_sources`] does, after others that `progress` counts. The watch is told of both as one list.
pub(crate) fn read_more<R: Read + Drop, W: Watch>(
    rt: &(impl Threads + Sync),
    alloc: Global,
    sources: Vec<R>,
    about: Option<&Uid>,
    threads: usize,
    progress: &mut Progress,
    watch: &mut W,
) -> Result<Inbox, StreamFault>
    ensures holds { IfOk result (λ inbox. (inputs : List (List ℕ)) → AreInputs R.remaining sources.items inputs →
        Holds inputs inbox.state inbox.refusals) }
    ensures told { IfOk result (λ inbox. (inputs : List (List ℕ)) → AreInputs R.remaining sources.items inputs →
        TellAbout (option_copied about.entry) inputs inbox.told.items) }
    ensures heard { IfOk result (λ inbox.
        HasHeard (option_copied about.entry) inbox.state inbox.refusals inbox.told.items) }
    ensures source { IfOk result (λ inbox. inbox.source ≡ length sources.items) }
    ensures fault { IfErr result (λ fault. fault ≢ StreamFault.Write) }
{
    let inbox = hear_sources(rt, alloc, sources, about, threads, progress, watch)?;
    Ok(inbox.close()?)
}

/// Reads sources as [`read_more`] does, into an inbox that may hear more.
pub(crate) fn hear_sources<R: Read + Drop, W: Watch>(
    rt: &(impl Threads + Sync),
    alloc: Global,
    sources: Vec<R>,
    about: Option<&Uid>,
    threads: usize,
    progress: &mut Progress,
    watch: &mut W,
) -> Result<OpenInbox, StreamFault>
    ensures holds { IfOk result (λ inbox. (inputs : List (List ℕ)) → AreInputs R.remaining sources.items inputs →
        Holds inputs inbox.state inbox.refusals) }
    ensures told { IfOk result (λ inbox. (inputs : List (List ℕ)) → AreInputs R.remaining sources.items inputs →
        TellAbout (option_copied about.entry) inputs inbox.told.items) }
    ensures heard { IfOk result (λ inbox.
        HasHeard (option_copied about.entry) inbox.state inbox.refusals inbox.told.items) }
    ensures source { IfOk result (λ inbox. inbox.source ≡ length sources.items) }
    ensures fault { IfErr result (λ fault. fault ≢ StreamFault.Write) }
{
    let mut inbox = OpenInbox::empty(alloc, threads)?;
    for mut source in sources {
        watch.opens(progress.sources);
        read_source(
            &mut inbox,
            rt,
            alloc,
            &mut source,
            about,
            threads,
            progress,
            watch,
        )?;
        progress.sources = progress.sources.saturating_add(1);
        inbox.next_source()?;
    }
    inbox.hear_waiting(rt, alloc, about, threads)?;
    progress.tell(0, inbox.heard, watch);
    progress.messages = progress.messages.saturating_add(inbox.heard);
    Ok(inbox)
}

/// Reads a source to its end, and hears its messages or lets them wait. On an error a part of them may have been heard.
fn read_source<R: Read, W: Watch>(
    inbox: &mut OpenInbox,
    rt: &(impl Threads + Sync),
    alloc: Global,
    reader: &mut R,
    about: Option<&Uid>,
    threads: usize,
    progress: &mut Progress,
    watch: &mut W,
) -> Result<(), StreamFault>
    ensures got { OnOk result ((before : List Placed) → HasGot (option_copied about.entry) before inbox.old →
        IfSome (R.remaining reader.old) (λ input. HasGot (option_copied about.entry)
        (before ++ placed_from inbox.old.source (inbox.old.messages + 1) (messages_of input)) inbox.new)) }
    ensures some { OnOk result (HasSome (option_copied about.entry) inbox.old → HasSome (option_copied about.entry) inbox.new) }
    ensures source { OnOk result (inbox.new.source ≡ inbox.old.source) }
    ensures fault { IfErr result (λ fault. fault ≢ StreamFault.Write) }
{
    let mut held = Held::nothing(alloc);
    let share = SHARE.saturating_mul(threads.max(1));
    for _ in 0..u64::MAX {
        let heard = inbox.heard;
        let is_end = fill(reader, &mut held.octets, share, heard, progress, watch)?;
        if is_end {
            hear_last(inbox, rt, alloc, held, about, threads)?;
            progress.tell(0, inbox.heard, watch);
            return Ok(());
        }
        held = hear_first(inbox, rt, alloc, &held, about, threads)?;
        progress.tell(0, inbox.heard, watch);
    }
    Err(StreamFault::Read)
}

/// Hears all messages of what is held, which nothing follows. If it is the whole source and its first message is not too long, they may
/// wait for those of other sources.
fn hear_last(
    inbox: &mut OpenInbox,
    rt: &(impl Threads + Sync),
    alloc: Global,
    held: Held,
    about: Option<&Uid>,
    threads: usize,
) -> Result<(), StreamFault>
    ensures hears { OnOk result ((came : List ℕ) → IsHeld held.is_long held.octets.items came →
        (before : List Placed) → HasGot (option_copied about.entry) before inbox.old →
        HasGot (option_copied about.entry)
        (before ++ placed_from inbox.old.source (inbox.old.messages + 1) (messages_of came)) inbox.new) }
    ensures source { OnOk result (inbox.new.source ≡ inbox.old.source) }
    ensures fault { IfErr result (λ fault. fault ≢ StreamFault.Write) }
{
    if may_wait(&held, inbox.messages) {
        let Held { octets, .. } = held;
        return let_wait(inbox, rt, alloc, octets, about, threads);
    }
    hear_all(inbox, rt, alloc, &held, about, threads)
}

/// Whether what is held may wait, if nothing follows it and `messages` messages of the source were heard: it is the whole source.
fn may_wait(held: &Held, messages: u64) -> bool
    ensures { IsTrue result → (held.now.is_long ≡ false) × (messages ≡ 0) }
{
    !held.is_long && messages == 0
}

/// Lets a source of these bytes wait, and hears all that wait once they are a share for each thread.
fn let_wait(
    inbox: &mut OpenInbox,
    rt: &(impl Threads + Sync),
    alloc: Global,
    octets: Vec<u8>,
    about: Option<&Uid>,
    threads: usize,
) -> Result<(), StreamFault>
    ensures waits { OnOk result ((before : List Placed) → HasGot (option_copied about.entry) before inbox.old →
        HasGot (option_copied about.entry)
        (before ++ placed_from inbox.old.source 1 (messages_of octets.items)) inbox.new) }
    ensures source { OnOk result (inbox.new.source ≡ inbox.old.source) }
    ensures fault { IfErr result (λ fault. fault ≢ StreamFault.Write) }
{
    inbox.wait(octets)?;
    if is_less(inbox.octets, threads) {
        return Ok(());
    }
    inbox.hear_waiting(rt, alloc, about, threads)?;
    Ok(())
}

/// Whether `octets` bytes are less than a share for each thread.
fn is_less(octets: usize, threads: usize) -> bool {
    octets < SHARE.saturating_mul(threads)
}

/// Hears all messages of what is held, which nothing follows.
fn hear_all(
    inbox: &mut OpenInbox,
    rt: &(impl Threads + Sync),
    alloc: Global,
    held: &Held,
    about: Option<&Uid>,
    threads: usize,
) -> Result<(), StreamFault>
    ensures hears { OnOk result ((came : List ℕ) → IsHeld held.now.is_long held.now.octets.items came →
        (before : List Placed) → HasGot (option_copied about.entry) before inbox.old →
        HasGot (option_copied about.entry)
        (before ++ placed_from inbox.old.source (inbox.old.messages + 1) (messages_of came)) inbox.new) }
    ensures source { OnOk result (inbox.new.source ≡ inbox.old.source) }
    ensures fault { IfErr result (λ fault. fault ≢ StreamFault.Write) }
{
    if held.is_long {
        return hear_long(inbox, rt, alloc, held, about, threads);
    }
    inbox.hear(rt, alloc, held.octets.as_slice(), about, threads)
}

/// Hears all messages of what is held, as [`hear_all`] does, but reads them on one thread: the first may be too long.
fn hear_long(
    inbox: &mut OpenInbox,
    rt: &(impl Threads + Sync),
    alloc: Global,
    held: &Held,
    about: Option<&Uid>,
    threads: usize,
) -> Result<(), StreamFault>
    ensures hears { OnOk result ((came : List ℕ) → IsHeld held.now.is_long held.now.octets.items came →
        (before : List Placed) → HasGot (option_copied about.entry) before inbox.old →
        HasGot (option_copied about.entry)
        (before ++ placed_from inbox.old.source (inbox.old.messages + 1) (messages_of came)) inbox.new) }
    ensures source { OnOk result (inbox.new.source ≡ inbox.old.source) }
    ensures fault { IfErr result (λ fault. fault ≢ StreamFault.Write) }
{
    let texts = all_messages(alloc, held.octets.as_slice())?;
    hear_texts(
        inbox,
        rt,
        alloc,
        held.is_long,
        texts.as_slice(),
        about,
        threads,
    )
}

/// Hears the first messages of what is held, which more may follow, and returns what is left to be held.
fn hear_first(
    inbox: &mut OpenInbox,
    rt: &(impl Threads + Sync),
    alloc: Global,
    held: &Held,
    about: Option<&Uid>,
    threads: usize,
) -> Result<Held, StreamFault>
    ensures hears { IfOk result (λ next. (came more : List ℕ) → IsHeld held.now.is_long held.now.octets.items came →
        HearsFirst (option_copied about.entry) came more next inbox.old inbox.new) }
    ensures source { OnOk result (inbox.new.source ≡ inbox.old.source) }
    ensures fault { IfErr result (λ fault. fault ≢ StreamFault.Write) }
{
    match part_late(held.octets.as_slice(), held.is_long) {
        Some((front, back)) => hear_front(inbox, rt, alloc, front, back, about, threads),
        None => hear_begun(inbox, rt, alloc, held, about, threads),
    }
}

/// Splits bytes that others may follow into two parts that are cut into messages apart. The second, about a quarter, is to be held.
/// Returns `None` if the first message is too long, or none is known to end in the last quarter.
fn part_late(octets: &[u8], is_long: bool) -> Option<(&[u8], &[u8])>
    ensures parts { IfSome result (λ parts. StaysParted octets.now parts.0.now parts.1.now) }
    ensures short { IfSome result (λ _. is_long ≡ false) }
{
    if is_long {
        return None;
    }
    part_messages(octets, octets.len() - octets.len() / 4)
}

/// Hears all messages of the first part of some bytes, and returns the second part to be held.
fn hear_front(
    inbox: &mut OpenInbox,
    rt: &(impl Threads + Sync),
    alloc: Global,
    front: &[u8],
    back: &[u8],
    about: Option<&Uid>,
    threads: usize,
) -> Result<Held, StreamFault>
    ensures hears { IfOk result (λ next. (octets came more : List ℕ) → StaysParted octets front.now back.now → IsHeld false octets came →
        HearsFirst (option_copied about.entry) came more next inbox.old inbox.new) }
    ensures source { OnOk result (inbox.new.source ≡ inbox.old.source) }
    ensures fault { IfErr result (λ fault. fault ≢ StreamFault.Write) }
{
    inbox.hear(rt, alloc, front, about, threads)?;
    Ok(Held {
        octets: Vec::from_slice(alloc, back)?,
        is_long: false,
    })
}

/// Hears the first messages of what is held, as [`hear_first`] does, but reads them on one thread: the first may be too long.
fn hear_begun(
    inbox: &mut OpenInbox,
    rt: &(impl Threads + Sync),
    alloc: Global,
    held: &Held,
    about: Option<&Uid>,
    threads: usize,
) -> Result<Held, StreamFault>
    ensures hears { IfOk result (λ next. (came more : List ℕ) → IsHeld held.now.is_long held.now.octets.items came →
        HearsFirst (option_copied about.entry) came more next inbox.old inbox.new) }
    ensures source { OnOk result (inbox.new.source ≡ inbox.old.source) }
    ensures fault { IfErr result (λ fault. fault ≢ StreamFault.Write) }
{
    let share = first_messages(alloc, held.octets.as_slice())?;
    let texts = share.texts.as_slice();
    hear_texts(inbox, rt, alloc, held.is_long, texts, about, threads)?;
    if is_left_long(held.is_long, texts, share.left.octets) {
        return Ok(Held {
            octets: stand_in(alloc, &share.left)?,
            is_long: true,
        });
    }
    Ok(Held {
        octets: Vec::from_slice(alloc, share.left.octets)?,
        is_long: false,
    })
}

/// Whether the message that is left after these texts is too long: it was too long before and goes on, or it has become so.
fn is_left_long(was_long: bool, texts: &[&[u8]], left: &[u8]) -> bool
    ensures { result ≡ is_left_long was_long (map (λ text. text.now) texts.now) left.now }
{
    (was_long && texts.is_empty()) || left.len() > MAX_OCTETS
}

/// Hears messages. If the first is too long to be read, it is noted as refused, whatever text stands in for it.
fn hear_texts(
    inbox: &mut OpenInbox,
    rt: &(impl Threads + Sync),
    alloc: Global,
    is_long: bool,
    texts: &[&[u8]],
    about: Option<&Uid>,
    threads: usize,
) -> Result<(), StreamFault>
    ensures hears { OnOk result ((messages : List (List ℕ)) → AreReadFor is_long messages (map (λ text. text.now) texts.now) →
        (before : List Placed) → HasGot (option_copied about.entry) before inbox.old →
        HasGot (option_copied about.entry)
        (before ++ placed_from inbox.old.source (inbox.old.messages + 1) messages) inbox.new) }
    ensures count { OnOk result (inbox.new.messages ≡ inbox.old.messages + length texts.now) }
    ensures source { OnOk result (inbox.new.source ≡ inbox.old.source) }
    ensures fault { IfErr result (λ fault. fault ≢ StreamFault.Write) }
{
    if !is_long {
        return inbox.hear_each(rt, alloc, texts, about, threads);
    }
    let [_, others @ ..] = texts else {
        return Ok(());
    };
    inbox.refuse_long(rt, alloc, about, threads)?;
    inbox.hear_each(rt, alloc, others, about, threads)
}

/// Reads until `share` bytes are held, or twice what was held if that is more: so a long message is gone through only a few times.
/// Returns whether the input is at its end, and tells the watch of each read. On an error a part may have been read.
fn fill<R: Read, W: Watch>(
    reader: &mut R,
    held: &mut Vec<u8>,
    share: usize,
    heard: u64,
    progress: &mut Progress,
    watch: &mut W,
) -> Result<bool, StreamFault>
    ensures fills { IfOk result (Fills (R.remaining reader.old) (R.remaining reader.new) held.old.items held.new.items) }
    ensures fault { IfErr result (λ fault. fault ≢ StreamFault.Write) }
{
    let want = held.len().saturating_mul(2).max(share);
    let mut room = [0u8; ROOM];
    while held.len() < want {
        let count = read_some(reader, &mut room)?;
        if count == 0 {
            return Ok(true);
        }
        held.extend_from_slice(&room[..count])?;
        progress.tell(count, heard, watch);
    }
    Ok(false)
}
