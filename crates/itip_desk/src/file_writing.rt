//! Writing a desk as a file.
ghost use Rattle.std.specs.Prelude.{◌≡◌, ◌≢◌, ◌↔◌, ◌++◌, ℕ, List, Some, IsTrue, IfOk, OnOk, OnErr, IfErr, IfSome, IfNone};
ghost use Rattle.itip_streams.specs.Written.{AppendsFront};
ghost use Rattle.itip_desk.specs.DeskFile.{IsFileOf, WritesFile, moved_at, message_text, head_of};

use crate::desk::Desk;
use crate::file_text::{FileHead, append_message};
use crate::fronts::behind;
use itip_state::SharedItem;
use itip_streams::{StreamFault, write_if_many, write_output};
use std::alloc::{AllocError, Global};
use std::io::Write;

/// Writes a desk as a file: its compaction, in which X- parameters tell its tick and when each UID last moved (our own format). A
/// desk that keeps nothing has the empty file. To a reader of messages the file is a compaction; [`read_desk`](crate::read_desk)
/// reads it back as the desk, if that began empty at tick 0.
///
/// Fails with [`StreamFault::Write`] or [`StreamFault::Memory`]; a prefix of the file has been written then.
pub fn write_desk<W: Write>(alloc: Global, desk: &Desk, writer: &mut W) -> Result<(), StreamFault>
    ensures all { OnOk result (WritesFile desk.now (W.contents writer.old) (W.contents writer.new)) }
    ensures front { OnErr result ((octets : List ℕ) → IsFileOf desk.now octets →
        AppendsFront (W.contents writer.old) (W.contents writer.new) octets) }
    ensures fault { IfErr result (λ fault. fault ≢ StreamFault.Read) }
{
    let items = desk.state().shared_items()?;
    let mut head = Some(head_of(desk, items.as_slice()));
    let mut kept = Vec::new(alloc);
    for item in &items {
        append_item(&mut kept, head, desk, item)?;
        write_if_many(writer, &mut kept)?;
        head = None;
    }
    write_output(writer, kept.as_slice())
}

/// Whether the bytes are the file of a desk. The file is made and compared one message at a time.
pub(crate) fn is_file_of(alloc: Global, octets: &[u8], desk: &Desk) -> Result<bool, AllocError>
    ensures { IfOk result (λ is. IsTrue is ↔ IsFileOf desk.now octets.now) }
{
    let items = desk.state().shared_items()?;
    let mut head = Some(head_of(desk, items.as_slice()));
    let mut rest = octets;
    for item in &items {
        let Some(after) = after_message(alloc, rest, head, desk, item)? else {
            return Ok(false);
        };
        rest = after;
        head = None;
    }
    Ok(rest.is_empty())
}

/// What follows the message of an item, if the bytes begin with it.
fn after_message<'a>(
    alloc: Global,
    octets: &'a [u8],
    head: Option<FileHead>,
    desk: &Desk,
    item: &SharedItem,
) -> Result<Option<&'a [u8]>, AllocError>
    ensures found { IfOk result (λ found. IfSome found (λ after.
        octets.now ≡ message_text head (moved_at desk.now.changed item.now) item.now.bytes ++ after.now)) }
    ensures none { IfOk result (λ found. IfNone found ((after : List ℕ)
        → octets.now ≡ message_text head (moved_at desk.now.changed item.now) item.now.bytes ++ after → ⊥)) }
{
    let mut message = Vec::new(alloc);
    append_item(&mut message, head, desk, item)?;
    Ok(behind(octets, message.as_slice()))
}

/// Appends the message of an item that the desk keeps. If an allocation fails, part of it may have been appended.
fn append_item(
    file: &mut Vec<u8>,
    head: Option<FileHead>,
    desk: &Desk,
    item: &SharedItem,
) -> Result<(), AllocError>
    ensures { OnOk result (file.new.items
        ≡ file.old.items ++ message_text head (moved_at desk.now.changed item.now) item.now.bytes) }
{
    let item = item.item();
    let moved = desk.moved_at(item.key.uid());
    append_message(file, head, moved, item)
}

fn head_of(desk: &Desk, items: &[SharedItem]) -> FileHead
    ensures { Some result ≡ head_of desk.now.tick items.now }
{
    FileHead {
        tick: desk.tick(),
        items: items.len(),
    }
}
