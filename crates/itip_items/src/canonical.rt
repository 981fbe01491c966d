//! The canonical octets of an item, and its limits.
ghost use Rattle.std.specs.Prelude.{◌≡◌, ◌≤◌, ◌+◌, ◌++◌, ◌^◌, ◌-◌, ◌∷◌, [], ℕ, cond, codes, length, min, IfOk, IfErr, OnOk};
ghost use Rattle.std.specs.Option.{is_some};
ghost use Rattle.itip_todo.specs.PartsOf.{parts_of};
ghost use Rattle.itip_todo.specs.UpTo.{AppendsUpTo};
ghost use Rattle.itip_todo.specs.Written.{content_octets, contents_octets};
ghost use Rattle.itip_items.specs.Items.{ItemDraft, draft_of, canonical_contents, bare, method_of, method_text};
ghost use Rattle.itip_items.specs.Items.{opening_contents, front_octets, closing_contents, IsFrontOf};
ghost use Rattle.itip_items.specs.Items.{IsCanonical, IsItem, IsWhole, canonical_octets_limit, one_if};
ghost use Rattle.itip_items.specs.Given.{IsItemOf, IsOver, IfLarge, Gives};
ghost use Rattle.itip_items.specs.declared.key.Key.{Key};
ghost use Rattle.itip_items.specs.declared.kind.Kind.{Kind};

use crate::error::ItemError;
use crate::item::Item;
use crate::key::Key;
use crate::kind::Kind;
use crate::octets::{Front, Octets};
use itip_lines::NoMemory;
use itip_todo::{Todo, write_todo_front, write_todo_rest, write_todo_up_to};
use std::alloc::Global;

/// The maximum length of an item's canonical form, in octets (our own limit).
const OCTETS_LIMIT: usize = 262_144;

/// The maximum number of lines of an item's canonical form (our own limit).
const LINES_LIMIT: usize = 20_000;

/// More octets than most items have. They are written into a buffer of this size, and then copied into one of their own size.
const USUAL: usize = 512;

/// The number of lines around the properties of a to-do in canonical form.
const FRAME_LINES: usize = 7;

/// Makes the item of a to-do in canonical form, or returns `TooLarge` if it is over the limits.
pub(crate) fn finish_item(
    alloc: Global,
    kind: Kind,
    key: Key,
    eff: u32,
    todo: Todo,
) -> Result<Item, ItemError>
    requires { IsCanonical (draft_of key eff todo kind) }
    ensures found { IfOk result (Gives (draft_of key eff todo kind)) }
    ensures large { IfErr result (λ e. IfLarge e (IsOver (draft_of key eff todo kind ∷ []))) }
{
    let bytes = bytes_within(alloc, kind, &todo);
    finish(kind, key, eff, todo, bytes)
}

/// Makes the item of an attendee's to-do in canonical form, as [`finish_item`] does. Its octets share the front, if there is one.
pub(crate) fn finish_behind(
    alloc: Global,
    front: &Option<Front>,
    kind: Kind,
    key: Key,
    todo: Todo,
) -> Result<Item, ItemError>
    requires { IsCanonical (draft_of key todo.seq todo kind) × IsFrontOf kind (parts_of todo) front.now }
    ensures found { IfOk result (Gives (draft_of key todo.seq todo kind)) }
    ensures large { IfErr result (λ e. IfLarge e (IsOver (draft_of key todo.seq todo kind ∷ []))) }
{
    let bytes = bytes_sharing(alloc, front, kind, &todo);
    let eff = todo.seq;
    finish(kind, key, eff, todo, bytes)
}

/// Makes the item of a to-do in canonical form with these octets, or passes on why there are none.
fn finish(
    kind: Kind,
    key: Key,
    eff: u32,
    todo: Todo,
    bytes: Result<Octets, ItemError>,
) -> Result<Item, ItemError>
    requires { IsCanonical (draft_of key eff todo kind) × IfOk bytes (IsWhole (draft_of key eff todo kind))
        × IfErr bytes (λ e. IfLarge e (IsOver (draft_of key eff todo kind ∷ []))) }
    ensures found { IfOk result (Gives (draft_of key eff todo kind)) }
    ensures large { IfErr result (λ e. IfLarge e (IsOver (draft_of key eff todo kind ∷ []))) }
{
    match bytes {
        Ok(bytes) => Ok(item_of(kind, key, eff, todo, bytes)),
        Err(error) => {
            // Explicit calls: implicit drops would be proved anew, field by field and case by case.
            drop(key);
            drop(todo);
            Err(error)
        }
    }
}

/// The item of a to-do in canonical form with these bytes.
fn item_of(kind: Kind, key: Key, eff: u32, todo: Todo, bytes: Octets) -> Item
    requires { IsItem key todo.seq eff todo.stamp bytes todo kind }
    ensures { IsItemOf (draft_of key eff todo kind) result }
{
    Item {
        key,
        own: todo.seq,
        eff,
        stamp: todo.stamp,
        bytes,
        todo,
        kind,
    }
}

/// The canonical bytes of a to-do, or `TooLarge` if they are over the limits. With too many lines nothing is written, and no line of
/// a list is written once there are too many octets.
fn bytes_within(alloc: Global, kind: Kind, todo: &Todo) -> Result<Octets, ItemError>
    ensures bytes { IfOk result (λ bytes. (key : Key) (eff : ℕ) → IsWhole (draft_of key eff todo.now kind) bytes) }
    ensures large { IfErr result (λ e. (key : Key) (eff : ℕ) → IfLarge e (IsOver (draft_of key eff todo.now kind ∷ []))) }
{
    if line_count(todo) > LINES_LIMIT {
        return Err(ItemError::TooLarge);
    }
    let octets = write_canonical(alloc, kind, todo)?;
    if octets.len() > OCTETS_LIMIT {
        return Err(ItemError::TooLarge);
    }
    Ok(Octets::new(octets))
}

/// The canonical bytes of a to-do, as [`bytes_within`] returns them. They share the front, if there is one.
fn bytes_sharing(
    alloc: Global,
    front: &Option<Front>,
    kind: Kind,
    todo: &Todo,
) -> Result<Octets, ItemError>
    requires { IsFrontOf kind (parts_of todo.now) front.now }
    ensures bytes { IfOk result (λ bytes. (key : Key) (eff : ℕ) → IsWhole (draft_of key eff todo.now kind) bytes) }
    ensures large { IfErr result (λ e. (key : Key) (eff : ℕ) → IfLarge e (IsOver (draft_of key eff todo.now kind ∷ []))) }
{
    match front {
        Some(front) => bytes_behind(alloc, front, kind, todo),
        None => bytes_within(alloc, kind, todo),
    }
}

/// The canonical bytes of a to-do that begin with this front, as [`bytes_within`] returns them. Nothing is written after a front that
/// is above the limit.
fn bytes_behind(alloc: Global, front: &Front, kind: Kind, todo: &Todo) -> Result<Octets, ItemError>
    requires { front.now ≡ front_octets kind (parts_of todo.now) }
    ensures bytes { IfOk result (λ bytes. (key : Key) (eff : ℕ) → IsWhole (draft_of key eff todo.now kind) bytes) }
    ensures large { IfErr result (λ e. (key : Key) (eff : ℕ) → IfLarge e (IsOver (draft_of key eff todo.now kind ∷ []))) }
{
    if line_count(todo) > LINES_LIMIT {
        return Err(ItemError::TooLarge);
    }
    let Some(room) = OCTETS_LIMIT.checked_sub(front.as_slice().len()) else {
        return Err(ItemError::TooLarge);
    };
    let own = write_closing(alloc, todo, room)?;
    if own.len() > room {
        return Err(ItemError::TooLarge);
    }
    Ok(Octets::behind(front, own)?)
}

/// The number of lines in the canonical form, capped at `usize::MAX`.
fn line_count(todo: &Todo) -> usize
    ensures { (kind : Kind) → result ≡ min (length (canonical_contents kind (parts_of todo.now))) (2 ^ 64 - 1) }
{
    FRAME_LINES
        .saturating_add(single_count(todo))
        .saturating_add(todo.attendees.len())
        .saturating_add(todo.rule.len())
        .saturating_add(todo.rdates.len())
        .saturating_add(todo.exdates.len())
        .saturating_add(todo.others.len())
}

/// The number of lines of the properties that appear at most once.
fn single_count(todo: &Todo) -> usize
    ensures count { result ≡ 3 + one_if (is_some todo.now.base) + one_if (is_some todo.now.rid) + one_if (is_some todo.now.start) + one_if
        (is_some todo.now.due) + one_if (is_some todo.now.status)
        + one_if (is_some todo.now.percent) + one_if (is_some todo.now.priority) + one_if (is_some todo.now.summary)
        + one_if (is_some todo.now.organizer) }
{
    3 + one_if(todo.base.is_some())
        + one_if(todo.rid.is_some())
        + one_if(todo.start.is_some())
        + one_if(todo.due.is_some())
        + one_if(todo.status.is_some())
        + one_if(todo.percent.is_some())
        + one_if(todo.priority.is_some())
        + one_if(todo.summary.is_some())
        + one_if(todo.organizer.is_some())
}

fn one_if(present: bool) -> usize
    ensures count { result ≡ one_if present }
    ensures small { result ≤ 1 }
{
    usize::from(present)
}

/// Returns the canonical octets of an item: a message of its to-do alone.
pub fn write_item(alloc: Global, item: &Item) -> Result<Vec<u8>, NoMemory>
    ensures { IfOk result (λ octets. octets.items ≡ item.now.bytes) }
{
    let mut octets = Vec::with_capacity(alloc, item.bytes.len())?;
    item.bytes.append_to(&mut octets)?;
    Ok(octets)
}

/// The canonical octets of a to-do under the method of a kind, as far as the limit allows: if they exceed it, so do those returned,
/// but some of them may be missing.
fn write_canonical(alloc: Global, kind: Kind, todo: &Todo) -> Result<Vec<u8>, NoMemory>
    ensures { IfOk result (λ octets.
        AppendsUpTo canonical_octets_limit (canonical_contents kind (parts_of todo.now)) [] octets.items) }
{
    let mut octets = Vec::with_capacity(alloc, USUAL)?;
    write_opening(kind, &mut octets)?;
    write_todo_up_to(todo, OCTETS_LIMIT, &mut octets)?;
    write_end(&mut octets)?;
    let exact = Vec::from_slice(alloc, octets.as_slice())?;
    Ok(exact)
}

/// The canonical octets of a to-do under the method of a kind, up to ORGANIZER.
pub(crate) fn write_front(alloc: Global, kind: Kind, todo: &Todo) -> Result<Front, NoMemory>
    ensures { IfOk result (λ front. front ≡ front_octets kind (parts_of todo.now)) }
{
    let mut octets = Vec::with_capacity(alloc, USUAL)?;
    write_opening(kind, &mut octets)?;
    write_todo_front(todo, &mut octets)?;
    let exact = Vec::from_slice(alloc, octets.as_slice())?;
    Front::new(alloc, exact)
}

/// The canonical octets of a to-do after its front, as far as there is room, as [`write_canonical`] returns them.
fn write_closing(alloc: Global, todo: &Todo, room: usize) -> Result<Vec<u8>, NoMemory>
    ensures { IfOk result (λ octets. AppendsUpTo room (closing_contents (parts_of todo.now)) [] octets.items) }
{
    let mut octets = Vec::with_capacity(alloc, USUAL)?;
    write_todo_rest(todo, room, &mut octets)?;
    write_end(&mut octets)?;
    let exact = Vec::from_slice(alloc, octets.as_slice())?;
    Ok(exact)
}

/// Appends the lines before a to-do.
fn write_opening(kind: Kind, out: &mut Vec<u8>) -> Result<(), NoMemory>
    ensures { OnOk result (out.new.items ≡ out.old.items ++ contents_octets (opening_contents kind)) }
{
    out.extend_from_slice(b"BEGIN:VCALENDAR\r\nPRODID:-//itipdesk//1//EN\r\nVERSION:2.0\r\n")?;
    out.extend_from_slice(method_line(kind))
}

/// Appends the line after a to-do.
fn write_end(out: &mut Vec<u8>) -> Result<(), NoMemory>
    ensures { OnOk result (out.new.items ≡ out.old.items ++ contents_octets (bare (codes "END") (codes "VCALENDAR") ∷ [])) }
{
    out.extend_from_slice(b"END:VCALENDAR\r\n")
}

/// The METHOD line of the items of a kind.
fn method_line(kind: Kind) -> &'static [u8]
    ensures { result.now ≡ content_octets (bare (codes "METHOD") (method_text (method_of kind))) }
{
    match kind {
        Kind::Request => b"METHOD:REQUEST\r\n",
        Kind::Add => b"METHOD:ADD\r\n",
        Kind::Remove | Kind::Cancel => b"METHOD:CANCEL\r\n",
        Kind::Reply => b"METHOD:REPLY\r\n",
        Kind::Refresh => b"METHOD:REFRESH\r\n",
    }
}
