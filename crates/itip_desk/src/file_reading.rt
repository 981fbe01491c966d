//! Reading a desk from its file.
ghost use Rattle.std.specs.Prelude.{◌≡◌, ◌↔◌, ◌==◌, ◌++◌, ◌<◌, ◌^◌, ℕ, List, Some, codes, IsTrue, IfOk, IfErr, OnOk, IfSome, IfNone};
ghost use Rattle.std.specs.List.{list_any};
ghost use Rattle.std.specs.Option.{option_copied};
ghost use Rattle.itip_desk.specs.MovedSince.{AreMovesTo};
ghost use Rattle.itip_desk.specs.DeskFile.{TellsDesk, RefusesFile, IfFileRefused, HasNumber, begins_text};
ghost use Rattle.itip_desk.specs.FileReading.{ReadsFile, AddsPart, IsNoPart, IsDeskOfParts, TellsTick, TellsMove, FollowsProduct};
ghost use Rattle.itip_desk.specs.FileReading.{first_text, moves_at, ReachTick};

use crate::batch::Batch;
use crate::desk::Desk;
use crate::error::FileError;
use crate::file_text::{BEGINS, FORM, FORM_NAME, ITEMS_NAME, MOVED_NAME, PRODUCT, TICK_NAME};
use crate::file_writing::is_file_of;
use crate::fronts::{behind, behind_number, number_behind};
use crate::refusal::FileRefusal;
use itip_items::Item;
use itip_message::{ReadError, next_message, read_message};
use itip_todo::Uid;
use std::alloc::{AllocError, Global};

/// What is read from a file, message by message.
#[derive(Drop)]
struct FileParts {
    /// The tick of the desk.
    tick: u64,
    items: Vec<Item>,
    /// The UID of each item, and the tick at which it last moved.
    moves: Vec<(Uid, u64)>,
}

/// Reads a desk from its file. The bytes are compared with what [`write_desk`](crate::write_desk) writes of the desk, so any other
/// text is refused.
///
/// Fails with [`FileRefusal::OtherForm`] (70) if they name another form, and with [`FileRefusal::Broken`] (71) if they are the file
/// of no desk, with the number, from 1, of the first message that can't be read as one of such a file or tells no move from tick 1 to
/// that of the desk, if there is one. Fails with [`FileError::NoMemory`] if an allocation fails.
pub fn read_desk(alloc: Global, octets: &[u8]) -> Result<Desk, FileError>
    ensures found { IfOk result (TellsDesk octets.now) }
    ensures fault { IfErr result (λ e. IfFileRefused e (RefusesFile octets.now)) }
{
    let parts = reached_parts(alloc, octets)?;
    let desk = desk_of(alloc, parts)?;
    if is_file_of(alloc, octets, &desk)? {
        return Ok(desk);
    }
    drop(desk);
    Err(broken(None))
}

fn desk_of(alloc: Global, parts: FileParts) -> Result<Desk, FileError>
    requires { AreMovesTo parts.tick parts.moves.items }
    ensures made { IfOk result (IsDeskOfParts parts) }
    ensures fault { IfErr result (λ e. e ≡ FileError.NoMemory) }
{
    let FileParts { tick, items, moves } = parts;
    let batch = Batch::of_items(items)?;
    Ok(Desk::of_parts(alloc, tick, &batch, moves)?)
}

/// Reads the parts of all messages. Refused if no UID moved at the tick of the desk, unless that is 0.
fn reached_parts(alloc: Global, octets: &[u8]) -> Result<FileParts, FileError>
    ensures found { IfOk result (ReadsFile octets.now) }
    ensures reached { IfOk result (λ parts. ReachTick parts.tick parts.moves.items) }
    ensures fault { IfErr result (λ e. IfFileRefused e (RefusesFile octets.now)) }
{
    let parts = read_parts(alloc, octets)?;
    if is_reached(&parts) {
        return Ok(parts);
    }
    drop(parts);
    Err(broken(None))
}

/// Whether a UID moved at the tick of the desk, or that is 0.
fn is_reached(parts: &FileParts) -> bool
    ensures { IsTrue result ↔ ReachTick parts.now.tick parts.now.moves.items }
{
    if parts.tick == 0 {
        return true;
    }
    some_moved_at(parts.tick, parts.moves.as_slice())
}

fn some_moved_at(tick: u64, moves: &[(Uid, u64)]) -> bool
    ensures { result ≡ list_any (λ (move : List ℕ × ℕ). move.1 == tick) moves.now }
{
    moves.iter().any(|moved| moved.1 == tick)
}

/// Reads the parts of all messages.
fn read_parts(alloc: Global, octets: &[u8]) -> Result<FileParts, FileError>
    ensures found { IfOk result (ReadsFile octets.now) }
    ensures fault { IfErr result (λ e. IfFileRefused e (RefusesFile octets.now)) }
{
    let tick = tick_of(octets)?;
    let items = Vec::new(alloc);
    let moves = Vec::new(alloc);
    let mut parts = FileParts { tick, items, moves };
    let mut rest = octets;
    let mut number: u64 = 1;
    while let Some((message, after)) = next_message(rest) {
        read_part(alloc, message, number, &mut parts)?;
        rest = after;
        number = number.saturating_add(1);
    }
    Ok(parts)
}

/// Reads the parts of the message with this number.
fn read_part(
    alloc: Global,
    message: &[u8],
    number: u64,
    parts: &mut FileParts,
) -> Result<(), FileError>
    ensures added { OnOk result (AddsPart message.now parts.old parts.new) }
    ensures fault { IfErr result (λ e. IfFileRefused e (λ refusal.
        (refusal ≡ FileRefusal.Broken (Some number)) × IsNoPart parts.old.tick message.now)) }
{
    let Some(moved) = moved_in(message) else {
        return Err(broken(Some(number)));
    };
    if moved == 0 || moved > parts.tick {
        return Err(broken(Some(number)));
    }
    let mut items = match read_message(alloc, message) {
        Ok(items) => items,
        Err(ReadError::NoMemory) => return Err(FileError::NoMemory),
        Err(ReadError::Refused(_)) => return Err(broken(Some(number))),
    };
    push_moves(&mut parts.moves, items.as_slice(), moved)?;
    parts.items.append(&mut items)?;
    Ok(())
}

/// Adds the UIDs of the items, each with this tick.
fn push_moves(moves: &mut Vec<(Uid, u64)>, items: &[Item], moved: u64) -> Result<(), AllocError>
    ensures { OnOk result (moves.new.items ≡ moves.old.items ++ moves_at moved items.now) }
{
    for item in items {
        moves.push((item.key.uid().clone()?, moved))?;
    }
    Ok(())
}

/// The tick that the first message tells, or 0 for the empty file.
fn tick_of(octets: &[u8]) -> Result<u64, FileError>
    ensures found { IfOk result (TellsTick octets.now) }
    ensures fault { IfErr result (λ e. IfFileRefused e (RefusesFile octets.now)) }
{
    if octets.is_empty() {
        return Ok(0);
    }
    let Some((form, after)) = first_form(octets) else {
        return Err(broken(Some(1)));
    };
    if form != FORM {
        return Err(FileError::Refused(FileRefusal::OtherForm));
    }
    match first_tick(after) {
        Some(tick) => Ok(tick),
        None => Err(broken(Some(1))),
    }
}

/// The form that the first message names, and what follows it.
fn first_form(octets: &[u8]) -> Option<(u64, &[u8])>
    ensures found { IfSome result (λ found. HasNumber octets.now (begins_text ++ codes ";X-FORM=") found.0 found.1.now) }
    ensures none { IfNone result ((form : ℕ) (after : List ℕ) → HasNumber octets.now (begins_text ++ codes ";X-FORM=") form after → ⊥) }
{
    let parameters = behind(octets, BEGINS.as_bytes())?;
    number_behind(parameters, FORM_NAME)
}

/// The tick in what follows the form of a first message.
fn first_tick(after: &[u8]) -> Option<u64>
    ensures { (items tick : ℕ) (rest : List ℕ) → items < 2 ^ 64 → tick < 2 ^ 64 →
        after.now ≡ first_text items tick rest → result ≡ Some tick }
{
    let after = behind_number(after, ITEMS_NAME);
    let parameters = behind(after, PRODUCT.as_bytes())?;
    let found = number_behind(parameters, TICK_NAME)?;
    Some(found.0)
}

/// The tick at which the UID of a message last moved, if the message tells it.
fn moved_in(message: &[u8]) -> Option<u64>
    ensures { TellsMove message.now result }
{
    let parameters = after_product(message)?;
    let after = behind_number(parameters, TICK_NAME);
    let found = number_behind(after, MOVED_NAME)?;
    Some(found.0)
}

/// What follows the name VERSION in a message: its parameters, and the rest.
fn after_product(message: &[u8]) -> Option<&[u8]>
    ensures { FollowsProduct message.now (option_copied result) }
{
    let parameters = behind(message, BEGINS.as_bytes())?;
    let after = behind_number(behind_number(parameters, FORM_NAME), ITEMS_NAME);
    behind(after, PRODUCT.as_bytes())
}

fn broken(message: Option<u64>) -> FileError
    ensures { result ≡ FileError.Refused (FileRefusal.Broken message) }
{
    FileError::Refused(FileRefusal::Broken { message })
}
