//! The attendee in question.
ghost use Rattle.std.specs.Prelude.{◌≡◌, ◌↔◌, IsTrue, IfOk, IfErr, MatchOption};
ghost use Rattle.std.specs.List.{Contains};
ghost use Rattle.std.specs.Option.{option_copied};
ghost use Rattle.itip_todo.specs.Table.{attendee_key};
ghost use Rattle.itip_view.specs.InQuestion.{NoneInQuestion, ShowsInQuestion};
ghost use Rattle.itip_view.specs.declared.row.ShownAttendee.{ShownAttendee};
ghost use Rattle.itip_writing.specs.Causes.{IfNothing};
ghost use Rattle.itip_writing.specs.Replying.{IsAsked, IsNotAsked, IsOfAddress};

use crate::NoMemory;
use crate::error::WritingError;
use itip_items::Item;
use itip_lines::Text;
use itip_moment::Moment;
use itip_state::ItemsOfUid;
use itip_todo::attendee_key;
use itip_view::{InQuestion, RowInQuestion, ShownAttendee};
use std::alloc::Global;

/// An attendee that the row in question shows.
#[derive(Drop)]
pub(crate) struct AskedAttendee<'a> {
    /// The item that governs the row.
    pub item: &'a Item,
    /// The address as the item spells it.
    pub address: Text,
    /// The key of the attendee.
    pub key: Text,
    pub ghost of_address: { key ≡ attendee_key address },
}

/// The attendee with an address, if the row in question shows one.
///
/// Fails with `NothingStands` if there is no row in question, and with `NoSuchAttendee` if it shows no attendee with this address.
pub(crate) fn asked_attendee<'a>(
    alloc: Global,
    items: &ItemsOfUid<'a>,
    id: Option<&Moment>,
    address: &str,
) -> Result<AskedAttendee<'a>, WritingError>
    ensures found { IfOk result (λ asked.
        IsAsked items.now.items items.now.uid (option_copied id.entry) address.now asked.item.now asked.address) }
    ensures fault { IfErr result (IsNotAsked items.now.items items.now.uid (option_copied id.entry) address.now) }
{
    let row = row_in_question(alloc, items, id)?;
    match attendee_shown(row.attendees.as_slice(), address) {
        Some(attendee) => Ok(asked_of(alloc, row.item, attendee)?),
        None => Err(WritingError::NoSuchAttendee),
    }
}

/// The row in question.
///
/// Fails with `NothingStands` if there is none.
pub(crate) fn row_in_question<'a>(
    alloc: Global,
    items: &ItemsOfUid<'a>,
    id: Option<&Moment>,
) -> Result<RowInQuestion<'a>, WritingError>
    ensures row { IfOk result (λ row.
        ShowsInQuestion items.now.items items.now.uid (option_copied id.entry) row.item.now row.attendees) }
    ensures none { IfErr result (IfNothing (NoneInQuestion items.now.items items.now.uid (option_copied id.entry))) }
{
    let question = InQuestion::of(alloc, items)?;
    match question.row(id)? {
        Some(row) => Ok(row),
        None => Err(WritingError::NothingStands),
    }
}

/// The shown attendee with an address, or `None` if there is none.
pub(crate) fn attendee_shown<'s>(
    shown: &'s [ShownAttendee],
    address: &str,
) -> Option<&'s ShownAttendee>
    ensures { MatchOption (option_copied result)
        ((attendee : ShownAttendee) → Contains shown.now attendee → IsOfAddress address.now attendee → ⊥)
        (λ attendee. Contains shown.now attendee × IsOfAddress address.now attendee) }
{
    for attendee in shown {
        if is_of_address(attendee, address) {
            return Some(attendee);
        }
    }
    None
}

/// Whether an attendee has this address.
fn is_of_address(attendee: &ShownAttendee, address: &str) -> bool
    ensures { IsTrue result ↔ IsOfAddress address.now attendee.now }
{
    attendee.address.as_str().eq_ignore_ascii_case(address)
}

/// Puts together the item that governs a row and an attendee that the row shows.
fn asked_of<'a>(
    alloc: Global,
    item: &'a Item,
    attendee: &ShownAttendee,
) -> Result<AskedAttendee<'a>, NoMemory>
    ensures item { IfOk result (λ asked. asked.item.now ≡ item.now) }
    ensures address { IfOk result (λ asked. asked.address ≡ attendee.now.address) }
{
    let address = attendee.address.clone()?;
    let key = attendee_key(alloc, address.as_str())?;
    Ok(AskedAttendee { item, address, key })
}
