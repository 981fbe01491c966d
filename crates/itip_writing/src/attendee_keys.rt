//! The keys of attendees, to be looked up.
ghost use Rattle.std.specs.Prelude.{◌≡◌, ◌||◌, ℕ, List, IfOk, OnOk};
ghost use Rattle.std.specs.BTreeSet.{contains};
ghost use Rattle.std.specs.Cmp.Lexicographic.{slice_cmp};
ghost use Rattle.std.specs.Ordering.{nat_cmp};
ghost use Rattle.std.specs.String.{string_bytes};
ghost use Rattle.itip_todo.specs.Participation.{same_text};
ghost use Rattle.itip_todo.specs.Table.{attendee_key};
ghost use Rattle.itip_writing.specs.Removing.{HasKeys};

use crate::NoMemory;
use itip_lines::Text;
use itip_todo::attendee_key;
use itip_view::ShownAttendee;
use std::alloc::Global;
use std::collections::BTreeSet;

/// The keys of shown attendees.
pub(crate) fn keys_of_shown(
    alloc: Global,
    shown: &[ShownAttendee],
) -> Result<BTreeSet<Text>, NoMemory>
    ensures { IfOk result (HasKeys (λ attendee. attendee_key attendee.address) shown.now) }
{
    let mut keys = BTreeSet::new(alloc);
    for attendee in shown {
        add_key(alloc, &mut keys, attendee.address.as_str())?;
    }
    Ok(keys)
}

/// The keys of the attendees with these addresses.
pub(crate) fn keys_of(alloc: Global, addresses: &[String]) -> Result<BTreeSet<Text>, NoMemory>
    ensures { IfOk result (HasKeys (λ address. attendee_key (string_bytes address)) addresses.now) }
{
    let mut keys = BTreeSet::new(alloc);
    for address in addresses {
        add_key(alloc, &mut keys, address.as_str())?;
    }
    Ok(keys)
}

/// Adds the key of an attendee.
fn add_key(alloc: Global, keys: &mut BTreeSet<Text>, address: &str) -> Result<(), NoMemory>
    ensures { OnOk result ((key : List ℕ) → contains (slice_cmp nat_cmp) keys.new key
        ≡ (contains (slice_cmp nat_cmp) keys.old key || same_text key (attendee_key address.now))) }
{
    let key = attendee_key(alloc, address)?;
    keys.insert(key)?;
    Ok(())
}

/// Whether the key of the attendee with this address is among these keys.
pub(crate) fn has_key(alloc: Global, keys: &BTreeSet<Text>, address: &str) -> Result<bool, NoMemory>
    ensures { IfOk result (λ has. has ≡ contains (slice_cmp nat_cmp) keys.now (attendee_key address.now)) }
{
    let key = attendee_key(alloc, address)?;
    Ok(keys.contains(&key))
}
