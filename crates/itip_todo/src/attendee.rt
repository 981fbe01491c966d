ghost use Rattle.std.specs.Prelude.{◌≡◌, IfOk, IsOk, Some};
ghost use Rattle.itip_lines.specs.Room.{StandsInPlace};
ghost use Rattle.itip_todo.specs.Participation.{partstat_of, partstat_named, partstat_text};
ghost use Rattle.itip_todo.specs.Table.{attendee_key};

use crate::property::Property;
use itip_lines::{NoMemory, Text};
use std::alloc::Global;
use std::fmt;

/// The participation of an attendee (RFC 5545 3.2.12). Absent and unknown ones are `NeedsAction`.
#[derive(Clone, Copy, Debug, PartialEq, Eq)]
pub enum PartStat {
    NeedsAction,
    Accepted,
    Declined,
    Tentative,
    Delegated,
    Completed,
    InProcess,
}

impl PartStat {
    /// The name of the participation, in upper case.
    pub fn as_str(self) -> &'static str
        ensures { result.now ≡ partstat_text self }
    {
        match self {
            PartStat::NeedsAction => "NEEDS-ACTION",
            PartStat::Accepted => "ACCEPTED",
            PartStat::Declined => "DECLINED",
            PartStat::Tentative => "TENTATIVE",
            PartStat::Delegated => "DELEGATED",
            PartStat::Completed => "COMPLETED",
            PartStat::InProcess => "IN-PROCESS",
        }
    }
}

impl fmt::Display for PartStat {
    ghost output = { λ partstat. Some (partstat_text partstat) };

    fn fmt<W: fmt::Write>(&self, f: &mut fmt::Formatter<W>) -> fmt::Result {
        f.write_str(self.as_str())
    }
}

/// The participation in an attendee's parameters: the first value of the first PARTSTAT, ignoring case.
pub fn participation(attendee: &Property) -> PartStat
    ensures { result ≡ partstat_of attendee.now.params }
{
    let name = attendee.first_value("PARTSTAT");
    if name.eq_ignore_ascii_case("ACCEPTED") {
        PartStat::Accepted
    } else if name.eq_ignore_ascii_case("DECLINED") {
        PartStat::Declined
    } else if name.eq_ignore_ascii_case("TENTATIVE") {
        PartStat::Tentative
    } else if name.eq_ignore_ascii_case("DELEGATED") {
        PartStat::Delegated
    } else if name.eq_ignore_ascii_case("COMPLETED") {
        PartStat::Completed
    } else if name.eq_ignore_ascii_case("IN-PROCESS") {
        PartStat::InProcess
    } else {
        PartStat::NeedsAction
    }
}

/// The key that identifies an attendee: the address with ASCII letters in lower case (our own rule).
///
/// Returns an error if an allocation fails; an address of at most 32 bytes needs none.
pub fn attendee_key(alloc: Global, address: &str) -> Result<Text, NoMemory>
    ensures key { IfOk result (λ key. key ≡ attendee_key address.now) }
    ensures succeeds { StandsInPlace address.now → IsOk result }
{
    let mut key = Text::copy(alloc, address)?;
    key.make_ascii_lowercase();
    Ok(key)
}
