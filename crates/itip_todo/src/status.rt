ghost use Rattle.std.specs.Prelude.{◌≡◌, Some};
ghost use Rattle.std.specs.Result.{result_ok};
ghost use Rattle.itip_todo.specs.StatusText.{status_text, status_of};

use std::fmt;
use std::str::FromStr;
use thiserror::Error;

/// The status of a to-do (RFC 5545 3.8.1.11).
#[derive(Clone, Copy, Debug, PartialEq, Eq)]
pub enum Status {
    NeedsAction,
    Completed,
    InProcess,
    Cancelled,
}

impl Status {
    /// The status with this name, ignoring case, or `None` if there is none.
    pub fn named(name: &str) -> Option<Status>
        ensures { result ≡ status_of name.now }
    {
        if name.eq_ignore_ascii_case("NEEDS-ACTION") {
            Some(Status::NeedsAction)
        } else if name.eq_ignore_ascii_case("COMPLETED") {
            Some(Status::Completed)
        } else if name.eq_ignore_ascii_case("IN-PROCESS") {
            Some(Status::InProcess)
        } else if name.eq_ignore_ascii_case("CANCELLED") {
            Some(Status::Cancelled)
        } else {
            None
        }
    }

    /// The name of the status, in upper case.
    pub fn as_str(self) -> &'static str
        ensures { result.now ≡ status_text self }
    {
        match self {
            Status::NeedsAction => "NEEDS-ACTION",
            Status::Completed => "COMPLETED",
            Status::InProcess => "IN-PROCESS",
            Status::Cancelled => "CANCELLED",
        }
    }
}

/// The error for a text that names no status of a to-do.
#[derive(Clone, Copy, PartialEq, Eq, Debug, Error)]
#[error("no status has this name")]
pub struct BadStatus;

impl fmt::Display for Status {
    ghost output = { λ status. Some (status_text status) };

    fn fmt<W: fmt::Write>(&self, f: &mut fmt::Formatter<W>) -> fmt::Result {
        f.write_str(self.as_str())
    }
}

/// Names are matched without regard to case.
impl FromStr for Status {
    type Err = BadStatus;

    ghost from_str_gives = { λ text status. result_ok status ≡ status_of text };

    fn from_str(text: &str) -> Result<Status, BadStatus> {
        Status::named(text).ok_or(BadStatus)
    }
}
