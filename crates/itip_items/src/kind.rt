ghost use Rattle.std.specs.Prelude.{◌≡◌, Some};
ghost use Rattle.std.specs.Result.{result_ok};
ghost use Rattle.itip_items.specs.Items.{method_named, method_text};

use std::fmt;
use std::str::FromStr;
use thiserror::Error;

/// The methods that are read (RFC 5546 3.4). REQUEST, ADD and CANCEL are the organizer's, REPLY and REFRESH an attendee's.
#[derive(Clone, Copy, Debug, PartialEq, Eq)]
pub enum Method {
    Request,
    Add,
    Cancel,
    Reply,
    Refresh,
}

/// What an item does.
#[derive(Clone, Copy, Debug, PartialEq, Eq)]
pub enum Kind {
    /// The to-do, one instance of it, or an instance and all after it, is assigned (REQUEST).
    Request,
    /// One instance is added (ADD).
    Add,
    /// One attendee is no longer asked (CANCEL without STATUS that names attendees).
    Remove,
    /// The to-do, one instance of it, or an instance and all after it, is cancelled (any other CANCEL).
    Cancel,
    /// An attendee answers (REPLY).
    Reply,
    /// An attendee wants the newest revision (REFRESH).
    Refresh,
}

impl Method {
    /// The name of the method, in upper case.
    pub fn as_str(self) -> &'static str
        ensures { result.now ≡ method_text self }
    {
        match self {
            Method::Request => "REQUEST",
            Method::Add => "ADD",
            Method::Cancel => "CANCEL",
            Method::Reply => "REPLY",
            Method::Refresh => "REFRESH",
        }
    }
}

/// The error for a text that names no method that is read.
#[derive(Clone, Copy, PartialEq, Eq, Debug, Error)]
#[error("no method that is read has this name")]
pub struct BadMethod;

impl fmt::Display for Method {
    ghost output = { λ method. Some (method_text method) };

    fn fmt<W: fmt::Write>(&self, f: &mut fmt::Formatter<W>) -> fmt::Result {
        f.write_str(self.as_str())
    }
}

/// Names have to be in upper case.
impl FromStr for Method {
    type Err = BadMethod;

    ghost from_str_gives = { λ text method. result_ok method ≡ method_named text };

    fn from_str(text: &str) -> Result<Method, BadMethod> {
        method_named(text).ok_or(BadMethod)
    }
}

/// The method with this name, given in upper case, or `None` if there is none.
pub fn method_named(name: &str) -> Option<Method>
    ensures { result ≡ method_named name.now }
{
    if name == "REQUEST" {
        Some(Method::Request)
    } else if name == "ADD" {
        Some(Method::Add)
    } else if name == "CANCEL" {
        Some(Method::Cancel)
    } else if name == "REPLY" {
        Some(Method::Reply)
    } else if name == "REFRESH" {
        Some(Method::Refresh)
    } else {
        None
    }
}
