//! Values of type TEXT as a person reads them (RFC 5545 3.3.11).
ghost use Rattle.std.specs.Prelude.{◌≡◌, ◌++◌, ◌<◌, [], length, OnOk, OnErr, MatchOption};
ghost use Rattle.itip_page.specs.Value.{value_markup, IsNext, PutsNext, is_break, is_escaped};

use crate::escape::put_escaped;
use crate::put::put;
use std::alloc::AllocError;

/// What a value shows next.
#[derive(Clone, Copy)]
enum Shown {
    Octet(u8),
    LineBreak,
}

/// Appends the value of a property of type TEXT, such as SUMMARY: its commas, semicolons and backslashes without the backslash before
/// them, and its line breaks as `<br>`, the only tag that comes of it; each line as [`put_escaped`] appends it. If an allocation
/// fails, `out` is unchanged.
pub fn put_value(out: &mut Vec<u8>, value: &[u8]) -> Result<(), AllocError>
    ensures ok { OnOk result (out.new.items ≡ out.old.items ++ value_markup value.now) }
    ensures err { OnErr result (out.new.items ≡ out.old.items) }
{
    let mut markup = Vec::with_capacity(*out.allocator(), value.len())?;
    put_lines(&mut markup, value)?;
    out.extend_from_slice(markup.as_slice())
}

/// Appends a value line by line. If an allocation fails, part of it may have been appended.
fn put_lines(out: &mut Vec<u8>, value: &[u8]) -> Result<(), AllocError>
    ensures { OnOk result (out.new.items ≡ out.old.items ++ value_markup value.now) }
{
    let mut line = Vec::new(*out.allocator());
    let mut rest = value;
    while let Some((shown, after)) = next_shown(rest) {
        put_shown(out, &mut line, shown)?;
        rest = after;
    }
    put_escaped(out, line.as_slice())
}

/// Appends an octet to the line; or the line and its end to the page, and then clears the line.
fn put_shown(out: &mut Vec<u8>, line: &mut Vec<u8>, shown: Shown) -> Result<(), AllocError>
    ensures { OnOk result (PutsNext shown out.old.items out.new.items line.old.items line.new.items) }
{
    match shown {
        Shown::Octet(octet) => line.push(octet)?,
        Shown::LineBreak => {
            put_escaped(out, line.as_slice())?;
            put(out, "<br>")?;
            line.clear();
        }
    }
    Ok(())
}

/// What a value shows next, and what comes after it; `None` if the value is empty.
fn next_shown(value: &[u8]) -> Option<(Shown, &[u8])>
    ensures next { MatchOption result (value.now ≡ []) (λ next. IsNext value.now next.0 next.1.now) }
    ensures shorter { MatchOption result (value.now ≡ []) (λ next. length next.1.now < length value.now) }
{
    match value {
        [] => None,
        [b'\\', octet, rest @ ..] if is_break(*octet) => Some((Shown::LineBreak, rest)),
        [b'\\', octet, rest @ ..] if is_escaped(*octet) => Some((Shown::Octet(*octet), rest)),
        [octet, rest @ ..] => Some((Shown::Octet(*octet), rest)),
    }
}

fn is_break(octet: u8) -> bool
    ensures { result ≡ is_break octet }
{
    octet == b'n' || octet == b'N'
}

fn is_escaped(octet: u8) -> bool
    ensures { result ≡ is_escaped octet }
{
    octet == b'\\' || octet == b';' || octet == b','
}
