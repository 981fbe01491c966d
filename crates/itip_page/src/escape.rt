//! Texts in a page (HTML Standard 13.1.3 and 13.1.4).
ghost use Rattle.std.specs.Prelude.{◌≡◌, ◌++◌, OnOk, OnErr};
ghost use Rattle.std.specs.List.{flat_map};
ghost use Rattle.itip_page.specs.Escaped.{escaped, octet_markup};

use crate::put::put;
use itip_streams::visible_octets;
use std::alloc::AllocError;

/// Appends a text as it is written in an element or in a double-quoted attribute value: the characters that mean something there as
/// references, and control characters as their bytes, `\x07`. If an allocation fails, `out` is unchanged.
pub fn put_escaped(out: &mut Vec<u8>, text: &[u8]) -> Result<(), AllocError>
    ensures ok { OnOk result (out.new.items ≡ out.old.items ++ escaped text.now) }
    ensures err { OnErr result (out.new.items ≡ out.old.items) }
{
    let mut markup = Vec::with_capacity(*out.allocator(), text.len())?;
    put_text(&mut markup, text)?;
    out.extend_from_slice(markup.as_slice())
}

/// Appends an escaped text. If an allocation fails, part of it may have been appended.
fn put_text(out: &mut Vec<u8>, text: &[u8]) -> Result<(), AllocError>
    ensures { OnOk result (out.new.items ≡ out.old.items ++ escaped text.now) }
{
    let shown = visible_octets(*out.allocator(), text)?;
    put_octets(out, shown.as_slice())
}

fn put_octets(out: &mut Vec<u8>, octets: &[u8]) -> Result<(), AllocError>
    ensures { OnOk result (out.new.items ≡ out.old.items ++ flat_map octet_markup octets.now) }
{
    for octet in octets {
        put_octet(out, *octet)?;
    }
    Ok(())
}

fn put_octet(out: &mut Vec<u8>, octet: u8) -> Result<(), AllocError>
    ensures { OnOk result (out.new.items ≡ out.old.items ++ octet_markup octet) }
{
    if octet == b'&' {
        return put(out, "&amp;");
    }
    if octet == b'<' {
        return put(out, "&lt;");
    }
    if octet == b'>' {
        return put(out, "&gt;");
    }
    if octet == b'"' {
        return put(out, "&quot;");
    }
    out.push(octet)?;
    Ok(())
}
