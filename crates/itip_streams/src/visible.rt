//! Control characters, shown as their bytes.
ghost use Rattle.std.specs.Prelude.{◌≡◌, ◌<◌, ◌++◌, IfOk, OnOk};
ghost use Rattle.std.specs.String.{string_bytes};
ghost use Rattle.std.specs.Char.{digit_char};
ghost use Rattle.itip_streams.specs.Visible.{visible, visible_lines, shown_after, shown_octet, escaped};
ghost use Rattle.itip_streams.specs.Visible.{is_hidden, is_of_control, is_of_c1, is_second, begins_second, is_of_line_end, begins_lf};

use std::alloc::{AllocError, Global};

/// A text with each control character (C0, DEL and C1) as its bytes, `\x0a` or `\xc2\x85`, and everything else as it is. Fails if an
/// allocation fails.
pub fn visible_text(alloc: Global, text: &str) -> Result<String, AllocError>
    ensures { IfOk result (λ shown. string_bytes shown ≡ visible text.now) }
{
    let octets = shown_octets(alloc, text.as_bytes(), false)?;
    String::from_utf8_lossy(alloc, octets.as_slice())
}

/// The bytes of a text in the form of [`visible_text`], line ends among the control characters. Fails if an allocation fails.
pub fn visible_octets(alloc: Global, octets: &[u8]) -> Result<Vec<u8>, AllocError>
    ensures { IfOk result (λ shown. shown.items ≡ visible octets.now) }
{
    shown_octets(alloc, octets, false)
}

/// The bytes of a text with each control character as its bytes, except for line ends: LF, and CR before LF.
pub(crate) fn visible_lines(alloc: Global, octets: &[u8]) -> Result<Vec<u8>, AllocError>
    ensures { IfOk result (λ shown. shown.items ≡ visible_lines octets.now) }
{
    shown_octets(alloc, octets, true)
}

fn shown_octets(alloc: Global, octets: &[u8], keeps_line_ends: bool) -> Result<Vec<u8>, AllocError>
    ensures { IfOk result (λ shown. shown.items ≡ shown_after keeps_line_ends 0 octets.now) }
{
    let mut shown = Vec::with_capacity(alloc, octets.len())?;
    let mut before = 0;
    let mut rest = octets;
    while let [octet, after @ ..] = rest {
        push_shown(&mut shown, keeps_line_ends, before, *octet, after)?;
        before = *octet;
        rest = after;
    }
    Ok(shown)
}

/// Appends what is shown of an octet between `before` and `after`.
fn push_shown(
    shown: &mut Vec<u8>,
    keeps_line_ends: bool,
    before: u8,
    octet: u8,
    after: &[u8],
) -> Result<(), AllocError>
    ensures { OnOk result (shown.new.items ≡ shown.old.items ++ shown_octet keeps_line_ends before octet after.now) }
{
    if is_hidden(keeps_line_ends, before, octet, after) {
        return push_escaped(shown, octet);
    }
    shown.push(octet)?;
    Ok(())
}

fn push_escaped(shown: &mut Vec<u8>, octet: u8) -> Result<(), AllocError>
    ensures { OnOk result (shown.new.items ≡ shown.old.items ++ escaped octet) }
{
    shown.extend_from_slice(&[b'\\', b'x', hex_digit(octet / 16), hex_digit(octet % 16)])
}

fn hex_digit(value: u8) -> u8
    requires { value < 16 }
    ensures { result ≡ digit_char value }
{
    if value < 10 {
        b'0' + value
    } else {
        b'a' - 10 + value
    }
}

fn is_hidden(keeps_line_ends: bool, before: u8, octet: u8, after: &[u8]) -> bool
    ensures { result ≡ is_hidden keeps_line_ends before octet after.now }
{
    !(keeps_line_ends && is_of_line_end(octet, after)) && is_of_control(before, octet, after)
}

fn is_of_control(before: u8, octet: u8, after: &[u8]) -> bool
    ensures { result ≡ is_of_control before octet after.now }
{
    octet < 0x20 || octet == 0x7f || is_of_c1(before, octet, after)
}

/// Whether an octet is of a C1 character, which is 0xc2 and then 0x80 to 0x9f.
fn is_of_c1(before: u8, octet: u8, after: &[u8]) -> bool
    ensures { result ≡ is_of_c1 before octet after.now }
{
    (octet == 0xc2 && begins_second(after)) || (before == 0xc2 && is_second(octet))
}

fn begins_second(octets: &[u8]) -> bool
    ensures { result ≡ begins_second octets.now }
{
    match octets {
        [octet, ..] => is_second(*octet),
        [] => false,
    }
}

fn is_second(octet: u8) -> bool
    ensures { result ≡ is_second octet }
{
    0x80 <= octet && octet < 0xa0
}

fn is_of_line_end(octet: u8, after: &[u8]) -> bool
    ensures { result ≡ is_of_line_end octet after.now }
{
    octet == b'\n' || (octet == b'\r' && begins_lf(after))
}

fn begins_lf(octets: &[u8]) -> bool
    ensures { result ≡ begins_lf octets.now }
{
    matches!(octets, [b'\n', ..])
}
