//! Writing a content line.
ghost use Rattle.std.specs.Prelude.{◌≡◌, ◌≤◌, ◌++◌, ◌∷◌, [], IfOk, OnOk, OnErr, IsOk};
ghost use Rattle.std.specs.List.{list_any};
ghost use Rattle.itip_lines.specs.Octets.{is_separator};
ghost use Rattle.itip_lines.specs.Room.{HasRoomFor, KeepsRoom};
ghost use Rattle.itip_lines.specs.Lawful.{value_text, params_text, line_text};
ghost use Rattle.itip_lines.specs.Writing.{following, folded, written, Writes, Extends};

use crate::grammar::is_separator;
use crate::line::Line;
use crate::params::Params;
use std::alloc::AllocError;

/// The maximum length of a piece of a line without its break, in octets (RFC 5545 3.1).
const PIECE: usize = 75;

/// Appends a line with its folds and line breaks (RFC 5545 3.1).
///
/// A parameter value is in quotes if it has `;`, `:` or `,`. A piece has at most 75 octets before its CRLF, as many as
/// fit without splitting a UTF-8 sequence, and each piece but the first begins with one SPACE.
/// If an allocation fails, `out` is left unchanged. Nothing is allocated if `out` has room for the line.
#[tactic(auto, unfolding(crate::specs::Writing::written, crate::specs::Writing::unfolded_text))]
pub fn write_line(line: &Line, out: &mut Vec<u8>) -> Result<(), AllocError>
    ensures appended { OnOk result (out.new.items ≡ out.old.items ++ written line.now) }
    ensures err { OnErr result (out.new.items ≡ out.old.items) }
    ensures room { HasRoomFor out.old (written line.now) → IsOk result }
    ensures keeps { KeepsRoom out.old out.new }
{
    write_property(
        line.name.as_str(),
        &line.params,
        line.value.as_str().as_bytes(),
        out,
    )
}

/// Appends the line made of a name, parameters and a value, with its breaks.
fn write_property(
    name: &str,
    params: &Params,
    value: &[u8],
    out: &mut Vec<u8>,
) -> Result<(), AllocError>
    ensures appended { OnOk result (out.new.items ≡ out.old.items ++ folded 0 (line_text name.now params.now value.now)) }
    ensures err { OnErr result (out.new.items ≡ out.old.items) }
    ensures room { HasRoomFor out.old (folded 0 (line_text name.now params.now value.now)) → IsOk result }
    ensures keeps { KeepsRoom out.old out.new }
{
    write_parts(name, params.as_str().as_bytes(), value, out)
}

/// Appends the line made of a name, parameters and a value, with its breaks, as `write_line` does (RFC 5545 3.1).
///
/// `params` is the text of the parameters, as `Params::as_str` returns it or `write_param` appends it; empty if there are none.
/// If an allocation fails, `out` is left unchanged. Nothing is allocated if `out` has room for the line.
pub fn write_parts(
    name: &str,
    params: &[u8],
    value: &[u8],
    out: &mut Vec<u8>,
) -> Result<(), AllocError>
    ensures appended { OnOk result (out.new.items ≡ out.old.items ++ folded 0 (name.now ++ (params.now ++ 58 ∷ value.now))) }
    ensures err { OnErr result (out.new.items ≡ out.old.items) }
    ensures room { HasRoomFor out.old (folded 0 (name.now ++ (params.now ++ 58 ∷ value.now))) → IsOk result }
    ensures keeps { KeepsRoom out.old out.new }
{
    let start = out.len();
    let done = write_all(name, params, value, out);
    if done.is_err() {
        out.truncate(start);
    }
    done
}

/// Appends a line with its breaks. If an allocation fails, a part of it may have been appended.
fn write_all(name: &str, params: &[u8], value: &[u8], out: &mut Vec<u8>) -> Result<(), AllocError>
    ensures appended { OnOk result (out.new.items ≡ out.old.items ++ folded 0 (name.now ++ (params.now ++ 58 ∷ value.now))) }
    ensures extends { Extends out.old.items out.new.items }
    ensures room { HasRoomFor out.old (folded 0 (name.now ++ (params.now ++ 58 ∷ value.now))) → IsOk result }
    ensures keeps { KeepsRoom out.old out.new }
{
    let used = write_octets(name.as_bytes(), 0, out)?;
    let used = write_octets(params, used, out)?;
    let used = write_octet(b':', used, out)?;
    write_octets(value, used, out)?;
    out.extend_from_slice(b"\r\n")
}

/// Appends a line with its breaks. `text` is the line without folds and line break.
///
/// If an allocation fails, a part of the line may have been appended. Nothing is allocated if `out` has room for it.
pub fn write_text(text: &str, out: &mut Vec<u8>) -> Result<(), AllocError>
    ensures appended { OnOk result (out.new.items ≡ out.old.items ++ folded 0 text.now) }
    ensures room { HasRoomFor out.old (folded 0 text.now) → IsOk result }
    ensures keeps { KeepsRoom out.old out.new }
{
    write_octets(text.as_bytes(), 0, out)?;
    out.extend_from_slice(b"\r\n")
}

/// Appends the text of a parameter with one value, without folds: `;`, its name, `=`, and the value, in quotes if it
/// has `;`, `:` or `,`.
///
/// If an allocation fails, a part of the parameter may have been appended. Nothing is allocated if `out` has room for it.
pub fn write_param(name: &str, value: &str, out: &mut Vec<u8>) -> Result<(), AllocError>
    ensures appended { OnOk result (out.new.items
        ≡ out.old.items ++ params_text ((record { name = name.now; values = value.now ∷ [] }) ∷ [])) }
    ensures room { HasRoomFor out.old (params_text ((record { name = name.now; values = value.now ∷ [] }) ∷ [])) → IsOk result }
    ensures keeps { KeepsRoom out.old out.new }
{
    out.push(b';')?;
    out.extend_from_slice(name.as_bytes())?;
    out.push(b'=')?;
    push_value(value.as_bytes(), out)
}

/// Appends a parameter value without folds, in quotes if it needs them.
pub(crate) fn push_value(value: &[u8], out: &mut Vec<u8>) -> Result<(), AllocError>
    ensures appended { OnOk result (out.new.items ≡ out.old.items ++ value_text value.now) }
    ensures room { HasRoomFor out.old (value_text value.now) → IsOk result }
    ensures keeps { KeepsRoom out.old out.new }
{
    if !has_separator(value) {
        return out.extend_from_slice(value);
    }
    out.push(b'"')?;
    out.extend_from_slice(value)?;
    out.push(b'"')?;
    Ok(())
}

fn has_separator(octets: &[u8]) -> bool
    ensures { result ≡ list_any is_separator octets.now }
{
    octets.iter().any(|b| is_separator(*b))
}

/// Appends octets after `used` octets of a piece, with a fold before each sequence that would end past its 75 octets. Returns the
/// length of the last piece.
fn write_octets(octets: &[u8], used: usize, out: &mut Vec<u8>) -> Result<usize, AllocError>
    requires { used ≤ 75 }
    ensures wrote { IfOk result (Writes out.old.items used octets.now out.new.items) }
    ensures extends { Extends out.old.items out.new.items }
    ensures room { HasRoomFor out.old (folded used octets.now) → IsOk result }
    ensures keeps { KeepsRoom out.old out.new }
{
    // Fewer octets fit on the piece, whatever their sequences are.
    if octets.len() >= (PIECE - 2).saturating_sub(used) {
        return write_each(octets, used, out);
    }
    out.extend_from_slice(octets)?;
    Ok(used + octets.len())
}

/// Appends octets one by one, each after a fold if it needs one.
fn write_each(octets: &[u8], mut used: usize, out: &mut Vec<u8>) -> Result<usize, AllocError>
    requires { used ≤ 75 }
    ensures wrote { IfOk result (Writes out.old.items used octets.now out.new.items) }
    ensures extends { Extends out.old.items out.new.items }
    ensures room { HasRoomFor out.old (folded used octets.now) → IsOk result }
    ensures keeps { KeepsRoom out.old out.new }
{
    for octet in octets {
        used = write_octet(*octet, used, out)?;
    }
    Ok(used)
}

/// Appends an octet, after a fold if its sequence would end past the 75 octets of a piece.
fn write_octet(octet: u8, used: usize, out: &mut Vec<u8>) -> Result<usize, AllocError>
    requires { used ≤ 75 }
    ensures wrote { IfOk result (Writes out.old.items used (octet ∷ []) out.new.items) }
    ensures extends { Extends out.old.items out.new.items }
    ensures room { HasRoomFor out.old (folded used (octet ∷ [])) → IsOk result }
    ensures keeps { KeepsRoom out.old out.new }
{
    if used + 1 + following(octet) <= PIECE {
        out.push(octet)?;
        return Ok(used + 1);
    }
    out.extend_from_slice(&[b'\r', b'\n', b' ', octet])?;
    Ok(2)
}

/// The number of octets that follow in the UTF-8 sequence that the octet begins, 0 if it begins none.
fn following(octet: u8) -> usize
    ensures { result ≡ following octet }
{
    match octet {
        0..=191 => 0,
        192..=223 => 1,
        224..=239 => 2,
        _ => 3,
    }
}
