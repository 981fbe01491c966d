//! Cutting a text of many messages, such as a delta, into messages. Nothing is copied: each is a slice of the text.
ghost use Rattle.std.specs.Prelude.{◌≡◌, ◌<◌, ◌≤◌, ℕ, List, [], length, MatchOption, IfSome, IfNone, IfOk, IfErr, IsOk};
ghost use Rattle.itip_message.specs.Begun.{IsBegun};
ghost use Rattle.itip_message.specs.Scanned.{begins_blank, line_length, is_return, says, said, is_empty, ends_calendar};
ghost use Rattle.itip_message.specs.Scanned.{messages_of, CutsMessage, StaysCut};
ghost use Rattle.itip_message.specs.Passing.{IsFirstLine, StaysFirstLine, SaysFirst, is_left_out};
ghost use Rattle.itip_message.specs.Parting.{ClosesLine};
ghost use Rattle.itip_lines.specs.UnfoldedLines.{is_blank};

use crate::begun::BegunMessage;
use itip_lines::cut_lf;

const CR: u8 = b'\r';

pub(crate) const LF: u8 = b'\n';

/// Returns the first message of some bytes and what follows it, or `None` if there is none. Empty lines alone are no message.
///
/// A message ends after its line END:VCALENDAR, unfolded and regardless of case, or where the bytes end.
pub fn next_message(bytes: &[u8]) -> Option<(&[u8], &[u8])>
    ensures { MatchOption result (messages_of bytes.now ≡ []) (λ cut. CutsMessage bytes.now cut.0.now cut.1.now) }
{
    let mut rest = bytes;
    let mut all_empty = true;
    while let Some((line, after)) = first_line(rest) {
        if ends_calendar(line) {
            let message = &bytes[..bytes.len() - after.len()];
            return Some((message, after));
        }
        all_empty = all_empty && is_empty(line);
        rest = after;
    }
    if all_empty { None } else { Some((bytes, &[])) }
}

/// Returns the first message of some bytes that others may follow, and what comes after it. The error is what is known of the message
/// that the bytes begin, if its end isn't known yet: a line is known to be complete only if a byte after it shows that no fold continues
/// it.
///
/// A message is returned whenever there is one that is the same whatever follows.
pub fn cut_message(bytes: &[u8]) -> Result<(&[u8], &[u8]), BegunMessage<'_>>
    ensures cut { IfOk result (λ cut. StaysCut bytes.now cut.0.now cut.1.now) }
    ensures finds { (message after : List ℕ) → StaysCut bytes.now message after → IsOk result }
    ensures begun { IfErr result IsBegun }
    ensures octets { IfErr result (λ message. message.octets.now ≡ bytes.now) }
{
    let mut rest = bytes;
    let mut all_empty = true;
    while let Some((line, after)) = whole_line(rest) {
        if ends_calendar(line) {
            let message = &bytes[..bytes.len() - after.len()];
            return Ok((message, after));
        }
        all_empty = all_empty && is_empty(line);
        rest = after;
    }
    Err(BegunMessage {
        octets: bytes,
        all_empty,
        line: rest,
    })
}

/// The first line as it came, with its folds and its break, and what follows it, if a byte after it shows that it is complete.
pub(crate) fn whole_line(bytes: &[u8]) -> Option<(&[u8], &[u8])>
    ensures stays { IfSome result (λ cut. StaysFirstLine bytes.now cut.0.now cut.1.now) }
    ensures shorter { IfSome result (λ cut. length cut.1.now < length bytes.now) }
    ensures some { IfSome result (λ cut. 0 < length cut.1.now) }
    ensures ends { IfSome result (λ cut. ClosesLine cut.0.now cut.1.now) }
    ensures goes_on { IfNone result (line_length bytes.now ≡ length bytes.now) }
{
    let end = line_length(bytes);
    if end < bytes.len() {
        Some((&bytes[..end], &bytes[end..]))
    } else {
        None
    }
}

/// The first line as it came, with its folds and its break, and what follows it.
fn first_line(bytes: &[u8]) -> Option<(&[u8], &[u8])>
    ensures { MatchOption result (bytes.now ≡ []) (λ cut. IsFirstLine bytes.now cut.0.now cut.1.now) }
{
    if bytes.is_empty() {
        return None;
    }
    let end = line_length(bytes);
    Some((&bytes[..end], &bytes[end..]))
}

fn line_length(bytes: &[u8]) -> usize
    ensures exact { result ≡ line_length bytes.now }
    ensures within { result ≤ length bytes.now }
{
    let mut rest = bytes;
    while let Some((_, after)) = cut_lf(rest) {
        if !begins_blank(after) {
            return bytes.len() - after.len();
        }
        rest = after;
    }
    bytes.len()
}

fn begins_blank(bytes: &[u8]) -> bool
    ensures { result ≡ begins_blank bytes.now }
{
    match bytes {
        [b, ..] => is_blank(*b),
        [] => false,
    }
}

fn is_blank(b: u8) -> bool
    ensures { result ≡ is_blank b }
{
    b == b' ' || b == b'\t'
}

/// Whether byte `b`, followed by `after`, is the CR of a line break.
fn is_return(b: u8, after: &[u8]) -> bool
    ensures { result ≡ is_return b after.now }
{
    match after {
        [c, ..] => b == CR && *c == LF,
        [] => false,
    }
}

/// Whether a line, unfolded and regardless of case, is END:VCALENDAR.
pub(crate) fn ends_calendar(line: &[u8]) -> bool
    ensures { result ≡ ends_calendar line.now }
{
    says(line, b"END:VCALENDAR")
}

fn is_empty(line: &[u8]) -> bool
    ensures { result ≡ is_empty line.now }
{
    says(line, b"")
}

/// Whether a line, unfolded and without its break, is `word` regardless of case. `word` is in upper case.
fn says(line: &[u8], word: &[u8]) -> bool
    ensures { result ≡ says line.now word.now }
{
    let mut left = word;
    let mut rest = line;
    while let Some((b, after)) = first_said(rest) {
        let [first, others @ ..] = left else {
            return false;
        };
        if b.to_ascii_uppercase() != *first {
            return false;
        }
        rest = after;
        left = others;
    }
    left.is_empty()
}

/// The first byte that a line says, and what follows it; `None` if it says nothing.
fn first_said(line: &[u8]) -> Option<(u8, &[u8])>
    ensures { MatchOption result (said line.now ≡ []) (λ cut. SaysFirst line.now cut.0 cut.1.now) }
{
    // Looking at these bytes is cheaper than the loop, and a text may be nothing but empty lines.
    match line {
        [] | [LF] | [CR, LF] => None,
        [b, after @ ..] if !is_left_out(*b, false, after) => Some((*b, after)),
        _ => search_said(line),
    }
}

/// The same as [`first_said`], byte by byte.
fn search_said(line: &[u8]) -> Option<(u8, &[u8])>
    ensures { MatchOption result (said line.now ≡ []) (λ cut. SaysFirst line.now cut.0 cut.1.now) }
{
    let mut rest = line;
    let mut is_behind = false;
    while let [b, after @ ..] = rest {
        if !is_left_out(*b, is_behind, after) {
            return Some((*b, after));
        }
        is_behind = *b == LF;
        rest = after;
    }
    None
}

/// Whether a byte is part of a line break, or is a blank, if `is_behind` says that a line break comes before it.
pub(crate) fn is_left_out(b: u8, is_behind: bool, after: &[u8]) -> bool
    ensures { result ≡ is_left_out b is_behind after.now }
{
    b == LF || is_return(b, after) || (is_behind && is_blank(b))
}
