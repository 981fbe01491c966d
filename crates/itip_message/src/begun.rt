//! A message of which only the beginning has arrived, and the few bytes that stand in for a long one.
ghost use Rattle.std.specs.Prelude.{◌≡◌, ◌≤◌, ◌∷◌, ◌++◌, [], ℕ, List, true, false, length, MatchOption, IfOk};
ghost use Rattle.itip_message.specs.Begun.{begun_line, break_before, few_octets, stand_in_limit};
ghost use Rattle.itip_message.specs.Begun.{IsBegun, IsSaid, PassesLine, SaysTheSame, StandsIn};

use crate::cutting::{LF, is_left_out};
use std::alloc::{AllocError, Global};

/// The beginning of a message whose end isn't known yet, or empty lines.
#[derive(Clone, Copy)]
pub struct BegunMessage<'a> {
    /// All bytes so far.
    pub octets: &'a [u8],
    /// Whether the lines before the last are all empty.
    pub all_empty: bool,
    /// The last line, with its folds. It may go on.
    pub line: &'a [u8],
}

/// A line up to its last byte.
#[derive(Clone, Copy)]
pub(crate) struct LineFront {
    /// What it says before its last byte: a prefix of END:VCALENDAR, regardless of case, or one other text for anything else.
    pub said: &'static [u8],
    /// Whether the last byte follows a line break.
    pub is_behind: bool,
    pub last: u8,
}

/// Returns at most 20 bytes that stand in for a begun message of [`cut_message`](crate::cut_message): whatever follows, they are cut into
/// the same messages as its bytes, except for the first.
pub fn stand_in(alloc: Global, message: &BegunMessage<'_>) -> Result<Vec<u8>, AllocError>
    ensures stands { IfOk result (λ few. IsBegun message.now → StandsIn message.now.octets.now few.items) }
    ensures few { IfOk result (λ few. length few.items ≤ stand_in_limit) }
{
    match line_front(message.line) {
        Some(front) => few_octets(alloc, message.all_empty, front),
        None => Ok(Vec::new(alloc)),
    }
}

fn few_octets(alloc: Global, all_empty: bool, front: LineFront) -> Result<Vec<u8>, AllocError>
    ensures { IfOk result (λ few. few.items ≡ few_octets all_empty front) }
{
    let mut few = Vec::from_slice(alloc, begun_line(all_empty))?;
    few.extend_from_slice(front.said)?;
    few.extend_from_slice(break_before(front.is_behind))?;
    few.push(front.last)?;
    Ok(few)
}

/// A line that goes on and says nothing yet, after one that says something unless all are to be empty.
fn begun_line(all_empty: bool) -> &'static [u8]
    ensures { result.now ≡ begun_line all_empty }
{
    if all_empty { b"\n " } else { b"X\n\n " }
}

fn break_before(is_behind: bool) -> &'static [u8]
    ensures { result.now ≡ break_before is_behind }
{
    if is_behind { b"\n" } else { b"" }
}

/// Reads a line up to its last byte. Returns `None` if it is empty.
fn line_front(line: &[u8]) -> Option<LineFront>
    ensures { MatchOption result (line.now ≡ []) (λ front. PassesLine line.now front.said.now front.is_behind (front.last ∷ [])) }
{
    let mut said: &'static [u8] = b"";
    let mut is_behind = false;
    let mut rest = line;
    while let [b, after @ ..] = rest {
        if after.is_empty() {
            return Some(LineFront {
                said,
                is_behind,
                last: *b,
            });
        }
        said = said_with(said, *b, is_left_out(*b, is_behind, after));
        is_behind = *b == LF;
        rest = after;
    }
    None
}

/// What is said with one more byte, which may be left out.
fn said_with(said: &'static [u8], octet: u8, is_out: bool) -> &'static [u8]
    requires { IsSaid said.now }
    ensures said { IsSaid result.now }
    ensures out { is_out ≡ true → result.now ≡ said.now }
    ensures same { is_out ≡ false → (more : List ℕ) → SaysTheSame (said.now ++ octet ∷ more) (result.now ++ more) }
{
    if is_out { said } else { said_then(said, octet) }
}

fn said_then(said: &'static [u8], octet: u8) -> &'static [u8]
    requires { IsSaid said.now }
    ensures said { IsSaid result.now }
    ensures same { (more : List ℕ) → SaysTheSame (said.now ++ octet ∷ more) (result.now ++ more) }
{
    let end: &'static [u8] = b"END:VCALENDAR";
    let count = said.len();
    if count < end.len() && end[count] == octet.to_ascii_uppercase() {
        &end[..count + 1]
    } else {
        b"SOMETHING ELSE"
    }
}
