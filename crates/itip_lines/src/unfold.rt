//! From a text to its unfolded lines: a line break followed by a blank goes with that blank (RFC 5545 3.1).
ghost use Rattle.std.specs.Prelude.{◌≡◌, ◌+◌, ◌<◌, ◌≤◌, ◌++◌, ◌∷◌, IfOk, MatchOption, List, ℕ, length};
ghost use Rattle.memchr.specs.Find.{IsFirstByte, is_byte};
ghost use Rattle.itip_lines.specs.UnfoldedLines.{HasNoLf, text_at};
ghost use Rattle.itip_lines.specs.Stretches.{StripsCr, LacksBlank, BeginsWithBlank};
ghost use Rattle.itip_lines.specs.Stretches.{stretches_of, stretches_behind, length_behind, texts_onto, texts_behind};
ghost use Rattle.itip_lines.specs.UnfoldSteps.{texts_by, left_behind, left_by, last_number, last_behind, last_by, number_limit};

use memchr::memchr;
use std::alloc::{AllocError, Global};

/// What is left of a text, and the number of its first physical line, from 1.
#[derive(Clone, Copy)]
pub(crate) struct Rest<'a> {
    pub number: usize,
    pub text: &'a [u8],
}

/// How a stretch of a text ends, with what is left after it.
#[derive(Drop)]
pub(crate) enum End<'a> {
    /// At a fold: a line break and one blank.
    Fold(Rest<'a>),
    /// At a line break, or at the end of the text.
    Line(Option<Rest<'a>>),
}

/// What comes before the first LF, and what comes after it. `None` if there is no LF.
pub fn cut_lf(text: &[u8]) -> Option<(&[u8], &[u8])>
    ensures { MatchOption result (HasNoLf text.now)
        (λ p. HasNoLf p.0.now × (text.now ≡ p.0.now ++ 10 ∷ p.1.now)) }
{
    let at = find_lf(text)?;
    Some((&text[..at], &text[at + 1..]))
}

fn find_lf(text: &[u8]) -> Option<usize>
    ensures { IsFirstByte (is_byte 10) text.now result }
{
    // Looking at these octets is cheaper than a search, and a text may be nothing but empty lines or folds.
    match text {
        [b'\n', ..] => Some(0),
        [_, b'\n', ..] => Some(1),
        [_, _, b'\n', ..] => Some(2),
        _ => memchr(b'\n', text),
    }
}

/// A stretch that LF ends, without the CR before that LF, if any.
fn strip_cr(stretch: &[u8]) -> &[u8]
    ensures { StripsCr stretch.now result.now }
{
    match stretch {
        [front @ .., b'\r'] => front,
        _ => stretch,
    }
}

/// The stretch before the first line break, and what follows that break.
fn cut_break(text: &[u8]) -> (&[u8], Option<&[u8]>)
    ensures stretches { stretches_of text.now ≡ result.0.now ∷ stretches_behind result.1 }
    ensures shorter { length_behind result.1 < length text.now + 1 }
{
    match cut_lf(text) {
        Some((front, after)) => (strip_cr(front), Some(after)),
        None => (text, None),
    }
}

/// What follows the blank, if a text begins with one.
fn strip_blank(text: &[u8]) -> Option<&[u8]>
    ensures { MatchOption result (LacksBlank text.now) (λ more. BeginsWithBlank text.now more.now) }
{
    match text {
        [b' ' | b'\t', more @ ..] => Some(more),
        _ => None,
    }
}

/// The first physical line of what is left, without its break, and how it ends.
pub(crate) fn cut_stretch(rest: Rest<'_>) -> (&[u8], End<'_>)
    requires { last_number rest ≤ number_limit }
    ensures lines { (at : ℕ) (line : List ℕ)
        → texts_onto at line rest.entry.number rest.entry.text.now ≡ texts_by at (line ++ result.0.now) result.1 }
    ensures shorter { left_by result.1 < length rest.entry.text.now + 1 }
    ensures within { last_by result.1 ≤ last_number rest.entry }
{
    let (stretch, after) = cut_break(rest.text);
    let Some(behind) = after else {
        return (stretch, End::Line(None));
    };
    let number = rest.number + 1;
    match strip_blank(behind) {
        Some(text) => (stretch, End::Fold(Rest { number, text })),
        None => (
            stretch,
            End::Line(Some(Rest {
                number,
                text: behind,
            })),
        ),
    }
}

/// The line that begins with a stretch and continues, after a fold, with `more`; and what is left after it.
pub(crate) fn unfold<'a>(
    alloc: Global,
    stretch: &[u8],
    more: Rest<'a>,
) -> Result<(Vec<u8>, Option<Rest<'a>>), AllocError>
    requires { last_number more ≤ number_limit }
    ensures lines { IfOk result (λ r. (at : ℕ)
        → texts_onto at stretch.now more.entry.number more.entry.text.now ≡ text_at at r.0.items ∷ texts_behind r.1) }
    ensures shorter { IfOk result (λ r. left_behind r.1 < length more.entry.text.now + 1) }
    ensures within { IfOk result (λ r. last_behind r.1 ≤ last_number more.entry) }
{
    let mut line = stretch.to_vec(alloc)?;
    let mut rest = more;
    loop {
        let (stretch, end) = cut_stretch(rest);
        line.extend_from_slice(stretch)?;
        match end {
            End::Fold(next) => rest = next,
            End::Line(after) => return Ok((line, after)),
        }
    }
}
