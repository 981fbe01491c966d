//! Reading a text of content lines.
ghost use Rattle.std.specs.Prelude.{◌≡◌, ◌+◌, ◌<◌, ◌≤◌, ◌↔◌, IsTrue, OnOk, IfOk, IfErr, Some, length};
ghost use Rattle.std.specs.Str.{IsUtf8};
ghost use Rattle.itip_lines.specs.UnfoldedLines.{text_at};
ghost use Rattle.itip_lines.specs.Reading.{Reads, Refused, IfRefused, HasRefusal};
ghost use Rattle.itip_lines.specs.SeenOctets.{octets_of};
ghost use Rattle.itip_lines.specs.Stretches.{texts_behind};
ghost use Rattle.itip_lines.specs.UnfoldSteps.{AreUtf8, PushesLine, ReadsNext, HasNextRefusal, last_number, number_limit};
ghost use Rattle.itip_lines.specs.declared.error.LineError.TheVariants as error;

use crate::error::{LineCause, LineError, LineRefusal};
use crate::grammar::read_text;
use crate::line::NumberedLine;
use crate::line_octets::LineOctets;
use crate::unfold::{End, Rest, cut_stretch, unfold};
use simdutf8::is_utf8;
use std::alloc::Global;

/// The maximum length of a text, in octets (our own limit).
const TEXT_LIMIT: usize = 1_048_576;
/// The maximum number of lines in a text, empty ones not counted (our own limit).
const COUNT_LIMIT: usize = 20_000;
/// The maximum length of an unfolded line without its break, in octets (our own limit).
const LINE_LIMIT: usize = 65_536;

/// Room for as many lines as most messages have.
const USUAL: usize = 20;

/// Parses the content lines of a text (RFC 5545 3.1): unfolded, in order, without empty ones, each with the number of the
/// physical line where it begins.
///
/// A line break is LF or CRLF; one before SPACE or HTAB is a fold. A line borrows from the text if the text has it exactly as it is
/// written without folds. A text of more than 1,048,576 octets is refused as `TooLong` without being looked at. Otherwise the first
/// faulty line decides: `TooMany` if it is beyond the 20,000th or has more than 65,536 octets, else `NotUtf8`, else `BadLine`. Fails with
/// `NoMemory` if an allocation fails.
pub fn read_lines(alloc: Global, text: &[u8]) -> Result<Vec<NumberedLine<'_>>, LineError>
    ensures found { IfOk result (λ lines. Reads text.now lines.items) }
    ensures refused { IfErr result (λ e. IfRefused e (Refused text.now)) }
{
    if text.len() > TEXT_LIMIT {
        return Err(LineError::Refused(LineRefusal {
            cause: LineCause::TooLong,
            line: None,
        }));
    }
    let utf8 = is_utf8(text);
    let lines = Vec::with_capacity(alloc, USUAL)?;
    let mut read = LinesRead {
        lines,
        params: Vec::new(alloc),
    };
    let mut rest = Some(Rest { number: 1, text });
    while let Some(left) = rest {
        rest = read_next(alloc, left, utf8, &mut read)?;
    }
    Ok(read.lines)
}

/// The lines read so far.
#[derive(Drop)]
pub(crate) struct LinesRead<'a> {
    pub lines: Vec<NumberedLine<'a>>,
    /// Scratch space for the parameters of a line.
    pub params: Vec<u8>,
}

/// Reads the first unfolded line of what is left of a text, and returns what is left after it. `utf8` says whether the
/// whole text is UTF-8.
fn read_next<'a>(
    alloc: Global,
    left: Rest<'a>,
    utf8: bool,
    read: &mut LinesRead<'a>,
) -> Result<Option<Rest<'a>>, LineError>
    requires within { last_number left ≤ number_limit }
    requires utf8 { IsTrue utf8 → AreUtf8 (texts_behind (Some left)) }
    ensures next { IfOk result (ReadsNext left.entry read.old.lines.items read.new.lines.items) }
    ensures refused { IfErr result (λ e. IfRefused e (HasNextRefusal left.entry read.old.lines.items)) }
{
    let (stretch, end) = cut_stretch(left);
    match end {
        End::Line(after) => {
            let text = LineOctets::InText(stretch);
            push_line(alloc, left.number, text, utf8, read)?;
            Ok(after)
        }
        End::Fold(more) => {
            let (line, after) = unfold(alloc, stretch, more)?;
            push_line(alloc, left.number, LineOctets::Own(line), utf8, read)?;
            Ok(after)
        }
    }
}

/// Parses an unfolded line that begins in physical line `number`, and appends it. An empty one is left out.
fn push_line<'a>(
    alloc: Global,
    number: usize,
    text: LineOctets<'a>,
    utf8: bool,
    read: &mut LinesRead<'a>,
) -> Result<(), LineError>
    requires { IsTrue utf8 → IsUtf8 (octets_of text) }
    ensures pushed { OnOk result (PushesLine read.old.lines.items (text_at number (octets_of text.entry)) read.new.lines.items) }
    ensures refused { IfErr result (λ e. IfRefused e (λ refusal.
        (0 < length (octets_of text.entry))
        × HasRefusal (length read.old.lines.items + 1) (text_at number (octets_of text.entry)) refusal)) }
{
    let octets = text.as_slice();
    if octets.is_empty() {
        return Ok(());
    }
    if read.lines.len() >= COUNT_LIMIT || octets.len() > LINE_LIMIT {
        return Err(refused(LineCause::TooMany, number));
    }
    if !is_line_utf8(octets, utf8) {
        return Err(refused(LineCause::NotUtf8, number));
    }
    let Some(line) = read_text(alloc, text, &mut read.params)? else {
        return Err(refused(LineCause::BadLine, number));
    };
    read.lines.push(NumberedLine { number, line })?;
    Ok(())
}

/// Whether a line is UTF-8. An unfolded line may be UTF-8 where the whole text is not, but not the other way round.
fn is_line_utf8(line: &[u8], whole: bool) -> bool
    requires { IsTrue whole → IsUtf8 line.now }
    ensures { IsTrue result ↔ IsUtf8 line.now }
{
    whole || is_utf8(line)
}

fn refused(cause: LineCause, number: usize) -> LineError
    ensures { result ≡ error.Refused (record { cause = cause; line = Some number }) }
{
    LineError::Refused(LineRefusal {
        cause,
        line: Some(number),
    })
}
