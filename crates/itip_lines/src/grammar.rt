//! The grammar of one unfolded line.
ghost use Rattle.std.specs.Prelude.{◌≡◌, ◌≢◌, ◌≤◌, ◌∷◌, ◌++◌, [], ℕ, List, IsTrue, IfOk, OnOk, length, map, MatchOption};
ghost use Rattle.std.specs.Char.{to_ascii_uppercase};
ghost use Rattle.std.specs.List.{list_all, prefix_len};
ghost use Rattle.std.specs.Str.{IsUtf8, str_to_ascii_uppercase};
ghost use Rattle.itip_lines.specs.Octets.{is_upper_name_octet, is_name_octet, is_value_octet, is_separator};
ghost use Rattle.itip_lines.specs.Lawful.{line_limit};
ghost use Rattle.itip_lines.specs.SeenOctets.{octets_of};
ghost use Rattle.itip_lines.specs.Spelling.{Spells};
ghost use Rattle.itip_lines.specs.Parts.{is_of, begins, ends_param, IsRun, CutsValue, LacksValue, LacksValues, WritesValues};
ghost use Rattle.itip_lines.specs.Parts.{LacksParam, WritesParam, LacksTail, WritesTail, LacksLine};
ghost use Rattle.itip_lines.specs.Finding.{or_anew, IsFoundIn};

use crate::line_octets::LineOctets;
use crate::seen_line::SeenLine;
use crate::write::push_value;
use std::alloc::{AllocError, Global};

/// The octets that a part of a line may have.
#[derive(Clone, Copy)]
pub(crate) enum Octets {
    /// A name: letters, digits and `-`.
    Name,
    /// A parameter value without quotes.
    Plain,
    /// A parameter value between quotes.
    Quotable,
}

fn is_upper_name_octet(octet: u8) -> bool
    ensures { result ≡ is_upper_name_octet octet }
{
    octet.is_ascii_uppercase() || octet.is_ascii_digit() || octet == b'-'
}

fn is_name_octet(octet: u8) -> bool
    ensures { result ≡ is_name_octet octet }
{
    is_upper_name_octet(octet) || octet.is_ascii_lowercase()
}

fn is_value_octet(octet: u8) -> bool
    ensures { result ≡ is_value_octet octet }
{
    (octet == b'\t') | ((octet >= b' ') & (octet != 127))
}

/// Whether the value of a line may have all of these octets.
fn are_value_octets(octets: &[u8]) -> bool
    ensures { result ≡ list_all is_value_octet octets.now }
{
    // Without an early exit, several octets are tested at a time.
    let mut all = true;
    for octet in octets {
        all &= is_value_octet(*octet);
    }
    all
}

/// Whether a parameter value with this octet needs quotes.
pub(crate) fn is_separator(octet: u8) -> bool
    ensures { result ≡ is_separator octet }
{
    octet == b';' || octet == b':' || octet == b','
}

impl Octets {
    fn has(self, octet: u8) -> bool
        ensures { result ≡ is_of self octet }
    {
        match self {
            Octets::Name => is_name_octet(octet),
            Octets::Plain => is_value_octet(octet) && octet != b'"' && !is_separator(octet),
            Octets::Quotable => is_value_octet(octet) && octet != b'"',
        }
    }
}

/// The length of the longest prefix of such octets.
fn run_len(text: &[u8], octets: Octets) -> usize
    ensures { result ≡ prefix_len (is_of octets) text.now }
{
    text.iter().take_while(|b| octets.has(**b)).count()
}

/// The longest prefix of such octets, and the rest.
pub(crate) fn cut_run(text: &[u8], octets: Octets) -> (&[u8], &[u8])
    ensures { IsRun (is_of octets) text.now result.0.now result.1.now }
{
    text.split_at(run_len(text, octets))
}

/// What follows the octet, if the text begins with it.
pub(crate) fn strip(text: &[u8], octet: u8) -> Option<&[u8]>
    ensures { MatchOption result ((rest : List ℕ) → text.now ≢ octet ∷ rest)
        (λ rest. text.now ≡ octet ∷ rest.now) }
{
    match text {
        [first, rest @ ..] if *first == octet => Some(rest),
        _ => None,
    }
}

/// The parameter value that the text begins with, without its quotes, and the rest.
///
/// A value without quotes extends as far as it can, so there is at most one.
fn cut_value(text: &[u8]) -> Option<(&[u8], &[u8])>
    ensures { MatchOption result (LacksValue text.now) (λ p. CutsValue text.now p.0.now p.1.now) }
{
    let Some(quoted) = strip(text, b'"') else {
        return Some(cut_run(text, Octets::Plain));
    };
    let (value, behind) = cut_run(quoted, Octets::Quotable);
    let Some(rest) = strip(behind, b'"') else {
        return None;
    };
    Some((value, rest))
}

/// Whether the text begins with `;` or `:`.
fn ends_param(text: &[u8]) -> bool
    ensures { result ≡ begins ends_param text.now }
{
    matches!(text, [b';' | b':', ..])
}

/// Appends the parameter values that the text begins with, up to `;` or `:`, and returns the rest. Returns `None` if it does
/// not begin with such values; some of them may have been appended then.
fn read_values<'a>(text: &'a [u8], out: &mut Vec<u8>) -> Result<Option<&'a [u8]>, AllocError>
    requires { IsUtf8 text.now }
    ensures { IfOk result (λ o. MatchOption o (LacksValues text.now)
        (λ rest. WritesValues text.now rest.now out.old.items out.new.items)) }
{
    let mut rest = text;
    loop {
        let Some((value, behind)) = cut_value(rest) else {
            return Ok(None);
        };
        push_value(value, out)?;
        if let Some(more) = strip(behind, b',') {
            out.push(b',')?;
            rest = more;
        } else if ends_param(behind) {
            return Ok(Some(behind));
        } else {
            return Ok(None);
        }
    }
}

/// Appends the octets, with ASCII letters in upper case.
fn push_upper(text: &[u8], out: &mut Vec<u8>) -> Result<(), AllocError>
    ensures { OnOk result (out.new.items ≡ out.old.items ++ map to_ascii_uppercase text.now) }
{
    for octet in text {
        out.push(octet.to_ascii_uppercase())?;
    }
    Ok(())
}

/// Appends `;`, a name in upper case, and `=`.
fn push_name(name: &[u8], out: &mut Vec<u8>) -> Result<(), AllocError>
    ensures { OnOk result (out.new.items ≡ out.old.items ++ 59 ∷ (str_to_ascii_uppercase name.now ++ 61 ∷ [])) }
{
    out.push(b';')?;
    push_upper(name, out)?;
    out.push(b'=')?;
    Ok(())
}

/// Appends the parameter that the text begins with, and returns the rest. Returns `None` if it does not begin with one; a
/// part of it may have been appended then.
fn read_param<'a>(text: &'a [u8], out: &mut Vec<u8>) -> Result<Option<&'a [u8]>, AllocError>
    requires { IsUtf8 text.now }
    ensures { IfOk result (λ o. MatchOption o (LacksParam text.now)
        (λ rest. WritesParam text.now rest.now out.old.items out.new.items)) }
{
    let (spelled, behind) = cut_run(text, Octets::Name);
    let Some(after) = strip(behind, b'=') else {
        return Ok(None);
    };
    if spelled.is_empty() {
        return Ok(None);
    }
    push_name(spelled, out)?;
    let Some(rest) = read_values(after, out)? else {
        return Ok(None);
    };
    Ok(Some(rest))
}

/// The value of a line, from what follows its name. The contents of `params` are replaced by the parameters as they are written;
/// if `None` is returned, perhaps by a part of them.
fn read_tail<'a>(text: &'a [u8], params: &mut Vec<u8>) -> Result<Option<&'a [u8]>, AllocError>
    requires { IsUtf8 text.now }
    ensures { IfOk result (λ o. MatchOption o (LacksTail text.now) (λ value. WritesTail text.now value.now params.new.items)) }
{
    params.clear();
    let mut rest = text;
    while let Some(after) = strip(rest, b';') {
        let Some(behind) = read_param(after, params)? else {
            return Ok(None);
        };
        rest = behind;
    }
    let Some(value) = strip(rest, b':') else {
        return Ok(None);
    };
    if !are_value_octets(value) {
        return Ok(None);
    }
    Ok(Some(value))
}

/// Whether a name has no lower-case letters.
fn is_upper(name: &[u8]) -> bool
    ensures { result ≡ list_all is_upper_name_octet name.now }
{
    name.iter().all(|octet| is_upper_name_octet(*octet))
}

/// Whether a text is these parameters, `:` and this value.
fn is_tail(text: &[u8], params: &[u8], value: &[u8]) -> bool
    ensures { IsTrue result → text.now ≡ params.now ++ 58 ∷ value.now }
{
    match text.strip_prefix(params) {
        Some(behind) => is_value(behind, value),
        None => false,
    }
}

/// Whether a text is `:` and this value.
fn is_value(text: &[u8], value: &[u8]) -> bool
    ensures { IsTrue result → text.now ≡ 58 ∷ value.now }
{
    match strip(text, b':') {
        Some(rest) => rest == value,
        None => false,
    }
}

/// Appends a line without folds: the name in upper case, the parameters as they are, `:` and the value.
pub(crate) fn append_line(
    name: &[u8],
    params: &[u8],
    value: &[u8],
    out: &mut Vec<u8>,
) -> Result<(), AllocError>
    ensures { OnOk result (out.new.items ≡ out.old.items ++ (str_to_ascii_uppercase name.now ++ (params.now ++ 58 ∷ value.now))) }
{
    push_upper(name, out)?;
    out.extend_from_slice(params)?;
    out.push(b':')?;
    out.extend_from_slice(value)
}

/// The octets of a line as it is written, or `None` if they are `name` followed by `tail`.
fn anew(
    alloc: Global,
    name: &[u8],
    tail: &[u8],
    params: &[u8],
    value: &[u8],
) -> Result<Option<Vec<u8>>, AllocError>
    ensures { IfOk result (λ anew.
        or_anew (name.now ++ tail.now) anew ≡ str_to_ascii_uppercase name.now ++ (params.now ++ 58 ∷ value.now)) }
{
    if is_upper(name) && is_tail(tail, params, value) {
        return Ok(None);
    }
    let mut octets = Vec::with_capacity(alloc, name.len() + tail.len())?;
    append_line(name, params, value, &mut octets)?;
    Ok(Some(octets))
}

/// A line found in a text, as it is written.
#[derive(Drop)]
pub(crate) struct Found {
    /// The octets of the line, if the text has others.
    pub anew: Option<Vec<u8>>,
    /// The length of the name, in octets.
    pub name: usize,
    /// The offset of the value, in octets.
    pub value: usize,
}

/// Finds the line in a text, or returns `None` if the text does not match the grammar. `params` is scratch space for its parameters.
fn find_line(alloc: Global, text: &[u8], params: &mut Vec<u8>) -> Result<Option<Found>, AllocError>
    requires utf8 { IsUtf8 text.now }
    requires short { length text.now ≤ line_limit }
    ensures { IfOk result (λ o. MatchOption o (LacksLine text.now) (IsFoundIn text.now)) }
{
    let (spelled, tail) = cut_run(text, Octets::Name);
    if spelled.is_empty() {
        return Ok(None);
    }
    let Some(value) = read_tail(tail, params)? else {
        return Ok(None);
    };
    let anew = anew(alloc, spelled, tail, params.as_slice(), value)?;
    let name = spelled.len();
    let written = params.len();
    Ok(Some(Found {
        anew,
        name,
        value: name + written + 1,
    }))
}

/// The octets that were written anew, or else those of the text.
fn or_anew(text: LineOctets<'_>, anew: Option<Vec<u8>>) -> LineOctets<'_>
    ensures { octets_of result ≡ or_anew (octets_of text.entry) anew }
{
    match anew {
        Some(anew) => LineOctets::Own(anew),
        None => text,
    }
}

/// Parses a text as a line, or returns `None` if it does not match the grammar. `params` is scratch space for its parameters.
pub(crate) fn read_text<'a>(
    alloc: Global,
    text: LineOctets<'a>,
    params: &mut Vec<u8>,
) -> Result<Option<SeenLine<'a>>, AllocError>
    requires utf8 { IsUtf8 (octets_of text) }
    requires short { length (octets_of text) ≤ line_limit }
    ensures { IfOk result (λ o.
        MatchOption o (LacksLine (octets_of text.entry)) (λ l. Spells (octets_of text.entry) l.name l.params l.value)) }
{
    let Some(found) = find_line(alloc, text.as_slice(), params)? else {
        return Ok(None);
    };
    let Found { anew, name, value } = found;
    Ok(Some(SeenLine::new(or_anew(text, anew), name, value)))
}
