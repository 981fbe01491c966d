//! Looking up a parameter by its name in the text of a line's parameters.
ghost use Rattle.std.specs.Prelude.{◌≡◌, ◌≤◌, ◌==◌, ◌&&◌, false, not, cond, ℕ, List, length, MatchOption};
ghost use Rattle.itip_lines.specs.Lookup.{same_text, has_param, param_value, behind_values, StandsFor, BeginsWithValue, IsFound};
ghost use Rattle.itip_lines.specs.ParamsText.{params_in, IsParamsText};
ghost use Rattle.itip_lines.specs.declared.line.Param.{Param};

use crate::grammar::{Octets, cut_run, strip};

/// The first value of the first parameter with this name, given in upper case; empty if there is none. Does not
/// allocate.
///
/// `params` is the text of parameters, as `Params::as_str` returns it.
pub fn param_value<'a>(params: &'a str, name: &str) -> &'a str
    requires { IsParamsText params.now }
    ensures { result.now ≡ param_value name.now (params_in params.now) }
{
    match values_of(name, params.as_bytes()) {
        // A value of a parameter is UTF-8.
        Some(values) => unsafe { str::from_utf8_unchecked(leading_value(values)) },
        None => "",
    }
}

/// The text from the values of the first parameter with this name on, or `None` if there is none.
pub(crate) fn values_of<'a>(name: &str, text: &'a [u8]) -> Option<&'a [u8]>
    ensures { (params : List Param) → StandsFor name.now params text.now
        → MatchOption result (has_param name.now params ≡ false) (λ values. IsFound name.now params values.now) }
{
    let mut rest = text;
    while let Some(param) = strip(rest, b';') {
        let (spelled, behind) = cut_run(param, Octets::Name);
        if is_named(spelled, name) {
            return strip(behind, b'=');
        }
        rest = behind_values(behind);
    }
    None
}

pub(crate) fn is_named(spelled: &[u8], name: &str) -> bool
    ensures { result ≡ same_text spelled.now name.now }
{
    spelled == name.as_bytes()
}

/// The value that the text begins with, without its quotes.
pub(crate) fn leading_value(text: &[u8]) -> &[u8]
    ensures { (value : List ℕ) → BeginsWithValue value text.now → result.now ≡ value }
{
    match strip(text, b'"') {
        Some(quoted) => cut_run(quoted, Octets::Quotable).0,
        None => cut_run(text, Octets::Plain).0,
    }
}

/// The text from the first `;` outside quotes on; empty if there is none.
fn behind_values(text: &[u8]) -> &[u8]
    ensures behind { result.now ≡ behind_values false text.now }
    ensures shorter { length result.now ≤ length text.now }
{
    let mut quoted = false;
    let mut rest = text;
    while let [octet, more @ ..] = rest {
        if ends_values(quoted, *octet) {
            return rest;
        }
        quoted = is_quoted_behind(quoted, *octet);
        rest = more;
    }
    rest
}

fn ends_values(quoted: bool, octet: u8) -> bool
    ensures { result ≡ (not quoted && (octet == 59)) }
{
    !quoted && octet == b';'
}

/// Whether what follows the octet is inside quotes.
fn is_quoted_behind(quoted: bool, octet: u8) -> bool
    ensures { result ≡ cond (octet == 34) (not quoted) quoted }
{
    if octet == b'"' { !quoted } else { quoted }
}
