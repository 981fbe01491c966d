//! The parts of a rule's text: NAME=VALUE, separated by `;`.
ghost use Rattle.std.specs.Prelude.{◌≡◌, ◌↔◌, ◌≤◌, ◌==◌, nat_le, map, count_by, IfOk, IsTrue};
ghost use Rattle.std.specs.List.{list_any, list_all, find};
ghost use Rattle.std.specs.Option.{option_copied};
ghost use Rattle.itip_recur.specs.RuleText.{rule_parts, part_names, has_name, part_value, value_of, are_parts};

use crate::NoMemory;
use std::alloc::Global;

/// Whether a text has more parts than there are names.
pub(crate) fn has_many_parts(text: &str) -> bool
    ensures { IsTrue result ↔ (8 ≤ count_by (λ c. c == 59) text.now) }
{
    text.as_bytes().iter().filter(|c| **c == b';').count() >= 8
}

/// The parts of a text.
pub(crate) fn split_parts<'a>(alloc: Global, text: &'a str) -> Result<Vec<&'a str>, NoMemory>
    ensures { IfOk result (λ parts. map (λ p. p.now) parts.items ≡ rule_parts text.now) }
{
    text.split(';').collect(alloc)
}

/// Whether each part has one of the names, and no name appears twice.
pub(crate) fn are_parts(parts: &[&str]) -> bool
    ensures { result ≡ are_parts (map (λ p. p.now) parts.now) }
{
    are_named(parts)
        && stands_once("FREQ", parts)
        && stands_once("INTERVAL", parts)
        && stands_once("COUNT", parts)
        && stands_once("UNTIL", parts)
        && stands_once("WKST", parts)
        && stands_once("BYDAY", parts)
        && stands_once("BYMONTHDAY", parts)
        && stands_once("BYMONTH", parts)
}

fn are_named(parts: &[&str]) -> bool
    ensures { result ≡ list_all (λ part. list_any (λ name. has_name name part) part_names) (map (λ p. p.now) parts.now) }
{
    for part in parts {
        if !has_some_name(part) {
            return false;
        }
    }
    true
}

fn has_some_name(part: &str) -> bool
    ensures { result ≡ list_any (λ name. has_name name part.now) part_names }
{
    has_name("FREQ", part)
        || has_name("INTERVAL", part)
        || has_name("COUNT", part)
        || has_name("UNTIL", part)
        || has_name("WKST", part)
        || has_name("BYDAY", part)
        || has_name("BYMONTHDAY", part)
        || has_name("BYMONTH", part)
}

// Whether the name appears at most once.
fn stands_once(name: &str, parts: &[&str]) -> bool
    ensures { result ≡ nat_le (count_by (has_name name.now) (map (λ p. p.now) parts.now)) 1 }
{
    parts.iter().filter(|part| has_name(name, part)).count() <= 1
}

/// The value of the part with this name, if there is one.
pub(crate) fn value_of<'a>(name: &str, parts: &[&'a str]) -> Option<&'a str>
    ensures { option_copied result ≡ value_of name.now (map (λ p. p.now) parts.now) }
{
    part_value(part_of(name, parts)?)
}

fn part_of<'a>(name: &str, parts: &[&'a str]) -> Option<&'a str>
    ensures { option_copied result ≡ find (has_name name.now) (map (λ p. p.now) parts.now) }
{
    for part in parts {
        if has_name(name, part) {
            return Some(*part);
        }
    }
    None
}

fn part_value<'a>(part: &'a str) -> Option<&'a str>
    ensures { option_copied result ≡ part_value part.now }
{
    let (_, value) = part.split_once('=')?;
    Some(value)
}

// Whether the text before the first '=' is the name, in either case.
fn has_name(name: &str, part: &str) -> bool
    ensures { result ≡ has_name name.now part.now }
{
    match part.split_once('=') {
        Some((front, _)) => front.eq_ignore_ascii_case(name),
        None => false,
    }
}
