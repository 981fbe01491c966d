//! What words for addresses and sources stand for.
ghost use Rattle.std.specs.Prelude.{◌≡◌, ◌==◌, IfOk, map};
ghost use Rattle.std.specs.List.{list_any};
ghost use Rattle.std.specs.String.{string_bytes};
ghost use Rattle.itip_words.specs.Values.{address_of, is_input, inputs};

use std::alloc::{AllocError, Global};

/// The address that a word stands for: one without a colon gets `mailto:` before it.
pub(crate) fn address_of(alloc: Global, word: &str) -> Result<String, AllocError>
    ensures { IfOk result (λ address. string_bytes address ≡ address_of word.now) }
{
    if has_colon(word) {
        String::from_str(alloc, word)
    } else {
        format!(in alloc; "mailto:{word}")
    }
}

fn has_colon(word: &str) -> bool
    ensures { result ≡ list_any (λ c. c == 58) word.now }
{
    word.as_bytes().iter().any(|c| *c == b':')
}

/// How often standard input is named.
pub(crate) fn inputs(words: &[String]) -> usize
    ensures { result ≡ inputs (map string_bytes words.now) }
{
    words.iter().filter(|word| is_input(word.as_str())).count()
}

/// Whether a word names standard input.
pub(crate) fn is_input(word: &str) -> bool
    ensures { result ≡ is_input word.now }
{
    word == "-"
}

/// The addresses that words stand for.
pub(crate) fn addresses_of(alloc: Global, words: &[&str]) -> Result<Vec<String>, AllocError>
    ensures { IfOk result (λ addresses. map string_bytes addresses.items ≡ map (λ word. address_of word.now) words.now) }
{
    let mut addresses = Vec::with_capacity(alloc, words.len())?;
    for word in words {
        addresses.push(address_of(alloc, word)?)?;
    }
    Ok(addresses)
}

pub(crate) fn copies(alloc: Global, words: &[&str]) -> Result<Vec<String>, AllocError>
    ensures { IfOk result (λ copies. map string_bytes copies.items ≡ map (λ word. word.now) words.now) }
{
    let mut copies = Vec::with_capacity(alloc, words.len())?;
    for word in words {
        copies.push(String::from_str(alloc, word)?)?;
    }
    Ok(copies)
}
