//! Numbers in as few bytes as they need (LEB128): seven bits in each byte, the lowest first, and 128 added to each byte but the last.
ghost use Rattle.std.specs.Prelude.{◌≡◌, ◌++◌, ◌∷◌, [], ℕ, List, length, take, IsTrue, MatchOption, OnOk};
ghost use Rattle.std.specs.Option.{option_to_list, is_some};
ghost use Rattle.itip_inbox.specs.Leb128.{numbers, Spells, NoneFits};

use std::alloc::AllocError;

/// Adds a number. If an allocation fails, a part of its bytes may have been added.
pub(crate) fn push_number(octets: &mut Vec<u8>, number: u64) -> Result<(), AllocError>
    ensures adds { OnOk result ((before : List ℕ) → Spells octets.old.items before → Spells octets.new.items (before ++ number ∷ [])) }
    ensures keeps { take (length octets.old.items) octets.new.items ≡ octets.old.items }
{
    let mut rest = number;
    while rest >= 128 {
        octets.push((rest % 128) as u8 + 128)?;
        rest /= 128;
    }
    octets.push(rest as u8)?;
    Ok(())
}

/// Adds a number if there is one. If an allocation fails, a part of its bytes may have been added.
pub(crate) fn push_if_some(octets: &mut Vec<u8>, number: Option<usize>) -> Result<(), AllocError>
    ensures adds { OnOk result ((before : List ℕ) → Spells octets.old.items before →
        Spells octets.new.items (before ++ option_to_list number)) }
    ensures keeps { take (length octets.old.items) octets.new.items ≡ octets.old.items }
{
    match number {
        Some(number) => push_number(octets, number as u64),
        None => Ok(()),
    }
}

/// The first number, and the bytes after it. `None` if there is no whole number, or the first has more than 64 bits.
pub(crate) fn first_number(octets: &[u8]) -> Option<(u64, &[u8])>
    ensures { MatchOption result (NoneFits (numbers octets.now)) (λ first. numbers octets.now ≡ first.0 ∷ numbers first.1.now) }
{
    let (octet, rest) = octets.split_first()?;
    if *octet < 128 {
        return Some((u64::from(*octet), rest));
    }
    let (high, rest) = first_number(rest)?;
    let number = high.checked_mul(128)?.checked_add(u64::from(*octet - 128))?;
    Some((number, rest))
}

/// The first number if there should be one, and the bytes after it. `None` if there should, but it isn't whole or has more than 64 bits.
pub(crate) fn first_if(is_there: bool, octets: &[u8]) -> Option<(Option<usize>, &[u8])>
    ensures { MatchOption result (IsTrue is_there × NoneFits (numbers octets.now))
        (λ first. (is_some first.0 ≡ is_there) × (numbers octets.now ≡ option_to_list first.0 ++ numbers first.1.now)) }
{
    if is_there {
        let (number, rest) = first_number(octets)?;
        return Some((Some(number as usize), rest));
    }
    Some((None, octets))
}
