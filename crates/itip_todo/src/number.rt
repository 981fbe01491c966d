//! Whole numbers.
ghost use Rattle.std.specs.Prelude.{◌≡◌, ◌<◌, ℕ, ◌↔◌, IsTrue, IfSome, IfNone, MatchOption, List, ◌∷◌, length};
ghost use Rattle.std.specs.List.{All};
ghost use Rattle.itip_todo.specs.Values.{IsNumberUpTo, AreDigitsUpTo};

/// Parses a whole number of at most `limit`: an optional sign and digits; after a minus it can only be 0 (RFC 5545 3.3.8).
pub(crate) fn read_number(text: &str, limit: u32) -> Option<u32>
    ensures found { IfSome result (IsNumberUpTo limit text.now) }
    ensures none { IfNone result ((n : ℕ) → IsNumberUpTo limit text.now n → ⊥) }
{
    match after_minus(text.as_bytes()) {
        Some(noughts) if are_noughts(noughts) => Some(0),
        Some(_) => None,
        None => read_unsigned(text, limit),
    }
}

fn after_minus(text: &[u8]) -> Option<&[u8]>
    ensures { MatchOption result ((rest : List ℕ) → text.now ≡ 45 ∷ rest → ⊥) (λ rest. text.now ≡ 45 ∷ rest.now) }
{
    match text {
        [b'-', rest @ ..] => Some(rest),
        _ => None,
    }
}

fn are_noughts(digits: &[u8]) -> bool
    ensures { IsTrue result ↔ ((0 < length digits.now) × All (λ c. c ≡ 48) digits.now) }
{
    !digits.is_empty() && digits.iter().all(|digit| *digit == b'0')
}

fn read_unsigned(text: &str, limit: u32) -> Option<u32>
    ensures found { IfSome result (AreDigitsUpTo limit text.now) }
    ensures none { IfNone result ((n : ℕ) → AreDigitsUpTo limit text.now n → ⊥) }
{
    match text.parse::<u32>() {
        Ok(number) if number <= limit => Some(number),
        _ => None,
    }
}
