ghost use Rattle.std.specs.Prelude.{◌≡◌, ◌<◌, ◌∷◌, [], IfSome, IfNone, ℕ};
ghost use Rattle.itip_moment.specs.Digits.{two_digits};

/// The number that two decimal digits spell; `None` unless both are digits.
pub(crate) fn two_digits(tens: u8, ones: u8) -> Option<u8>
    ensures bound { IfSome result (λ n. n < 100) }
    ensures found { IfSome result (λ n. tens ∷ ones ∷ [] ≡ two_digits n) }
    ensures none { IfNone result ((n : ℕ) → n < 100 → tens ∷ ones ∷ [] ≡ two_digits n → ⊥) }
{
    if tens.is_ascii_digit() && ones.is_ascii_digit() {
        Some((tens - b'0') * 10 + (ones - b'0'))
    } else {
        None
    }
}
