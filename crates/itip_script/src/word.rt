//! The words of a command.
ghost use Rattle.std.specs.Prelude.{◌≡◌, MatchOption};
ghost use Rattle.std.specs.Str.{bytes_eq};
ghost use Rattle.itip_script.specs.Orders.{before_space, after_space, number_of, IsNoDigit, IsNextValue};

/// The bytes before the first space, or all of them, and those after it, or none.
pub(crate) fn split_word(bytes: &[u8]) -> (&[u8], &[u8])
    ensures before { result.0.now ≡ before_space bytes.now }
    ensures after { result.1.now ≡ after_space bytes.now }
{
    match bytes.iter().position(|b| *b == b' ') {
        Some(at) => (&bytes[..at], &bytes[at + 1..]),
        None => (bytes, &[]),
    }
}

pub(crate) fn is_word(word: &[u8], name: &[u8]) -> bool
    ensures { result ≡ bytes_eq word.now name.now }
{
    word == name
}

/// The value of one or more decimal digits, without sign or space. `None` for any other text, and from 2^64 on.
pub fn read_number(word: &[u8]) -> Option<u64>
    ensures { result ≡ number_of word.now }
{
    if word.is_empty() {
        return None;
    }
    let mut value: u64 = 0;
    for b in word {
        value = with_digit(value, *b)?;
    }
    Some(value)
}

fn with_digit(value: u64, b: u8) -> Option<u64>
    ensures { MatchOption result (IsNoDigit value b) (λ n. IsNextValue value b n) }
{
    if !b.is_ascii_digit() {
        return None;
    }
    value.checked_mul(10)?.checked_add(u64::from(b - b'0'))
}
