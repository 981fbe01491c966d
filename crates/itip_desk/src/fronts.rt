//! Texts and numbers that bytes begin with.
ghost use Rattle.std.specs.Prelude.{◌≡◌, ◌++◌, ◌≤◌, ℕ, List, true, length, take, drop, IfSome, IfNone};
ghost use Rattle.std.specs.List.{list_all};
ghost use Rattle.itip_desk.specs.DeskFile.{HasNumber, is_digit, digits_before};
ghost use Rattle.itip_desk.specs.FileReading.{IsBehind, IsValue};

/// What follows `begins`, if the bytes begin with it.
pub(crate) fn behind<'a>(octets: &'a [u8], begins: &[u8]) -> Option<&'a [u8]>
    ensures found { IfSome result (λ after. octets.now ≡ begins.now ++ after.now) }
    ensures none { IfNone result ((after : List ℕ) → octets.now ≡ begins.now ++ after → ⊥) }
{
    octets.strip_prefix(begins)
}

/// The number after a name that the bytes begin with, and what follows it. `None` if there is none below 2^64.
pub(crate) fn number_behind<'a>(octets: &'a [u8], name: &str) -> Option<(u64, &'a [u8])>
    ensures found { IfSome result (λ found. HasNumber octets.now name.now found.0 found.1.now) }
    ensures none { IfNone result ((number : ℕ) (after : List ℕ) → HasNumber octets.now name.now number after → ⊥) }
{
    let value = behind(octets, name.as_bytes())?;
    let (digits, after) = split_digits(value);
    let number = number_of(digits)?;
    Some((number, after))
}

/// The value of these digits. `None` if there are none, or the value is not below 2^64.
fn number_of(digits: &[u8]) -> Option<u64>
    ensures found { IfSome result (λ number. list_all is_digit digits.now ≡ true → IsValue digits.now number) }
    ensures none { IfNone result (list_all is_digit digits.now ≡ true → (number : ℕ) → IsValue digits.now number → ⊥) }
{
    let Ok(text) = str::from_utf8(digits) else {
        return None;
    };
    text.parse::<u64>().ok()
}

/// The digits that the bytes begin with, and what follows them.
fn split_digits(octets: &[u8]) -> (&[u8], &[u8])
    ensures digits { result.0.now ≡ take (digits_before octets.now) octets.now }
    ensures after { result.1.now ≡ drop (digits_before octets.now) octets.now }
{
    let end = digits(octets);
    (&octets[..end], &octets[end..])
}

/// What follows a name and a number, if the bytes begin with these; otherwise all of the bytes.
pub(crate) fn behind_number<'a>(octets: &'a [u8], name: &str) -> &'a [u8]
    ensures { IsBehind octets.now name.now result.now }
{
    match number_behind(octets, name) {
        Some((_, after)) => after,
        None => octets,
    }
}

/// The number of digits that the bytes begin with.
fn digits(octets: &[u8]) -> usize
    ensures within { result ≤ length octets.now }
    ensures exact { result ≡ digits_before octets.now }
{
    let mut end = 0;
    for octet in octets {
        if !octet.is_ascii_digit() {
            break;
        }
        end += 1;
    }
    end
}
