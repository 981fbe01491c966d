//! The first octets of a text, as one number.
ghost use Rattle.std.specs.Prelude.{◌≡◌, slice_index, drop};
ghost use Rattle.itip_todo.specs.Heads.{IsHead};

/// The number of octets in a head.
const OCTETS: usize = 16;

/// The first 16 octets as one number, the most significant first; missing ones count as 0.
pub(crate) fn head(octets: &[u8]) -> u128
    ensures { IsHead result octets.now }
{
    let mut head: u128 = 0;
    let mut rest = octets;
    let mut left = OCTETS;
    while left > 0 {
        let (octet, behind) = split(rest);
        head = head * 256 + u128::from(octet);
        rest = behind;
        left -= 1;
    }
    head
}

/// The first octet, or 0 if there is none, and the octets after it.
fn split(octets: &[u8]) -> (u8, &[u8])
    ensures first { result.0 ≡ slice_index octets.now 0 }
    ensures behind { result.1.now ≡ drop 1 octets.now }
{
    match octets {
        [octet, behind @ ..] => (*octet, behind),
        [] => (0, octets),
    }
}
