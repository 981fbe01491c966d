//! Numbers that stand for texts in an index: they need no memory of their own, and compare in one step.
ghost use Rattle.std.specs.Prelude.{◌≡◌, ◌<◌};
ghost use Rattle.itip_todo.specs.Table.{attendee_key};
ghost use Rattle.itip_desk.specs.Numbers.{number_with, text_number, uid_number};

/// The number of a UID. It is neither 0 nor `u32::MAX`.
pub(crate) fn uid_number(uid: &str) -> u32
    ensures { result ≡ uid_number uid.now }
{
    let mut number = 0;
    for octet in uid.as_bytes() {
        number = number_with(number, *octet);
    }
    number + 1
}

/// The number of the attendee with this address: that of the attendee's key.
pub(crate) fn attendee_number(address: &str) -> u32
    ensures { result ≡ text_number (attendee_key address.now) }
{
    let mut number = 0;
    for octet in address.as_bytes() {
        number = number_with(number, octet.to_ascii_lowercase());
    }
    number
}

fn number_with(number: u32, octet: u8) -> u32
    ensures number { result ≡ number_with number octet }
    ensures small { result < 4294967291 }
{
    ((u64::from(number) * 16_777_619 + u64::from(octet)) % 4_294_967_291) as u32
}
