//! Splitting bytes into parts that can be cut into messages separately, each on its own thread.
ghost use Rattle.std.specs.Prelude.{IfSome};
ghost use Rattle.itip_message.specs.Parting.{StaysParted};

use crate::cutting::{ends_calendar, whole_line};

/// Splits bytes that others may follow in two, after the first line END:VCALENDAR that begins after the line with the byte at `place`.
/// The messages of both parts together are those of the bytes. Returns `None` if no such line is known to be complete.
pub fn part_messages(bytes: &[u8], place: usize) -> Option<(&[u8], &[u8])>
    ensures { IfSome result (λ parts. StaysParted bytes.now parts.0.now parts.1.now) }
{
    let (_, behind) = bytes.split_at(place.min(bytes.len()));
    let Some((_, lines)) = whole_line(behind) else {
        return None;
    };
    let mut rest = lines;
    while let Some((line, after)) = whole_line(rest) {
        if ends_calendar(line) {
            let front = &bytes[..bytes.len() - after.len()];
            return Some((front, after));
        }
        rest = after;
    }
    None
}
