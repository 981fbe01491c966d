//! The progress of a row: how far its attendees are.
ghost use Rattle.std.specs.Prelude.{◌≡◌};
ghost use Rattle.itip_view.specs.Progress.{progress_of};

use crate::row::ShownAttendee;

/// The mean of the percentages that are shown, rounded down; `None` if there are none.
pub(crate) fn progress_of(shown: &[ShownAttendee]) -> Option<u8>
    ensures { result ≡ progress_of shown.now }
{
    let mut sum: u128 = 0;
    let mut count: u64 = 0;
    for attendee in shown {
        if let Some(percent) = attendee.percent {
            sum += percent as u128;
            count += 1;
        }
    }
    if count == 0 {
        return None;
    }
    Some((sum / count as u128) as u8)
}
