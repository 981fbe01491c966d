//! Numbers of messages.
ghost use Rattle.std.specs.Prelude.{◌≡◌, ◌+◌, IfOk, IfErr};

use itip_streams::StreamFault;

/// Returns `count + more`, or [`StreamFault::Read`] if that is more than `u64::MAX`.
pub(crate) fn count_more(count: u64, more: u64) -> Result<u64, StreamFault>
    ensures sum { IfOk result (λ sum. sum ≡ count + more) }
    ensures fault { IfErr result (λ fault. fault ≡ StreamFault.Read) }
{
    match count.checked_add(more) {
        Some(sum) => Ok(sum),
        None => Err(StreamFault::Read),
    }
}
