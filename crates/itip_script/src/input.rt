//! Reads a whole script.
ghost use Rattle.std.specs.Prelude.{◌≡◌, ◌<◌, ◌≤◌, ◌≢◌, length, vec_len, IfOk, IfErr, IfSome, IfNone, OnOk, IsErrOf};
ghost use Rattle.itip_streams.specs.Once.{FailsReading, ReadsSome, ReadsWell};

use itip_streams::{ReadOnce, StreamFault, read_within};
use std::alloc::Global;
use std::io::Read;

/// The most bytes of a script.
pub const MAX_OCTETS: usize = 16_777_216;

/// Reads a whole script. Returns `None` if it has more than [`MAX_OCTETS`] bytes; the rest is then not read.
///
/// The first failed read is returned as [`StreamFault::Read`], and so is a script for which
/// [`MAX_READS`](itip_streams::MAX_READS) reads are not enough. If an allocation fails, the error is [`StreamFault::Memory`], and no read
/// has failed.
pub fn read_script<R: Read + ReadOnce>(
    alloc: Global,
    reader: &mut R,
) -> Result<Option<Vec<u8>>, StreamFault>
    ensures whole { IfOk result (λ found. IfSome found (λ script.
        (vec_len script ≤ 16777216) × IfSome (R.remaining reader.old) (λ input. script.items ≡ input))) }
    ensures long { IfOk result (λ found. IfNone found (
        IfSome (R.remaining reader.old) (λ input. 16777216 < length input))) }
    ensures fault { IfErr result (λ fault. fault ≢ StreamFault.Write) }
    ensures well { OnOk result (ReadsWell R.reads reader.old reader.new) }
    ensures failed { IsErrOf result StreamFault.Read → FailsReading R.reads reader.old reader.new }
    ensures stopped { IsErrOf result StreamFault.Memory → ReadsSome R.reads reader.old reader.new }
{
    read_within(alloc, reader, MAX_OCTETS)
}
