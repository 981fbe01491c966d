//! Reading bytes.
ghost use Rattle.std.specs.Prelude.{◌≡◌, ◌<◌, ◌≤◌, ◌≢◌, length, vec_len, option_map, IfOk, IfErr, IfSome, IfNone};
ghost use Rattle.std.specs.Prelude.{OnOk, OnErr, IsErrOf, MatchOption, MatchBool, Some, None};
ghost use Rattle.std.specs.Result.{result_ok};
ghost use Rattle.std.specs.Io.KnownBytes.{ReadConsumes};
ghost use Rattle.itip_streams.specs.Once.{EndsReading, FailsReading, ReadsMore, ReadsOnce, ReadsSome, ReadsTo, ReadsWell};
ghost use Rattle.itip_streams.specs.Parts.{ReadsWithin, ReadsOctets, ReadsOctet, PassesLine, PassesOctets};

use crate::fault::StreamFault;
use crate::once::ReadOnce;
use std::alloc::Global;
use std::io::Read;

/// The most reads that a text may take.
pub const MAX_READS: u64 = 33_554_432;

// The most bytes of one read.
const ROOM: usize = 65_536;

// The same for reads that hold only a few bytes at a time.
const SMALL_ROOM: usize = 4_096;

/// Reads all bytes, at most `limit`. Returns `None` if there are more: one more has been read, and the rest is left.
///
/// The first failed read is returned as [`StreamFault::Read`], and so is a text whose end isn't found in [`MAX_READS`] reads. If an
/// allocation fails, the error is [`StreamFault::Memory`], and no read has failed.
pub fn read_within<R: Read + ReadOnce>(
    alloc: Global,
    reader: &mut R,
    limit: usize,
) -> Result<Option<Vec<u8>>, StreamFault>
    ensures whole { IfOk result (λ found. IfSome found (λ text.
        (vec_len text ≤ limit) × IfSome (R.remaining reader.old) (λ input. text.items ≡ input))) }
    ensures long { IfOk result (λ found. IfNone found (
        IfSome (R.remaining reader.old) (λ input. limit < length input))) }
    ensures fault { IfErr result (λ fault. fault ≢ StreamFault.Write) }
    ensures well { OnOk result (ReadsWell R.reads reader.old reader.new) }
    ensures failed { IsErrOf result StreamFault.Read → FailsReading R.reads reader.old reader.new }
    ensures stopped { IsErrOf result StreamFault.Memory → ReadsSome R.reads reader.old reader.new }
{
    let mut text = Vec::new(alloc);
    let mut buffer = [0u8; ROOM];
    for _ in 0..MAX_READS {
        let left = limit - text.len();
        let room = if left < ROOM { left + 1 } else { ROOM };
        let count = read_some(reader, &mut buffer[..room])?;
        if count == 0 {
            return Ok(Some(text));
        }
        if count > left {
            return Ok(None);
        }
        text.extend_from_slice(&buffer[..count])?;
    }
    Err(StreamFault::Read)
}

/// Reads some bytes to the front of a buffer, and returns their number: 0 at the end, or if the buffer is empty.
///
/// Makes one read. Fails with [`StreamFault::Read`] if that fails.
pub fn read_some<R: Read + ReadOnce>(
    reader: &mut R,
    buffer: &mut [u8],
) -> Result<usize, StreamFault>
    ensures bound { IfOk result (λ count. count ≤ length buffer.new) }
    ensures bytes { ReadConsumes (R.remaining reader.old) (R.remaining reader.new) result buffer.new }
    ensures fault { IfErr result (λ fault. fault ≡ StreamFault.Read) }
    ensures once { R.reads reader.old (result_ok result) reader.new buffer.new }
{
    match reader.read_once(buffer) {
        Ok(count) => Ok(count),
        Err(_) => Err(StreamFault::Read),
    }
}

/// Reads a line with its LF, or what is left if no LF follows, which is empty at the end. Returns `None` for a line of more than `limit`
/// bytes, LF included; all of it has been read.
///
/// The first failed read is returned as [`StreamFault::Read`]. If an allocation fails, the error is [`StreamFault::Memory`], and no
/// read has failed.
pub fn read_line_within<R: Read + ReadOnce>(
    alloc: Global,
    reader: &mut R,
    limit: usize,
) -> Result<Option<Vec<u8>>, StreamFault>
    ensures reads { IfOk result (λ found. ReadsWithin limit (R.remaining reader.old) (R.remaining reader.new)
        (option_map (λ line. line.items) found)) }
    ensures fault { IfErr result (λ fault. fault ≢ StreamFault.Write) }
    ensures well { OnOk result (ReadsWell R.reads reader.old reader.new) }
    ensures failed { IsErrOf result StreamFault.Read → FailsReading R.reads reader.old reader.new }
    ensures stopped { IsErrOf result StreamFault.Memory → ReadsSome R.reads reader.old reader.new }
{
    let mut line = Vec::new(alloc);
    while line.len() < limit {
        let Some(octet) = read_octet(reader)? else {
            return Ok(Some(line));
        };
        line.push(octet)?;
        if octet == b'\n' {
            return Ok(Some(line));
        }
    }
    let Some(octet) = read_octet(reader)? else {
        return Ok(Some(line));
    };
    pass_line(reader, octet)?;
    Ok(None)
}

/// Reads what is left of a line, of which `last` was the last byte read.
fn pass_line<R: Read + ReadOnce>(reader: &mut R, last: u8) -> Result<(), StreamFault>
    ensures passes { OnOk result (PassesLine last (R.remaining reader.old) (R.remaining reader.new)) }
    ensures fault { IfErr result (λ fault. fault ≡ StreamFault.Read) }
    ensures well { OnOk result (EndsReading R.reads reader.old reader.new) }
    ensures failed { OnErr result (FailsReading R.reads reader.old reader.new) }
{
    let mut last = last;
    for _ in 0..u64::MAX {
        if last == b'\n' {
            return Ok(());
        }
        match read_octet(reader)? {
            Some(octet) => last = octet,
            None => return Ok(()),
        }
    }
    Err(StreamFault::Read)
}

/// Reads one byte. Returns `None` at the end.
fn read_octet<R: Read + ReadOnce>(reader: &mut R) -> Result<Option<u8>, StreamFault>
    ensures reads { IfOk result (ReadsOctet (R.remaining reader.old) (R.remaining reader.new)) }
    ensures fault { IfErr result (λ fault. fault ≡ StreamFault.Read) }
    ensures well { IfOk result (λ found. MatchOption found (ReadsOnce R.reads (Some 0) reader.old reader.new)
        (λ _. ReadsMore R.reads reader.old reader.new)) }
    ensures failed { OnErr result (ReadsOnce R.reads None reader.old reader.new) }
{
    let mut buffer = [0u8; 1];
    if read_some(reader, &mut buffer)? == 0 {
        return Ok(None);
    }
    Ok(Some(buffer[0]))
}

/// Reads exactly `count` bytes. Returns `None` if the input ends first; what was left of it has been read.
///
/// The first failed read is returned as [`StreamFault::Read`]. If an allocation fails, the error is [`StreamFault::Memory`], and no
/// read has failed.
pub fn read_octets<R: Read + ReadOnce>(
    alloc: Global,
    reader: &mut R,
    count: usize,
) -> Result<Option<Vec<u8>>, StreamFault>
    ensures reads { IfOk result (λ found. ReadsOctets count (R.remaining reader.old) (R.remaining reader.new)
        (option_map (λ octets. octets.items) found)) }
    ensures fault { IfErr result (λ fault. fault ≢ StreamFault.Write) }
    ensures well { IfOk result (λ found. MatchOption found (ReadsTo R.reads (Some 0) reader.old reader.new)
        (λ _. ReadsSome R.reads reader.old reader.new)) }
    ensures failed { IsErrOf result StreamFault.Read → ReadsTo R.reads None reader.old reader.new }
    ensures stopped { IsErrOf result StreamFault.Memory → ReadsSome R.reads reader.old reader.new }
{
    let mut octets = Vec::new(alloc);
    let mut buffer = [0u8; SMALL_ROOM];
    while octets.len() < count {
        let room = (count - octets.len()).min(SMALL_ROOM);
        let brought = read_some(reader, &mut buffer[..room])?;
        if brought == 0 {
            return Ok(None);
        }
        octets.extend_from_slice(&buffer[..brought])?;
    }
    Ok(Some(octets))
}

/// Reads past `count` bytes, and holds at most 4,096 of them at a time. Returns `false` if the input ends first; what was left of it has
/// been read.
///
/// The first failed read is returned as [`StreamFault::Read`].
pub fn pass_octets<R: Read + ReadOnce>(reader: &mut R, count: u64) -> Result<bool, StreamFault>
    ensures passes { IfOk result (PassesOctets count (R.remaining reader.old) (R.remaining reader.new)) }
    ensures fault { IfErr result (λ fault. fault ≡ StreamFault.Read) }
    ensures well { IfOk result (λ all. MatchBool all (ReadsSome R.reads reader.old reader.new)
        (ReadsTo R.reads (Some 0) reader.old reader.new)) }
    ensures failed { OnErr result (ReadsTo R.reads None reader.old reader.new) }
{
    let mut buffer = [0u8; SMALL_ROOM];
    let mut left = count;
    while left > 0 {
        let room = left.min(SMALL_ROOM as u64) as usize;
        let brought = read_some(reader, &mut buffer[..room])?;
        if brought == 0 {
            return Ok(false);
        }
        left -= brought as u64;
    }
    Ok(true)
}
