//! Writing bytes.
ghost use Rattle.std.specs.Prelude.{◌≡◌, ◌<◌, ◌≤◌, ◌⊎◌, [], length, vec_len, OnOk, OnErr, IfOk, IfErr};
ghost use Rattle.std.specs.Io.KnownBytes.{Appends, WriteAppends};
ghost use Rattle.std.specs.Result.{result_ok};
ghost use Rattle.itip_streams.specs.Once.{FailsWriting, WritesAll, WritesFirst, WritesSome};
ghost use Rattle.itip_streams.specs.Written.{AppendsFront, MovesOut};

use crate::fault::StreamFault;
use crate::once::WriteOnce;
use std::io::Write;

// How many bytes are kept before they are written.
const CHUNK: usize = 65_536;

/// Writes all bytes. The first failed write is returned as [`StreamFault::Write`], and so is one that accepts no bytes; a prefix of
/// them has been written then.
pub fn write_output<W: Write + WriteOnce>(writer: &mut W, bytes: &[u8]) -> Result<(), StreamFault>
    ensures all { OnOk result (Appends (W.contents writer.old) (W.contents writer.new) bytes.now) }
    ensures front { OnErr result (AppendsFront (W.contents writer.old) (W.contents writer.new) bytes.now) }
    ensures fault { IfErr result (λ fault. fault ≡ StreamFault.Write) }
    ensures well { OnOk result (WritesAll W.writes writer.old bytes.now writer.new) }
    ensures failed { OnErr result (FailsWriting W.writes writer.old bytes.now writer.new) }
{
    let mut rest = bytes;
    while !rest.is_empty() {
        let count = write_some(writer, rest)?;
        if count == 0 {
            return Err(StreamFault::Write);
        }
        rest = &rest[count..];
    }
    Ok(())
}

/// Writes all bytes and flushes the writer. Fails as [`write_output`] does, and with [`StreamFault::Write`] if the flush fails: then all
/// bytes may have been written.
///
/// Nothing is said of how a writer flushes (`Write::flush`), nor of what it does after it has taken the last byte.
pub fn write_at_once<W: Write + WriteOnce>(writer: &mut W, bytes: &[u8]) -> Result<(), StreamFault>
    ensures all { OnOk result (Appends (W.contents writer.old) (W.contents writer.new) bytes.now) }
    ensures front { OnErr result (AppendsFront (W.contents writer.old) (W.contents writer.new) bytes.now) }
    ensures fault { IfErr result (λ fault. fault ≡ StreamFault.Write) }
    ensures well { OnOk result (WritesFirst W.writes writer.old bytes.now) }
    ensures failed { OnErr result (FailsWriting W.writes writer.old bytes.now writer.new ⊎ WritesFirst W.writes writer.old bytes.now) }
{
    write_output(writer, bytes)?;
    match writer.flush() {
        Ok(()) => Ok(()),
        Err(_) => Err(StreamFault::Write),
    }
}

/// Writes all bytes of `kept` if they are 65,536 or more, and then empties it; fewer are left as they are. Fails as [`write_output`]
/// does, and leaves `kept` unchanged then.
pub fn write_if_many<W: Write + WriteOnce>(
    writer: &mut W,
    kept: &mut Vec<u8>,
) -> Result<(), StreamFault>
    ensures moved { OnOk result (MovesOut (W.contents writer.old) (W.contents writer.new) kept.old.items kept.new.items) }
    ensures front { OnErr result (AppendsFront (W.contents writer.old) (W.contents writer.new) kept.old.items) }
    ensures fault { IfErr result (λ fault. fault ≡ StreamFault.Write) }
    ensures well { OnOk result (WritesSome W.writes writer.old kept.old.items writer.new kept.new.items) }
    ensures failed { OnErr result (FailsWriting W.writes writer.old kept.old.items writer.new) }
    ensures few { OnOk result (vec_len kept.old < 65536 → kept.new ≡ kept.old) }
    ensures none { OnOk result (65536 ≤ vec_len kept.old → kept.new.items ≡ []) }
    ensures same { OnErr result (kept.new ≡ kept.old) }
{
    if kept.len() >= CHUNK {
        write_output(writer, kept.as_slice())?;
        kept.clear();
    }
    Ok(())
}

fn write_some<W: Write + WriteOnce>(writer: &mut W, bytes: &[u8]) -> Result<usize, StreamFault>
    ensures bound { IfOk result (λ count. count ≤ length bytes.now) }
    ensures bytes { WriteAppends (W.contents writer.old) (W.contents writer.new) result bytes.now }
    ensures fault { IfErr result (λ fault. fault ≡ StreamFault.Write) }
    ensures once { W.writes writer.old bytes.now (result_ok result) writer.new }
{
    match writer.write_once(bytes) {
        Ok(count) => Ok(count),
        Err(_) => Err(StreamFault::Write),
    }
}
