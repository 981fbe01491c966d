//! The bytes after a line of a stream.
ghost use Rattle.std.specs.Prelude.{ℕ, ◌≡◌, ◌≢◌, ◌<◌, None, IfOk, IfErr, OnOk, OnErr, IsErrOf};
ghost use Rattle.itip_script.specs.Stream.{ReadsBody, body_of};
ghost use Rattle.itip_streams.specs.Once.{EndsReading, ReadsSome, ReadsTo};

use itip_streams::{ReadOnce, StreamFault, pass_octets, read_octets};
use std::alloc::Global;
use std::io::Read;

/// The bytes that belong to a line.
#[derive(Debug, Drop)]
pub enum Body {
    /// All of them.
    Whole(Vec<u8>),
    /// They are more than the limit, and were read past.
    Long,
    /// The input ended before the last of them; what was left of it has been read.
    Cut,
}

/// Reads exactly `octets` bytes. If they are more than `limit`, they are read past and not held.
///
/// The first failed read is returned as [`StreamFault::Read`]. If an allocation fails, the error is [`StreamFault::Memory`], and no read
/// has failed.
pub fn read_body<R: Read + ReadOnce>(
    alloc: Global,
    reader: &mut R,
    octets: u64,
    limit: usize,
) -> Result<Body, StreamFault>
    ensures reads { IfOk result (λ body. ReadsBody limit octets (R.remaining reader.old) (R.remaining reader.new) (body_of body)) }
    ensures fault { IfErr result (λ fault. fault ≢ StreamFault.Write) }
    ensures well { OnOk result (EndsReading R.reads reader.old reader.new) }
    ensures failed { IsErrOf result StreamFault.Read → ReadsTo R.reads None reader.old reader.new }
    ensures stopped { IsErrOf result StreamFault.Memory → ReadsSome R.reads reader.old reader.new }
{
    if octets > limit as u64 {
        return pass_body(reader, octets);
    }
    match read_octets(alloc, reader, octets as usize)? {
        Some(octets) => Ok(Body::Whole(octets)),
        None => Ok(Body::Cut),
    }
}

/// Reads past `octets` bytes, which are more than the limit.
fn pass_body<R: Read + ReadOnce>(reader: &mut R, octets: u64) -> Result<Body, StreamFault>
    ensures reads { IfOk result (λ body. (limit : ℕ) → limit < octets
        → ReadsBody limit octets (R.remaining reader.old) (R.remaining reader.new) (body_of body)) }
    ensures fault { IfErr result (λ fault. fault ≡ StreamFault.Read) }
    ensures well { OnOk result (EndsReading R.reads reader.old reader.new) }
    ensures failed { OnErr result (ReadsTo R.reads None reader.old reader.new) }
{
    let all = pass_octets(reader, octets)?;
    if all { Ok(Body::Long) } else { Ok(Body::Cut) }
}
