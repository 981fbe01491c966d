//! One read, and one write.
ghost use Rattle.std.specs.Prelude.{ℕ, List, Option};
ghost use Rattle.std.specs.Result.{result_ok};
ghost use Rattle.std.specs.Io.{ReadsAtMost, WritesAtMost};
ghost use Rattle.std.specs.Io.KnownBytes.{ReadConsumes, WriteAppends};

use std::io;
use std::io::{Read, Write};

/// A reader for which contracts can say which reads are made. Every reader is one.
///
/// What a read does is a relation that a function over all such readers knows nothing about. So a function that ensures this relation
/// between two states makes one read, and no more.
pub trait ReadOnce: Read {
    /// What a read may do: the state before it, how many bytes it returns or that it fails, the state after it, and the buffer.
    ghost reads: { Self → Option ℕ → Self → List ℕ → Type 0 };

    /// Reads once.
    fn read_once(&mut self, buffer: &mut [u8]) -> io::Result<usize>
        ensures bound { ReadsAtMost result buffer.new }
        ensures bytes { ReadConsumes (Self.remaining self.old) (Self.remaining self.new) result buffer.new }
        ensures once { reads self.old (result_ok result) self.new buffer.new };
}

impl<R: Read> ReadOnce for R {
    ghost reads = { λ _ _ _ _. Unit {0} };

    fn read_once(&mut self, buffer: &mut [u8]) -> io::Result<usize> {
        self.read(buffer)
    }
}

/// A writer for which contracts can say which writes are made, as [`ReadOnce`] is for reads. Every writer is one.
pub trait WriteOnce: Write {
    /// What a write may do: the state before it, the bytes, how many of them it takes or that it fails, and the state after it.
    ghost writes: { Self → List ℕ → Option ℕ → Self → Type 0 };

    /// Writes once.
    fn write_once(&mut self, octets: &[u8]) -> io::Result<usize>
        ensures bound { WritesAtMost result octets.now }
        ensures bytes { WriteAppends (Self.contents self.old) (Self.contents self.new) result octets.now }
        ensures once { writes self.old octets.now (result_ok result) self.new };
}

impl<W: Write> WriteOnce for W {
    ghost writes = { λ _ _ _ _. Unit {0} };

    fn write_once(&mut self, octets: &[u8]) -> io::Result<usize> {
        self.write(octets)
    }
}
