//! A writer for a terminal.
ghost use Rattle.std.specs.Prelude.{OnOk};
ghost use Rattle.std.specs.Io.KnownBytes.{Appends};
ghost use Rattle.itip_streams.specs.Visible.{visible_lines};

use crate::visible::visible_lines;
use std::alloc::Global;
use std::io;
use std::io::Write;

/// Writes control characters, except for line ends, as their bytes: `\x07`. Each write is shown by itself, so it has to consist of whole
/// characters.
#[derive(Drop)]
pub struct TerminalWriter<W> {
    alloc: Global,
    writer: W,
}

impl<W: Write> TerminalWriter<W> {
    pub fn new(alloc: Global, writer: W) -> TerminalWriter<W> {
        TerminalWriter { alloc, writer }
    }

    fn show(&mut self, octets: &[u8]) -> io::Result<()>
        ensures { OnOk result (Appends (W.contents self.old.writer) (W.contents self.new.writer) (visible_lines octets.now)) }
    {
        let shown = visible_lines(self.alloc, octets)?;
        self.writer.write_all(shown.as_slice())
    }
}

impl<W: Write> Write for TerminalWriter<W> {
    fn write(&mut self, buf: &[u8]) -> io::Result<usize> {
        self.show(buf)?;
        Ok(buf.len())
    }

    fn flush(&mut self) -> io::Result<()> {
        self.writer.flush()
    }
}
