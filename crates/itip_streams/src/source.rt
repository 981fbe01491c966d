//! A source, read once.
ghost use Rattle.std.specs.Prelude.{◌≡◌, IfOk, map};
ghost use Rattle.std.specs.Io.{ReadsAtMost};
ghost use Rattle.std.specs.Io.KnownBytes.{Keeps, ReadConsumes};
ghost use Rattle.itip_streams.specs.Sources.{left, left_of, awaits, file_name};

use crate::source_name::SourceName;
use std::alloc::AllocError;
use std::io::Read;
use std::rt::Files;
use std::{fs, io};

/// A reader of a source. A file is opened when it is first read, and closed as soon as a read finds its end; from then on reads return no
/// bytes. Each read of an unreadable source fails.
#[derive(Drop)]
pub struct Source<'a, R: Files, I> {
    files: &'a R,
    held: Held<'a, R::File, I>,
}

/// What a source reads from.
#[derive(Drop)]
pub(crate) enum Held<'a, F, I> {
    /// A file that isn't opened yet.
    Closed(&'a str),
    /// A file, or `None` once it has been closed at its end.
    File(Option<F>),
    Input(Option<I>),
    /// Each read fails.
    Nothing,
}

/// The sources of these names, in the order of the names. Fails if an allocation fails.
pub fn sources_of<'a, R: Files + Input + AllocGlobal>(
    rt: &'a R,
    names: &'a [SourceName],
) -> Result<Vec<Source<'a, R, R::Reader>>, AllocError>
    ensures { IfOk result (λ sources. map (λ source. awaits source.held) sources.items ≡ map file_name names.now) }
{
    let mut sources = Vec::with_capacity(rt.alloc(), names.len())?;
    for name in names {
        sources.push(source_of(rt, name))?;
    }
    Ok(sources)
}

fn source_of<'a, R: Files + Input>(rt: &'a R, name: &'a SourceName) -> Source<'a, R, R::Reader>
    ensures { awaits result.held ≡ file_name name.now }
{
    let files = rt;
    match name {
        SourceName::StandardInput => Source {
            files,
            held: Held::Input(Some(rt.reader())),
        },
        SourceName::File(name) => Source {
            files,
            held: Held::Closed(name.as_str()),
        },
        SourceName::Unreadable(_) => Source {
            files,
            held: Held::Nothing,
        },
    }
}

impl<'a, R: Files, I: Read + Drop> Source<'a, R, I> {
    /// Opens the file, unless that is done already.
    fn open(&mut self) -> io::Result<()>
        ensures { Keeps (left_of R.File.remaining I.remaining self.old.held) (left_of R.File.remaining I.remaining self.new.held) }
    {
        let Held::Closed(name) = &self.held else {
            return Ok(());
        };
        let file = fs::open(self.files, *name)?;
        self.held = Held::File(Some(file));
        Ok(())
    }
}

impl<'a, R: Files, I: Read + Drop> Read for Source<'a, R, I> {
    ghost remaining = { λ source. left_of R.File.remaining I.remaining source.held };

    fn read(&mut self, buf: &mut [u8]) -> io::Result<usize> {
        self.open()?;
        match &mut self.held {
            Held::File(file) => read_and_drop(file, buf),
            Held::Input(input) => read_and_drop(input, buf),
            Held::Closed(_) => Err(unreadable()),
            Held::Nothing => Err(unreadable()),
        }
    }
}

/// Reads from a reader that is dropped as soon as a read finds its end. From then on reads return no bytes.
fn read_and_drop<R: Read + Drop>(reader: &mut Option<R>, buf: &mut [u8]) -> io::Result<usize>
    ensures bound { ReadsAtMost result buf.new }
    ensures bytes { ReadConsumes (left R.remaining reader.old) (left R.remaining reader.new) result buf.new }
{
    if buf.is_empty() {
        return Ok(0);
    }
    let Some(open) = reader else {
        return Ok(0);
    };
    let count = open.read(buf)?;
    if count > 0 {
        return Ok(count);
    }
    *reader = None;
    Ok(count)
}

fn unreadable() -> io::Error {
    io::Error::from(io::ErrorKind::InvalidFilename)
}
