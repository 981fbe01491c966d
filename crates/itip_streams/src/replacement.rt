//! A file that takes the place of another.
ghost use Rattle.std.specs.Prelude.{◌≡◌, Ok, Err, IfOk, IfErr};

use crate::fault::StreamFault;
use std::alloc::{AllocError, Global};
use std::fs::{OpenFile, OpenOptions, Permissions};
use std::io::Write;
use std::os::unix::fs::OpenOptionsExt;
use std::rt::Files;
use std::{fs, io};

// How many names are tried for the file that is written.
const MOST_PARTS: u32 = 1_000;

// Nobody else reads what replaces a file before it has that file's permissions.
const OWN_MODE: u32 = 0o600;

const NEW_MODE: u32 = 0o666;

/// A writer whose bytes replace a file all at once, when [`end`](Replacement::end) is called. Until then they are kept in a hidden file
/// next to it, which is made by the first write, or by `end` if there was none.
#[derive(Drop)]
pub struct Replacement<'a, R: Files> {
    files: &'a R,
    path: String,
    /// The permissions of the file that is replaced, if it exists.
    permissions: Option<Permissions>,
    part: Option<Part<R::File>>,
}

/// The file that is written.
#[derive(Drop)]
struct Part<F> {
    path: String,
    file: F,
}

impl<'a, R: Files + AllocGlobal> Replacement<'a, R> {
    /// A replacement of the file of this name, or of the one that a link of this name leads to. The file need not exist.
    ///
    /// Fails with [`StreamFault::Memory`] if an allocation fails, and with [`StreamFault::Write`] if what has this name is no regular
    /// file, or can't be asked about.
    pub fn of(files: &'a R, name: &str) -> Result<Replacement<'a, R>, StreamFault> {
        let path = real_path(files, name).map_err(write_fault)?;
        let permissions = permissions_of(files, path.as_str()).map_err(write_fault)?;
        Ok(Replacement {
            files,
            path,
            permissions,
            part: None,
        })
    }

    /// Ends the writing, of which `done` is the result. If that is `Ok`, the file is replaced, and `done` is returned. If it is a fault,
    /// what was written is removed, the file is left as it was, and the fault is returned. After a fault of its own,
    /// [`StreamFault::Memory`] or [`StreamFault::Write`], it does the same.
    pub fn end(mut self, done: Result<bool, StreamFault>) -> Result<bool, StreamFault>
        ensures same { IfOk result (λ refused. done ≡ Ok refused) }
        ensures failed { IfErr done (λ fault. result ≡ Err fault) }
    {
        match done {
            Ok(refused) => {
                self.take_place()?;
                Ok(refused)
            }
            Err(fault) => {
                self.remove();
                Err(fault)
            }
        }
    }

    fn take_place(&mut self) -> Result<(), StreamFault> {
        match self.replace() {
            Ok(()) => Ok(()),
            Err(error) => {
                self.remove();
                Err(write_fault(error))
            }
        }
    }

    fn replace(&mut self) -> io::Result<()> {
        self.begin()?;
        let Some(part) = &self.part else {
            return Ok(());
        };
        if let Some(permissions) = &self.permissions {
            part.file.set_permissions(permissions.clone()?)?;
        }
        part.file.sync_all()?;
        fs::rename(self.files, part.path.as_str(), self.path.as_str())?;
        sync_folder(self.files, self.path.as_str());
        Ok(())
    }

    fn remove(&self) {
        if let Some(part) = &self.part {
            let _ = fs::remove_file(self.files, part.path.as_str());
        }
    }

    /// Makes the file that is written, unless that is done already.
    fn begin(&mut self) -> io::Result<()> {
        if self.part.is_none() {
            let part = self.new_part()?;
            self.part = Some(part);
        }
        Ok(())
    }

    fn new_part(&self) -> io::Result<Part<R::File>> {
        for number in 0..MOST_PARTS {
            match self.part_of(number) {
                Ok(part) => return Ok(part),
                Err(error) if error.kind() == io::ErrorKind::AlreadyExists => {}
                Err(error) => return Err(error),
            }
        }
        Err(io::Error::from(io::ErrorKind::AlreadyExists))
    }

    fn part_of(&self, number: u32) -> io::Result<Part<R::File>> {
        let path = part_path(self.files.alloc(), self.path.as_str(), number)?;
        let mode = if self.permissions.is_some() {
            OWN_MODE
        } else {
            NEW_MODE
        };
        let file = OpenOptions::new()
            .write(true)
            .create_new(true)
            .mode(mode)
            .open(self.files, path.as_str())?;
        Ok(Part { path, file })
    }
}

impl<'a, R: Files + AllocGlobal> Write for Replacement<'a, R> {
    fn write(&mut self, buf: &[u8]) -> io::Result<usize> {
        self.begin()?;
        match &mut self.part {
            Some(part) => part.file.write(buf),
            None => Ok(0),
        }
    }

    fn flush(&mut self) -> io::Result<()> {
        Ok(())
    }
}

/// Where the links of a name lead, or the name itself if nothing is there.
fn real_path<R: Files + AllocGlobal>(files: &R, name: &str) -> io::Result<String> {
    match fs::canonicalize(files, name) {
        Ok(path) => Ok(path.into_string()),
        Err(error) if error.kind() == io::ErrorKind::NotFound => {
            Ok(String::from_str(files.alloc(), name)?)
        }
        Err(error) => Err(error),
    }
}

/// The permissions of a regular file, or `None` if nothing is there.
fn permissions_of<R: Files>(files: &R, path: &str) -> io::Result<Option<Permissions>> {
    match fs::metadata(files, path) {
        Ok(found) if found.is_file() => Ok(Some(found.permissions())),
        Ok(_) => Err(io::Error::from(io::ErrorKind::Unsupported)),
        Err(error) if error.kind() == io::ErrorKind::NotFound => Ok(None),
        Err(error) => Err(error),
    }
}

/// The path of a hidden file next to another, whose name doesn't end in `.ics`: `box/.desk.ics.0.part` next to `box/desk.ics`.
fn part_path(alloc: Global, path: &str, number: u32) -> Result<String, AllocError> {
    match path.rsplit_once('/') {
        Some((folder, name)) => format!(in alloc; "{folder}/.{name}.{number}.part"),
        None => format!(in alloc; ".{path}.{number}.part"),
    }
}

/// Syncs the folder of a path, so that a rename in it survives a crash of the machine. If that fails, the file is there all the same.
fn sync_folder<R: Files>(files: &R, path: &str) {
    let folder = match path.rsplit_once('/') {
        Some(("", _)) => "/",
        Some((folder, _)) => folder,
        None => ".",
    };
    if let Ok(opened) = fs::open(files, folder) {
        let _ = opened.sync_all();
    }
}

fn write_fault(error: io::Error) -> StreamFault {
    if error.kind() == io::ErrorKind::OutOfMemory {
        StreamFault::Memory
    } else {
        StreamFault::Write
    }
}
