//! The sources that words name.
ghost use Rattle.std.specs.Prelude.{◌≡◌, ◌∷◌, [], IfOk, length, filter};
ghost use Rattle.std.specs.String.{string_bytes};
ghost use Rattle.itip_streams.specs.Folders.{ends_in_ics, is_ics, AreIcsNames, slash_behind, joined};

use crate::source_name::SourceName;
use std::alloc::{AllocError, Global};
use std::rt::Files;
use std::{fs, io};

/// The sources that words name, in their order. `-` is standard input, and so are no words at all. A folder stands for the regular
/// files in it whose names end in `.ics`, in any case, sorted by the bytes of their names; links are followed, and folders in it are
/// not entered. Every other word is a file of that name, which need not exist.
///
/// A folder that can't be listed, that has a name which isn't UTF-8, or a name that ends in `.ics` and leads nowhere or can't be asked
/// about, is [`SourceName::Unreadable`]. Fails if an allocation fails.
pub fn source_names<R: Files + AllocGlobal + Clone + Drop>(
    rt: &R,
    words: &[String],
) -> Result<Vec<SourceName>, AllocError>
    ensures { length words.now ≡ 0 → IfOk result (λ names. names.items ≡ SourceName.StandardInput ∷ []) }
{
    let mut names = Vec::new(rt.alloc());
    if words.is_empty() {
        names.push(SourceName::StandardInput)?;
        return Ok(names);
    }
    for word in words {
        add_sources(rt, word.as_str(), &mut names)?;
    }
    Ok(names)
}

fn add_sources<R: Files + AllocGlobal + Clone + Drop>(
    rt: &R,
    word: &str,
    names: &mut Vec<SourceName>,
) -> Result<(), AllocError> {
    if word == "-" {
        names.push(SourceName::StandardInput)?;
        return Ok(());
    }
    if !is_folder(rt, word) {
        names.push(SourceName::File(String::from_str(rt.alloc(), word)?))?;
        return Ok(());
    }
    match files_in(rt, word) {
        Ok(files) => {
            let mut files = files;
            names.append(&mut files)
        }
        Err(error) if error.kind() == io::ErrorKind::OutOfMemory => Err(AllocError),
        Err(_) => {
            names.push(SourceName::Unreadable(String::from_str(rt.alloc(), word)?))?;
            Ok(())
        }
    }
}

/// Whether a word names a folder. What doesn't exist, or can't be asked about, is none.
fn is_folder<R: Files>(rt: &R, word: &str) -> bool {
    match fs::metadata(rt, word) {
        Ok(found) => found.is_dir(),
        Err(_) => false,
    }
}

fn files_in<R: Files + AllocGlobal + Clone + Drop>(
    rt: &R,
    folder: &str,
) -> io::Result<Vec<SourceName>> {
    let alloc = rt.alloc();
    let names = ics_names(alloc, names_in(rt, folder)?)?;
    let mut files = Vec::new(alloc);
    for name in &names {
        let path = joined(alloc, folder, name.as_str())?;
        if fs::metadata(rt, path.as_str())?.is_file() {
            files.push(SourceName::File(path))?;
        }
    }
    Ok(files)
}

fn names_in<R: Files + AllocGlobal + Clone + Drop>(
    rt: &R,
    folder: &str,
) -> io::Result<Vec<String>> {
    let alloc = rt.alloc();
    let mut names = Vec::new(alloc);
    for entry in fs::read_dir(rt, folder)? {
        let entry = entry?;
        names.push(String::from_str(alloc, entry.file_name())?)?;
    }
    Ok(names)
}

/// The names that end in `.ics`, in any case, sorted by their bytes. If an allocation fails, the names are dropped.
fn ics_names(alloc: Global, names: Vec<String>) -> Result<Vec<String>, AllocError>
    ensures { IfOk result (λ found. AreIcsNames names.items found.items) }
{
    let mut found = only_ics(alloc, names)?;
    found.sort()?;
    Ok(found)
}

fn only_ics(alloc: Global, names: Vec<String>) -> Result<Vec<String>, AllocError>
    ensures { IfOk result (λ found. found.items ≡ filter is_ics names.items) }
{
    let mut found = Vec::new(alloc);
    for name in names {
        if ends_in_ics(name.as_str()) {
            found.push(name)?;
        }
    }
    Ok(found)
}

fn ends_in_ics(name: &str) -> bool
    ensures { result ≡ ends_in_ics name.now }
{
    let octets = name.as_bytes();
    let end = &octets[octets.len().saturating_sub(4)..];
    end.eq_ignore_ascii_case(b".ics")
}

/// The path of a file in a folder: the folder, a slash unless the folder ends in one, and the name.
fn joined(alloc: Global, folder: &str, name: &str) -> Result<String, AllocError>
    ensures { IfOk result (λ path. string_bytes path ≡ joined folder.now name.now) }
{
    let slash = slash_behind(folder);
    Ok(format!(in alloc; "{folder}{slash}{name}")?)
}

fn slash_behind(folder: &str) -> &'static str
    ensures { result.now ≡ slash_behind folder.now }
{
    match folder.as_bytes() {
        [.., b'/'] => "",
        _ => "/",
    }
}
