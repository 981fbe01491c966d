//! How a stream of commands is served.
ghost use Rattle.std.specs.Prelude.{◌≡◌, ◌≢◌, ◌<◌, ◌==◌, [], Some, IfOk, IfSome, IfNone, codes, map, unwrap_or};
ghost use Rattle.std.specs.List.{All, list_any};
ghost use Rattle.std.specs.Option.{option_map};
ghost use Rattle.itip_words.specs.Calls.{IsStreamOf};
ghost use Rattle.itip_words.specs.Finding.{Never, Finds};
ghost use Rattle.itip_words.specs.Options.{options_of, values_of};
ghost use Rattle.itip_words.specs.Streams.{IsNextLoad, load_of};

use crate::options::values_of;
use crate::words::{Scripted, scripted_of};
use clap::ArgMatches;
use itip_script::read_number;
use std::alloc::{AllocError, Global};

/// A stream of commands is served over desks, some of which are read from files.
#[derive(Drop)]
pub struct Streamed {
    pub scripted: Scripted,
    pub loads: Vec<Load>,
}

/// A desk that is loaded from a file.
#[derive(Debug, Drop)]
pub struct Load {
    pub desk: u64,
    pub file: String,
}

/// How the words have a stream served. `None` if a value is bad.
pub(crate) fn streamed_of(
    alloc: Global,
    words: &ArgMatches<'_>,
) -> Result<Option<Streamed>, AllocError>
    ensures { IfOk result (Finds (IsStreamOf (options_of words.now))) }
{
    let Some(scripted) = scripted_of(words) else {
        return Ok(None);
    };
    let mut loads = Vec::new(alloc);
    for text in loads_named(words) {
        let Some(load) = next_load(text, scripted.desks, loads.as_slice()) else {
            return Ok(None);
        };
        let (desk, file) = load;
        let file = String::from_str(alloc, file)?;
        loads.push(Load { desk, file })?;
    }
    Ok(Some(Streamed { scripted, loads }))
}

/// The values of `--load`, each `D=FILE` if it is good.
pub(crate) fn loads_named<'m, 'a>(words: &'m ArgMatches<'a>) -> &'m [&'a str]
    ensures { map (λ text. text.now) result.now ≡ unwrap_or (values_of (codes "load") (options_of words.now)) [] }
{
    values_of(words, "load").unwrap_or_default()
}

/// The desk and the file that a word names. `None` if it is no `D=FILE`, if `D` isn't below `desks`, or if a load before is of `D`.
pub(crate) fn next_load<'a>(text: &'a str, desks: u64, before: &[Load]) -> Option<(u64, &'a str)>
    ensures named { IfSome result (λ load. load_of text.now ≡ Some (load.0, load.1.now)) }
    ensures there { IfSome result (λ load. load.0 < desks) }
    ensures once { IfSome result (λ load. All (λ l. l.desk ≢ load.0) before.now) }
    ensures none { IfNone result (Never (IsNextLoad text.now desks before.now)) }
{
    let (desk, file) = load_of(text)?;
    if desk >= desks {
        return None;
    }
    if is_named(desk, before) {
        return None;
    }
    Some((desk, file))
}

fn is_named(desk: u64, loads: &[Load]) -> bool
    ensures { result ≡ list_any (λ load. load.desk == desk) loads.now }
{
    loads.iter().any(|load| load.desk == desk)
}

/// The desk and the file of `D=FILE`. `None` for any other text, and if the file has no name.
fn load_of(text: &str) -> Option<(u64, &str)>
    ensures { option_map (λ load. (load.0, load.1.now)) result ≡ load_of text.now }
{
    let (desk, file) = text.split_once('=')?;
    if file.is_empty() {
        return None;
    }
    Some((read_number(desk.as_bytes())?, file))
}
