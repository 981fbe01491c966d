//! What is said, in the manner of `clap`, of a value that its word doesn't take, of an option that lacks or excludes another, and of
//! standard input that would be read twice.
use crate::asked_values::{answer_named, named_moment, percent_of};
use crate::days::is_today;
use crate::filter::{names_format, threads_of};
use crate::options::{has_values, is_given, is_set};
use crate::streamed::{Load, loads_named, next_load};
use crate::words::{desks_of, workers_of};
use clap::ArgMatches;
use itip_moment::{read_date, read_stamp};
use itip_script::read_report_name;
use itip_streams::visible_text;
use std::alloc::{AllocError, Global};

// Each option whose value is read here, how its usage shows it, and what is wrong with a value that it doesn't take.
const VALUES: [(&str, &str, &str); 13] = [
    ("desks", "--desks <D>", "not a number from 1 to 16"),
    ("workers", "--workers <N>", "not a number from 1 to 8"),
    ("threads", "--threads <N>", "not a number from 1 to 8"),
    ("from", "--from <YYYYMMDD>", "not a date, as 20260131"),
    ("to", "--to <YYYYMMDD>", "not a date, as 20260131"),
    ("today", "--today <YYYYMMDD>", "not a date, as 20260131"),
    (
        "due-before",
        "--due-before <DAY>",
        "neither a date, as 20260131, nor 'today'",
    ),
    (
        "format",
        "--format <FORMAT>",
        "not one of text, csv, json and html",
    ),
    (
        "name",
        "<NAME>",
        "not one of load, progress, cancelled, orphans and refresh",
    ),
    (
        "id",
        "--id <MOMENT>",
        "not a moment, as 20260105, 20260105T090000, 20260105T090000Z or TZID=Europe/Vienna:20260105T090000",
    ),
    (
        "status",
        "--status <PARTSTAT>",
        "not one of NEEDS-ACTION, ACCEPTED, DECLINED, TENTATIVE, COMPLETED and IN-PROCESS",
    ),
    ("percent", "--percent <N>", "not a number from 0 to 100"),
    (
        "at",
        "--at <STAMP>",
        "not a date and a time in UTC, as 20260101T090000Z",
    ),
];

/// What is wrong with words for which there is no call: the first option that lacks or excludes another, else the first bad value,
/// with its control characters shown as their bytes.
pub(crate) fn what_is_wrong(alloc: Global, matches: &ArgMatches<'_>) -> Result<String, AllocError> {
    let Some((_, words)) = matches.subcommand() else {
        return Ok(String::new(alloc));
    };
    if let Some(what) = misplaced(words) {
        return told(alloc, what);
    }
    match wrong_value(alloc, words, &VALUES)? {
        Some(what) => Ok(what),
        None => wrong_beside(alloc, words),
    }
}

/// What is wrong with the first of these options whose value is bad.
fn wrong_value(
    alloc: Global,
    words: &ArgMatches<'_>,
    values: &[(&str, &str, &str)],
) -> Result<Option<String>, AllocError> {
    for (id, usage, why) in values.iter() {
        if let Some(value) = words.get_str(id) {
            if !is_good(alloc, id, value)? {
                return Ok(Some(bad_value(alloc, value, usage, why)?));
            }
        }
    }
    Ok(None)
}

/// What is wrong with `--load`, or else with days that are each a date.
fn wrong_beside(alloc: Global, words: &ArgMatches<'_>) -> Result<String, AllocError> {
    if let Some(value) = wrong_load(alloc, words)? {
        let why = "not the number of a desk that no other names, =, and a file";
        return bad_value(alloc, value, "--load <D=FILE>", why);
    }
    wrong_days(alloc, words)
}

/// What is wrong if an option needs another that isn't given, or can't be used with one that is.
fn misplaced(words: &ArgMatches<'_>) -> Option<&'static str> {
    if has_values(words, "load") && !is_set(words, "stream") {
        return Some("the argument '--load <D=FILE>' needs '--stream'");
    }
    if !is_set(words, "onward") {
        return None;
    }
    if has_values(words, "attendee") {
        return Some("the argument '--onward' cannot be used with '--attendee <ADDRESS>'");
    }
    if !is_given(words, "id") {
        return Some("the argument '--onward' needs '--id <MOMENT>'");
    }
    None
}

/// The first bad value of `--load`, if the number of desks is good.
fn wrong_load<'a>(alloc: Global, words: &ArgMatches<'a>) -> Result<Option<&'a str>, AllocError> {
    let Some(desks) = words.get_str("desks").and_then(desks_of) else {
        return Ok(None);
    };
    let mut before = Vec::new(alloc);
    for text in loads_named(words) {
        match next_load(text, desks, before.as_slice()) {
            Some((desk, _)) => before.push(Load {
                desk,
                file: String::new(alloc),
            })?,
            None => return Ok(Some(*text)),
        }
    }
    Ok(None)
}

/// Whether the option takes this value.
fn is_good(alloc: Global, id: &str, value: &str) -> Result<bool, AllocError> {
    match id {
        "id" => Ok(named_moment(alloc, value)?.is_some()),
        "status" => Ok(answer_named(value).is_some()),
        "percent" => Ok(percent_of(value).is_some()),
        "at" => Ok(read_stamp(value).is_some()),
        _ => Ok(is_good_of_run(id, value)),
    }
}

/// The same for the other options.
fn is_good_of_run(id: &str, value: &str) -> bool {
    match id {
        "desks" => desks_of(value).is_some(),
        "workers" => workers_of(value).is_some(),
        "threads" => threads_of(value).is_some(),
        "due-before" => is_today(value) || read_date(value).is_some(),
        "format" => names_format(value),
        "name" => read_report_name(value.as_bytes()).is_some(),
        _ => read_date(value).is_some(),
    }
}

/// What is wrong with days, each of which is a date.
fn wrong_days(alloc: Global, words: &ArgMatches<'_>) -> Result<String, AllocError> {
    let name = words
        .get_str("name")
        .and_then(|name| read_report_name(name.as_bytes()));
    match name {
        Some(name) if !name.is_of_rows() => {
            let name = name.as_str();
            let what = format!(in alloc; "the report '{name}' takes no days")?;
            told(alloc, what.as_str())
        }
        _ => bad_value(
            alloc,
            words.get_str("to").unwrap_or(""),
            "--to <YYYYMMDD>",
            "not 1 to 3660 days after '--from'",
        ),
    }
}

/// What is said if standard input would be read more than once.
pub(crate) fn input_read_twice(alloc: Global) -> Result<String, AllocError> {
    told(
        alloc,
        "standard input is read once at most, and it is the source where no other is named",
    )
}

fn bad_value(alloc: Global, value: &str, usage: &str, why: &str) -> Result<String, AllocError> {
    let value = visible_text(alloc, value)?;
    let what = format!(in alloc; "invalid value '{value}' for '{usage}': {why}")?;
    told(alloc, what.as_str())
}

fn told(alloc: Global, what: &str) -> Result<String, AllocError> {
    format!(in alloc; "error: {what}\n\nFor more information, try '--help'.\n")
}
