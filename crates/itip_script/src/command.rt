//! What a line of a script asks for.
ghost use Rattle.std.specs.Prelude.{◌≡◌};
ghost use Rattle.std.specs.Option.{option_map};
ghost use Rattle.itip_script.specs.Orders.{order_of, spelled, spelled_by, verb_of, report_of, rest_of};

use crate::word::{is_word, read_number, split_word};
use itip_report::ReportName;

/// A command of a script. Desks, packets and ticks are numbers as written, whether or not there is such a desk.
#[derive(Clone, Copy, Debug)]
pub enum Command<'a> {
    /// `!take d` and the message after it, byte for byte.
    Take { desk: u64, text: &'a [u8] },
    /// `!list d`
    List { desk: u64 },
    /// `!mine d address`: the rows that show an attendee. An address is the rest of the line, of any bytes, and not empty.
    Mine { desk: u64, address: &'a [u8] },
    /// `!post d t`: what changed at the desk after tick `t`.
    Post { desk: u64, since: u64 },
    /// `!arrive k d`: packet `k` reaches desk `d`.
    Arrive { packet: u64, desk: u64 },
    /// `!report d name`
    Report { desk: u64, name: ReportName },
    /// `!resend d uid`. A UID is the rest of the line, of any bytes, and not empty.
    Resend { desk: u64, uid: &'a [u8] },
    /// `!next d uid`
    Next { desk: u64, uid: &'a [u8] },
    /// `!entries d`
    Entries { desk: u64 },
    /// Any other line that begins with `!`, or a stretch of lines, not all empty, that belongs to no command.
    Malformed,
}

impl<'a> Command<'a> {
    /// Its word without the `!`, or `command` if it is malformed.
    pub fn word(&self) -> &'static str {
        match self {
            Command::Take { .. } => "take",
            Command::List { .. } => "list",
            Command::Mine { .. } => "mine",
            Command::Post { .. } => "post",
            Command::Arrive { .. } => "arrive",
            Command::Report { .. } => "report",
            Command::Resend { .. } => "resend",
            Command::Next { .. } => "next",
            Command::Entries { .. } => "entries",
            Command::Malformed => "command",
        }
    }
}

/// The words that a command can begin with.
#[derive(Clone, Copy)]
pub(crate) enum Verb {
    Take,
    List,
    Mine,
    Post,
    Arrive,
    Report,
    Resend,
    Next,
    Entries,
}

/// The command that a line spells, if any. `line` has no break, and `message` is the text after it.
pub(crate) fn spelled<'a>(line: &'a [u8], message: &'a [u8]) -> Option<Command<'a>>
    ensures { option_map order_of result ≡ spelled line.now message.now }
{
    let (word, arguments) = split_word(line);
    spelled_by(verb_of(word)?, arguments, message)
}

/// The command of a word with these arguments. `None` if they are bad.
pub(crate) fn spelled_by<'a>(
    verb: Verb,
    arguments: &'a [u8],
    message: &'a [u8],
) -> Option<Command<'a>>
    ensures { option_map order_of result ≡ spelled_by verb arguments.now message.now }
{
    let (first, second) = split_word(arguments);
    match verb {
        Verb::Take => {
            let desk = read_number(arguments)?;
            Some(Command::Take {
                desk,
                text: message,
            })
        }
        Verb::List => {
            let desk = read_number(arguments)?;
            Some(Command::List { desk })
        }
        Verb::Mine => {
            let desk = read_number(first)?;
            let address = rest_of(second)?;
            Some(Command::Mine { desk, address })
        }
        Verb::Post => {
            let desk = read_number(first)?;
            let since = read_number(second)?;
            Some(Command::Post { desk, since })
        }
        Verb::Arrive => {
            let packet = read_number(first)?;
            let desk = read_number(second)?;
            Some(Command::Arrive { packet, desk })
        }
        Verb::Report => {
            let desk = read_number(first)?;
            let name = read_report_name(second)?;
            Some(Command::Report { desk, name })
        }
        Verb::Resend => {
            let desk = read_number(first)?;
            let uid = rest_of(second)?;
            Some(Command::Resend { desk, uid })
        }
        Verb::Next => {
            let desk = read_number(first)?;
            let uid = rest_of(second)?;
            Some(Command::Next { desk, uid })
        }
        Verb::Entries => {
            let desk = read_number(arguments)?;
            Some(Command::Entries { desk })
        }
    }
}

pub(crate) fn verb_of(word: &[u8]) -> Option<Verb>
    ensures { result ≡ verb_of word.now }
{
    if is_word(word, b"!take") {
        Some(Verb::Take)
    } else if is_word(word, b"!list") {
        Some(Verb::List)
    } else if is_word(word, b"!mine") {
        Some(Verb::Mine)
    } else if is_word(word, b"!post") {
        Some(Verb::Post)
    } else if is_word(word, b"!arrive") {
        Some(Verb::Arrive)
    } else if is_word(word, b"!report") {
        Some(Verb::Report)
    } else if is_word(word, b"!resend") {
        Some(Verb::Resend)
    } else if is_word(word, b"!next") {
        Some(Verb::Next)
    } else if is_word(word, b"!entries") {
        Some(Verb::Entries)
    } else {
        None
    }
}

/// The report of this name: `load`, `progress`, `cancelled`, `orphans` or `refresh`. `None` for any other word.
pub fn read_report_name(word: &[u8]) -> Option<ReportName>
    ensures { result ≡ report_of word.now }
{
    if is_word(word, b"load") {
        Some(ReportName::Load)
    } else if is_word(word, b"progress") {
        Some(ReportName::Progress)
    } else if is_word(word, b"cancelled") {
        Some(ReportName::Cancelled)
    } else if is_word(word, b"orphans") {
        Some(ReportName::Orphans)
    } else if is_word(word, b"refresh") {
        Some(ReportName::Refresh)
    } else {
        None
    }
}

/// The rest of a line. `None` if it is empty.
pub(crate) fn rest_of(bytes: &[u8]) -> Option<&[u8]>
    ensures { option_map (λ rest. rest.now) result ≡ rest_of bytes.now }
{
    if bytes.is_empty() { None } else { Some(bytes) }
}
