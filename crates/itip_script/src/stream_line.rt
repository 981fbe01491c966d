//! What a line of a stream asks for. Each command of a stream is answered before the next is read.
ghost use Rattle.std.specs.Prelude.{◌≡◌};
ghost use Rattle.std.specs.Option.{option_map};
ghost use Rattle.itip_script.specs.Orders.{order_of};
ghost use Rattle.itip_script.specs.Stream.{asks, wish_of, wish_at, wish_by, spelled_wish, following};

use crate::command::{Command, Verb, rest_of, spelled_by, verb_of};
use crate::line::content;
use crate::word::{is_word, read_number, split_word};

/// What a line of a stream asks for. Desks and ticks are numbers as written, whether or not there is such a desk.
#[derive(Clone, Copy, Debug)]
pub enum StreamLine<'a> {
    /// `!take d n`: the desk takes the message in the `n` bytes after the line.
    Take { desk: u64, octets: u64 },
    /// `!arrive d n`: the delta in the `n` bytes after the line reaches the desk.
    Arrive { desk: u64, octets: u64 },
    /// `!post d t`: what changed at the desk after tick `t`.
    Post { desk: u64, since: u64 },
    /// `!save d file`: the desk is written to a file, whose name is the rest of the line.
    Save { desk: u64, file: &'a [u8] },
    /// A command that scripts have too, and that leaves the desk as it is.
    Question(Command<'a>),
    /// Any other line. The `octets` bytes after it belong to it.
    Malformed { octets: u64 },
    /// An empty line.
    Empty,
}

impl<'a> StreamLine<'a> {
    /// What a line asks for, with or without its break.
    pub fn of_line(line: &'a [u8]) -> StreamLine<'a>
        ensures { wish_of result ≡ wish_at line.now }
    {
        let said = content(line);
        if said.is_empty() {
            return StreamLine::Empty;
        }
        match spelled(said) {
            Some(asked) => asked,
            None => StreamLine::Malformed {
                octets: following(said),
            },
        }
    }

    /// Its word without the `!`, or `command` if it is malformed or empty.
    pub fn word(&self) -> &'static str {
        match self {
            StreamLine::Take { .. } => "take",
            StreamLine::Arrive { .. } => "arrive",
            StreamLine::Post { .. } => "post",
            StreamLine::Save { .. } => "save",
            StreamLine::Question(command) => command.word(),
            StreamLine::Malformed { .. } | StreamLine::Empty => "command",
        }
    }
}

fn spelled(said: &[u8]) -> Option<StreamLine<'_>>
    ensures { option_map wish_of result ≡ spelled_wish said.now }
{
    let (word, arguments) = split_word(said);
    if is_word(word, b"!save") {
        let (first, second) = split_word(arguments);
        let desk = read_number(first)?;
        let file = rest_of(second)?;
        return Some(StreamLine::Save { desk, file });
    }
    spelled_with(verb_of(word)?, arguments)
}

fn spelled_with(verb: Verb, arguments: &[u8]) -> Option<StreamLine<'_>>
    ensures { option_map wish_of result ≡ wish_by verb arguments.now }
{
    let (first, second) = split_word(arguments);
    match verb {
        Verb::Take => {
            let desk = read_number(first)?;
            let octets = read_number(second)?;
            Some(StreamLine::Take { desk, octets })
        }
        Verb::Arrive => {
            let desk = read_number(first)?;
            let octets = read_number(second)?;
            Some(StreamLine::Arrive { desk, octets })
        }
        Verb::Post => {
            let desk = read_number(first)?;
            let since = read_number(second)?;
            Some(StreamLine::Post { desk, since })
        }
        _ => question(spelled_by(verb, arguments, &[])),
    }
}

fn question(asked: Option<Command<'_>>) -> Option<StreamLine<'_>>
    ensures { option_map wish_of result ≡ option_map asks (option_map order_of asked.entry) }
{
    Some(StreamLine::Question(asked?))
}

/// How many bytes after a line that spells no command belong to it: as many as a `!take` or an `!arrive` names, else 0.
fn following(said: &[u8]) -> u64
    ensures { result ≡ following said.now }
{
    let (word, arguments) = split_word(said);
    if is_word(word, b"!take") || is_word(word, b"!arrive") {
        let (_, second) = split_word(arguments);
        return read_number(second).unwrap_or(0);
    }
    0
}
