//! The commands of a script, one after another.
ghost use Rattle.std.specs.Prelude.{◌≡◌};
ghost use Rattle.itip_script.specs.Orders.{order_of, order_at, is_take};
ghost use Rattle.itip_script.specs.Script.{GivesFirst};

use crate::command::{Command, spelled};
use crate::line::{content, first_line, leading_stretch};
use crate::word::{is_word, split_word};

/// The commands of a script that are left.
#[derive(Drop)]
pub struct Commands<'a> {
    // What is not cut yet, from the beginning of a line.
    rest: &'a [u8],
}

impl<'a> Commands<'a> {
    ghost use Rattle.std.specs.Prelude.{◌≡◌};
    ghost use Rattle.itip_script.specs.Script.{orders_of};
    ghost use Rattle.itip_script.specs.Left.{orders_left};

    /// The commands of a script, in order, cut in one pass. Nothing is copied: texts and UIDs are slices of the script.
    pub fn new(script: &'a [u8]) -> Self
        ensures { orders_left result ≡ orders_of script.now }
    {
        Commands { rest: script }
    }
}

impl<'a> Iterator for Commands<'a> {
    ghost use Rattle.std.specs.Iterator.{YieldsFirstBy, item_count};
    ghost use Rattle.itip_script.specs.Orders.{order_of};
    ghost use Rattle.itip_script.specs.Left.{orders_left};

    type Item = Command<'a>;

    ghost next_gives = { YieldsFirstBy order_of orders_left };

    ghost remaining = { item_count orders_left };

    fn next(&mut self) -> Option<Command<'a>> {
        let before = leading_stretch(self.rest);
        self.rest = before.after;
        if !before.is_blank {
            return Some(Command::Malformed);
        }
        let (line, after) = first_line(before.after)?;
        let (command, rest) = command_at(line, after);
        self.rest = rest;
        Some(command)
    }
}

// The command of a line, and what follows it and its message.
fn command_at<'a>(line: &'a [u8], after: &'a [u8]) -> (Command<'a>, &'a [u8])
    ensures { GivesFirst line.now after.now (order_of result.0) result.1.now }
{
    let said = content(line);
    if is_take(said) {
        let message = leading_stretch(after);
        (command_or_malformed(said, message.text), message.after)
    } else {
        (command_or_malformed(said, &[]), after)
    }
}

fn command_or_malformed<'a>(said: &'a [u8], message: &'a [u8]) -> Command<'a>
    ensures { order_of result ≡ order_at said.now message.now }
{
    spelled(said, message).unwrap_or(Command::Malformed)
}

fn is_take(said: &[u8]) -> bool
    ensures { result ≡ is_take said.now }
{
    let (word, _) = split_word(said);
    is_word(word, b"!take")
}
