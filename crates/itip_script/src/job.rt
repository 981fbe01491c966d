//! The jobs of a script, for an office.
ghost use Rattle.std.specs.Prelude.{◌≡◌};
ghost use Rattle.std.specs.Option.{option_map};
ghost use Rattle.itip_script.specs.Jobs.{errand_of, errand_at, spelled_errand};

use crate::line::{content, first_line, leading_stretch};
use crate::word::{is_word, read_number, split_word};

/// A command of a script that an office runs. Desks are numbers as written, whether or not there is such a desk.
#[derive(Clone, Copy, Debug)]
pub enum JobCommand<'a> {
    /// `!take d` and the message after it, byte for byte.
    Take { desk: u64, text: &'a [u8] },
    /// `!carry a b`: all that desk `a` keeps comes to desk `b`.
    Carry { from: u64, to: u64 },
    /// `!look d`
    Look { desk: u64 },
    /// Any other line that begins with `!`.
    Malformed,
}

/// The commands of a script for an office that are left.
#[derive(Drop)]
pub struct JobCommands<'a> {
    rest: &'a [u8],
}

impl<'a> JobCommands<'a> {
    ghost use Rattle.std.specs.Prelude.{◌≡◌};
    ghost use Rattle.itip_script.specs.Jobs.{errands_of};
    ghost use Rattle.itip_script.specs.LeftJobs.{errands_left};

    /// The commands of a script for an office, in order: one for each line that begins with `!`. Other lines that belong to no `!take`
    /// are skipped. Texts are slices of the script.
    pub fn new(script: &'a [u8]) -> Self
        ensures { errands_left result ≡ errands_of script.now }
    {
        JobCommands { rest: script }
    }
}

impl<'a> Iterator for JobCommands<'a> {
    ghost use Rattle.std.specs.Iterator.{YieldsFirstBy, item_count};
    ghost use Rattle.itip_script.specs.Jobs.{errand_of};
    ghost use Rattle.itip_script.specs.LeftJobs.{errands_left};

    type Item = JobCommand<'a>;

    ghost next_gives = { YieldsFirstBy errand_of errands_left };

    ghost remaining = { item_count errands_left };

    fn next(&mut self) -> Option<JobCommand<'a>> {
        let before = leading_stretch(self.rest);
        let (line, after) = first_line(before.after)?;
        let message = leading_stretch(after);
        self.rest = message.after;
        Some(job_at(content(line), message.text))
    }
}

fn job_at<'a>(said: &'a [u8], message: &'a [u8]) -> JobCommand<'a>
    ensures { errand_of result ≡ errand_at said.now message.now }
{
    spelled_job(said, message).unwrap_or(JobCommand::Malformed)
}

fn spelled_job<'a>(said: &'a [u8], message: &'a [u8]) -> Option<JobCommand<'a>>
    ensures { option_map errand_of result ≡ spelled_errand said.now message.now }
{
    let (word, arguments) = split_word(said);
    if is_word(word, b"!take") {
        let desk = read_number(arguments)?;
        Some(JobCommand::Take {
            desk,
            text: message,
        })
    } else if is_word(word, b"!carry") {
        let (first, second) = split_word(arguments);
        let from = read_number(first)?;
        let to = read_number(second)?;
        Some(JobCommand::Carry { from, to })
    } else if is_word(word, b"!look") {
        let desk = read_number(arguments)?;
        Some(JobCommand::Look { desk })
    } else {
        None
    }
}
