//! The words of the program, each with its help.
ghost use Rattle.std.specs.Prelude.{IfOk, codes, false, [], ◌∷◌};
ghost use Rattle.itip_words.specs.Program.{program, no_word, with_words, with_rules, message_words, IsRule, IsWord};
ghost use Rattle.itip_words.specs.Program.{run_word, office_word, check_word, compact_word, list_word, report_word, news_word};
ghost use Rattle.itip_words.specs.Program.{explain_word, resend_word, request_word, reply_word, refresh_word, cancel_word};
ghost use Rattle.itip_words.specs.Program.{positional, option, needed, repeated, otherwise, flag};
ghost use Rattle.itip_words.specs.Program.{desks_rule, days_rules, window_rules, row_rules, intake_rules};
ghost use Rattle.clap.specs.Walk.{Rule};
ghost use Rattle.clap.specs.Simple.{App, new_app, with_rule, with_subcommand};

use crate::help::{
    CANCEL_HELP, CHECK_HELP, COMPACT_HELP, EXPLAIN_HELP, LIST_HELP, NEWS_HELP, OFFICE_HELP,
    REFRESH_HELP, REPLY_HELP, REPORT_HELP, REQUEST_HELP, RESEND_HELP, RUN_HELP,
};
use clap::{Arg, ArgAction, Command};
use itip_writing::VERSION;
use std::alloc::{AllocError, Global};

// No option has a rule on another: the contract of `clap` says which words are refused only for a command without such rules. What
// `--load` and `--onward` need besides is checked in words.rt and asked.rt, and told in wrong.rt.

/// The program, with its words.
pub(crate) fn command<'a>(alloc: Global) -> Result<Command<'a>, AllocError>
    ensures { IfOk result (IsWord program) }
{
    let program = with_input(alloc, bare_program(alloc));
    let program = with_sources(alloc, program);
    with_messages(alloc, program)
}

/// The program before it has words.
fn bare_program<'a>(alloc: Global) -> Result<Command<'a>, AllocError>
    ensures { IfOk result (IsWord no_word) }
{
    let program = Command::new(alloc, "itipdesk")
        .bin_name("itipdesk")?
        .about("A desk for to-dos under iTIP (RFC 5546)")
        .version(VERSION)
        .subcommand_required(true)
        .arg_required_else_help(true);
    Ok(program)
}

// A command and an option have some forty fields each, and a proof goes through all of them at each step and at each `?` that drops
// one. So an option is made in a function of its own, and what is added to a command is added to a `Result` of it: a chain has no `?`.

/// Adds a word to a program. An error of either is returned.
fn with_word<'a>(
    command: Result<Command<'a>, AllocError>,
    word: Result<Command<'a>, AllocError>,
) -> Result<Command<'a>, AllocError>
    ensures { (app added : App) → IfOk command.entry (IsWord app) → IfOk word.entry (IsWord added)
        → IfOk result (IsWord (with_subcommand app added.top)) }
{
    add_word(command?, word)
}

/// Adds a word to a program. An error of the word is returned.
fn add_word<'a>(
    command: Command<'a>,
    word: Result<Command<'a>, AllocError>,
) -> Result<Command<'a>, AllocError>
    ensures { (app added : App) → IsWord app command.entry → IfOk word.entry (IsWord added)
        → IfOk result (IsWord (with_subcommand app added.top)) }
{
    command.subcommand(word?)
}

/// Adds an option to a word. An error of the word is returned.
fn with_arg<'a>(
    command: Result<Command<'a>, AllocError>,
    arg: Arg<'a>,
) -> Result<Command<'a>, AllocError>
    ensures { (app : App) (rule : Rule) → IfOk command.entry (IsWord app) → IsRule rule arg.entry
        → IfOk result (IsWord (with_rule app rule)) }
{
    command?.arg(arg)
}

/// Adds the words that take no sources, and read standard input.
fn with_input<'a>(
    alloc: Global,
    command: Result<Command<'a>, AllocError>,
) -> Result<Command<'a>, AllocError>
    ensures { (app : App) → IfOk command.entry (IsWord app)
        → IfOk result (IsWord (with_words (run_word ∷ office_word ∷ check_word ∷ []) app)) }
{
    let command = with_word(command, run_command(alloc));
    let command = with_word(command, office_command(alloc));
    with_word(command, check_command(alloc))
}

/// Adds the words that write what the messages of their sources come to.
fn with_sources<'a>(
    alloc: Global,
    command: Result<Command<'a>, AllocError>,
) -> Result<Command<'a>, AllocError>
    ensures { (app : App) → IfOk command.entry (IsWord app)
        → IfOk result (IsWord (with_words (compact_word ∷ list_word ∷ report_word ∷ news_word ∷ explain_word ∷ []) app)) }
{
    let command = with_word(command, compact_command(alloc));
    let command = with_word(command, list_command(alloc));
    let command = with_word(command, report_command(alloc));
    let command = with_word(command, news_command(alloc));
    with_word(command, explain_command(alloc))
}

/// Adds the words that write a message.
fn with_messages<'a>(
    alloc: Global,
    command: Result<Command<'a>, AllocError>,
) -> Result<Command<'a>, AllocError>
    ensures { (app : App) → IfOk command.entry (IsWord app) → IfOk result (IsWord (with_words message_words app)) }
{
    let command = with_word(command, resend_command(alloc));
    let command = with_word(command, request_command(alloc));
    let command = with_word(command, reply_command(alloc));
    let command = with_word(command, refresh_command(alloc));
    with_word(command, cancel_command(alloc))
}

/// A word without options, with what its help says above and below them.
fn plain_command<'a>(alloc: Global, name: &'a str, about: &'a str, below: &'a str) -> Command<'a>
    ensures { IsWord (new_app name.entry.now) result }
{
    Command::new(alloc, name).about(about).after_help(below)
}

fn run_command<'a>(alloc: Global) -> Result<Command<'a>, AllocError>
    ensures { IfOk result (IsWord run_word) }
{
    let run = plain_command(
        alloc,
        "run",
        "Runs a script from standard input, or serves a stream of commands",
        RUN_HELP,
    );
    let run = run.arg(desks_word(alloc));
    let run = days(alloc, run);
    let run = with_arg(run, stream_word(alloc));
    let run = with_arg(run, load_word(alloc));
    with_arg(run, why_word(alloc))
}

fn office_command<'a>(alloc: Global) -> Result<Command<'a>, AllocError>
    ensures { IfOk result (IsWord office_word) }
{
    let office = plain_command(
        alloc,
        "office",
        "Runs the jobs of a script from standard input on threads",
        OFFICE_HELP,
    );
    let office = office.arg(desks_word(alloc));
    let office = days(alloc, office);
    let office = with_arg(office, workers_word(alloc));
    with_arg(office, why_word(alloc))
}

fn check_command<'a>(alloc: Global) -> Result<Command<'a>, AllocError>
    ensures { IfOk result (IsWord check_word) }
{
    let check = plain_command(
        alloc,
        "check",
        "Reads a message from standard input and shows its items",
        CHECK_HELP,
    );
    check.arg(why_word(alloc))
}

fn compact_command<'a>(alloc: Global) -> Result<Command<'a>, AllocError>
    ensures { IfOk result (IsWord compact_word) }
{
    let compact = plain_command(
        alloc,
        "compact",
        "Reads messages and writes what is kept of them",
        COMPACT_HELP,
    );
    let compact = compact.arg(output_word(alloc));
    intake_words(alloc, compact)
}

fn list_command<'a>(alloc: Global) -> Result<Command<'a>, AllocError>
    ensures { IfOk result (IsWord list_word) }
{
    let list = plain_command(
        alloc,
        "list",
        "Reads messages and writes their task list",
        LIST_HELP,
    );
    let list = days_around_today(alloc, Ok(list));
    let list = row_words(alloc, list);
    intake_words(alloc, list)
}

fn report_command<'a>(alloc: Global) -> Result<Command<'a>, AllocError>
    ensures { IfOk result (IsWord report_word) }
{
    let report = plain_command(
        alloc,
        "report",
        "Reads messages and writes a report of them",
        REPORT_HELP,
    );
    let report = report.arg(name_word(alloc));
    let report = days_around_today(alloc, report);
    intake_words(alloc, report)
}

fn news_command<'a>(alloc: Global) -> Result<Command<'a>, AllocError>
    ensures { IfOk result (IsWord news_word) }
{
    let news = plain_command(
        alloc,
        "news",
        "Reads messages and writes what counts of them that others lack",
        NEWS_HELP,
    );
    let news = news.arg(than_word(alloc));
    intake_words(alloc, news)
}

fn explain_command<'a>(alloc: Global) -> Result<Command<'a>, AllocError>
    ensures { IfOk result (IsWord explain_word) }
{
    let explain = plain_command(
        alloc,
        "explain",
        "Reads messages and says what they tell of a to-do, and what came of it",
        EXPLAIN_HELP,
    );
    let explain = explain.arg(uid_word(alloc));
    intake_words(alloc, explain)
}

fn resend_command<'a>(alloc: Global) -> Result<Command<'a>, AllocError>
    ensures { IfOk result (IsWord resend_word) }
{
    let resend = plain_command(
        alloc,
        "resend",
        "Reads messages and writes those of a to-do that are to be sent again",
        RESEND_HELP,
    );
    let resend = resend.arg(uid_word(alloc));
    let resend = with_arg(resend, at_word(alloc));
    intake_words(alloc, resend)
}

fn request_command<'a>(alloc: Global) -> Result<Command<'a>, AllocError>
    ensures { IfOk result (IsWord request_word) }
{
    let request = plain_command(
        alloc,
        "request",
        "Reads messages and writes a request of the to-dos in a draft",
        REQUEST_HELP,
    );
    let request = request.arg(draft_word(alloc));
    let request = with_arg(request, at_word(alloc));
    intake_words(alloc, request)
}

fn reply_command<'a>(alloc: Global) -> Result<Command<'a>, AllocError>
    ensures { IfOk result (IsWord reply_word) }
{
    let reply = plain_command(
        alloc,
        "reply",
        "Reads messages and writes an attendee's answer to a to-do",
        REPLY_HELP,
    );
    let reply = reply.arg(uid_word(alloc));
    let reply = with_arg(reply, answering_word(alloc));
    let reply = with_arg(reply, status_word(alloc));
    let reply = with_arg(reply, percent_word(alloc));
    let reply = with_arg(reply, id_word(alloc));
    let reply = with_arg(reply, at_word(alloc));
    intake_words(alloc, reply)
}

fn refresh_command<'a>(alloc: Global) -> Result<Command<'a>, AllocError>
    ensures { IfOk result (IsWord refresh_word) }
{
    let refresh = plain_command(
        alloc,
        "refresh",
        "Reads messages and writes an attendee's wish to be sent a to-do again",
        REFRESH_HELP,
    );
    let refresh = refresh.arg(uid_word(alloc));
    let refresh = with_arg(refresh, answering_word(alloc));
    let refresh = with_arg(refresh, id_word(alloc));
    let refresh = with_arg(refresh, at_word(alloc));
    intake_words(alloc, refresh)
}

fn cancel_command<'a>(alloc: Global) -> Result<Command<'a>, AllocError>
    ensures { IfOk result (IsWord cancel_word) }
{
    let cancel = plain_command(
        alloc,
        "cancel",
        "Reads messages and writes a cancellation of a to-do, or removes attendees from it",
        CANCEL_HELP,
    );
    let cancel = cancel.arg(uid_word(alloc));
    let cancel = with_arg(cancel, id_word(alloc));
    let cancel = with_arg(cancel, onward_word(alloc));
    let cancel = with_arg(cancel, removed_word(alloc));
    let cancel = with_arg(cancel, at_word(alloc));
    intake_words(alloc, cancel)
}

/// A required option that is a value alone.
fn positional_word<'a>(alloc: Global, name: &'a str, value: &'a str, help: &'a str) -> Arg<'a>
    ensures { IsRule (positional name.entry.now) result }
{
    Arg::new(alloc, name)
        .value_name(value)
        .required(true)
        .help(help)
}

/// An option with a value.
fn option_word<'a>(alloc: Global, name: &'a str, value: &'a str, help: &'a str) -> Arg<'a>
    ensures { IsRule (option name.entry.now) result }
{
    Arg::new(alloc, name)
        .long(name)
        .value_name(value)
        .help(help)
}

/// An option without a value.
fn flag_word<'a>(alloc: Global, name: &'a str, help: &'a str) -> Arg<'a>
    ensures { IsRule (flag name.entry.now) result }
{
    Arg::new(alloc, name)
        .long(name)
        .action(ArgAction::SetTrue)
        .help(help)
}

fn stream_word<'a>(alloc: Global) -> Arg<'a>
    ensures { IsRule (flag (codes "stream")) result }
{
    flag_word(
        alloc,
        "stream",
        "Answers each command before the next is read, for as long as commands come",
    )
}

fn load_word<'a>(alloc: Global) -> Arg<'a>
    ensures { IsRule (repeated (option (codes "load"))) result }
{
    option_word(
        alloc,
        "load",
        "D=FILE",
        "Desk D begins with what a `!save` wrote to this file; it may be given several times",
    )
    .action(ArgAction::Append)
}

fn workers_word<'a>(alloc: Global) -> Arg<'a>
    ensures { IsRule (otherwise (codes "1") (option (codes "workers"))) result }
{
    option_word(alloc, "workers", "N", "How many workers there are: 1 to 8").default_value("1")
}

fn output_word<'a>(alloc: Global) -> Arg<'a>
    ensures { IsRule (option (codes "output")) result }
{
    option_word(
        alloc,
        "output",
        "FILE",
        "Replaces this file with what is kept, once all is written; - for standard output",
    )
}

fn name_word<'a>(alloc: Global) -> Arg<'a>
    ensures { IsRule (positional (codes "name")) result }
{
    positional_word(
        alloc,
        "name",
        "NAME",
        "Which report: load, progress, cancelled, orphans or refresh",
    )
}

fn than_word<'a>(alloc: Global) -> Arg<'a>
    ensures { IsRule (needed (repeated (option (codes "than")))) result }
{
    option_word(
        alloc,
        "than",
        "SOURCE",
        "What the others are compared with; it may be given several times",
    )
    .action(ArgAction::Append)
    .required(true)
}

fn uid_word<'a>(alloc: Global) -> Arg<'a>
    ensures { IsRule (positional (codes "uid")) result }
{
    positional_word(alloc, "uid", "UID", "The UID of the to-do")
}

fn draft_word<'a>(alloc: Global) -> Arg<'a>
    ensures { IsRule (positional (codes "draft")) result }
{
    positional_word(
        alloc,
        "draft",
        "DRAFT",
        "The file with the to-dos, or - for standard input, which is then no source",
    )
}

fn answering_word<'a>(alloc: Global) -> Arg<'a>
    ensures { IsRule (needed (option (codes "attendee"))) result }
{
    option_word(
        alloc,
        "attendee",
        "ADDRESS",
        "Who writes: the address of an attendee, as a@example.com",
    )
    .required(true)
}

fn status_word<'a>(alloc: Global) -> Arg<'a>
    ensures { IsRule (needed (option (codes "status"))) result }
{
    option_word(
        alloc,
        "status",
        "PARTSTAT",
        "NEEDS-ACTION, ACCEPTED, DECLINED, TENTATIVE, COMPLETED or IN-PROCESS",
    )
    .required(true)
}

fn percent_word<'a>(alloc: Global) -> Arg<'a>
    ensures { IsRule (option (codes "percent")) result }
{
    option_word(alloc, "percent", "N", "How far it is: 0 to 100")
}

fn onward_word<'a>(alloc: Global) -> Arg<'a>
    ensures { IsRule (flag (codes "onward")) result }
{
    flag_word(alloc, "onward", "Cancels the instance and all after it")
}

fn removed_word<'a>(alloc: Global) -> Arg<'a>
    ensures { IsRule (repeated (option (codes "attendee"))) result }
{
    option_word(
        alloc,
        "attendee",
        "ADDRESS",
        "Removes the attendee of this address, and cancels nothing; it may be given several times",
    )
    .action(ArgAction::Append)
}

fn id_word<'a>(alloc: Global) -> Arg<'a>
    ensures { IsRule (option (codes "id")) result }
{
    option_word(
        alloc,
        "id",
        "MOMENT",
        "One instance of the to-do, as lists show it: 20260105 or TZID=Europe/Vienna:20260105T090000",
    )
}

fn at_word<'a>(alloc: Global) -> Arg<'a>
    ensures { IsRule (option (codes "at")) result }
{
    option_word(
        alloc,
        "at",
        "STAMP",
        "The moment of writing, as 20260101T090000Z; without it that of the clock, in UTC",
    )
}

fn desks_word<'a>(alloc: Global) -> Arg<'a>
    ensures { IsRule desks_rule result }
{
    option_word(alloc, "desks", "D", "How many desks there are: 1 to 16").default_value("1")
}

fn why_word<'a>(alloc: Global) -> Arg<'a>
    ensures { IsRule (flag (codes "why")) result }
{
    flag_word(
        alloc,
        "why",
        "Says on standard error where and why something was refused",
    )
}

/// Adds to a word the days of a window.
fn days<'a>(
    alloc: Global,
    command: Result<Command<'a>, AllocError>,
) -> Result<Command<'a>, AllocError>
    ensures { (app : App) → IfOk command.entry (IsWord app) → IfOk result (IsWord (with_rules days_rules app)) }
{
    let command = with_arg(command, from_word(alloc));
    with_arg(command, to_word(alloc))
}

fn from_word<'a>(alloc: Global) -> Arg<'a>
    ensures { IsRule (needed (option (codes "from"))) result }
{
    option_word(alloc, "from", "YYYYMMDD", "The first day that lists show").required(true)
}

fn to_word<'a>(alloc: Global) -> Arg<'a>
    ensures { IsRule (needed (option (codes "to"))) result }
{
    option_word(
        alloc,
        "to",
        "YYYYMMDD",
        "The day after the last that lists show, at most 3660 days later",
    )
    .required(true)
}

/// Adds to a word the days of a window, which need not be given, and the day that is taken as today.
fn days_around_today<'a>(
    alloc: Global,
    command: Result<Command<'a>, AllocError>,
) -> Result<Command<'a>, AllocError>
    ensures { (app : App) → IfOk command.entry (IsWord app) → IfOk result (IsWord (with_rules window_rules app)) }
{
    let command = with_arg(command, first_word(alloc));
    let command = with_arg(command, after_word(alloc));
    with_arg(command, today_word(alloc))
}

fn first_word<'a>(alloc: Global) -> Arg<'a>
    ensures { IsRule (option (codes "from")) result }
{
    option_word(
        alloc,
        "from",
        "YYYYMMDD",
        "The first day of the rows; without it 366 days before today, or 732 before --to",
    )
}

fn after_word<'a>(alloc: Global) -> Arg<'a>
    ensures { IsRule (option (codes "to")) result }
{
    option_word(
        alloc,
        "to",
        "YYYYMMDD",
        "The day after their last; without it 366 days after today, or 732 after --from",
    )
}

fn today_word<'a>(alloc: Global) -> Arg<'a>
    ensures { IsRule (option (codes "today")) result }
{
    option_word(
        alloc,
        "today",
        "YYYYMMDD",
        "The day that is taken for today; without it that of the clock, in UTC",
    )
}

/// Adds to a word the options for which rows are shown, and how.
fn row_words<'a>(
    alloc: Global,
    command: Result<Command<'a>, AllocError>,
) -> Result<Command<'a>, AllocError>
    ensures { (app : App) → IfOk command.entry (IsWord app) → IfOk result (IsWord (with_rules row_rules app)) }
{
    let command = with_arg(command, attendee_word(alloc));
    let command = with_arg(command, open_word(alloc));
    let command = with_arg(command, due_before_word(alloc));
    with_arg(command, format_word(alloc))
}

fn attendee_word<'a>(alloc: Global) -> Arg<'a>
    ensures { IsRule (option (codes "attendee")) result }
{
    option_word(
        alloc,
        "attendee",
        "ADDRESS",
        "Only the rows that show the attendee of this address, as a@example.com",
    )
}

fn open_word<'a>(alloc: Global) -> Arg<'a>
    ensures { IsRule (flag (codes "open")) result }
{
    flag_word(
        alloc,
        "open",
        "Only the rows that are neither completed nor cancelled",
    )
}

fn due_before_word<'a>(alloc: Global) -> Arg<'a>
    ensures { IsRule (option (codes "due-before")) result }
{
    option_word(
        alloc,
        "due-before",
        "DAY",
        "Only the rows that are due before this day, YYYYMMDD or today",
    )
}

fn format_word<'a>(alloc: Global) -> Arg<'a>
    ensures { IsRule (otherwise (codes "text") (option (codes "format"))) result }
{
    option_word(
        alloc,
        "format",
        "FORMAT",
        "How rows are written: text, csv (one record an attendee), json (one object a row) or html (one page)",
    )
    .default_value("text")
}

/// Adds to a word its sources, and the options for how they are read.
fn intake_words<'a>(
    alloc: Global,
    command: Result<Command<'a>, AllocError>,
) -> Result<Command<'a>, AllocError>
    ensures { (app : App) → IfOk command.entry (IsWord app) → IfOk result (IsWord (with_rules intake_rules app)) }
{
    let command = with_arg(command, source_word(alloc));
    let command = with_arg(command, threads_word(alloc));
    let command = with_arg(command, progress_word(alloc));
    with_arg(command, why_word(alloc))
}

fn source_word<'a>(alloc: Global) -> Arg<'a>
    ensures { IsRule (record (repeated (positional (codes "source"))) { required = false }) result }
{
    Arg::new(alloc, "source")
        .value_name("SOURCE")
        .action(ArgAction::Append)
        .help(
            "A file, a folder for the .ics files in it, or - for standard input, which is read where none is named",
        )
}

fn threads_word<'a>(alloc: Global) -> Arg<'a>
    ensures { IsRule (option (codes "threads")) result }
{
    option_word(
        alloc,
        "threads",
        "N",
        "How many threads read messages: 1 to 8, as a rule as many as there are processors",
    )
}

fn progress_word<'a>(alloc: Global) -> Arg<'a>
    ensures { IsRule (flag (codes "progress")) result }
{
    flag_word(
        alloc,
        "progress",
        "Shows how many messages and octets were read, also where standard error is no terminal",
    )
}
