//! The program `itipdesk`: desks for to-dos under iTIP. It runs a script from standard input, one command after another or as jobs on
//! threads; serves a stream of commands, each answered before the next; reads messages from files, folders and standard input, and
//! writes what is kept of them, what others lack, their task list, a report, an explanation, or a message to send; or shows a message
//! as its items.
//!
//! Its exit status is 0, or 1 if something was refused, 2 for bad words, 3 for a fault, and 4 if what was asked for can't be done or the
//! file of a desk is refused.
#![tactic(auto)]

mod draft;
mod filters;
mod given;
mod run;
mod status;
mod stream;
mod tell;
mod thread_count;

use run::Terminals;
use std::io::IsTerminal;
use std::process::ExitCode;

fn main(rt: HostRuntime) -> ExitCode {
    let terminals = Terminals {
        output: rt.stdout().is_terminal(),
        errors: rt.stderr().is_terminal(),
    };
    run::exit_code(&rt, terminals)
}
