//! Makes calls that use threads, and calls in which an allocation may fail, and shows what they answer.
//!
//! A line of standard input is a call: its word, and after it the arguments in hexadecimal (`-` for an empty one), with a blank before
//! each. A line of standard output is the answer, in hexadecimal. A fault is an answer too, by its name, and so is `no such call`.
//! `tools/calls` sends the calls of `examples/calls/itip_live_calls` and compares the answers, and `tools/refusals` those of
//! `examples/refusals/itip_live_calls`.
//!
//! It is proved, so values are few and short-lived, and each call is a small function.
#![tactic(auto)]

mod again;
mod beside;
mod call;
mod crossing;
mod desks;
mod error;
mod gates;
mod groups;
mod joins;
mod lists;
mod office;
mod picture;
mod reading;
mod refusal;
mod running;
mod states;
mod texts;
mod watch;

use crate::beside::beside;
use crate::call::Call;
use crate::error::CallError;
use crate::groups::grouped;
use crate::office::{deaf_keeper, office};
use crate::running::{run_steps, scoped};
use crate::texts::number;
use std::io::{BufRead, BufReader};
use std::process::ExitCode;
use std::sync::Wait;
use std::thread::Threads;

fn main(rt: HostRuntime) -> ExitCode {
    match run(&rt) {
        Ok(()) => ExitCode::SUCCESS,
        Err(error) => {
            let text = error.text();
            let _ = eprintln!(rt; "itip_live_calls: {text}");
            ExitCode::from(2)
        }
    }
}

fn run<R: AllocGlobal + Input + Print + Eprint + Threads + Wait + Copy + Send + Sync + 'static>(
    rt: &R,
) -> Result<(), CallError> {
    for line in BufReader::new(rt.alloc(), rt.reader())?.lines(rt.alloc()) {
        let line = line?;
        let answer = answer(rt, line.as_str())?;
        rt.println(hex::encode(rt.alloc(), answer)?.as_str())?;
    }
    Ok(())
}

/// The answer to the call of a line.
fn answer<R: AllocGlobal + Eprint + Threads + Wait + Copy + Send + Sync + 'static>(
    rt: &R,
    line: &str,
) -> Result<Vec<u8>, CallError> {
    let call = Call::of_line(rt.alloc(), line)?;
    match made(rt, call.word, &call.arguments) {
        Ok(answer) => Ok(answer),
        Err(error) => error.into_answer(rt.alloc()),
    }
}

fn made<R: AllocGlobal + Eprint + Threads + Wait + Copy + Send + Sync + 'static>(
    rt: &R,
    word: &str,
    arguments: &[Vec<u8>],
) -> Result<Vec<u8>, CallError> {
    match (word, arguments) {
        ("running", steps) => run_steps(rt, steps),
        ("scoped", texts) => scoped(rt, texts),
        ("beside", [batches]) => beside(rt, number(batches)?),
        ("grouped", [publishes]) => grouped(rt, number(publishes)?),
        ("office", [desks, workers, gate, jobs @ ..]) => {
            office(rt, number(desks)?, number(workers)?, gate, jobs)
        }
        ("deaf_keeper", [job]) => deaf_keeper(rt, job),
        _ => again::answer(rt, word, arguments),
    }
}
