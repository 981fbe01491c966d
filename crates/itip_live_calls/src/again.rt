//! Calls in which one allocation may fail. If it does, they say so, check that nothing has changed, and make the call once more. So the
//! answer is that of an undisturbed run; or the run ends out of memory, if the allocation was not one of the call.

use crate::crossing::{run_again, steps_again};
use crate::desks::{list_again, list_for_again, since_again, take_again};
use crate::error::CallError;
use crate::joins::join_again;
use crate::reading::{read_again, read_all_again, read_delta_again};
use crate::states::merge_again;
use crate::texts::{number, text};
use std::thread::Threads;

pub(crate) fn answer<R: AllocGlobal + Eprint + Threads + Sync>(
    rt: &R,
    word: &str,
    arguments: &[Vec<u8>],
) -> Result<Vec<u8>, CallError> {
    match word {
        "read_all_again" => read_all_again(rt, arguments),
        "list_again" => list_again(rt, arguments),
        "take_again" => take_again(rt, arguments),
        _ => match arguments {
            [first] => of_one(rt, word, first),
            [first, rest @ ..] => of_more(rt, word, first, rest),
            [] => Err(CallError::NoSuchCall),
        },
    }
}

/// Calls with one argument.
fn of_one<R: AllocGlobal + Eprint>(
    rt: &R,
    word: &str,
    argument: &[u8],
) -> Result<Vec<u8>, CallError> {
    match word {
        "read_again" => read_again(rt, argument),
        "read_delta_again" => read_delta_again(rt, argument),
        _ => Err(CallError::NoSuchCall),
    }
}

/// Calls with several arguments.
fn of_more<R: AllocGlobal + Eprint>(
    rt: &R,
    word: &str,
    first: &[u8],
    rest: &[Vec<u8>],
) -> Result<Vec<u8>, CallError> {
    match word {
        "join_again" => join(rt, text(first)?, rest),
        "merge_again" => merge_again(rt, number(first)?, rest),
        "since_again" => since_again(rt, number(first)?, rest),
        "list_for_again" => list_for_again(rt, text(first)?, rest),
        _ => cross(rt, word, first, rest),
    }
}

fn join<R: AllocGlobal + Eprint>(
    rt: &R,
    name: &str,
    values: &[Vec<u8>],
) -> Result<Vec<u8>, CallError> {
    match values {
        [mine, theirs] => join_again(rt, name, text(mine)?, text(theirs)?),
        _ => Err(CallError::NoSuchCall),
    }
}

/// The calls in which two desks cross.
fn cross<R: AllocGlobal + Eprint>(
    rt: &R,
    word: &str,
    first: &[u8],
    rest: &[Vec<u8>],
) -> Result<Vec<u8>, CallError> {
    match (word, rest) {
        ("steps_again", [other]) => steps_again(rt, first, other),
        ("run_again", [other]) => run_again(rt, first, other),
        _ => Err(CallError::NoSuchCall),
    }
}
