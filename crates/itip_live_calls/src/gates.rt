//! Gates that hold workers and keepers, so that what they do happens in a known order.

use crate::error::CallError;
use crate::texts::{number_of, text};
use itip_office::Gate;
use std::alloc::Global;
use std::sync::atomic::{AtomicU64, Ordering};
use std::thread;

/// How often a gate checks whether a job is done before it counts as closed.
const TURNS: u64 = 10_000_000;

/// The gate that holds nobody.
const OPEN: &str = "open";

/// How many jobs a gate tells apart.
const JOBS: u64 = 64;

/// Whom a gate holds before a job: the worker that does it, or the keeper that publishes what it brought; and until which job
/// is done, or for good.
#[derive(Drop)]
struct Hold {
    is_keeper: bool,
    job: u64,
    until: Option<u64>,
}

/// A gate with these holds.
#[derive(Drop)]
pub(crate) struct HoldingGate {
    holds: Vec<Hold>,
    done: AtomicU64,
}

impl HoldingGate {
    /// The gate of these lines: `worker 0 until 7`, `keeper 0 until 1`, or `worker 0 shut`, which refuses at once; or of `open`.
    pub(crate) fn of_lines(alloc: Global, lines: &[u8]) -> Result<HoldingGate, CallError> {
        let mut holds = Vec::new(alloc);
        let lines = text(lines)?;
        if lines != OPEN {
            for line in lines.lines() {
                holds.push(hold_of(line)?)?;
            }
        }
        Ok(HoldingGate {
            holds,
            done: AtomicU64::new(0),
        })
    }

    fn lets(&self, is_keeper: bool, job: u64) -> bool {
        for hold in &self.holds {
            if hold.is_keeper == is_keeper && hold.job == job {
                let is_let = match hold.until {
                    Some(other) => self.waits(other),
                    None => false,
                };
                if !is_let {
                    return false;
                }
            }
        }
        true
    }

    fn waits(&self, job: u64) -> bool {
        for _ in 0..TURNS {
            if self.done.load(Ordering::SeqCst) & bit_of(job) != 0 {
                return true;
            }
            thread::yield_now();
        }
        false
    }
}

fn hold_of(line: &str) -> Result<Hold, CallError> {
    let (who, rest) = line.split_once(' ').ok_or(CallError::NoSuchCall)?;
    let (job, until) = rest.split_once(' ').ok_or(CallError::NoSuchCall)?;
    let is_keeper = match who {
        "worker" => false,
        "keeper" => true,
        _ => return Err(CallError::NoSuchCall),
    };
    Ok(Hold {
        is_keeper,
        job: number_of(job)?,
        until: until_of(until)?,
    })
}

fn until_of(words: &str) -> Result<Option<u64>, CallError> {
    if words == "shut" {
        return Ok(None);
    }
    match words.split_once(' ') {
        Some(("until", job)) => Ok(Some(number_of(job)?)),
        _ => Err(CallError::NoSuchCall),
    }
}

fn bit_of(job: u64) -> u64 {
    1 << (job % JOBS) as u32
}

impl Gate for HoldingGate {
    fn worker(&self, job: u64) -> bool {
        self.lets(false, job)
    }

    fn keeper(&self, _desk: u64, job: u64) -> bool {
        self.lets(true, job)
    }

    fn done(&self, job: u64) -> bool {
        self.done.fetch_or(bit_of(job), Ordering::SeqCst);
        true
    }
}
