//! Jobs on threads, under a gate that holds workers and keepers.
ghost use Rattle.std.specs.Prelude.{◌≡◌};
ghost use Rattle.itip_running.specs.ContractViews.{pass_pair};

use crate::error::CallError;
use crate::gates::HoldingGate;
use crate::texts::{number_of, text, window};
use crossbeam_channel::unbounded;
use itip_lines::Bytes;
use itip_office::{Job, Office, OpenGate, Outcome, Pairs, Seat, Work, run_office, worker_loop};
use itip_running::{Pass, meet, start_desk};
use std::alloc::Global;
use std::marker::Brand;
use std::sync::Wait;
use std::thread::Threads;

/// Runs jobs on threads under a gate, and tells the outcome of each, and how much each desk keeps.
///
/// A job is its number and `take D`, `carry A B` or `look D`, and after the line of a take its message.
pub(crate) fn office<R: AllocGlobal + Threads + Wait + Copy + Send + Sync + 'static>(
    rt: &R,
    desks: u64,
    workers: u64,
    gate: &[u8],
    jobs: &[Vec<u8>],
) -> Result<Vec<u8>, CallError> {
    let gate = HoldingGate::of_lines(rt.alloc(), gate)?;
    let jobs = jobs_of(rt.alloc(), jobs)?;
    if desks < 1 || desks > 16 || workers < 1 || workers > 8 {
        return Err(CallError::NoSuchCall);
    }
    let office = run_office(rt, desks as usize, workers as usize, jobs, gate)?;
    told(rt.alloc(), &office)
}

fn jobs_of(alloc: Global, jobs: &[Vec<u8>]) -> Result<Vec<Job>, CallError> {
    let mut all = Vec::new(alloc);
    for job in jobs {
        all.push(job_of(alloc, job)?)?;
    }
    Ok(all)
}

fn job_of(alloc: Global, job: &[u8]) -> Result<Job, CallError> {
    let job = text(job)?;
    let (line, message) = job.split_once('\n').unwrap_or((job, ""));
    let (number, work) = line.split_once(' ').ok_or(CallError::NoSuchCall)?;
    Ok(Job {
        number: number_of(number)?,
        work: work_of(alloc, work, message)?,
    })
}

fn work_of(alloc: Global, work: &str, message: &str) -> Result<Work, CallError> {
    let (word, rest) = work.split_once(' ').ok_or(CallError::NoSuchCall)?;
    match word {
        "take" => take_of(alloc, number_of(rest)?, message.as_bytes()),
        "carry" => carry_of(rest),
        "look" => Ok(Work::Look {
            desk: number_of(rest)?,
            window: window()?,
        }),
        _ => Err(CallError::NoSuchCall),
    }
}

fn take_of(alloc: Global, desk: u64, message: &[u8]) -> Result<Work, CallError> {
    Ok(Work::Text {
        desk,
        bytes: Bytes::new(Vec::from_slice(alloc, message)?),
    })
}

fn carry_of(desks: &str) -> Result<Work, CallError> {
    let (from, to) = desks.split_once(' ').ok_or(CallError::NoSuchCall)?;
    Ok(Work::Carry {
        from: number_of(from)?,
        to: number_of(to)?,
    })
}

fn told(alloc: Global, office: &Office) -> Result<Vec<u8>, CallError> {
    let mut told = Vec::new(alloc);
    for (number, outcome) in &office.replies {
        add_outcome(alloc, *number, outcome, &mut told)?;
    }
    for (number, desk) in office.desks.iter().enumerate() {
        add_desk(alloc, number, desk.entries(), &mut told)?;
    }
    Ok(told)
}

fn add_desk(
    alloc: Global,
    number: usize,
    entries: usize,
    told: &mut Vec<u8>,
) -> Result<(), CallError> {
    let line = format!(in alloc; "desk {number} entries {entries}\n")?;
    Ok(told.extend_from_slice(line.as_bytes())?)
}

fn add_outcome(
    alloc: Global,
    number: u64,
    outcome: &Outcome,
    told: &mut Vec<u8>,
) -> Result<(), CallError> {
    told.extend_from_slice(outcome_line(alloc, number, outcome)?.as_bytes())?;
    if let Outcome::Looked { text } = outcome {
        told.extend_from_slice(text.as_slice())?;
    }
    Ok(())
}

fn outcome_line(alloc: Global, number: u64, outcome: &Outcome) -> Result<String, CallError> {
    Ok(match outcome {
        Outcome::Took { desk, items } => {
            format!(in alloc; "{number} took desk {desk} items {items}\n")?
        }
        Outcome::Carried { from, to, items } => {
            format!(in alloc; "{number} carried from {from} to {to} items {items}\n")?
        }
        Outcome::Looked { .. } => format!(in alloc; "{number} looked\n")?,
        Outcome::Refused(refusal) => {
            let cause = refusal.number();
            format!(in alloc; "{number} refused {cause}\n")?
        }
    })
}

/// Runs a worker that has a job for a keeper who takes nothing, and tells how many jobs it answered itself.
pub(crate) fn deaf_keeper<R: AllocGlobal + Wait>(rt: &R, job: &[u8]) -> Result<Vec<u8>, CallError> {
    let answered = answered(rt, job_of(rt.alloc(), job)?)?;
    Ok(format!(in rt.alloc(); "{answered}")?.into_bytes())
}

/// How many jobs are answered, out of one.
fn answered<R: AllocGlobal + Wait>(rt: &R, job: Job) -> Result<usize, CallError> {
    let (keeper, mut passes) = start_desk(rt, 1)?;
    let answered = match passes.pop() {
        Some(pass) => answered_alone::<Brand, R>(rt, pass, job),
        None => Err(CallError::NoSuchCall),
    };
    let _ = meet(rt, keeper, Vec::new(rt.alloc()));
    answered
}

/// How many jobs a worker answers itself, out of one, with a pass of the pair that the type names.
fn answered_alone<N: Pairs, R: AllocGlobal + Wait>(
    rt: &R,
    pass: Pass,
    job: Job,
) -> Result<usize, CallError>
    requires pair { pass_pair pass ≡ N.pair 0 }
{
    let alloc = rt.alloc();
    let (to_keeper, merges) = unbounded(alloc)?;
    drop(merges);
    let (to_worker, jobs) = unbounded(alloc)?;
    if to_worker.send(rt, job).is_err() {
        return Err(CallError::NoMemory);
    }
    drop(to_worker);
    let mut seats = Vec::new(alloc);
    seats.push(Seat::<N>::new(0, pass))?;
    let mut keepers = Vec::new(alloc);
    keepers.push(to_keeper)?;
    let (answers, _) = worker_loop(rt, 1, seats, jobs, keepers, &OpenGate)?;
    Ok(answers.len())
}
