//! An office, from its jobs to its desks.
ghost use Rattle.std.specs.Prelude.{◌≤◌, IfOk, IsErrOf};
ghost use Rattle.itip_office.specs.Ended.{HasEnded};

use crate::error::OfficeError;
use crate::exchange::exchange;
use crate::gate::Gate;
use crate::gather::gather;
use crate::job::Job;
use crate::outcome::Outcome;
use crate::replies::replies;
use crate::team::run_team;
use itip_desk::Desk;
use std::sync::Wait;
use std::thread::Threads;

/// What an office ends with.
#[derive(Drop)]
pub struct Office {
    /// The desks, all of which keep the same.
    pub desks: Vec<Desk>,
    /// The outcome of each job, by its number, in the order of numbers.
    pub replies: Vec<(u64, Outcome)>,
}

/// Runs jobs on threads: one for each worker, and one for each keeper. A desk has one keeper or, if no job looks or carries, as many as
/// there are workers for each desk, at least one. Desks are empty at the beginning. Once the jobs are done each desk takes what the others
/// keep of texts. What carries brought in the meantime is seen by looks and by other carries, and makes no difference to what desks end
/// with. A look lists a prefix, perhaps empty, of the batches that its desk merged, and is refused with 31 exactly if these have too many
/// rows; a carry brings all that is kept of such a prefix of the desk that it comes from.
///
/// Ends early if an allocation fails (40), if a thread can't be made or a desk has no place for a reader (41), if the gate is closed (42),
/// if two jobs have the same number (44), if a desk refuses entry to a pass (45), or if a count is spent (21). If not all threads were
/// made, the error is 40 or 41; else it is the lowest number that the threads return, and then 44 if what they return doesn't fit. All
/// threads have returned by then. The clauses speak of 42 and 43 only.
pub fn run_office<
    R: AllocGlobal + Threads + Wait + Copy + Send + Sync + 'static,
    G: Gate + Send + Sync + Drop + 'static,
>(rt: &R, desks: usize, workers: usize, jobs: Vec<Job>, gate: G) -> Result<Office, OfficeError>
    requires desks { (1 ≤ desks) × (desks ≤ 16) }
    requires workers { (1 ≤ workers) × (workers ≤ 8) }
    ensures ended { IfOk result (λ office. HasEnded desks jobs.items office.replies.items office.desks.items) }
    ensures closed { IsErrOf result OfficeError.GateClosed → G.may_close }
    ensures channel { IsErrOf result OfficeError.ChannelClosed → ⊥ }
{
    let alloc = rt.alloc();
    let sent = jobs.clone()?;
    let mut jobs = jobs;
    jobs.sort_by_key(|job| job.number)?;
    let done = run_team(rt, desks, workers, sent, gate)?;
    let (answers, texts) = gather(rt, desks, done)?;
    let replies = replies(alloc, &jobs, answers)?;
    let desks = exchange(rt, alloc, texts, desks)?;
    Ok(Office { desks, replies })
}
