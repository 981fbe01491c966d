//! The outcomes of jobs, in the order of their numbers.
ghost use Rattle.std.specs.Prelude.{◌≡◌, ◌⊎◌, map, IfOk, IfErr, IsTrue};
ghost use Rattle.std.specs.List.Sorted.{IsStrictlyIncreasing};
ghost use Rattle.itip_office.specs.Ended.{AreRepliesFrom};

use crate::error::OfficeError;
use crate::job::Job;
use crate::outcome::Outcome;
use std::alloc::Global;

/// The outcome of each of these jobs, by its number. The jobs are in the order of their numbers.
///
/// Fails with 44 if two jobs have the same number or, which happens in no run, if an answer is of no job or of one that was answered
/// before, or if a job has no answer.
pub(crate) fn replies(
    alloc: Global,
    jobs: &[Job],
    answers: Vec<(Job, Outcome)>,
) -> Result<Vec<(u64, Outcome)>, OfficeError>
    ensures replies { IfOk result (λ replies. AreRepliesFrom answers.items jobs.now replies.items) }
    ensures causes { IfErr result (λ e. (e ≡ OfficeError.NoMemory) ⊎ (e ≡ OfficeError.StrangeDone)) }
{
    let mut answers = answers;
    answers.sort_by_key(|answer| answer.0.number)?;
    if !is_each_once(jobs) || !are_all_answered(jobs, &answers) {
        return Err(OfficeError::StrangeDone);
    }
    let mut replies = Vec::with_capacity(alloc, answers.len())?;
    for (job, outcome) in answers {
        replies.push((job.number, outcome))?;
    }
    Ok(replies)
}

// Whether the numbers are strictly increasing.
fn is_each_once(jobs: &[Job]) -> bool
    ensures { IsTrue result → IsStrictlyIncreasing (map (λ job. job.number) jobs.now) }
{
    jobs.is_sorted_by(|one, other| one.number < other.number)
}

// Whether these are the answers to the jobs, one for each, in their order.
fn are_all_answered(jobs: &[Job], answers: &[(Job, Outcome)]) -> bool
    ensures { IsTrue result → map (λ a. a.0) answers.now ≡ jobs.now }
{
    if jobs.len() != answers.len() {
        return false;
    }
    for at in 0..jobs.len() {
        if !jobs[at].is_same(&answers[at].0) {
            return false;
        }
    }
    true
}
