//! The jobs of a script.
ghost use Rattle.std.specs.Prelude.{◌≡◌, ◌+◌, ◌++◌, [], length, IfOk, OnOk};
ghost use Rattle.itip_script.specs.Jobs.{errand_of, errands_of};
ghost use Rattle.itip_office.specs.Scripts.{work_of, onto_jobs, onto_others, jobs_from, others_from};

use crate::job::{Job, Work};
use itip_desk::Refusal;
use itip_lines::Bytes;
use itip_script::{JobCommand, JobCommands};
use itip_view::Window;
use std::alloc::{AllocError, Global};

/// The jobs of a script, and the numbers of the commands that are no jobs, each with its refusal. Both are in the order of the commands,
/// which are numbered from 0.
#[derive(Drop)]
pub(crate) struct ScriptJobs {
    pub(crate) jobs: Vec<Job>,
    pub(crate) others: Vec<(u64, Refusal)>,
}

impl ScriptJobs {
    /// Adds the next command: a job that asks for `work`, or one of the others if there is none.
    fn add(&mut self, work: Option<Work>) -> Result<(), AllocError>
        ensures jobs { OnOk result (self.new.jobs.items ≡ self.old.jobs.items
            ++ onto_jobs (length self.old.jobs.items + length self.old.others.items) work []) }
        ensures others { OnOk result (self.new.others.items ≡ self.old.others.items
            ++ onto_others (length self.old.jobs.items + length self.old.others.items) work []) }
    {
        let number = (self.jobs.len() + self.others.len()) as u64;
        match work {
            Some(work) => self.jobs.push(Job { number, work })?,
            None => self.others.push((number, Refusal::NoCommand))?,
        }
        Ok(())
    }
}

/// The jobs of a script, with their looks in this window.
pub(crate) fn script_jobs(
    alloc: Global,
    script: &[u8],
    window: Window,
) -> Result<ScriptJobs, AllocError>
    ensures jobs { IfOk result (λ all. all.jobs.items ≡ jobs_from window 0 (errands_of script.now)) }
    ensures others { IfOk result (λ all. all.others.items ≡ others_from window 0 (errands_of script.now)) }
{
    let mut all = ScriptJobs {
        jobs: Vec::new(alloc),
        others: Vec::new(alloc),
    };
    for command in JobCommands::new(script) {
        all.add(work_of(alloc, command, window)?)?;
    }
    Ok(all)
}

fn work_of(
    alloc: Global,
    command: JobCommand<'_>,
    window: Window,
) -> Result<Option<Work>, AllocError>
    ensures { IfOk result (λ work. work ≡ work_of window (errand_of command.entry)) }
{
    match command {
        JobCommand::Take { desk, text } => {
            let bytes = Bytes::new(Vec::from_slice(alloc, text)?);
            Ok(Some(Work::Text { desk, bytes }))
        }
        JobCommand::Carry { from, to } => Ok(Some(Work::Carry { from, to })),
        JobCommand::Look { desk } => Ok(Some(Work::Look { desk, window })),
        JobCommand::Malformed => Ok(None),
    }
}
