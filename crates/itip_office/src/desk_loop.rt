//! The loop of a keeper.
ghost use Rattle.std.specs.Prelude.{◌≡◌, ◌≢◌, length, Option, IfOk, OnOk, IfErr, IsErrOf, option_to_list};
ghost use Rattle.itip_desk.specs.Desk.{Shown};
ghost use Rattle.itip_running.specs.declared.keeper.Keeper.{Keeper};
ghost use Rattle.itip_office.specs.Texts.{Merges};
ghost use Rattle.itip_office.specs.Answers.{AnswersMerged};
ghost use Rattle.itip_office.specs.Exchanged.{AreNoLoops};
ghost use Rattle.itip_office.specs.LooksAndCarries.{IsOneOf};
ghost use Rattle.itip_office.specs.Merged.{IsIdle, ShowsOne, GrewShown, TookText, GrewTexts, MergedOne};

use crate::answers::keep_answer;
use crate::error::OfficeError;
use crate::gate::Gate;
use crate::job::{Job, Work};
use crate::merge::Merge;
use crate::outcome::Outcome;
use crate::owned_keeper::close;
use crate::pairs::Pairs;
use crate::source::Source;
use crate::start::live_error;
use crossbeam_channel::Receiver;
use itip_desk::{Batch, Desk, DeskError};
use itip_running::Keeper;
use std::sync::Wait;

/// Merges what comes until the channel is closed. Returns the desks, the jobs that it answered with their outcomes, in the order in
/// which it merged them, and what its carries had seen. The desk of texts takes only the batches of texts. The running desk, if there is
/// one, takes all batches, each published before the next, so that each is a group by itself unless a call of `publish` was refused
/// before. The keeper has nothing pending when it is handed in, and nothing when it is returned.
///
/// Ends early if an allocation fails (40), if the gate is closed (42), if a desk or a keeper refuses a batch (21, 41), or if a carry comes
/// and there is no running desk (44). The running desk has then been taken apart.
pub fn keeper_loop<N: Pairs, R: AllocGlobal + Wait, G: Gate>(
    rt: &R,
    desk: u64,
    texts: Desk,
    shown: Option<Keeper>,
    merges: Receiver<Vec<Merge<N>>>,
    gate: &G,
) -> Result<(Desk, Option<Keeper>, Vec<(Job, Outcome)>, Vec<Source<N>>), OfficeError>
    requires nothing { IsIdle shown }
    ensures texts { IfOk result (λ r. GrewTexts desk texts r.0 r.2.items) }
    ensures published { IfOk result (λ r. GrewShown desk (IsOneOf r.3.items) shown r.1 r.2.items) }
    ensures nothing { IfOk result (λ r. IsIdle r.1) }
    ensures closed { IsErrOf result OfficeError.GateClosed → G.may_close }
    ensures channel { IfErr result (λ e. e ≢ OfficeError.ChannelClosed) }
{
    let mut texts = texts;
    let mut shown = shown;
    match merge_all(rt, desk, &mut texts, &mut shown, &merges, gate) {
        Ok((answers, sources)) => Ok((texts, shown, answers, sources)),
        Err(error) => {
            close(rt, shown);
            Err(error)
        }
    }
}

fn merge_all<N: Pairs, R: AllocGlobal + Wait, G: Gate>(
    rt: &R,
    desk: u64,
    texts: &mut Desk,
    shown: &mut Option<Keeper>,
    merges: &Receiver<Vec<Merge<N>>>,
    gate: &G,
) -> Result<(Vec<(Job, Outcome)>, Vec<Source<N>>), OfficeError>
    requires nothing { IsIdle shown.old }
    ensures texts { IfOk result (λ r. GrewTexts desk texts.old texts.new r.0.items) }
    ensures published { IfOk result (λ r. GrewShown desk (IsOneOf r.1.items) shown.old shown.new r.0.items) }
    ensures nothing { OnOk result (IsIdle shown.new) }
    ensures closed { IsErrOf result OfficeError.GateClosed → G.may_close }
    ensures channel { IfErr result (λ e. e ≢ OfficeError.ChannelClosed) }
{
    let answers = Vec::new(rt.alloc());
    let sources = Vec::new(rt.alloc());
    let mut found = (answers, sources);
    for _ in rt.forever() {
        let Ok(some) = merges.recv(rt) else {
            return Ok(found);
        };
        merge_some(rt, desk, texts, shown, some, gate, &mut found)?;
    }
    unreachable!()
}

// Merges what came at once, and appends what it finds to `found`.
fn merge_some<N: Pairs, R: Wait, G: Gate>(
    rt: &R,
    desk: u64,
    texts: &mut Desk,
    shown: &mut Option<Keeper>,
    some: Vec<Merge<N>>,
    gate: &G,
    found: &mut (Vec<(Job, Outcome)>, Vec<Source<N>>),
) -> Result<(), OfficeError>
    requires nothing { IsIdle shown.old }
    ensures texts { OnOk result ((first : Shown) → GrewTexts desk first texts.old found.old.0.items →
        GrewTexts desk first texts.new found.new.0.items) }
    ensures published { OnOk result ((first : Option Keeper) →
        GrewShown desk (IsOneOf found.old.1.items) first shown.old found.old.0.items →
        GrewShown desk (IsOneOf found.new.1.items) first shown.new found.new.0.items) }
    ensures nothing { OnOk result (IsIdle shown.new) }
    ensures closed { IsErrOf result OfficeError.GateClosed → G.may_close }
    ensures channel { IfErr result (λ e. e ≢ OfficeError.ChannelClosed) }
{
    for merge in some {
        let (answer, source) = merge_one(rt, desk, texts, shown, merge, gate)?;
        keep_answer(gate, found, answer, source)?;
    }
    Ok(())
}

fn merge_one<N: Pairs, R: Wait, G: Gate>(
    rt: &R,
    desk: u64,
    texts: &mut Desk,
    shown: &mut Option<Keeper>,
    merge: Merge<N>,
    gate: &G,
) -> Result<((Job, Outcome), Option<Source<N>>), OfficeError>
    requires nothing { IsIdle shown.old }
    ensures merged { IfOk result (λ r. MergedOne desk (IsOneOf (option_to_list r.1)) texts.old texts.new shown.old shown.new r.0) }
    ensures closed { IsErrOf result OfficeError.GateClosed → G.may_close }
    ensures channel { IfErr result (λ e. e ≢ OfficeError.ChannelClosed) }
{
    let (job, batch, source) = merge.into_parts();
    match merge_batch(rt, desk, texts, shown, &job, batch, gate) {
        Ok(outcome) => Ok(((job, outcome), source)),
        Err(error) => {
            drop(job);
            drop(source);
            Err(error)
        }
    }
}

// Merges the batch of a job, if the gate lets it through, and returns the outcome.
fn merge_batch<R: Wait, G: Gate>(
    rt: &R,
    desk: u64,
    texts: &mut Desk,
    shown: &mut Option<Keeper>,
    job: &Job,
    batch: Batch,
    gate: &G,
) -> Result<Outcome, OfficeError>
    requires nothing { IsIdle shown.old }
    requires merges { Merges job.now.work batch }
    ensures answers { IfOk result (λ outcome. AnswersMerged desk batch job.now.work outcome) }
    ensures texts { OnOk result (TookText job.now.work texts.old texts.new batch) }
    ensures shown { OnOk result (ShowsOne job.now.work shown.old shown.new batch) }
    ensures closed { IsErrOf result OfficeError.GateClosed → G.may_close }
    ensures channel { IfErr result (λ e. e ≢ OfficeError.ChannelClosed) }
{
    if !gate.keeper(desk, job.number) {
        return Err(OfficeError::GateClosed);
    }
    let outcome = outcome_of(desk, &job.work, &batch);
    take_text(texts, &job.work, &batch)?;
    show(rt, shown, &job.work, batch)?;
    Ok(outcome)
}

/// Has the desk of texts take the batch of a text; the batch of any other job is left out.
fn take_text(texts: &mut Desk, work: &Work, batch: &Batch) -> Result<(), OfficeError>
    ensures took { OnOk result (TookText work.now texts.old texts.new batch.now) }
    ensures causes { IfErr result AreNoLoops }
{
    match work {
        Work::Text { .. } => match texts.take(batch) {
            Ok(_) => Ok(()),
            Err(DeskError::NoMemory) => Err(OfficeError::NoMemory),
            Err(DeskError::TicksSpent) => Err(OfficeError::CountSpent),
        },
        Work::Carry { .. } => Ok(()),
        Work::Look { .. } => Ok(()),
    }
}

/// Publishes a batch by itself, if there is a running desk. If there is none, a carry fails with 44.
fn show<R: Wait>(
    rt: &R,
    shown: &mut Option<Keeper>,
    work: &Work,
    batch: Batch,
) -> Result<(), OfficeError>
    requires nothing { IsIdle shown.old }
    ensures shows { OnOk result (ShowsOne work.now shown.old shown.new batch) }
    ensures causes { IfErr result AreNoLoops }
{
    match shown {
        None => {
            if !work.is_text() {
                return Err(OfficeError::StrangeDone);
            }
            Ok(())
        }
        Some(keeper) => {
            if keeper.submit(batch).is_err() {
                return Err(OfficeError::NoMemory);
            }
            match keeper.publish(rt) {
                Ok(_) => Ok(()),
                Err(refused) => Err(live_error(refused)),
            }
        }
    }
}

fn outcome_of(desk: u64, work: &Work, batch: &Batch) -> Outcome
    requires { Merges work.now batch.now }
    ensures { AnswersMerged desk batch.now work.now result }
{
    let items = batch.as_slice().len();
    match work {
        Work::Text { .. } => Outcome::Took { desk, items },
        Work::Carry { from, .. } => Outcome::Carried {
            from: *from,
            to: desk,
            items,
        },
        Work::Look { .. } => unreachable!(),
    }
}
