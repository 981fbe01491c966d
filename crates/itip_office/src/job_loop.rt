//! The loop of a worker.
ghost use Rattle.std.specs.Prelude.{◌≡◌, ◌≢◌, length, All, IfOk, OnOk, IfErr, IfSome, IsErrOf, option_to_list};
ghost use Rattle.itip_office.specs.declared.job.Work.TheVariants.{Text, Carry, Look};
ghost use Rattle.itip_office.specs.Exchanged.{AreNoLoops};
ghost use Rattle.itip_office.specs.LooksAndCarries.{IsOneOf, IsAnswered};
ghost use Rattle.itip_office.specs.Steps.{IsStepOf, HasSeen};

use crate::answers::keep_answer;
use crate::error::OfficeError;
use crate::gate::Gate;
use crate::job::{Job, Work};
use crate::merge::Merge;
use crate::outcome::Outcome;
use crate::outlet::Outlet;
use crate::pairs::Pairs;
use crate::seat::Seat;
use crate::source::Source;
use crate::to_keepers::Hands;
use crossbeam_channel::Receiver;
use itip_desk::{Batch, Refusal, read_batch};
use itip_message::ReadError;
use itip_running::PassError;
use itip_view::Window;
use std::alloc::Global;
use std::sync::Wait;

/// What a worker does with a job.
#[derive(Drop)]
pub(crate) enum Step {
    /// The worker answers the job itself, with this outcome.
    Answers(Outcome),
    /// The batch goes to the keeper of the desk.
    HandsOn { desk: usize, batch: Batch },
}

/// Takes jobs until their channel is closed. Returns those that it answered itself, with their outcomes, and what its looks had seen. It
/// answers a job that names a desk that isn't there (50), a text that is refused, and a look; everything else goes to a keeper of the desk
/// to be merged. `keepers` are those of `desks` desks, in the order of desks; if there are several rounds of them, texts are divided among
/// the keepers of a desk by UID. Looks and carries need a seat at each desk, in the order of desks.
///
/// Ends early if an allocation fails (40), if a keeper isn't there (41), if the gate is closed (42), if a keeper takes nothing more (43),
/// or if a pass is refused entry or isn't there (45). The seats are dropped at the end.
pub fn worker_loop<N: Pairs, R: AllocGlobal + Wait, G: Gate, W: Outlet<Message = Vec<Merge<N>>>>(
    rt: &R,
    desks: usize,
    seats: Vec<Seat<N>>,
    jobs: Receiver<Job>,
    keepers: Vec<W>,
    gate: &G,
) -> Result<(Vec<(Job, Outcome)>, Vec<Source<N>>), OfficeError>
    ensures answered { IfOk result (λ r. All (IsAnswered desks (IsOneOf r.1.items)) r.0.items) }
    ensures closed { IsErrOf result OfficeError.GateClosed → G.may_close }
    ensures ended { IsErrOf result OfficeError.ChannelClosed → W.may_close }
{
    let mut seats = seats;
    let mut hands: Hands<N, W> = Hands::new(rt.alloc(), desks, keepers, gate.may_wait())?;
    let answers = Vec::new(rt.alloc());
    let sources = Vec::new(rt.alloc());
    let mut found = (answers, sources);
    answer_all(
        rt,
        seats.as_mut_slice(),
        desks,
        &mut hands,
        &jobs,
        gate,
        &mut found,
    )?;
    Ok(found)
}

// Takes jobs until their channel is closed, then hands on what is left. Appends what it finds to `found`.
fn answer_all<N: Pairs, R: AllocGlobal + Wait, G: Gate, W: Outlet<Message = Vec<Merge<N>>>>(
    rt: &R,
    seats: &mut [Seat<N>],
    desks: usize,
    hands: &mut Hands<N, W>,
    jobs: &Receiver<Job>,
    gate: &G,
    found: &mut (Vec<(Job, Outcome)>, Vec<Source<N>>),
) -> Result<(), OfficeError>
    ensures answered { OnOk result (All (IsAnswered desks (IsOneOf found.old.1.items)) found.old.0.items →
        All (IsAnswered desks (IsOneOf found.new.1.items)) found.new.0.items) }
    ensures closed { IsErrOf result OfficeError.GateClosed → G.may_close }
    ensures ended { IsErrOf result OfficeError.ChannelClosed → W.may_close }
{
    for _ in rt.forever() {
        let Ok(job) = jobs.recv(rt) else {
            hands.send_all(rt)?;
            return Ok(());
        };
        answer_one(rt, seats, desks, hands, job, gate, found)?;
    }
    unreachable!()
}

// Does a job, if the gate lets it through.
fn answer_one<N: Pairs, R: AllocGlobal + Wait, G: Gate, W: Outlet<Message = Vec<Merge<N>>>>(
    rt: &R,
    seats: &mut [Seat<N>],
    desks: usize,
    hands: &mut Hands<N, W>,
    job: Job,
    gate: &G,
    found: &mut (Vec<(Job, Outcome)>, Vec<Source<N>>),
) -> Result<(), OfficeError>
    ensures answered { OnOk result (All (IsAnswered desks (IsOneOf found.old.1.items)) found.old.0.items →
        All (IsAnswered desks (IsOneOf found.new.1.items)) found.new.0.items) }
    ensures closed { IsErrOf result OfficeError.GateClosed → G.may_close }
    ensures ended { IsErrOf result OfficeError.ChannelClosed → W.may_close }
{
    if !gate.worker(job.number) {
        return Err(OfficeError::GateClosed);
    }
    let Some((answer, source)) = do_job(rt, seats, desks, hands, job)? else {
        return Ok(());
    };
    keep_answer(gate, found, answer, source)?;
    Ok(())
}

// The job with its outcome and what it had seen, or `None` if it is handed on. Before a pass looks or carries, what was read so far is
// handed on.
fn do_job<N: Pairs, R: AllocGlobal + Wait, W: Outlet<Message = Vec<Merge<N>>>>(
    rt: &R,
    seats: &mut [Seat<N>],
    desks: usize,
    hands: &mut Hands<N, W>,
    job: Job,
) -> Result<Option<((Job, Outcome), Option<Source<N>>)>, OfficeError>
    ensures answered { IfOk result (λ done. IfSome done (λ d. IsAnswered desks (IsOneOf (option_to_list d.1)) d.0)) }
    ensures open { IfErr result (λ e. e ≢ OfficeError.GateClosed) }
    ensures ended { IsErrOf result OfficeError.ChannelClosed → W.may_close }
{
    if job.needs_pass() {
        hands.send_all(rt)?;
    }
    let (step, source) = step_of(rt.alloc(), seats, desks, &job.work)?;
    match step {
        Step::Answers(outcome) => Ok(Some(((job, outcome), source))),
        Step::HandsOn { desk, batch } => {
            hands.hand_on(rt, desk, Merge::new(job, batch, source))?;
            Ok(None)
        }
    }
}

// What to do with a job, and what its look or carry had seen.
fn step_of<N: Pairs>(
    alloc: Global,
    seats: &mut [Seat<N>],
    desks: usize,
    work: &Work,
) -> Result<(Step, Option<Source<N>>), OfficeError>
    ensures step { IfOk result (λ r. IsStepOf desks work.now r.0) }
    ensures seen { IfOk result (λ r. HasSeen desks (IsOneOf (option_to_list r.1)) work.now r.0) }
    ensures causes { IfErr result AreNoLoops }
{
    match work {
        Work::Text { desk, bytes } => {
            let step = read_text(alloc, desks, *desk, bytes.as_slice())?;
            Ok((step, None))
        }
        Work::Carry { from, to } => carry(seats, desks, *from, *to),
        Work::Look { desk, window } => look(seats, desks, *desk, *window),
    }
}

fn read_text(alloc: Global, desks: usize, at: u64, bytes: &[u8]) -> Result<Step, OfficeError>
    ensures step { IfOk result (IsStepOf desks (Text at bytes.now)) }
    ensures causes { IfErr result AreNoLoops }
{
    let desk = at as usize;
    if desk >= desks {
        return Ok(refused(Refusal::NoDesk(at)));
    }
    match read_batch(alloc, bytes) {
        Ok(batch) => Ok(Step::HandsOn { desk, batch }),
        Err(ReadError::Refused(refusal)) => Ok(refused(Refusal::Message(refusal))),
        Err(ReadError::NoMemory) => Err(OfficeError::NoMemory),
    }
}

// The desk that the carry comes from is checked before the one that it goes to.
fn carry<N: Pairs>(
    seats: &mut [Seat<N>],
    desks: usize,
    from: u64,
    to: u64,
) -> Result<(Step, Option<Source<N>>), OfficeError>
    ensures step { IfOk result (λ r. IsStepOf desks (Carry from to) r.0) }
    ensures seen { IfOk result (λ r. HasSeen desks (IsOneOf (option_to_list r.1)) (Carry from to) r.0) }
    ensures causes { IfErr result AreNoLoops }
{
    let (start, end) = (from as usize, to as usize);
    if start >= desks {
        return Ok((refused(Refusal::NoDesk(from)), None));
    }
    if end >= desks {
        return Ok((refused(Refusal::NoDesk(to)), None));
    }
    let Some(seat) = seats.get_mut(start) else {
        return Err(OfficeError::NoEntry);
    };
    let (all, source) = seat.all();
    if source.desk() != from {
        return Err(OfficeError::NoEntry);
    }
    match all {
        Ok(batch) => Ok((Step::HandsOn { desk: end, batch }, Some(source))),
        Err(error) => Err(error_of(error)),
    }
}

fn look<N: Pairs>(
    seats: &mut [Seat<N>],
    desks: usize,
    desk: u64,
    window: Window,
) -> Result<(Step, Option<Source<N>>), OfficeError>
    ensures step { IfOk result (λ r. IsStepOf desks (Look desk window) r.0) }
    ensures seen { IfOk result (λ r. HasSeen desks (IsOneOf (option_to_list r.1)) (Look desk window) r.0) }
    ensures causes { IfErr result AreNoLoops }
{
    let place = desk as usize;
    if place >= desks {
        return Ok((refused(Refusal::NoDesk(desk)), None));
    }
    let Some(seat) = seats.get_mut(place) else {
        return Err(OfficeError::NoEntry);
    };
    let (list, source) = seat.list(window);
    if source.desk() != desk {
        return Err(OfficeError::NoEntry);
    }
    match list {
        Ok(text) => Ok((Step::Answers(Outcome::Looked { text }), Some(source))),
        Err(PassError::TooManyRows) => Ok((refused(Refusal::TooManyRows), Some(source))),
        Err(error) => Err(error_of(error)),
    }
}

fn refused(refusal: Refusal) -> Step
    ensures { result ≡ Step.Answers (Outcome.Refused refusal) }
{
    Step::Answers(Outcome::Refused(refusal))
}

// Why a worker ends if a pass fails for anything but too many rows.
fn error_of(error: PassError) -> OfficeError
    requires { error ≢ PassError.TooManyRows }
    ensures { AreNoLoops result }
{
    match error {
        PassError::NoMemory | PassError::NoListMemory => OfficeError::NoMemory,
        PassError::NoEntry => OfficeError::NoEntry,
        PassError::TooManyRows => unreachable!(),
    }
}
