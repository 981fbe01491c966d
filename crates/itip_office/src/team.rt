//! The threads of an office.
ghost use Rattle.std.specs.Prelude.{◌≡◌, ◌≢◌, ◌⊎◌, ◌≤◌, ℕ, [], length, map, All, IfOk, OnOk, IfErr, IsErrOf, IsTrue};
ghost use Rattle.itip_running.specs.ContractViews.{pass_pair};
ghost use Rattle.itip_office.specs.Answers.{AnswersAlone};
ghost use Rattle.itip_office.specs.LooksAndCarries.{IsOneOf, IsAnswered};
ghost use Rattle.itip_office.specs.Merged.{HasMerged};
ghost use Rattle.itip_office.specs.Pairs.{IsFresh, IsOfPair, IsStarted, HasKept};
ghost use Rattle.itip_office.specs.Published.{AreShown, IsBeginning, publication_of};
ghost use Rattle.itip_office.specs.Exchanged.{AreNoLoops};

use crate::desk_loop::keeper_loop;
use crate::error::OfficeError;
use crate::gate::Gate;
use crate::job::Job;
use crate::job_loop::worker_loop;
use crate::merge::Merge;
use crate::outcome::Outcome;
use crate::owned_keeper::OwnedKeeper;
use crate::pairs::Pairs;
use crate::seat::Seat;
use crate::source::Source;
use crate::start::{Started, start_desks};
use crossbeam_channel::{Receiver, Sender, unbounded};
use itip_running::Pass;
use std::alloc::{AllocError, Global};
use std::marker::{Brand, PhantomData};
use std::sync::{Arc, Wait};
use std::thread;
use std::thread::{Promise, PromisedHandle, Threads};

/// What the thread of a keeper returns: the desk that it merged for, what it owns, and the jobs that it merged, with their outcomes.
#[derive(Drop)]
pub(crate) struct Merged<R: AllocGlobal + Wait + Copy> {
    pub(crate) desk: u64,
    pub(crate) held: OwnedKeeper<R>,
    pub(crate) answers: Vec<(Job, Outcome)>,
}

/// The promise that a keeper has a desk of the texts that it answers and, if it has a running desk, published the batches of all that it
/// answers, under a gate of this type.
#[derive(Drop)]
pub(crate) struct OfTexts<G: Gate> {
    gate: PhantomData<G>,
}

impl<N: Pairs, R: AllocGlobal + Wait + Copy, G: Gate> Promise<
    Result<(Merged<R>, Vec<Source<N>>), OfficeError>,
> for OfTexts<G> {
    ghost use Rattle.itip_office.specs.declared.error.OfficeError.{OfficeError};

    ghost kept_by = { λ p r. IfOk r (λ kept. HasKept (N.pair kept.0.desk) (IsOneOf kept.1.items) kept.0.desk kept.0.answers.items
        kept.0.held.texts kept.0.held.shown) × (IsErrOf r OfficeError.GateClosed → G.may_close) };
}

/// The promise that a worker answers for `desks` desks, under a gate of this type.
#[derive(Drop)]
pub(crate) struct OfDesks<G: Gate> {
    desks: usize,
    gate: PhantomData<G>,
}

impl<N: Pairs, G: Gate> Promise<Result<(Vec<(Job, Outcome)>, Vec<Source<N>>), OfficeError>>
    for OfDesks<G> {
    ghost use Rattle.itip_office.specs.declared.error.OfficeError.{OfficeError};

    ghost kept_by = { λ p r. IfOk r (λ done. All (IsAnswered p.desks (IsOneOf done.1.items)) done.0.items)
        × (IsErrOf r OfficeError.GateClosed → G.may_close) };
}

type KeeperThread<N, R, G> = PromisedHandle<
    Result<(Merged<R>, Vec<Source<N>>), OfficeError>,
    OfTexts<G>,
>;

type WorkerThread<N, G> = PromisedHandle<
    Result<(Vec<(Job, Outcome)>, Vec<Source<N>>), OfficeError>,
    OfDesks<G>,
>;

/// The threads that were made. A team can't be dropped: whoever has it has to join them.
pub(crate) struct Team<N: Pairs, R: AllocGlobal + Wait + Copy, G: Gate> {
    keepers: Vec<KeeperThread<N, R, G>>,
    workers: Vec<WorkerThread<N, G>>,
}

/// What the threads returned: the jobs that workers answered, and what each keeper did.
#[derive(Drop)]
pub(crate) struct Done<R: AllocGlobal + Wait + Copy> {
    pub(crate) alone: Vec<(Job, Outcome)>,
    pub(crate) kept: Vec<Merged<R>>,
}

// The same, with what looks and carries had seen.
#[derive(Drop)]
struct Joined<N: Pairs, R: AllocGlobal + Wait + Copy> {
    done: Done<R>,
    looked: Vec<Source<N>>,
    carried: Vec<Source<N>>,
}

// What a worker works with: a sender to each keeper and, if jobs look or carry, a seat at each desk.
#[derive(Drop)]
struct Bench<N: Pairs> {
    seats: Vec<Seat<N>>,
    keepers: Vec<Sender<Vec<Merge<N>>>>,
}

/// Runs the jobs on threads, one for each worker and one for each keeper, and joins them all, whatever they return.
///
/// If no job looks or carries, a desk has as many keepers as there are workers for each desk, and at least one. Its texts are divided
/// among them by UID: a single keeper would be slower than the workers that read.
pub(crate) fn run_team<
    R: AllocGlobal + Threads + Wait + Copy + Send + Sync + 'static,
    G: Gate + Send + Sync + Drop + 'static,
>(rt: &R, desks: usize, workers: usize, jobs: Vec<Job>, gate: G) -> Result<Done<R>, OfficeError>
    requires workers { (1 ≤ workers) × (workers ≤ 8) }
    ensures alone { IfOk result (λ done. All (λ a. AnswersAlone desks a.0.work a.1) done.alone.items) }
    ensures kept { IfOk result (λ done. All (λ k. HasMerged k.desk k.answers.items k.held.texts) done.kept.items) }
    ensures shown { IfOk result (λ done. AreShown desks done.alone.items
        (map (λ k. publication_of k.desk k.answers.items k.held.shown) done.kept.items)) }
    ensures closed { IsErrOf result OfficeError.GateClosed → G.may_close }
    ensures channel { IfErr result (λ e. e ≢ OfficeError.ChannelClosed) }
{
    let are_read = jobs.iter().any(|job| job.needs_pass());
    let started = start_desks(rt, desks, workers, are_read)?;
    run_started::<Brand, R, G>(rt, desks, workers, started, jobs, gate)
}

// The same, given desks that are started, each with the pair that the type names.
fn run_started<
    N: Pairs + Send + Sync + 'static,
    R: AllocGlobal + Threads + Wait + Copy + Send + Sync + 'static,
    G: Gate + Send + Sync + Drop + 'static,
>(
    rt: &R,
    desks: usize,
    workers: usize,
    started: Vec<Started<R>>,
    jobs: Vec<Job>,
    gate: G,
) -> Result<Done<R>, OfficeError>
    requires started { All (λ s. IsStarted (N.pair s.desk) s.held.texts s.held.shown s.passes.items) started.items }
    ensures alone { IfOk result (λ done. All (λ a. AnswersAlone desks a.0.work a.1) done.alone.items) }
    ensures kept { IfOk result (λ done. All (λ k. HasMerged k.desk k.answers.items k.held.texts) done.kept.items) }
    ensures shown { IfOk result (λ done. AreShown desks done.alone.items
        (map (λ k. publication_of k.desk k.answers.items k.held.shown) done.kept.items)) }
    ensures closed { IsErrOf result OfficeError.GateClosed → G.may_close }
    ensures channel { IfErr result (λ e. e ≢ OfficeError.ChannelClosed) }
{
    let mut team: Team<N, R, G> = Team::new(rt.alloc(), started.len(), workers)?;
    let begun = team.start(rt, desks, workers, started, jobs, gate);
    let joined = team.join(rt);
    if let Err(error) = begun {
        drop(joined);
        return Err(error);
    }
    match joined {
        Ok(joined) => joined.checked(),
        Err(error) => Err(error.of_all()),
    }
}

impl<N: Pairs, R: AllocGlobal + Wait + Copy> Joined<N, R> {
    // What the threads returned. Fails with 44 if something that looks or carries had seen is not published, which happens in no run.
    fn checked(self) -> Result<Done<R>, OfficeError>
        requires pairs { All (λ k. IsOfPair (N.pair k.desk) k.held.shown) self.done.kept.items }
        ensures done { IfOk result (λ done. done ≡ self.done) }
        ensures looked { IfOk result (λ done. All (λ s. IsBeginning
            (map (λ k. publication_of k.desk k.answers.items k.held.shown) done.kept.items) s.0 s.1) self.looked.items) }
        ensures carried { IfOk result (λ done. All (λ s. IsBeginning
            (map (λ k. publication_of k.desk k.answers.items k.held.shown) done.kept.items) s.0 s.1) self.carried.items) }
        ensures causes { IfErr result AreNoLoops }
    {
        let Joined {
            done,
            looked,
            carried,
        } = self;
        if !are_published(&done.kept, &looked) || !are_published(&done.kept, &carried) {
            return Err(OfficeError::StrangeDone);
        }
        Ok(done)
    }
}

fn are_published<N: Pairs, R: AllocGlobal + Wait + Copy>(
    kept: &[Merged<R>],
    sources: &[Source<N>],
) -> bool
    requires pairs { All (λ k. IsOfPair (N.pair k.desk) k.held.shown) kept.now }
    ensures { IsTrue result → All (λ s. IsBeginning
        (map (λ k. publication_of k.desk k.answers.items k.held.shown) kept.now) s.0 s.1) sources.now }
{
    for source in sources {
        if !is_published(kept, source) {
            return false;
        }
    }
    true
}

// Whether the keeper of its desk has published all of a source.
fn is_published<N: Pairs, R: AllocGlobal + Wait + Copy>(
    kept: &[Merged<R>],
    source: &Source<N>,
) -> bool
    requires pairs { All (λ k. IsOfPair (N.pair k.desk) k.held.shown) kept.now }
    ensures { IsTrue result → IsBeginning
        (map (λ k. publication_of k.desk k.answers.items k.held.shown) kept.now) source.now.0 source.now.1 }
{
    let place = source.desk() as usize;
    if place >= kept.len() {
        return false;
    }
    let one = &kept[place];
    if one.desk != source.desk() {
        return false;
    }
    match &one.held.shown {
        Some(keeper) => source.is_published(keeper),
        None => false,
    }
}

impl<
    N: Pairs + Send + Sync + 'static,
    R: AllocGlobal + Threads + Wait + Copy + Send + Sync + 'static,
    G: Gate + Send + Sync + Drop + 'static,
> Team<N, R, G> {
    // No threads yet, and room for this many.
    fn new(alloc: Global, keepers: usize, workers: usize) -> Result<Team<N, R, G>, AllocError>
        ensures none { IfOk result (λ team. team.workers.items ≡ []) }
    {
        let keepers = Vec::with_capacity(alloc, keepers)?;
        let workers = Vec::with_capacity(alloc, workers)?;
        Ok(Team { keepers, workers })
    }

    // Makes the threads. The ends of channels that no thread got are dropped, so that the threads that were made return.
    fn start(
        &mut self,
        rt: &R,
        desks: usize,
        workers: usize,
        started: Vec<Started<R>>,
        jobs: Vec<Job>,
        gate: G,
    ) -> Result<(), OfficeError>
        requires none { self.old.workers.items ≡ [] }
        requires started { All (λ s. IsStarted (N.pair s.desk) s.held.texts s.held.shown s.passes.items) started.items }
        ensures workers { OnOk result (All (λ t. t.promise.desks ≡ desks) self.new.workers.items) }
        ensures causes { IfErr result AreNoLoops }
    {
        let gate = Arc::new(rt.alloc(), gate)?;
        let jobs = queue(rt, jobs)?;
        self.start_threads(rt, desks, workers, started, &jobs, &gate)
    }

    // The same, given the gate and a channel with the jobs.
    fn start_threads(
        &mut self,
        rt: &R,
        desks: usize,
        workers: usize,
        started: Vec<Started<R>>,
        jobs: &Receiver<Job>,
        gate: &Arc<G>,
    ) -> Result<(), OfficeError>
        requires none { self.old.workers.items ≡ [] }
        requires started { All (λ s. IsStarted (N.pair s.desk) s.held.texts s.held.shown s.passes.items) started.items }
        ensures workers { OnOk result (All (λ t. t.promise.desks ≡ desks) self.new.workers.items) }
        ensures causes { IfErr result AreNoLoops }
    {
        let mut benches = benches(rt.alloc(), workers)?;
        self.start_keepers(rt, started, benches.as_mut_slice(), gate)?;
        self.start_workers(rt, desks, benches, jobs, gate)
    }

    // Makes one keeper for each desk that is started.
    fn start_keepers(
        &mut self,
        rt: &R,
        started: Vec<Started<R>>,
        benches: &mut [Bench<N>],
        gate: &Arc<G>,
    ) -> Result<(), OfficeError>
        requires started { All (λ s. IsStarted (N.pair s.desk) s.held.texts s.held.shown s.passes.items) started.items }
        ensures workers { self.new.workers.items ≡ self.old.workers.items }
        ensures causes { IfErr result AreNoLoops }
    {
        for one in started {
            let thread = start_keeper(rt, one, benches, gate)?;
            self.keepers.push(thread)?;
        }
        Ok(())
    }

    fn start_workers(
        &mut self,
        rt: &R,
        desks: usize,
        benches: Vec<Bench<N>>,
        jobs: &Receiver<Job>,
        gate: &Arc<G>,
    ) -> Result<(), OfficeError>
        requires none { self.old.workers.items ≡ [] }
        ensures workers { OnOk result (All (λ t. t.promise.desks ≡ desks) self.new.workers.items) }
        ensures causes { IfErr result AreNoLoops }
    {
        for bench in benches {
            let thread = start_worker(rt, desks, bench, jobs, gate)?;
            self.workers.push(thread)?;
        }
        Ok(())
    }

    fn join(self, rt: &R) -> Result<Joined<N, R>, OfficeError>
        ensures answered { (desks : ℕ) → All (λ t. t.promise.desks ≡ desks) self.workers.items →
            IfOk result (λ r. All (IsAnswered desks (IsOneOf r.looked.items)) r.done.alone.items) }
        ensures kept { IfOk result (λ r. All (λ k. HasKept (N.pair k.desk) (IsOneOf r.carried.items) k.desk k.answers.items
            k.held.texts k.held.shown) r.done.kept.items) }
        ensures closed { IsErrOf result OfficeError.GateClosed → G.may_close }
    {
        let Team { keepers, workers } = self;
        let alone = join_workers(rt, workers);
        let kept = join_keepers(rt, keepers);
        match (alone, kept) {
            (Ok((alone, looked)), Ok((kept, carried))) => {
                let done = Done { alone, kept };
                Ok(Joined {
                    done,
                    looked,
                    carried,
                })
            }
            (Err(one), Err(other)) => Err(one.or(other)),
            (Err(error), Ok(_)) => Err(error),
            (Ok(_), Err(error)) => Err(error),
        }
    }
}

fn start_keeper<
    N: Pairs + Send + Sync + 'static,
    R: AllocGlobal + Threads + Wait + Copy + Send + Sync + 'static,
    G: Gate + Send + Sync + Drop + 'static,
>(
    rt: &R,
    started: Started<R>,
    benches: &mut [Bench<N>],
    gate: &Arc<G>,
) -> Result<KeeperThread<N, R, G>, OfficeError>
    requires started { IsStarted (N.pair started.desk) started.held.texts started.held.shown started.passes.items }
    ensures causes { IfErr result AreNoLoops }
{
    let Started { desk, held, passes } = started;
    let merges = way(rt.alloc(), desk, passes, benches)?;
    keeper_thread(rt, desk, held, merges, Arc::try_clone(gate)?)
}

// A channel to the keeper of a desk. Returns its receiver; each worker gets a sender and, by one of the passes, a seat at the desk.
fn way<N: Pairs>(
    alloc: Global,
    desk: u64,
    passes: Vec<Pass>,
    benches: &mut [Bench<N>],
) -> Result<Receiver<Vec<Merge<N>>>, OfficeError>
    requires pair { All (λ p. pass_pair p ≡ N.pair desk) passes.items }
    ensures { IfErr result (λ e. e ≡ OfficeError.NoMemory) }
{
    let seats = seats(alloc, desk, passes)?;
    let (to, merges) = unbounded(alloc)?;
    seat(benches, seats, &to)?;
    Ok(merges)
}

// A seat at a desk for each of its passes.
fn seats<N: Pairs>(alloc: Global, desk: u64, passes: Vec<Pass>) -> Result<Vec<Seat<N>>, AllocError>
    requires pair { All (λ p. pass_pair p ≡ N.pair desk) passes.items }
{
    let mut all = Vec::with_capacity(alloc, passes.len())?;
    for pass in passes {
        all.push(Seat::new(desk, pass))?;
    }
    Ok(all)
}

fn start_worker<
    N: Pairs + Send + Sync + 'static,
    R: AllocGlobal + Threads + Wait + Copy + Send + Sync + 'static,
    G: Gate + Send + Sync + Drop + 'static,
>(
    rt: &R,
    desks: usize,
    bench: Bench<N>,
    jobs: &Receiver<Job>,
    gate: &Arc<G>,
) -> Result<WorkerThread<N, G>, OfficeError>
    ensures desks { IfOk result (λ thread. thread.promise.desks ≡ desks) }
    ensures causes { IfErr result AreNoLoops }
{
    worker_thread(rt, desks, bench, jobs.clone()?, Arc::try_clone(gate)?)
}

// A channel with all jobs in it and no sender left. Its receiver is held here, so a send can fail only for lack of memory.
fn queue<R: AllocGlobal + Wait>(rt: &R, jobs: Vec<Job>) -> Result<Receiver<Job>, OfficeError>
    ensures { IfErr result (λ e. e ≡ OfficeError.NoMemory) }
{
    let (to, queue) = unbounded(rt.alloc())?;
    for job in jobs {
        if to.send(rt, job).is_err() {
            return Err(OfficeError::NoMemory);
        }
    }
    Ok(queue)
}

fn benches<N: Pairs>(alloc: Global, workers: usize) -> Result<Vec<Bench<N>>, AllocError> {
    let mut all = Vec::new(alloc);
    for _ in 0..workers {
        all.push(Bench {
            seats: Vec::new(alloc),
            keepers: Vec::new(alloc),
        })?;
    }
    Ok(all)
}

// Gives each worker a sender to the keeper of a desk and, as far as there are seats, a seat at the desk.
fn seat<N: Pairs>(
    benches: &mut [Bench<N>],
    seats: Vec<Seat<N>>,
    keeper: &Sender<Vec<Merge<N>>>,
) -> Result<(), OfficeError>
    ensures { IfErr result (λ e. e ≡ OfficeError.NoMemory) }
{
    for bench in benches.iter_mut() {
        bench.keepers.push(keeper.clone()?)?;
    }
    for (bench, seat) in benches.iter_mut().zip(seats) {
        bench.seats.push(seat)?;
    }
    Ok(())
}

fn keeper_thread<
    N: Pairs + Send + Sync + 'static,
    R: AllocGlobal + Threads + Wait + Copy + Send + 'static,
    G: Gate + Send + Sync + Drop + 'static,
>(
    rt: &R,
    desk: u64,
    held: OwnedKeeper<R>,
    merges: Receiver<Vec<Merge<N>>>,
    gate: Arc<G>,
) -> Result<KeeperThread<N, R, G>, OfficeError>
    requires fresh { IsFresh (N.pair desk) held.texts held.shown }
    ensures cause { IfErr result (λ e. e ≡ OfficeError.NoPlace) }
{
    let work = move || -> Result<(Merged<R>, Vec<Source<N>>), OfficeError>
        requires { IsFresh (N.pair desk) held.texts held.shown }
        ensures { IfOk result (λ kept. HasKept (N.pair kept.0.desk) (IsOneOf kept.1.items) kept.0.desk kept.0.answers.items
            kept.0.held.texts kept.0.held.shown) × (IsErrOf result OfficeError.GateClosed → G.may_close) }
    { keep(desk, held, merges, gate) };
    let promise: OfTexts<G> = OfTexts { gate: PhantomData };
    match thread::spawn_with(rt, promise, work) {
        Ok(thread) => Ok(thread),
        Err(_) => Err(OfficeError::NoPlace),
    }
}

fn keep<N: Pairs, R: AllocGlobal + Wait + Copy, G: Gate + Drop>(
    desk: u64,
    held: OwnedKeeper<R>,
    merges: Receiver<Vec<Merge<N>>>,
    gate: Arc<G>,
) -> Result<(Merged<R>, Vec<Source<N>>), OfficeError>
    requires fresh { IsFresh (N.pair desk) held.texts held.shown }
    ensures kept { IfOk result (λ kept. HasKept (N.pair kept.0.desk) (IsOneOf kept.1.items) kept.0.desk kept.0.answers.items
        kept.0.held.texts kept.0.held.shown) }
    ensures closed { IsErrOf result OfficeError.GateClosed → G.may_close }
{
    let (texts, shown, rt) = held.into_parts();
    let (texts, shown, answers, sources) = keeper_loop(&rt, desk, texts, shown, merges, &*gate)?;
    let held = OwnedKeeper { texts, shown, rt };
    let merged = Merged {
        desk,
        held,
        answers,
    };
    Ok((merged, sources))
}

fn worker_thread<
    N: Pairs + Send + Sync + 'static,
    R: AllocGlobal + Threads + Wait + Copy + Send + 'static,
    G: Gate + Send + Sync + Drop + 'static,
>(
    rt: &R,
    desks: usize,
    bench: Bench<N>,
    jobs: Receiver<Job>,
    gate: Arc<G>,
) -> Result<WorkerThread<N, G>, OfficeError>
    ensures desks { IfOk result (λ thread. thread.promise.desks ≡ desks) }
    ensures cause { IfErr result (λ e. e ≡ OfficeError.NoPlace) }
{
    let own = *rt;
    let work = move || -> Result<(Vec<(Job, Outcome)>, Vec<Source<N>>), OfficeError>
        ensures { IfOk result (λ done. All (IsAnswered desks (IsOneOf done.1.items)) done.0.items)
            × (IsErrOf result OfficeError.GateClosed → G.may_close) }
    { work(&own, desks, bench, jobs, gate) };
    let promise: OfDesks<G> = OfDesks {
        desks,
        gate: PhantomData,
    };
    match thread::spawn_with(rt, promise, work) {
        Ok(thread) => Ok(thread),
        Err(_) => Err(OfficeError::NoPlace),
    }
}

fn work<N: Pairs, R: AllocGlobal + Wait, G: Gate + Drop>(
    rt: &R,
    desks: usize,
    bench: Bench<N>,
    jobs: Receiver<Job>,
    gate: Arc<G>,
) -> Result<(Vec<(Job, Outcome)>, Vec<Source<N>>), OfficeError>
    ensures answered { IfOk result (λ done. All (IsAnswered desks (IsOneOf done.1.items)) done.0.items) }
    ensures closed { IsErrOf result OfficeError.GateClosed → G.may_close }
{
    let Bench { seats, keepers } = bench;
    worker_loop(rt, desks, seats, jobs, keepers, &*gate)
}

fn join_workers<N: Pairs, R: AllocGlobal + Threads, G: Gate>(
    rt: &R,
    workers: Vec<WorkerThread<N, G>>,
) -> Result<(Vec<(Job, Outcome)>, Vec<Source<N>>), OfficeError>
    ensures answered { (desks : ℕ) → All (λ t. t.promise.desks ≡ desks) workers.items →
        IfOk result (λ all. All (IsAnswered desks (IsOneOf all.1.items)) all.0.items) }
    ensures closed { IsErrOf result OfficeError.GateClosed → G.may_close }
{
    let mut all = Ok((Vec::new(rt.alloc()), Vec::new(rt.alloc())));
    for worker in workers {
        all = with_answers(all, worker.join(rt));
    }
    all
}

fn with_answers<N: Pairs>(
    all: Result<(Vec<(Job, Outcome)>, Vec<Source<N>>), OfficeError>,
    more: Result<(Vec<(Job, Outcome)>, Vec<Source<N>>), OfficeError>,
) -> Result<(Vec<(Job, Outcome)>, Vec<Source<N>>), OfficeError>
    ensures answered { (desks : ℕ) → IfOk all (λ v. All (IsAnswered desks (IsOneOf v.1.items)) v.0.items) →
        IfOk more (λ v. All (IsAnswered desks (IsOneOf v.1.items)) v.0.items) →
        IfOk result (λ v. All (IsAnswered desks (IsOneOf v.1.items)) v.0.items) }
    ensures closed { IsErrOf result OfficeError.GateClosed → IsErrOf all OfficeError.GateClosed ⊎ IsErrOf more OfficeError.GateClosed }
{
    match (all, more) {
        (Ok((mut answers, mut sources)), Ok((mut more, mut others))) => {
            answers.append(&mut more)?;
            sources.append(&mut others)?;
            Ok((answers, sources))
        }
        (Err(one), Err(other)) => Err(one.or(other)),
        (Err(error), Ok(_)) => Err(error),
        (Ok(_), Err(error)) => Err(error),
    }
}

fn join_keepers<N: Pairs, R: AllocGlobal + Threads + Wait + Copy, G: Gate>(
    rt: &R,
    keepers: Vec<KeeperThread<N, R, G>>,
) -> Result<(Vec<Merged<R>>, Vec<Source<N>>), OfficeError>
    ensures kept { IfOk result (λ all. All (λ k. HasKept (N.pair k.desk) (IsOneOf all.1.items) k.desk k.answers.items
        k.held.texts k.held.shown) all.0.items) }
    ensures closed { IsErrOf result OfficeError.GateClosed → G.may_close }
{
    let mut all = Ok((Vec::new(rt.alloc()), Vec::new(rt.alloc())));
    for keeper in keepers {
        all = with_kept(all, keeper.join(rt));
    }
    all
}

fn with_kept<N: Pairs, R: AllocGlobal + Wait + Copy>(
    all: Result<(Vec<Merged<R>>, Vec<Source<N>>), OfficeError>,
    more: Result<(Merged<R>, Vec<Source<N>>), OfficeError>,
) -> Result<(Vec<Merged<R>>, Vec<Source<N>>), OfficeError>
    ensures kept { IfOk all (λ v. All (λ k. HasKept (N.pair k.desk) (IsOneOf v.1.items) k.desk k.answers.items
        k.held.texts k.held.shown) v.0.items) →
        IfOk more (λ k. HasKept (N.pair k.0.desk) (IsOneOf k.1.items) k.0.desk k.0.answers.items k.0.held.texts k.0.held.shown) →
        IfOk result (λ v. All (λ k. HasKept (N.pair k.desk) (IsOneOf v.1.items) k.desk k.answers.items
        k.held.texts k.held.shown) v.0.items) }
    ensures closed { IsErrOf result OfficeError.GateClosed → IsErrOf all OfficeError.GateClosed ⊎ IsErrOf more OfficeError.GateClosed }
{
    match all {
        Ok((mut kept, mut sources)) => {
            let (one, mut others) = more?;
            sources.append(&mut others)?;
            kept.push(one)?;
            Ok((kept, sources))
        }
        Err(error) => match more {
            Ok(_) => Err(error),
            Err(other) => Err(error.or(other)),
        },
    }
}
