//! A keeper that publishes several batches at once, and two passes that learn its receipts from a channel, each on a thread of its own.
ghost use Rattle.std.specs.Prelude.{◌≡◌, IfOk};
ghost use Rattle.itip_running.specs.ContractViews.{keeper_pair, pass_pair, receipt_pair};

use crate::error::CallError;
use crate::lists::revision;
use crate::texts::window;
use crossbeam_channel::{Receiver, Sender, unbounded};
use itip_running::{Keeper, Met, NamedReceipt, Naming, Pass, Receipt, meet, start_desk};
use std::marker::Brand;
use std::sync::Wait;
use std::thread::{Threads, join_mut};

/// How many batches are published at once.
const AT_ONCE: u64 = 3;

/// Publishes `publishes` times, and tells how many batches were published, whether each pass saw what it was told of and always whole
/// publishes, and whether it ended with such.
pub(crate) fn grouped<R: AllocGlobal + Threads + Wait + Sync>(
    rt: &R,
    publishes: u64,
) -> Result<Vec<u8>, CallError> {
    let Ran {
        is_right,
        ended: Meeting {
            published,
            are_whole,
        },
    } = started(rt, publishes)?;
    Ok(format!(in rt.alloc();
        "published {published}, told right: {is_right}, whole: {are_whole}"
    )?.into_bytes())
}

/// What came of a pair that ran: whether each pass saw what it was told of and always whole publishes, and what the pair ended with.
#[derive(Clone, Copy)]
struct Ran {
    is_right: bool,
    ended: Meeting,
}

/// How many batches were published, and whether each pass had seen whole publishes in the end.
#[derive(Clone, Copy)]
struct Meeting {
    published: u64,
    are_whole: bool,
}

fn started<R: AllocGlobal + Threads + Wait + Sync>(
    rt: &R,
    publishes: u64,
) -> Result<Ran, CallError> {
    let (keeper, mut passes) = start_desk(rt, 2)?;
    match (passes.pop(), passes.pop()) {
        (Some(second), Some(first)) => told::<Brand, R>(rt, keeper, first, second, publishes),
        _ => {
            let _ = meet(rt, keeper, passes);
            Err(CallError::NoSuchCall)
        }
    }
}

/// Runs the keeper and the passes of the pair that the type names, and has them meet.
fn told<N: Naming + Send + Sync, R: AllocGlobal + Threads + Wait + Sync>(
    rt: &R,
    keeper: Keeper,
    first: Pass,
    second: Pass,
    publishes: u64,
) -> Result<Ran, CallError>
    requires keeper { keeper_pair keeper ≡ N.pair }
    requires passes { (pass_pair first ≡ N.pair) × (pass_pair second ≡ N.pair) }
{
    let (mut keeper, mut first, mut second) = (keeper, first, second);
    let is_right = run::<N, R>(rt, &mut keeper, &mut first, &mut second, publishes);
    let ended = end(rt, keeper, first, second)?;
    let is_right = is_right?;
    Ok(Ran { is_right, ended })
}

/// Has the two passes meet their keeper.
fn end<R: AllocGlobal + Wait>(
    rt: &R,
    keeper: Keeper,
    first: Pass,
    second: Pass,
) -> Result<Meeting, CallError>
    requires { (pass_pair first ≡ keeper_pair keeper) × (pass_pair second ≡ keeper_pair keeper) }
{
    let mut passes = Vec::new(rt.alloc());
    let is_one_lost = passes.push(first).is_err() || passes.push(second).is_err();
    let met = meet(rt, keeper, passes);
    if is_one_lost {
        return Err(CallError::NoMemory);
    }
    match met {
        Ok(met) => Ok(ended(&met)),
        Err(error) => Err(CallError::from(error)),
    }
}

fn ended(met: &Met) -> Meeting {
    Meeting {
        published: met.published,
        are_whole: met.seen.iter().all(|seen| *seen % AT_ONCE == 0),
    }
}

fn run<N: Naming + Send + Sync, R: AllocGlobal + Threads + Wait + Sync>(
    rt: &R,
    keeper: &mut Keeper,
    first: &mut Pass,
    second: &mut Pass,
    publishes: u64,
) -> Result<bool, CallError>
    requires keeper { keeper_pair keeper.old ≡ N.pair }
    requires passes { (pass_pair first.old ≡ N.pair) × (pass_pair second.old ≡ N.pair) }
    ensures keeper { keeper_pair keeper.new ≡ N.pair }
    ensures passes { (pass_pair first.new ≡ N.pair) × (pass_pair second.new ≡ N.pair) }
{
    let (to, from) = unbounded(rt.alloc())?;
    let mut to: Option<Sender<NamedReceipt<N>>> = Some(to);
    let (published, are_right) = join_mut(
        rt,
        &mut || -> Result<(), CallError>
            requires { keeper_pair keeper.now ≡ N.pair }
            ensures { keeper_pair keeper.exit.now ≡ N.pair }
        { publish_all::<N, R>(rt, keeper, to.take(), publishes) },
        &mut || -> bool
            requires { (pass_pair first.now ≡ N.pair) × (pass_pair second.now ≡ N.pair) }
            ensures { (pass_pair first.exit.now ≡ N.pair) × (pass_pair second.exit.now ≡ N.pair) }
        { listen_both::<N, R>(rt, first, second, &from) },
    );
    published?;
    Ok(are_right)
}

/// Sends a receipt of each publish, and ends the channel.
fn publish_all<N: Naming, R: AllocGlobal + Wait>(
    rt: &R,
    keeper: &mut Keeper,
    to: Option<Sender<NamedReceipt<N>>>,
    publishes: u64,
) -> Result<(), CallError>
    requires pair { keeper_pair keeper.old ≡ N.pair }
    ensures pair { keeper_pair keeper.new ≡ N.pair }
{
    let Some(to) = to else {
        return Err(CallError::NoPlace);
    };
    for number in 0..publishes {
        let receipt = NamedReceipt::<N>::new(publish(rt, keeper, number)?);
        if to.send(rt, receipt.again()).is_err() {
            return Err(CallError::ChannelClosed);
        }
    }
    Ok(())
}

fn publish<R: AllocGlobal + Wait>(
    rt: &R,
    keeper: &mut Keeper,
    number: u64,
) -> Result<Receipt, CallError>
    ensures receipt { IfOk result (λ receipt. receipt_pair receipt ≡ keeper_pair keeper.old) }
    ensures pair { keeper_pair keeper.new ≡ keeper_pair keeper.old }
{
    let first = number.saturating_mul(AT_ONCE);
    keeper.submit(revision(rt.alloc(), first)?)?;
    keeper.submit(revision(rt.alloc(), first.saturating_add(1))?)?;
    keeper.submit(revision(rt.alloc(), first.saturating_add(2))?)?;
    Ok(keeper.publish(rt)?)
}

fn listen_both<N: Naming + Send + Sync, R: Threads + Wait + Sync>(
    rt: &R,
    first: &mut Pass,
    second: &mut Pass,
    from: &Receiver<NamedReceipt<N>>,
) -> bool
    requires passes { (pass_pair first.old ≡ N.pair) × (pass_pair second.old ≡ N.pair) }
    ensures passes { (pass_pair first.new ≡ N.pair) × (pass_pair second.new ≡ N.pair) }
{
    let (one, other) = join_mut(
        rt,
        &mut || listen::<N, R>(rt, first, from),
        &mut || listen::<N, R>(rt, second, from),
    );
    one && other
}

/// Learns what comes until the channel ends, and returns whether all was right.
fn listen<N: Naming, R: Wait>(rt: &R, pass: &mut Pass, from: &Receiver<NamedReceipt<N>>) -> bool
    requires pair { pass_pair pass.old ≡ N.pair }
    ensures pair { pass_pair pass.new ≡ N.pair }
{
    let mut is_right = true;
    for _ in rt.forever() {
        let Ok(receipt) = from.recv(rt) else {
            return is_right;
        };
        is_right &= is_told(pass, receipt.into_receipt());
    }
    unreachable!()
}

/// Whether the pass has seen what the receipt tells once it has learnt it, no less once it has listed, and always whole publishes.
fn is_told(pass: &mut Pass, receipt: Receipt) -> bool
    requires pair { receipt_pair receipt ≡ pass_pair pass.old }
    ensures pair { pass_pair pass.new ≡ pass_pair pass.old }
{
    let mut receipt = receipt;
    pass.learn(&mut receipt);
    let learnt = pass.seen();
    let is_listed = match window() {
        Ok(window) => pass.list(window).is_ok(),
        Err(_) => false,
    };
    let listed = pass.seen();
    is_listed
        && receipt.told() <= learnt
        && learnt <= listed
        && learnt % AT_ONCE == 0
        && listed % AT_ONCE == 0
}
