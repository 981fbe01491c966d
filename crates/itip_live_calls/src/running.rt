//! A running desk with two passes, step by step on one thread.
ghost use Rattle.std.specs.Prelude.{◌≡◌};
ghost use Rattle.std.specs.Option.{ForSome};
ghost use Rattle.itip_running.specs.ContractViews.{keeper_pair, pass_pair, receipt_pair};

use crate::error::CallError;
use crate::refusal::note_refusal;
use crate::texts::{batch, number_of, text, window};
use itip_desk::Batch;
use itip_running::{
    Keeper, LiveError, Met, OpenDesk, Pass, PassError, Receipt, meet, start_desk, with_desk,
};
use itip_todo::Uid;
use itip_view::Window;
use std::alloc::Global;
use std::sync::Wait;

/// A keeper, its two passes, and its last receipt.
struct Running {
    keeper: Keeper,
    first: Pass,
    second: Pass,
    receipt: Option<Receipt>,
    ghost one_pair: { (pass_pair first ≡ keeper_pair keeper) × (pass_pair second ≡ keeper_pair keeper) },
    ghost its_own: { ForSome receipt (λ r. receipt_pair r ≡ keeper_pair keeper) },
}

/// Takes these steps, then meets, and tells what came of each.
///
/// A step is a message, which is submitted, or one of `pending`, `publish`, `learn P`, `list P`, `mine P ADDRESS`, `seen P`,
/// `since P TICK`, `rows P`, `shown P ADDRESS`, `kept P` and `of P UID`, where P is the pass 0 or 1. The last four tell how many there are.
pub(crate) fn run_steps<R: AllocGlobal + Eprint + Wait>(
    rt: &R,
    steps: &[Vec<u8>],
) -> Result<Vec<u8>, CallError> {
    let mut running = start(rt)?;
    let mut told = String::new(rt.alloc());
    let taken = take_steps(rt, &mut running, steps, &mut told);
    let ended = running.finish(rt, &mut told);
    taken?;
    ended?;
    Ok(told.into_bytes())
}

fn start<R: AllocGlobal + Wait>(rt: &R) -> Result<Running, CallError> {
    let (keeper, mut passes) = start_desk(rt, 2)?;
    match (passes.pop(), passes.pop()) {
        (Some(second), Some(first)) => Ok(Running {
            keeper,
            first,
            second,
            receipt: None,
        }),
        _ => {
            let _ = meet(rt, keeper, passes);
            Err(CallError::NoSuchCall)
        }
    }
}

fn take_steps<R: AllocGlobal + Eprint + Wait>(
    rt: &R,
    running: &mut Running,
    steps: &[Vec<u8>],
    told: &mut String,
) -> Result<(), CallError> {
    for step in steps {
        if step.starts_with(b"BEGIN") {
            running.submit(rt, batch(rt.alloc(), step)?)?;
        } else {
            told.push_str(running.take_step(rt, text(step)?)?.as_str())?;
        }
    }
    Ok(())
}

impl Running {
    /// Submits a batch, once more if it comes back.
    fn submit<R: Eprint>(&mut self, rt: &R, batch: Batch) -> Result<(), CallError> {
        let pending = self.keeper.pending();
        let Err(refused) = self.keeper.submit(batch) else {
            return Ok(());
        };
        note_refusal(rt);
        if self.keeper.pending() != pending {
            return Err(CallError::Changed);
        }
        self.keeper
            .submit(refused.batch)
            .map_err(|_| CallError::NothingOnceMore)
    }

    fn take_step<R: AllocGlobal + Eprint + Wait>(
        &mut self,
        rt: &R,
        step: &str,
    ) -> Result<String, CallError> {
        let (word, rest) = step.split_once(' ').unwrap_or((step, ""));
        match word {
            "pending" => counted(rt.alloc(), word, self.keeper.pending() as u64),
            "publish" => {
                self.publish(rt)?;
                Ok(String::new(rt.alloc()))
            }
            "learn" => {
                self.learn(rest)?;
                Ok(String::new(rt.alloc()))
            }
            _ => self.look(rt, word, rest),
        }
    }

    /// A step in which a pass shows something.
    fn look<R: AllocGlobal + Eprint>(
        &mut self,
        rt: &R,
        word: &str,
        rest: &str,
    ) -> Result<String, CallError> {
        match word {
            "list" => self.list(rt, rest),
            "mine" => self.list_for(rt, rest),
            "seen" => counted(rt.alloc(), word, self.seen(rest)?),
            "since" => counted(rt.alloc(), "items", self.since(rt, rest)?),
            _ => counted(rt.alloc(), word, self.count(rt.alloc(), word, rest)?),
        }
    }

    /// How many rows or items a pass shows.
    fn count(&mut self, alloc: Global, word: &str, rest: &str) -> Result<u64, CallError> {
        let (pass, rest) = rest.split_once(' ').unwrap_or((rest, ""));
        match pass {
            "0" => count_of(alloc, &mut self.first, word, rest),
            "1" => count_of(alloc, &mut self.second, word, rest),
            _ => Err(CallError::NoSuchCall),
        }
    }

    /// Publishes, once more if an allocation fails, which has to leave what is pending.
    fn publish<R: Eprint + Wait>(&mut self, rt: &R) -> Result<(), CallError> {
        let pending = self.keeper.pending();
        match self.keeper.publish(rt) {
            Ok(receipt) => {
                self.receipt = Some(receipt);
                return Ok(());
            }
            Err(LiveError::NoMemory) => note_refusal(rt),
            Err(error) => return Err(CallError::from(error)),
        }
        if self.keeper.pending() != pending {
            return Err(CallError::Changed);
        }
        let receipt = self.keeper.publish(rt);
        self.receipt = Some(receipt.map_err(|_| CallError::NothingOnceMore)?);
        Ok(())
    }

    /// Has a pass learn the last receipt.
    fn learn(&mut self, pass: &str) -> Result<(), CallError> {
        let Some(receipt) = &mut self.receipt else {
            return Err(CallError::NoSuchCall);
        };
        match pass {
            "0" => self.first.learn(receipt),
            "1" => self.second.learn(receipt),
            _ => return Err(CallError::NoSuchCall),
        }
        Ok(())
    }

    fn list<R: AllocGlobal + Eprint>(&mut self, rt: &R, pass: &str) -> Result<String, CallError> {
        let list = match pass {
            "0" => list_again(rt, &mut self.first, window()?)?,
            "1" => list_again(rt, &mut self.second, window()?)?,
            _ => return Err(CallError::NoSuchCall),
        };
        told(rt.alloc(), "list", &list)
    }

    fn list_for<R: AllocGlobal + Eprint>(
        &mut self,
        rt: &R,
        rest: &str,
    ) -> Result<String, CallError> {
        let (pass, address) = rest.split_once(' ').ok_or(CallError::NoSuchCall)?;
        let list = match pass {
            "0" => list_for_again(rt, &mut self.first, window()?, address)?,
            "1" => list_for_again(rt, &mut self.second, window()?, address)?,
            _ => return Err(CallError::NoSuchCall),
        };
        told(rt.alloc(), "mine", &list)
    }

    fn seen(&self, pass: &str) -> Result<u64, CallError> {
        match pass {
            "0" => Ok(self.first.seen()),
            "1" => Ok(self.second.seen()),
            _ => Err(CallError::NoSuchCall),
        }
    }

    /// How many items the delta since a tick has.
    fn since<R: Eprint>(&mut self, rt: &R, rest: &str) -> Result<u64, CallError> {
        let (pass, tick) = rest.split_once(' ').ok_or(CallError::NoSuchCall)?;
        let tick = number_of(tick)?;
        let delta = match pass {
            "0" => since_again(rt, &mut self.first, tick)?,
            "1" => since_again(rt, &mut self.second, tick)?,
            _ => return Err(CallError::NoSuchCall),
        };
        Ok(delta.as_slice().len() as u64)
    }

    /// Has the keeper and the passes meet, and tells what they end with.
    fn finish<R: AllocGlobal + Wait>(self, rt: &R, told: &mut String) -> Result<(), CallError> {
        let Running {
            keeper,
            first,
            second,
            receipt: _receipt,
        } = self;
        let mut passes = Vec::new(rt.alloc());
        let is_one_lost = passes.push(first).is_err() || passes.push(second).is_err();
        let met = meet(rt, keeper, passes);
        if is_one_lost {
            return Err(CallError::NoMemory);
        }
        match met {
            Ok(met) => add_met(rt.alloc(), &met, told),
            Err(error) => Err(CallError::from(error)),
        }
    }
}

fn count_of(alloc: Global, pass: &mut Pass, word: &str, rest: &str) -> Result<u64, CallError>
    ensures { pass_pair pass.new ≡ pass_pair pass.old }
{
    match word {
        "rows" => rows(pass, window()?),
        "shown" => rows_for(pass, window()?, rest),
        "kept" => entries(pass),
        "of" => items_of(alloc, pass, rest),
        _ => Err(CallError::NoSuchCall),
    }
}

fn rows(pass: &mut Pass, window: Window) -> Result<u64, CallError>
    ensures { pass_pair pass.new ≡ pass_pair pass.old }
{
    Ok(pass.rows(window)?.len() as u64)
}

fn rows_for(pass: &mut Pass, window: Window, address: &str) -> Result<u64, CallError>
    ensures { pass_pair pass.new ≡ pass_pair pass.old }
{
    Ok(pass.rows_for(window, address)?.len() as u64)
}

fn entries(pass: &mut Pass) -> Result<u64, CallError>
    ensures { pass_pair pass.new ≡ pass_pair pass.old }
{
    Ok(pass.kept()?.entries() as u64)
}

fn items_of(alloc: Global, pass: &mut Pass, uid: &str) -> Result<u64, CallError>
    ensures { pass_pair pass.new ≡ pass_pair pass.old }
{
    let uid = Uid::copy(alloc, uid)?;
    Ok(pass.items_of(&uid)?.len() as u64)
}

/// A number after its word.
fn counted(alloc: Global, word: &str, number: u64) -> Result<String, CallError> {
    Ok(format!(in alloc; "{word} {number}\n")?)
}

/// A list after the word that asks for it.
fn told(alloc: Global, word: &str, list: &[u8]) -> Result<String, CallError> {
    let list = text(list)?;
    Ok(format!(in alloc; "{word}\n{list}")?)
}

/// The list of a pass, asked for once more if an allocation fails.
fn list_again<R: Eprint>(rt: &R, pass: &mut Pass, window: Window) -> Result<Vec<u8>, CallError>
    ensures { pass_pair pass.new ≡ pass_pair pass.old }
{
    match pass.list(window) {
        Err(PassError::NoListMemory) => {
            note_refusal(rt);
            pass.list(window).map_err(|_| CallError::NothingOnceMore)
        }
        list => Ok(list?),
    }
}

/// The list of an attendee, asked for once more if an allocation fails.
fn list_for_again<R: Eprint>(
    rt: &R,
    pass: &mut Pass,
    window: Window,
    address: &str,
) -> Result<Vec<u8>, CallError>
    ensures { pass_pair pass.new ≡ pass_pair pass.old }
{
    match pass.list_for(window, address) {
        Err(PassError::NoListMemory) => {
            note_refusal(rt);
            pass.list_for(window, address)
                .map_err(|_| CallError::NothingOnceMore)
        }
        list => Ok(list?),
    }
}

/// The delta of a pass, asked for once more if an allocation fails.
fn since_again<R: Eprint>(rt: &R, pass: &mut Pass, tick: u64) -> Result<Batch, CallError>
    ensures { pass_pair pass.new ≡ pass_pair pass.old }
{
    match pass.delta_since(tick) {
        Err(PassError::NoMemory) => {
            note_refusal(rt);
            pass.delta_since(tick)
                .map_err(|_| CallError::NothingOnceMore)
        }
        delta => Ok(delta?),
    }
}

fn add_met(alloc: Global, met: &Met, told: &mut String) -> Result<(), CallError> {
    let published = met.published;
    let tick = met.desk.tick();
    let entries = met.desk.entries();
    told.push_str(format!(in alloc;
        "published {published} tick {tick} entries {entries} seen"
    )?.as_str())?;
    for seen in &met.seen {
        told.push_str(format!(in alloc; " {seen}")?.as_str())?;
    }
    told.push_str("\n")?;
    Ok(())
}

/// The list of a desk that has taken these messages, and how many batches were published. Its pair is taken apart by [`with_desk`].
pub(crate) fn scoped<R: AllocGlobal + Wait>(
    rt: &R,
    texts: &[Vec<u8>],
) -> Result<Vec<u8>, CallError> {
    let (list, met) = with_desk(rt, 1, |desk: &mut OpenDesk| -> Result<Vec<u8>, CallError> {
        listed(rt, desk, texts)
    })?;
    let published = met.published;
    drop(met);
    with_count(rt.alloc(), &list, published)
}

/// A list, and after it how many batches were published.
fn with_count(alloc: Global, list: &[u8], published: u64) -> Result<Vec<u8>, CallError> {
    let list = text(list)?;
    Ok(format!(in alloc; "{list}published {published}\n")?.into_bytes())
}

fn listed<R: AllocGlobal + Wait>(
    rt: &R,
    desk: &mut OpenDesk,
    texts: &[Vec<u8>],
) -> Result<Vec<u8>, CallError> {
    for text in texts {
        desk.keeper.submit(batch(rt.alloc(), text)?)?;
    }
    desk.keeper.publish(rt)?;
    match desk.passes.pop() {
        Some(pass) => list_once(pass),
        None => Err(CallError::NoPlace),
    }
}

fn list_once(pass: Pass) -> Result<Vec<u8>, CallError> {
    let mut pass = pass;
    Ok(pass.list(window()?)?)
}
