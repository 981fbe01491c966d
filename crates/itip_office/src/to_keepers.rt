//! What a worker hands on to the keepers.
ghost use Rattle.std.specs.Prelude.{◌≢◌, IfErr, IsErrOf};

use crate::error::OfficeError;
use crate::merge::Merge;
use crate::outlet::Outlet;
use crate::pairs::Pairs;
use crossbeam_channel::SendError;
use std::alloc::{AllocError, Global};
use std::mem;
use std::sync::Wait;

/// How many merges go to a keeper at once if the gate may not wait. Waking a keeper for each costs more than reading a text.
const AT_ONCE: usize = 64;

/// The channels to the keepers, and for each the merges that wait to be handed on. There is a keeper for each desk, in the order of desks,
/// then perhaps another for each, and so on.
#[derive(Drop)]
pub(crate) struct Hands<N: Pairs, W> {
    alloc: Global,
    desks: usize,
    keepers: Vec<W>,
    waiting: Vec<Vec<Merge<N>>>,
    most: usize,
}

impl<N: Pairs, W: Outlet<Message = Vec<Merge<N>>>> Hands<N, W> {
    /// Nothing waits yet. If the gate may wait, each merge will be handed on by itself.
    pub(crate) fn new(
        alloc: Global,
        desks: usize,
        keepers: Vec<W>,
        may_wait: bool,
    ) -> Result<Hands<N, W>, AllocError> {
        let mut waiting = Vec::new(alloc);
        for _ in 0..keepers.len() {
            waiting.push(Vec::new(alloc))?;
        }
        Ok(Hands {
            alloc,
            desks,
            keepers,
            waiting,
            most: if may_wait { 1 } else { AT_ONCE },
        })
    }

    /// Adds a merge to those that wait for a keeper of its desk, and hands these on once there are enough. Merges whose first items have
    /// the same UID go to the same keeper of the desk.
    pub(crate) fn hand_on<R: Wait>(
        &mut self,
        rt: &R,
        desk: usize,
        merge: Merge<N>,
    ) -> Result<(), OfficeError>
        ensures open { IfErr result (λ e. e ≢ OfficeError.GateClosed) }
        ensures ended { IsErrOf result OfficeError.ChannelClosed → W.may_close }
    {
        let at = self.keeper_of(desk, &merge);
        let Some(waiting) = self.waiting.get_mut(at) else {
            return Err(OfficeError::NoPlace);
        };
        waiting.push(merge)?;
        if waiting.len() < self.most {
            return Ok(());
        }
        self.send(rt, at)
    }

    /// The index of the keeper that gets a merge for a desk.
    fn keeper_of(&self, desk: usize, merge: &Merge<N>) -> usize {
        let rounds = self.keepers.len().checked_div(self.desks).unwrap_or(0);
        let round = merge.share(rounds);
        round.saturating_mul(self.desks).saturating_add(desk)
    }

    /// Hands on everything that waits.
    pub(crate) fn send_all<R: Wait>(&mut self, rt: &R) -> Result<(), OfficeError>
        ensures open { IfErr result (λ e. e ≢ OfficeError.GateClosed) }
        ensures ended { IsErrOf result OfficeError.ChannelClosed → W.may_close }
    {
        for at in 0..self.keepers.len() {
            self.send(rt, at)?;
        }
        Ok(())
    }

    fn send<R: Wait>(&mut self, rt: &R, at: usize) -> Result<(), OfficeError>
        ensures open { IfErr result (λ e. e ≢ OfficeError.GateClosed) }
        ensures ended { IsErrOf result OfficeError.ChannelClosed → W.may_close }
    {
        let Some(waiting) = self.waiting.get_mut(at) else {
            return Err(OfficeError::NoPlace);
        };
        if waiting.is_empty() {
            return Ok(());
        }
        let merges = mem::replace(waiting, Vec::new(self.alloc));
        let Some(keeper) = self.keepers.get(at) else {
            return Err(OfficeError::NoPlace);
        };
        match keeper.hand_over(rt, merges) {
            Ok(()) => Ok(()),
            Err(SendError::OutOfMemory(_)) => Err(OfficeError::NoMemory),
            Err(SendError::Disconnected(_)) => Err(OfficeError::ChannelClosed),
        }
    }
}
