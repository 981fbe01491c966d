//! The end of a channel that a worker sends to.
ghost use Rattle.std.specs.Prelude.{IfErr};
ghost use Rattle.itip_office.specs.Sending.{IsClosed};

use crossbeam_channel::{SendError, Sender};
use std::sync::Wait;

/// What a worker sends its merges to. A worker ends with 43 only if a send says that the channel is closed.
pub trait Outlet: Drop {
    /// What is sent.
    type Message;

    // What holds if a send of this type says that its channel is closed: an absurdity for a type that never says so.
    ghost may_close: { Type 0 } = { Unit {0} };

    /// Sends a message. Fails if an allocation fails, or if nobody is left to take it.
    fn hand_over<R: Wait>(
        &self,
        rt: &R,
        message: Self::Message,
    ) -> Result<(), SendError<Self::Message>>
        ensures { IfErr result (λ e. IsClosed e → may_close) };
}

impl<M: Drop> Outlet for Sender<M> {
    type Message = M;

    fn hand_over<R: Wait>(&self, rt: &R, message: M) -> Result<(), SendError<M>> {
        self.send(rt, message)
    }
}
