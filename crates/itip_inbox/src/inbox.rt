//! What was heard of inputs.
ghost use Rattle.std.specs.Prelude.{◌≡◌};
ghost use Rattle.itip_inbox.specs.Inbox.{is_some_refused};

use crate::refusals::Refusals;
use itip_explain::ToldItem;
use itip_state::State;

/// What is kept of the messages of some inputs, which of them were refused, and what they tell of one to-do.
#[derive(Drop)]
pub struct Inbox {
    /// What is kept of the messages.
    pub state: State,
    /// The refused messages, in the order of the inputs and of their messages.
    pub refusals: Refusals,
    /// The items of the followed UID, in the order of the inputs, of their messages and of `read_message`, each as often as a
    /// message tells it; none if no UID is followed.
    pub told: Vec<ToldItem>,
    /// How many inputs there were.
    pub source: usize,
}

impl Inbox {
    /// Whether a message was refused.
    pub(crate) fn has_refusals(&self) -> bool
        ensures { result ≡ is_some_refused self.now.refusals }
    {
        !self.refusals.is_empty()
    }
}
