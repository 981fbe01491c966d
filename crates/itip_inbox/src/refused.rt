//! A message that is not heard, and the line of a refusal.
ghost use Rattle.std.specs.Prelude.{◌≡◌, IfOk};
ghost use Rattle.itip_desk.specs.Refusals.{number_of, refused_text};

use itip_desk::Refusal;
use itip_message::MessageRefusal;
use std::alloc::{AllocError, Global};

/// A message of some inputs that was refused.
#[derive(Clone, Copy, Debug, PartialEq, Eq)]
pub struct RefusedMessage {
    /// The place of its input, from 0.
    pub source: usize,
    /// Its place among all messages of that input, from 1.
    pub message: u64,
    pub refusal: MessageRefusal,
}

/// The line `refused N`.
pub(crate) fn refusal_text(alloc: Global, refusal: Refusal) -> Result<Vec<u8>, AllocError>
    ensures { IfOk result (λ text. text.items ≡ refused_text (number_of refusal)) }
{
    let mut text = Vec::new(alloc);
    refusal.append(&mut text)?;
    Ok(text)
}
