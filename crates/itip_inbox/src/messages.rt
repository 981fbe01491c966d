//! Cuts what was read of an input into messages. Only what is left is ever copied.
ghost use Rattle.std.specs.Prelude.{◌≡◌, [], false, map, IfOk};
ghost use Rattle.itip_message.specs.Begun.{IsBegun};
ghost use Rattle.itip_message.specs.Scanned.{messages_of};
ghost use Rattle.itip_inbox.specs.Streaming.{StaysCutInto};

use itip_message::{BegunMessage, cut_message, next_message};
use std::alloc::{AllocError, Global};

/// Bytes of an input that were read and have not been heard yet.
#[derive(Drop)]
pub(crate) struct Held {
    pub(crate) octets: Vec<u8>,
    /// Whether the first message is too long to be read. Then a few bytes stand in for those of it that came.
    pub(crate) is_long: bool,
}

impl Held {
    /// Nothing has been read.
    pub(crate) fn nothing(alloc: Global) -> Held
        ensures octets { result.octets.items ≡ [] }
        ensures short { result.is_long ≡ false }
    {
        Held {
            octets: Vec::new(alloc),
            is_long: false,
        }
    }
}

/// Messages, and the bytes after them, which are not known to be whole messages.
#[derive(Drop)]
pub(crate) struct Share<'a> {
    pub(crate) texts: Vec<&'a [u8]>,
    pub(crate) left: BegunMessage<'a>,
}

/// The first messages of bytes that others may follow, and what is left.
pub(crate) fn first_messages(alloc: Global, octets: &[u8]) -> Result<Share<'_>, AllocError>
    ensures cut { IfOk result (λ share. StaysCutInto octets.now (map (λ text. text.now) share.texts.items) share.left.octets.now) }
    ensures begun { IfOk result (λ share. IsBegun share.left) }
{
    let mut texts = Vec::new(alloc);
    let mut rest = octets;
    loop {
        match cut_message(rest) {
            Ok((message, after)) => {
                texts.push(message)?;
                rest = after;
            }
            Err(left) => return Ok(Share { texts, left }),
        }
    }
}

/// All messages of bytes that nothing follows.
pub(crate) fn all_messages(alloc: Global, octets: &[u8]) -> Result<Vec<&[u8]>, AllocError>
    ensures { IfOk result (λ texts. map (λ text. text.now) texts.items ≡ messages_of octets.now) }
{
    let mut texts = Vec::new(alloc);
    let mut rest = octets;
    while let Some((message, after)) = next_message(rest) {
        texts.push(message)?;
        rest = after;
    }
    Ok(texts)
}
