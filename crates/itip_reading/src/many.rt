//! Reading many messages at once.
ghost use Rattle.std.specs.Prelude.{IfOk, IfErr};
ghost use Rattle.std.specs.List.{AllZip};
ghost use Rattle.itip_message.specs.Refusals.{IfRefused};
ghost use Rattle.itip_message.specs.Message.{ReadsMessage, RefusesMessage};

use itip_items::Item;
use itip_message::{ReadError, read_message};
use rayon::prelude::*;
use std::alloc::{AllocError, Global};
use std::thread::Threads;

/// The fewest bytes that are worth a thread.
const LEAST: usize = 16_384;

/// Returns the result of [`read_message`] for each text, in their order. The texts are shared among threads, at most two for each
/// processor, whether they are many or few but long: if all have the same length and there are enough of them, each thread gets more
/// than 8,192 bytes, about 16,384 or more.
///
/// If an allocation fails while a text is read, its own result is that error, and the others are unaffected. Returns [`AllocError`]
/// if any other allocation fails.
pub fn read_all(
    rt: &(impl Threads + Sync),
    alloc: Global,
    texts: &[Vec<u8>],
) -> Result<Vec<Result<Vec<Item>, ReadError>>, AllocError>
    ensures { IfOk result (λ answers. AllZip (λ text answer.
        IfOk answer (λ items. ReadsMessage text.items items.items) × IfErr answer (λ e. IfRefused e (RefusesMessage text.items)))
        texts.now answers.items) }
{
    let least = least_share(texts);
    texts
        .par_iter()
        .with_min_len(least)
        .map(
            |text: &Vec<u8>| -> Result<Vec<Item>, ReadError>
                ensures { IfOk result (λ items. ReadsMessage text.now.items items.items)
                    × IfErr result (λ e. IfRefused e (RefusesMessage text.now.items)) }
            { read_message(alloc, text) },
        )
        .collect(rt, alloc)
}

// About how many texts have the fewest bytes that are worth a thread, if all have the same length; all of them if they are empty.
fn least_share(texts: &[Vec<u8>]) -> usize {
    let mut octets = 0usize;
    for text in texts {
        octets = octets.saturating_add(text.len());
    }
    texts
        .len()
        .saturating_mul(LEAST)
        .checked_div(octets)
        .unwrap_or(texts.len())
}
