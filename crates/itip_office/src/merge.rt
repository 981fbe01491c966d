//! What a worker sends to a keeper.
ghost use Rattle.std.specs.Prelude.{option_to_list};
ghost use Rattle.itip_office.specs.Texts.{Merges};
ghost use Rattle.itip_office.specs.LooksAndCarries.{IsOneOf, IsBrought};

use crate::job::Job;
use crate::pairs::Pairs;
use crate::source::Source;
use itip_desk::Batch;

/// A job, and the batch that its desk is to merge. The job is a text or a carry. The batch of a text has the items that the text reads as;
/// that of a carry has all that is kept of what a pass of the desk that it comes from had seen.
#[derive(Drop)]
pub struct Merge<N: Pairs> {
    job: Job,
    batch: Batch,
    source: Option<Source<N>>,
    ghost is: { ∥ Merges job.work batch ∥₁ },
    ghost brought: { ∥ IsBrought (IsOneOf (option_to_list source)) job.work batch ∥₁ },
}

impl<N: Pairs> Merge<N> {
    /// The merge of a text, or of a carry with what the pass had seen.
    pub(crate) fn new(job: Job, batch: Batch, source: Option<Source<N>>) -> Merge<N>
        requires merges { Merges job.work batch }
        requires brought { IsBrought (IsOneOf (option_to_list source)) job.work batch }
    {
        Merge { job, batch, source }
    }

    /// Which of `shares` shares the merge is in, from 0, by the UID of its first item. Returns 0 if there are fewer than two shares, or no
    /// items.
    pub(crate) fn share(&self, shares: usize) -> usize {
        if shares < 2 {
            return 0;
        }
        match self.batch.as_slice().first() {
            Some(item) => number_of(item.item().key.uid().as_str()) as usize % shares,
            None => 0,
        }
    }

    pub(crate) fn into_parts(self) -> (Job, Batch, Option<Source<N>>)
        ensures merges { Merges result.0.work result.1 }
        ensures brought { IsBrought (IsOneOf (option_to_list result.2)) result.0.work result.1 }
    {
        let Merge { job, batch, source } = self;
        batch.lawful();
        (job, batch, source)
    }
}

// A hash: two texts seldom have the same.
fn number_of(text: &str) -> u32 {
    let mut number = 0;
    for byte in text.as_bytes() {
        number = number_with(number, *byte);
    }
    number
}

fn number_with(number: u32, byte: u8) -> u32 {
    ((u64::from(number) * 16_777_619 + u64::from(byte)) % 4_294_967_291) as u32
}
