//! Moments in ascending order.
ghost use Rattle.std.specs.List.Sorted.{IsStrictlySortedBy};
ghost use Rattle.std.proofs.lemmas.Map.Keys.{IsStrictlySortedBy-prop};
ghost use Rattle.itip_moment.specs.Order.{moment_cmp};

use crate::NoMemory;
use crate::error::RecurError;
use itip_moment::Moment;
use std::alloc::Global;

/// Moments in ascending order, each once.
#[derive(Drop)]
pub(crate) struct Ascending {
    pub(crate) moments: Vec<Moment>,
    pub(crate) ghost ascending: { IsStrictlySortedBy moment_cmp moments.items } by { IsStrictlySortedBy-prop moment_cmp moments.items },
}

impl Ascending {
    ghost use Rattle.std.specs.Prelude.{◌≡◌, ◌↔◌, ◌<ℤ◌, [], IsTrue, IfOk};
    ghost use Rattle.std.specs.List.{Contains};
    ghost use Rattle.itip_moment.specs.declared.moment.Moment.{Moment};
    ghost use Rattle.itip_moment.specs.Moment.{moment_day};
    ghost use Rattle.itip_recur.specs.Adding.{IsStep};

    pub(crate) fn new(alloc: Global) -> Ascending
        ensures { result.moments.items ≡ [] }
    {
        Ascending {
            moments: Vec::new(alloc),
        }
    }

    /// The given moments in ascending order, each once.
    pub(crate) fn of_moments(moments: Vec<Moment>) -> Result<Ascending, NoMemory>
        ensures { IfOk result (λ all. (m : Moment) → Contains all.moments.items m ↔ Contains moments.items m) }
    {
        let mut moments = moments;
        moments.sort()?;
        moments.dedup();
        Ok(Ascending { moments })
    }

    /// Whether a moment is among them.
    pub(crate) fn has(&self, moment: &Moment) -> bool
        ensures { IsTrue result ↔ Contains self.now.moments.items moment.now }
    {
        self.moments.binary_search(moment).is_ok()
    }

    /// Adds a moment of a later day than all others; `TooMany` if there are then more than `limit`.
    pub(crate) fn add(&mut self, moment: Moment, limit: usize) -> Result<(), RecurError>
        requires later { (m : Moment) → Contains self.old.moments.items m → moment_day m <ℤ moment_day moment }
        ensures { IsStep limit (λ m. m ≡ moment) self.old.moments.items self.new.moments.items result }
    {
        self.moments.push(moment)?;
        if self.moments.len() > limit {
            return Err(RecurError::TooMany);
        }
        Ok(())
    }
}
