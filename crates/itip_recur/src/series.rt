//! A series, and the shape of a to-do.
ghost use Rattle.std.specs.List.Sorted.{IsStrictlySortedBy};
ghost use Rattle.std.proofs.lemmas.Map.Keys.{IsStrictlySortedBy-prop};
ghost use Rattle.itip_moment.specs.Order.{moment_cmp};

use crate::ascending::Ascending;
use crate::{NoMemory, Rule};
use itip_lines::ListOf;
use itip_moment::Moment;

/// The moments of a series: those of its rule and those that are added, without those that are taken away.
#[derive(Debug, Drop)]
pub struct Series {
    /// DTSTART.
    pub start: Moment,
    /// RRULE; without one, the start is the only member.
    pub rule: Option<Rule>,
    /// RDATE: moments that are added.
    pub rdates: ListOf<Moment>,
    /// EXDATE: moments that are taken away, even if RDATE adds them. They are sorted, so one is found by binary search.
    pub exdates: ListOf<Moment>,
    pub ghost exdates_ascend: { IsStrictlySortedBy moment_cmp exdates } by { IsStrictlySortedBy-prop moment_cmp exdates },
}

impl Series {
    ghost use Rattle.std.specs.Prelude.{◌≡◌, ◌↔◌, IsTrue, IfOk};
    ghost use Rattle.std.specs.List.{Contains};
    ghost use Rattle.itip_moment.specs.declared.moment.Moment.{Moment};

    /// A series of these moments. `exdates` may be in any order and is sorted here.
    ///
    /// Fails only when out of memory.
    pub fn new(
        start: Moment,
        rule: Option<Rule>,
        rdates: ListOf<Moment>,
        exdates: ListOf<Moment>,
    ) -> Result<Series, NoMemory>
        ensures start { IfOk result (λ s. s.start ≡ start) }
        ensures rule { IfOk result (λ s. s.rule ≡ rule) }
        ensures rdates { IfOk result (λ s. s.rdates ≡ rdates) }
        ensures exdates { IfOk result (λ s. (m : Moment) → Contains s.exdates m ↔ Contains exdates m) }
    {
        let exdates = Ascending::of_moments(exdates.into_vec())?;
        Ok(Series {
            start,
            rule,
            rdates,
            exdates: ListOf::from_vec(exdates.moments),
        })
    }

    pub(crate) fn is_excluded(&self, moment: &Moment) -> bool
        ensures { IsTrue result ↔ Contains self.now.exdates moment.now }
    {
        self.exdates.as_slice().binary_search(moment).is_ok()
    }
}

/// How a to-do recurs.
#[derive(Debug, Drop)]
pub enum Shape {
    /// It doesn't recur.
    Single,
    /// It recurs in a way that is kept but not expanded.
    Opaque,
    /// It recurs as this series does.
    Repeats(Series),
}
