//! A series that is asked about many moments.
ghost use Rattle.std.specs.Prelude.{◌≡◌, ◌↔◌, IsTrue, IfOk};
ghost use Rattle.itip_recur.specs.Members.{IsRuleMember, Occurs};
ghost use Rattle.itip_recur.specs.PreparedRule.{IsPreparedSeries};

use crate::NoMemory;
use crate::ascending::Ascending;
use crate::listing::is_member;
use crate::prepared_rule::{PreparedRule, is_same};
use crate::rule::Rule;
use crate::series::Series;
use itip_moment::Moment;
use std::marker::Model;

/// A series, ready to be asked about many moments: its RDATEs are sorted, the lists of its rule are sets, and the end of its days is
/// known. So a question costs two binary searches and a few comparisons, whatever the series has.
#[derive(Drop)]
pub struct Occurring {
    series: Series,
    rdates: Ascending,
    days: Option<PreparedRule>,
}

impl Model for Occurring {
    ghost use Rattle.std.specs.Prelude.{◌↔◌};
    ghost use Rattle.std.specs.List.{Contains};
    ghost use Rattle.itip_moment.specs.declared.moment.Moment.{Moment};
    ghost use Rattle.itip_recur.specs.contracts.series.Series as row;
    ghost use Rattle.itip_recur.specs.declared.series.Series.{Series};
    ghost use Rattle.itip_recur.specs.PreparedRule.{IsPreparedSeries};

    ghost Value = { Series };

    ghost coded = { row.the_row.coded };

    ghost view = { λ o. o.series };

    ghost invariant = { λ o. ((m : Moment) → Contains o.rdates.moments.items m ↔ Contains o.series.rdates m) ×
        IsPreparedSeries o.series.rule o.series.start o.days };
}

impl Occurring {
    /// A series, ready to be asked. Fails only when out of memory.
    pub fn of(series: Series) -> Result<Occurring, NoMemory>
        ensures { IfOk result (λ asked. asked ≡ series) }
    {
        let rdates = Ascending::of_moments(series.rdates.clone()?.into_vec())?;
        let days = PreparedRule::of_series(&series.rule, &series.start);
        Ok(Occurring {
            series,
            rdates,
            days,
        })
    }

    /// Whether the series has an occurrence at a moment.
    pub fn has(&self, at: &Moment) -> bool
        ensures { IsTrue result ↔ Occurs self.now at.now }
    {
        if self.series.is_excluded(at) {
            return false;
        }
        if self.rdates.has(at) {
            return true;
        }
        has_member(&self.series.rule, &self.days, &self.series.start, at)
    }
}

/// Whether a moment is a member of a rule, of which the days are worked out.
fn has_member(rule: &Option<Rule>, days: &Option<PreparedRule>, start: &Moment, at: &Moment) -> bool
    requires { IsPreparedSeries rule.now start.now days.now }
    ensures { IsTrue result ↔ IsRuleMember rule.now start.now at.now }
{
    if is_same(at, start) {
        return is_member(rule, start);
    }
    let Some(rule) = rule else {
        return false;
    };
    // There are days wherever there is a rule, so this branch never runs.
    let Some(days) = days else {
        return false;
    };
    days.repeats(rule, start, at)
}
