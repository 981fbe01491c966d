//! What is worked out of a rule once, to ask it about many moments.
ghost use Rattle.std.specs.Prelude.{◌≡◌, ◌↔◌, ◌%◌, ◌<ℤ◌, IsTrue};
ghost use Rattle.itip_moment.specs.Moment.{moment_day};
ghost use Rattle.itip_moment.specs.Years.{IsDayNumber};
ghost use Rattle.itip_recur.specs.Members.{HasTimeOf};
ghost use Rattle.itip_recur.specs.SelectedDays.{unit_number, InPattern};
ghost use Rattle.itip_recur.specs.PreparedRule.{IsPreparedRule, IsPreparedSeries, MayRepeat, IsLaterMember};
ghost use Rattle.itip_recur.specs.Sets.{AreSetsOf};

use crate::calendar::CALENDAR_END;
use crate::members::{end_of_days, is_up_to};
use crate::rule::Rule;
use crate::selected_days::{is_selected, unit_number};
use crate::sets::DaySets;
use itip_moment::Moment;

/// The lists of a rule as sets, which units are its own, and the end of the days of its repeats.
#[derive(Clone, Copy)]
pub(crate) struct PreparedRule {
    pub(crate) sets: DaySets,
    pub(crate) residue: u32,
    pub(crate) end: i32,
}

impl PreparedRule {
    pub(crate) fn of(rule: &Rule, start: &Moment) -> PreparedRule
        ensures { IsPreparedRule rule.now start.now result }
    {
        PreparedRule {
            sets: DaySets::of(&rule.frequency),
            residue: unit_number(rule, start.day()) % rule.interval as u32,
            end: end_of_days(rule, start, CALENDAR_END),
        }
    }

    /// The same for the rule of a series; `None` if it has none.
    pub(crate) fn of_series(rule: &Option<Rule>, start: &Moment) -> Option<PreparedRule>
        ensures { IsPreparedSeries rule.now start.now result }
    {
        match rule {
            Some(rule) => Some(PreparedRule::of(rule, start)),
            None => None,
        }
    }

    /// Whether a moment is a repeat of the rule and within its end.
    pub(crate) fn repeats(&self, rule: &Rule, start: &Moment, at: &Moment) -> bool
        requires { IsPreparedRule rule.now start.now self.now }
        ensures { IsTrue result ↔ IsLaterMember rule.now start.now at.now }
    {
        self.may_repeat(rule, start, at) && has_time_of(start, at)
    }

    /// Whether a moment is such a repeat if it has the start's form, zone and time of day.
    fn may_repeat(&self, rule: &Rule, start: &Moment, at: &Moment) -> bool
        requires { IsPreparedRule rule.now start.now self.now }
        ensures { IsTrue result ↔ MayRepeat rule.now start.now self.now.end at.now }
    {
        self.is_between(start, at)
            && is_up_to(&rule.end, at)
            && self.has_day(rule, start.day(), at.day())
    }

    /// Whether a moment is on a day after the start's and before the end.
    fn is_between(&self, start: &Moment, at: &Moment) -> bool
        ensures { IsTrue result ↔ (moment_day start.now <ℤ moment_day at.now) × (moment_day at.now <ℤ self.now.end) }
    {
        start.day() < at.day() && at.day() < self.end
    }

    /// Whether a day is in the pattern of the rule.
    fn has_day(&self, rule: &Rule, start: i32, day: i32) -> bool
        requires start_in { IsDayNumber start }
        requires day_in { IsDayNumber day }
        requires sets { AreSetsOf rule.now.frequency self.now.sets }
        requires residue { self.now.residue ≡ unit_number rule.now.frequency rule.now.week_start start % rule.now.interval }
        ensures { IsTrue result ↔ InPattern rule.now start day }
    {
        unit_number(rule, day) % rule.interval as u32 == self.residue
            && is_selected(&rule.frequency, &self.sets, start, day)
    }
}

/// Whether a moment has the form, the time of day and the zone of another.
fn has_time_of(start: &Moment, at: &Moment) -> bool
    ensures { IsTrue result ↔ HasTimeOf start.now at.now }
{
    match (start, at) {
        (Moment::Zoned(zone, first), Moment::Zoned(other, second)) => {
            first.second == second.second && zone.as_str() == other.as_str()
        }
        _ => start.form() == at.form() && start.second() == at.second(),
    }
}

/// Whether two moments are the same.
pub(crate) fn is_same(moment: &Moment, other: &Moment) -> bool
    ensures { IsTrue result ↔ (moment.now ≡ other.now) }
{
    moment == other
}
