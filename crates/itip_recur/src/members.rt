//! Where the repeats of a rule end, and the moment of a repeat on its day.
ghost use Rattle.std.specs.Prelude.{◌≡◌, ◌≢◌, ◌↔◌, ◌<◌, ◌⊎◌, ℕ, ℤ, ◌≤ℤ◌, ◌<ℤ◌, pos, ◌+ℤ◌, IsTrue, IfOk, MatchOption};
ghost use Rattle.std.specs.declared.cmp.Ordering.TheVariants.{Greater};
ghost use Rattle.itip_moment.specs.Years.{IsDayNumber};
ghost use Rattle.itip_moment.specs.Moment.{moment_day};
ghost use Rattle.itip_recur.specs.Calendar.{IsDayOrEnd};
ghost use Rattle.itip_recur.specs.SelectedDays.{InPattern, IsLaterDay};
ghost use Rattle.itip_moment.specs.declared.moment.Moment.{Moment};
ghost use Rattle.itip_recur.specs.Members.{HasTimeOf, IsRepeat, IsCandidate, IsWithinEnd};
ghost use Rattle.itip_recur.specs.Walk.{IsNextDay, IsNoDay, IsEndOfCount, IsUpTo};

use crate::NoMemory;
use crate::month_counts::passed_days;
use crate::rule::{End, Rule};
use crate::walk::Walk;
use itip_moment::{Day, Moment, Stamp};
use std::cmp::Ordering;

/// The end of the later days that COUNT leaves to a rule, if only those before `end` are wanted.
pub(crate) fn end_of_count(rule: &Rule, start: i32, count: u32, end: i32) -> i32
    requires start_in { IsDayNumber start }
    requires end_in { IsDayOrEnd end }
    ensures bounds { IsDayOrEnd result }
    ensures exact { IsEndOfCount rule.now start count end result }
{
    let walk = Walk::new(rule, start);
    let mut seen: u32 = 1;
    let mut day = start + 1;
    let passed = passed_days(&walk, count, end);
    seen += passed.seen;
    day += passed.days as i32;
    while seen < count {
        let Some(found) = walk.next_day(day, end) else {
            return end;
        };
        seen += 1;
        day = found + 1;
    }
    day
}

/// The moment on another day, with the form, the time of day and the zone of this one.
pub(crate) fn on_day(start: &Moment, day: i32) -> Result<Moment, NoMemory>
    requires { IsDayNumber day }
    ensures day { IfOk result (λ m. moment_day m ≡ day) }
    ensures time { IfOk result (HasTimeOf start.now) }
{
    Ok(match start {
        Moment::Date(_) => Moment::Date(Day { number: day }),
        Moment::Floating(at) => Moment::Floating(Stamp {
            day,
            second: at.second,
        }),
        Moment::Utc(at) => Moment::Utc(Stamp {
            day,
            second: at.second,
        }),
        Moment::Zoned(zone, at) => Moment::Zoned(
            zone.clone()?,
            Stamp {
                day,
                second: at.second,
            },
        ),
    })
}

/// The end of the days of the rule's repeats before `end`; UNTIL may cut off the last one.
pub(crate) fn end_of_days(rule: &Rule, start: &Moment, end: i32) -> i32
    requires { IsDayOrEnd end }
    ensures bounds { IsDayOrEnd result }
    ensures exact { (m : Moment) → IsRepeat rule.now start.now m
        → ((moment_day m <ℤ end) × IsWithinEnd rule.now.end (IsCandidate rule.now start.now) m) ↔
        ((moment_day m <ℤ result) × IsUpTo rule.now.end m) }
{
    let last = end_of_rule(rule, start, end);
    if last < end { last } else { end }
}

// Like `end_of_days`, but says nothing of the repeats from `end` on.
fn end_of_rule(rule: &Rule, start: &Moment, end: i32) -> i32
    requires { IsDayOrEnd end }
    ensures bounds { IsDayOrEnd result }
    ensures exact { (m : Moment) → IsRepeat rule.now start.now m → moment_day m <ℤ end
        → IsWithinEnd rule.now.end (IsCandidate rule.now start.now) m ↔ ((moment_day m <ℤ result) × IsUpTo rule.now.end m) }
{
    match &rule.end {
        End::Never => end,
        End::Count(count) => end_of_count(rule, start.day(), *count, end),
        End::Until(last) => {
            if last.day() < end {
                last.day() + 1
            } else {
                end
            }
        }
    }
}

/// Whether UNTIL leaves a moment to the rule; true if there is none.
pub(crate) fn is_up_to(end: &End, moment: &Moment) -> bool
    ensures { IsTrue result ↔ IsUpTo end.now moment.now }
{
    match end {
        End::Until(last) => moment.cmp(last) != Ordering::Greater,
        End::Never | End::Count(_) => true,
    }
}
