//! Reading a rule.
ghost use Rattle.std.specs.Prelude.{ℕ, map, option_copied, IfOk, MatchOption};
ghost use Rattle.jiff_core.specs.declared.civil.weekday.Weekday.{Weekday};
ghost use Rattle.itip_recur.specs.declared.rule.Rule.{Rule};
ghost use Rattle.itip_recur.specs.declared.rule.End.{End};
ghost use Rattle.itip_recur.specs.declared.rule.Frequency.{Frequency};
ghost use Rattle.itip_recur.specs.declared.rule.WeekDays.{WeekDays};
ghost use Rattle.itip_recur.specs.declared.rule.MonthDays.{MonthDays};
ghost use Rattle.itip_recur.specs.declared.rule.YearDays.{YearDays};
ghost use Rattle.itip_recur.specs.RuleText.{IsInterval, IsWeekStart, IsEndOf, IsWeekPart, AreMonthParts, AreYearParts, IsFrequencyOf};
ghost use Rattle.itip_recur.specs.RuleText.{IsRuleOfParts};
ghost use Rattle.itip_recur.specs.Reads.{IsReading};

use crate::elements::{read_list, read_number, read_weekday};
use crate::parts::{are_parts, has_many_parts, split_parts, value_of};
use crate::rule::{End, Frequency, MonthDays, Rule, WeekDays, YearDays};
use crate::{NoMemory, Weekday};
use itip_moment::read_moment;
use std::alloc::Global;

/// What the text of a rule was read as.
#[derive(Debug, Drop)]
pub enum Reading {
    /// A rule of the profile.
    Plain(Rule),
    /// Any other text.
    OutsideProfile,
}

/// Reads a rule (the value of RRULE, RFC 5545 3.3.10), or finds that the text is outside the profile.
///
/// The profile: FREQ is DAILY; WEEKLY, optionally with BYDAY; MONTHLY, optionally with BYMONTHDAY or with BYDAY, which may have
/// ordinals; or YEARLY, optionally with both BYMONTH and BYMONTHDAY. INTERVAL up to 10,000, COUNT or UNTIL, and WKST are optional.
/// Letters may be in either case, except in UNTIL. Fails only when out of memory.
pub fn read_rule(alloc: Global, text: &str) -> Result<Reading, NoMemory>
    ensures { IfOk result (IsReading text.now) }
{
    // A rule has at most one part for each of the eight names, so a text with more parts isn't split.
    if has_many_parts(text) {
        return Ok(Reading::OutsideProfile);
    }
    let parts = split_parts(alloc, text)?;
    match read_parts(alloc, parts.as_slice())? {
        Some(rule) => Ok(Reading::Plain(rule)),
        None => Ok(Reading::OutsideProfile),
    }
}

fn read_parts(alloc: Global, parts: &[&str]) -> Result<Option<Rule>, NoMemory>
    ensures { IfOk result (λ r. MatchOption r
        ((rule : Rule) → IsRuleOfParts (map (λ p. p.now) parts.now) rule → ⊥)
        (IsRuleOfParts (map (λ p. p.now) parts.now))) }
{
    if !are_parts(parts) {
        return Ok(None);
    }
    let Some(interval) = read_interval(value_of("INTERVAL", parts)) else {
        return Ok(None);
    };
    let Some(week_start) = read_week_start(value_of("WKST", parts)) else {
        return Ok(None);
    };
    let Some(end) = read_end(alloc, value_of("COUNT", parts), value_of("UNTIL", parts))? else {
        return Ok(None);
    };
    let Some(frequency) = read_frequency(alloc, parts)? else {
        return Ok(None);
    };
    Ok(Some(Rule {
        frequency,
        interval,
        end,
        week_start,
    }))
}

fn read_interval(value: Option<&str>) -> Option<u16>
    ensures { MatchOption result ((n : ℕ) → IsInterval (option_copied value.entry) n → ⊥) (IsInterval (option_copied value.entry)) }
{
    match value {
        None => Some(1),
        Some(value) => Some(read_number(value.as_bytes(), 10_000)? as u16),
    }
}

fn read_week_start(value: Option<&str>) -> Option<Weekday>
    ensures { MatchOption result ((w : Weekday) → IsWeekStart (option_copied value.entry) w → ⊥) (IsWeekStart (option_copied value.entry)) }
{
    match value {
        None => Some(Weekday::Monday),
        Some(value) => read_weekday(value.as_bytes()),
    }
}

fn read_end(
    alloc: Global,
    count: Option<&str>,
    until: Option<&str>,
) -> Result<Option<End>, NoMemory>
    ensures { IfOk result (λ r. MatchOption r ((e : End) → IsEndOf (option_copied count.entry) (option_copied until.entry) e → ⊥)
        (IsEndOf (option_copied count.entry) (option_copied until.entry))) }
{
    match (count, until) {
        (None, None) => Ok(Some(End::Never)),
        (Some(count), None) => Ok(read_number(count.as_bytes(), u32::MAX).map(End::Count)),
        (None, Some(until)) => Ok(read_moment(alloc, until, None)?.map(End::Until)),
        (Some(_), Some(_)) => Ok(None),
    }
}

fn read_frequency(alloc: Global, parts: &[&str]) -> Result<Option<Frequency>, NoMemory>
    ensures { IfOk result (λ r. MatchOption r
        ((f : Frequency) → IsFrequencyOf (map (λ p. p.now) parts.now) f → ⊥)
        (IsFrequencyOf (map (λ p. p.now) parts.now))) }
{
    let Some(frequency) = value_of("FREQ", parts) else {
        return Ok(None);
    };
    let by_day = value_of("BYDAY", parts);
    let by_month_day = value_of("BYMONTHDAY", parts);
    let by_month = value_of("BYMONTH", parts);
    if frequency.eq_ignore_ascii_case("DAILY") {
        return Ok(match (by_day, by_month_day, by_month) {
            (None, None, None) => Some(Frequency::Daily),
            _ => None,
        });
    }
    if frequency.eq_ignore_ascii_case("WEEKLY") {
        if by_month_day.is_some() || by_month.is_some() {
            return Ok(None);
        }
        return Ok(read_weekly(alloc, by_day)?.map(Frequency::Weekly));
    }
    if frequency.eq_ignore_ascii_case("MONTHLY") {
        if by_month.is_some() {
            return Ok(None);
        }
        return Ok(read_monthly(alloc, by_month_day, by_day)?.map(Frequency::Monthly));
    }
    if frequency.eq_ignore_ascii_case("YEARLY") {
        if by_day.is_some() {
            return Ok(None);
        }
        return Ok(read_yearly(alloc, by_month, by_month_day)?.map(Frequency::Yearly));
    }
    Ok(None)
}

fn read_weekly(alloc: Global, by_day: Option<&str>) -> Result<Option<WeekDays>, NoMemory>
    ensures { IfOk result (λ r. MatchOption r ((d : WeekDays) → IsWeekPart (option_copied by_day.entry) d → ⊥)
        (IsWeekPart (option_copied by_day.entry))) }
{
    let Some(value) = by_day else {
        return Ok(Some(WeekDays::OfStart));
    };
    Ok(read_list(alloc, value)?.map(WeekDays::Listed))
}

fn read_monthly(
    alloc: Global,
    by_month_day: Option<&str>,
    by_day: Option<&str>,
) -> Result<Option<MonthDays>, NoMemory>
    ensures { IfOk result (λ r. MatchOption r ((d : MonthDays) →
        AreMonthParts (option_copied by_month_day.entry) (option_copied by_day.entry) d → ⊥)
        (AreMonthParts (option_copied by_month_day.entry) (option_copied by_day.entry))) }
{
    match (by_month_day, by_day) {
        (None, None) => Ok(Some(MonthDays::OfStart)),
        (Some(value), None) => Ok(read_list(alloc, value)?.map(MonthDays::Listed)),
        (None, Some(value)) => Ok(read_list(alloc, value)?.map(MonthDays::Weekdays)),
        (Some(_), Some(_)) => Ok(None),
    }
}

fn read_yearly(
    alloc: Global,
    by_month: Option<&str>,
    by_month_day: Option<&str>,
) -> Result<Option<YearDays>, NoMemory>
    ensures { IfOk result (λ r. MatchOption r ((d : YearDays) →
        AreYearParts (option_copied by_month.entry) (option_copied by_month_day.entry) d → ⊥)
        (AreYearParts (option_copied by_month.entry) (option_copied by_month_day.entry))) }
{
    match (by_month, by_month_day) {
        (None, None) => Ok(Some(YearDays::OfStart)),
        (Some(months), Some(days)) => {
            let Some(months) = read_list(alloc, months)? else {
                return Ok(None);
            };
            let Some(days) = read_list(alloc, days)? else {
                return Ok(None);
            };
            Ok(Some(YearDays::Listed { months, days }))
        }
        _ => Ok(None),
    }
}
