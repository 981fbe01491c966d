//! How a to-do recurs.
ghost use Rattle.std.specs.Prelude.{◌≡◌, ◌↔◌, IsTrue, IfOk, IsOk, MatchOption, Option};
ghost use Rattle.std.specs.List.Sorted.{IsStrictlySortedBy};
ghost use Rattle.itip_moment.specs.Order.{moment_cmp};
ghost use Rattle.itip_recur.specs.declared.rule.Rule.{Rule};
ghost use Rattle.itip_recur.specs.declared.series.Series.{Series};
ghost use Rattle.itip_recur.specs.RuleText.{RuleText};
ghost use Rattle.itip_recur.specs.ToDoShape.{Recurs, EndFits, IsRuleOf, IsSeriesOf, IsShape};
ghost use Rattle.itip_recur.specs.Given.{are_given};

use crate::NoMemory;
use crate::read::{Reading, read_rule};
use crate::rule::{End, Rule};
use crate::series::{Series, Shape};
use itip_lines::{LineList, ListOf, TextList};
use itip_moment::{Form, Moment};
use itip_todo::{Todo, has_period};
use std::alloc::Global;

/// How a to-do recurs.
///
/// It is single without RRULE, RDATE and EXDATE. With one of these it is opaque if it has no DTSTART, more than one RRULE, a rule
/// outside the profile, an UNTIL of another form than DTSTART or beside a DTSTART in a named zone, or an RDATE with a `/`.
/// Otherwise it repeats. Fails only when out of memory; a single to-do takes none.
pub fn shape(alloc: Global, todo: &Todo) -> Result<Shape, NoMemory>
    ensures found { IfOk result (IsShape todo.now) }
    ensures room { ¬ Recurs todo.now → IsOk result }
{
    if !recurs(todo) {
        return Ok(Shape::Single);
    }
    match series_of(alloc, todo)? {
        Some(series) => Ok(Shape::Repeats(series)),
        None => Ok(Shape::Opaque),
    }
}

/// Whether a to-do has RRULE, RDATE or EXDATE. It takes no memory.
pub fn recurs(todo: &Todo) -> bool
    ensures { IsTrue result ↔ Recurs todo.now }
{
    are_given(
        &todo.rule,
        todo.rdates.as_slice(),
        todo.exdates.as_slice(),
        &todo.others,
    )
}

// Whether one of these lists has a value, or a period is among the lines.
fn are_given(rules: &TextList, rdates: &[Moment], exdates: &[Moment], lines: &LineList) -> bool
    ensures { result ≡ are_given rules.now rdates.now exdates.now lines.now }
{
    !rules.is_empty() || !rdates.is_empty() || !exdates.is_empty() || has_period(lines)
}

fn series_of(alloc: Global, todo: &Todo) -> Result<Option<Series>, NoMemory>
    requires { Recurs todo.now }
    ensures { IfOk result (λ r. MatchOption r ((s : Series) → IsSeriesOf todo.now s → ⊥) (IsSeriesOf todo.now)) }
{
    if has_period(&todo.others) {
        return Ok(None);
    }
    let Some(start) = &todo.start else {
        return Ok(None);
    };
    match rule_of(alloc, start, &todo.rule)? {
        Some(rule) => Ok(Some(series(start, rule, &todo.rdates, &todo.exdates)?)),
        None => Ok(None),
    }
}

fn series(
    start: &Moment,
    rule: Option<Rule>,
    rdates: &ListOf<Moment>,
    exdates: &ListOf<Moment>,
) -> Result<Series, NoMemory>
    requires { IsStrictlySortedBy moment_cmp exdates.now }
    ensures start { IfOk result (λ s. s.start ≡ start.now) }
    ensures rule { IfOk result (λ s. s.rule ≡ rule) }
    ensures rdates { IfOk result (λ s. s.rdates ≡ rdates.now) }
    ensures exdates { IfOk result (λ s. s.exdates ≡ exdates.now) }
{
    let rdates = copy(rdates)?;
    let exdates = copy(exdates)?;
    let start = start.clone()?;
    Ok(Series {
        start,
        rule,
        rdates,
        exdates,
    })
}

fn copy(moments: &ListOf<Moment>) -> Result<ListOf<Moment>, NoMemory>
    ensures { IfOk result (λ copy. copy ≡ moments.now) }
{
    moments.clone()
}

// The rule of a series, or `Some(None)` if it has none; `None` if the texts or the rule's end make the series opaque.
fn rule_of(
    alloc: Global,
    start: &Moment,
    rules: &TextList,
) -> Result<Option<Option<Rule>>, NoMemory>
    ensures { IfOk result (λ r. MatchOption r ((rule : Option Rule) → IsRuleOf rules.now start.now rule → ⊥)
        (IsRuleOf rules.now start.now)) }
{
    let mut texts = rules.iter();
    let Some(text) = texts.next() else {
        return Ok(Some(None));
    };
    if texts.next().is_some() {
        return Ok(None);
    }
    match read_fitting(alloc, start, text)? {
        Some(rule) => Ok(Some(Some(rule))),
        None => Ok(None),
    }
}

// The rule of a text, if its end fits the start.
fn read_fitting(alloc: Global, start: &Moment, text: &str) -> Result<Option<Rule>, NoMemory>
    ensures { IfOk result (λ r. MatchOption r
        ((rule : Rule) → RuleText text.now rule → EndFits start.now rule.end → ⊥)
        (λ rule. RuleText text.now rule × EndFits start.now rule.end)) }
{
    match read_rule(alloc, text)? {
        Reading::Plain(rule) => {
            if until_fits_start(start, &rule.end) {
                Ok(Some(rule))
            } else {
                Ok(None)
            }
        }
        Reading::OutsideProfile => Ok(None),
    }
}

fn until_fits_start(start: &Moment, end: &End) -> bool
    ensures { IsTrue result ↔ EndFits start.now end.now }
{
    match end {
        End::Until(last) => last.form() == start.form() && start.form() != Form::Zoned,
        End::Never | End::Count(_) => true,
    }
}
