//! The row in question: what an answer to a to-do as a whole, or to an instance of it, is about.
ghost use Rattle.std.specs.Prelude.{◌≡◌, IfOk, MatchOption, Some, None};
ghost use Rattle.std.specs.Option.{option_copied};
ghost use Rattle.itip_moment.specs.declared.moment.Moment.{Moment};
ghost use Rattle.itip_view.specs.Answers.{AreShown};
ghost use Rattle.itip_view.specs.InQuestion.{IsInQuestion, NoneInQuestion, IsRowFound, OccursAt};
ghost use Rattle.itip_view.specs.RowsOfUid.{asked_by};
ghost use Rattle.itip_view.specs.Standing.{Stands, NoneStands, Rules, NoneRules, IsLiveSeries};

use crate::NoMemory;
use crate::answers::{AnswerSearch, Questions, in_turn, in_turn_under, only};
use crate::governs::governing_between;
use crate::keyed_item::KeyedItem;
use crate::occurring_whole::{OccurringWhole, occurring_whole, occurs_at};
use crate::ranges::Ranges;
use crate::row::ShownAttendee;
use crate::standing::{if_live, is_live, standing_item};
use itip_items::Item;
use itip_lines::ListOf;
use itip_moment::Moment;
use itip_state::ItemsOfUid;
use std::alloc::Global;
use std::marker::Model;

/// The row in question.
#[derive(Debug, Drop)]
pub struct RowInQuestion<'a> {
    /// The item that governs it.
    pub item: &'a Item,
    /// The attendees that it shows.
    pub attendees: ListOf<ShownAttendee>,
}

/// What answers to a to-do as a whole and to its instances are about. Built once for many questions: building it sorts RDATE and finds
/// the end of the rule, and then what a question about an instance costs doesn't depend on how long the to-do's recurrence is.
#[derive(Drop)]
pub struct InQuestion<'v, 'a> {
    alloc: Global,
    items: &'v ItemsOfUid<'a>,
    whole: Option<OccurringWhole<'a>>,
    ranges: Ranges<'v, 'a>,
}

impl<'v, 'a> Model for InQuestion<'v, 'a> {
    ghost use Rattle.std.specs.Prelude.{◌≡◌};
    ghost use Rattle.itip_state.specs.OfUid.{UidPart, uid_part_code};
    ghost use Rattle.itip_view.specs.OccurringWhole.{IsOccurringWhole};

    ghost Value = { UidPart };

    ghost coded = { uid_part_code };

    ghost view = { λ q. q.items.now };

    ghost invariant = { λ q. IsOccurringWhole q.items.now.items q.items.now.uid q.whole × (q.ranges ≡ q.items.now) };
}

impl<'v, 'a> InQuestion<'v, 'a> {
    /// What is in question among the kept items of a UID. Fails only when out of memory.
    pub fn of(alloc: Global, items: &'v ItemsOfUid<'a>) -> Result<InQuestion<'v, 'a>, NoMemory>
        ensures { IfOk result (λ question. question ≡ items.now) }
    {
        let whole = occurring_whole(alloc, items)?;
        let ranges = Ranges::of(alloc, items)?;
        Ok(InQuestion {
            alloc,
            items,
            whole,
            ranges,
        })
    }

    /// The kept items of the UID.
    pub fn items(&self) -> &'v ItemsOfUid<'a>
        ensures { result.now ≡ self.now }
    {
        self.items
    }

    /// The range items among them that stand.
    pub fn ranges(&self) -> &Ranges<'v, 'a>
        ensures { result.now ≡ self.now }
    {
        &self.ranges
    }

    /// The item that governs the row in question: for the to-do as a whole the live series item, for an instance the item that governs
    /// the row with this identifier; `None` if there is no such row.
    pub fn governing(&self, id: Option<&Moment>) -> Option<&'a Item>
        ensures { MatchOption (option_copied result)
            (NoneInQuestion self.now.items self.now.uid (option_copied id.entry))
            (IsInQuestion self.now.items self.now.uid (option_copied id.entry)) }
    {
        match id {
            Some(at) => self.governing_at(at),
            None => if_live(self.items.series()),
        }
    }

    /// The item that governs the row with an identifier.
    fn governing_at(&self, at: &Moment) -> Option<&'a Item>
        ensures { MatchOption (option_copied result)
            (NoneInQuestion self.now.items self.now.uid (Some at.now))
            (IsInQuestion self.now.items self.now.uid (Some at.now)) }
    {
        if let Some(instance) = standing_item(self.items, at) {
            return if_live(Some(instance));
        }
        if !occurs_at(&self.whole, at) {
            return None;
        }
        governing_between(self.items, &self.ranges, at)
    }

    /// The row in question, with the attendees that it shows; without an identifier only answers to the to-do as a whole decide.
    /// `None` if there is no such row. Fails only when out of memory.
    pub fn row(&self, id: Option<&Moment>) -> Result<Option<RowInQuestion<'a>>, NoMemory>
        ensures { IfOk result (IsRowFound self.now.items self.now.uid (option_copied id.entry)) }
    {
        match id {
            Some(at) => self.row_at(at),
            None => self.whole_row(),
        }
    }

    /// The row of the to-do as a whole, if it is live.
    fn whole_row(&self) -> Result<Option<RowInQuestion<'a>>, NoMemory>
        ensures { IfOk result (IsRowFound self.now.items self.now.uid None) }
    {
        let Some(whole) = &self.whole else {
            return Ok(None);
        };
        let governing = KeyedItem::of(self.alloc, whole.item)?;
        let questions = only(None, whole.item.own);
        let row = row_of(self.alloc, self.items, &governing, &questions)?;
        Ok(Some(row))
    }

    /// The row with an identifier.
    fn row_at(&self, at: &Moment) -> Result<Option<RowInQuestion<'a>>, NoMemory>
        ensures { IfOk result (IsRowFound self.now.items self.now.uid (Some at.now)) }
    {
        match standing_item(self.items, at) {
            Some(item) => self.instance_row(item, at),
            None => self.row_between(at),
        }
    }

    /// The row of an instance, if it is live.
    fn instance_row(
        &self,
        item: &'a Item,
        at: &Moment,
    ) -> Result<Option<RowInQuestion<'a>>, NoMemory>
        requires { Stands self.now.items self.now.uid at.now item.now }
        ensures { IfOk result (IsRowFound self.now.items self.now.uid (Some at.now)) }
    {
        if !is_live(item.kind) {
            return Ok(None);
        }
        let governing = KeyedItem::of(self.alloc, item)?;
        let questions = only(Some(at), item.own);
        let row = row_of(self.alloc, self.items, &governing, &questions)?;
        Ok(Some(row))
    }

    /// The row of an occurrence at which no instance item stands.
    fn row_between(&self, at: &Moment) -> Result<Option<RowInQuestion<'a>>, NoMemory>
        requires { NoneStands self.now.items self.now.uid at.now }
        ensures { IfOk result (IsRowFound self.now.items self.now.uid (Some at.now)) }
    {
        let Some(whole) = &self.whole else {
            return Ok(None);
        };
        if !occurs_at(&self.whole, at) {
            return Ok(None);
        }
        match self.ranges.ruling(at) {
            Some(range) => self.range_row(whole.item, range, at),
            None => self.occurrence_row(whole.item, at),
        }
    }

    /// The row of an occurrence that a range item rules, if that item is live.
    fn range_row(
        &self,
        series: &Item,
        range: &KeyedItem<'a>,
        at: &Moment,
    ) -> Result<Option<RowInQuestion<'a>>, NoMemory>
        requires none { NoneStands self.now.items self.now.uid at.now }
        requires occurs { OccursAt self.now.items self.now.uid at.now }
        requires live { IsLiveSeries self.now.items self.now.uid series.now }
        requires rules { (id : Moment) × Rules self.now.items self.now.uid at.now id range.now.item.now }
        ensures { IfOk result (IsRowFound self.now.items self.now.uid (Some at.now)) }
    {
        if !is_live(range.item.kind) {
            return Ok(None);
        }
        let questions = in_turn_under(at, range.item, series);
        let row = row_of(self.alloc, self.items, range, &questions)?;
        Ok(Some(row))
    }

    /// The row of an occurrence that no range item rules.
    fn occurrence_row(
        &self,
        series: &'a Item,
        at: &Moment,
    ) -> Result<Option<RowInQuestion<'a>>, NoMemory>
        requires none { NoneStands self.now.items self.now.uid at.now }
        requires occurs { OccursAt self.now.items self.now.uid at.now }
        requires live { IsLiveSeries self.now.items self.now.uid series.now }
        requires none_rules { NoneRules self.now.items self.now.uid at.now }
        ensures { IfOk result (IsRowFound self.now.items self.now.uid (Some at.now)) }
    {
        let governing = KeyedItem::of(self.alloc, series)?;
        let questions = in_turn(at, series.own, series.own);
        let row = row_of(self.alloc, self.items, &governing, &questions)?;
        Ok(Some(row))
    }
}

/// The row that an item governs; these questions are asked for each attendee in turn.
fn row_of<'a>(
    alloc: Global,
    items: &ItemsOfUid<'a>,
    governing: &KeyedItem<'a>,
    questions: &Questions<'_>,
) -> Result<RowInQuestion<'a>, NoMemory>
    ensures item { IfOk result (λ row. row.item.now ≡ governing.now.item.now) }
    ensures shown { IfOk result (λ row. AreShown items.now.items (asked_by items.now.uid questions.now)
        governing.now.item.now.todo.attendees row.attendees) }
{
    let asked = AnswerSearch { items, questions };
    let attendees = asked.shown_attendees(alloc, &governing.lines)?;
    Ok(RowInQuestion {
        item: governing.item,
        attendees,
    })
}
