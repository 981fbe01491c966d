//! Which answers count, and what a row shows of the attendees.
ghost use Rattle.std.specs.Prelude.{◌≡◌, IfOk, List, MatchOption, Option, map, max};
ghost use Rattle.std.specs.List.{list_any};
ghost use Rattle.std.specs.Option.{option_copied};
ghost use Rattle.itip_items.specs.declared.item.Item.{Item};
ghost use Rattle.itip_view.specs.Answers.{Counts, NoneCounts, Decides, AreShown, partstat_in, shown_line};
ghost use Rattle.itip_view.specs.RowsOfUid.{asked_by, asked_of, in_turn, only, to_question};
ghost use Rattle.itip_view.specs.Wanted.{is_asked, is_some_asked};
ghost use Rattle.itip_view.specs.declared.row.ShownAttendee.{ShownAttendee};

use crate::NoMemory;
use crate::keyed_item::AttendeeLine;
use crate::row::ShownAttendee;
use crate::wanted::{is_asked, is_named};
use itip_items::{Item, Kind};
use itip_lines::{ListOf, Text};
use itip_moment::Moment;
use itip_state::ItemsOfUid;
use itip_todo::{PartStat, Property, attendee_key, participation};
use std::alloc::Global;

/// A question for the answers to an instance, or to the to-do as a whole, whose SEQUENCE is at least `since`.
#[derive(Drop)]
pub(crate) struct Question<'q> {
    pub(crate) id: Option<&'q Moment>,
    pub(crate) since: u32,
}

/// Which answers a row asks for: those to the first question or, if none of them counts, those to the second.
#[derive(Drop)]
pub(crate) struct Questions<'q> {
    pub(crate) first: Question<'q>,
    pub(crate) second: Option<Question<'q>>,
}

/// Only the answers to an instance, or to the to-do as a whole, from a sequence on.
pub(crate) fn only(id: Option<&Moment>, since: u32) -> Questions<'_>
    ensures { result ≡ only id.entry since }
{
    Questions {
        first: Question { id, since },
        second: None,
    }
}

/// On the row of an occurrence: the answers to it from sequence `own` on, then those to the to-do as a whole from `since` on.
pub(crate) fn in_turn(at: &Moment, own: u32, since: u32) -> Questions<'_>
    ensures { result ≡ in_turn at.entry own since }
{
    let first = Question {
        id: Some(at),
        since: own,
    };
    let second = Question { id: None, since };
    Questions {
        first,
        second: Some(second),
    }
}

/// The same for an occurrence that a range item rules.
pub(crate) fn in_turn_under<'q>(at: &'q Moment, range: &Item, series: &Item) -> Questions<'q>
    ensures { result ≡ in_turn at.entry range.now.own (max range.now.own series.now.own) }
{
    // An answer to the to-do as a whole is dead if it is earlier than the series, so it doesn't count here either (our own rule).
    in_turn(at, range.own, range.own.max(series.own))
}

/// A search for answers to these questions among the items of a UID.
#[derive(Drop)]
pub(crate) struct AnswerSearch<'v, 'a> {
    pub(crate) items: &'v ItemsOfUid<'a>,
    pub(crate) questions: &'v Questions<'v>,
}

impl<'v, 'a> AnswerSearch<'v, 'a> {
    /// The attendees that these lines show, in order.
    pub(crate) fn shown_attendees(
        &self,
        alloc: Global,
        lines: &[AttendeeLine<'_>],
    ) -> Result<ListOf<ShownAttendee>, NoMemory>
        ensures { IfOk result (AreShown self.now.items.now.items (asked_by self.now.items.now.uid self.now.questions.now)
            (map (λ line. line.line.now) lines.now)) }
    {
        let mut attendees = Vec::with_capacity(alloc, lines.len())?;
        for line in lines {
            let answer = self.deciding(line.key.as_str());
            if let Some(attendee) = shown_line(alloc, line.line, answer)? {
                attendees.push(attendee)?;
            }
        }
        Ok(ListOf::from_vec(attendees))
    }

    /// Whether one of the attendees that these lines show is asked for: that of an address, with something left to do if only open
    /// rows are asked for. Answers are looked up only for that attendee.
    pub(crate) fn shows(
        &self,
        alloc: Global,
        lines: &[Property],
        address: &str,
        is_open: bool,
    ) -> Result<bool, NoMemory>
        ensures { IfOk result (λ shows. (shown : List ShownAttendee)
            → AreShown self.now.items.now.items (asked_by self.now.items.now.uid self.now.questions.now) lines.now shown
            → list_any (is_asked is_open address.now) shown ≡ shows) }
    {
        for line in lines {
            let is_shown = self.line_shows(alloc, line, address, is_open)?;
            if is_shown {
                return Ok(true);
            }
        }
        Ok(false)
    }

    /// Whether the attendee whom a line shows is asked for.
    fn line_shows(
        &self,
        alloc: Global,
        line: &Property,
        address: &str,
        is_open: bool,
    ) -> Result<bool, NoMemory>
        ensures { IfOk result (λ shows. (answer : Option Item)
            → Decides self.now.items.now.items (asked_by self.now.items.now.uid self.now.questions.now line.now) answer
            → is_some_asked is_open address.now (shown_line line.now answer) ≡ shows) }
    {
        let shown = line.value();
        if !is_named(shown, address) {
            return Ok(false);
        }
        let key = attendee_key(alloc, shown)?;
        let answer = self.deciding(key.as_str());
        let Some(attendee) = shown_line(alloc, line, answer)? else {
            return Ok(false);
        };
        Ok(is_asked(&attendee, address, is_open))
    }

    /// The first answer that counts by the attendee with this key. It takes no memory.
    fn deciding(&self, attendee: &str) -> Option<&'a Item>
        ensures { Decides self.now.items.now.items (asked_of self.now.items.now.uid self.now.questions.now attendee.now)
            (option_copied result) }
    {
        let questions = self.questions;
        if let Some(answer) = self.counting(&questions.first, attendee) {
            return Some(answer);
        }
        match &questions.second {
            Some(second) => self.counting(second, attendee),
            None => None,
        }
    }

    /// The answer to a question by the attendee with this key, if it counts.
    fn counting(&self, question: &Question<'_>, attendee: &str) -> Option<&'a Item>
        ensures { MatchOption (option_copied result)
            (NoneCounts self.now.items.now.items (to_question self.now.items.now.uid attendee.now question.now))
            (Counts self.now.items.now.items (to_question self.now.items.now.uid attendee.now question.now)) }
    {
        match self.items.answer(question.id, attendee) {
            Some(answer) if question.since <= answer.own => Some(answer),
            _ => None,
        }
    }
}

/// What a line shows if this answer decides, or none does; `None` if the answer removes the attendee.
fn shown_line(
    alloc: Global,
    line: &Property,
    answer: Option<&Item>,
) -> Result<Option<ShownAttendee>, NoMemory>
    ensures { IfOk result (λ shown. shown ≡ shown_line line.now (option_copied answer.entry)) }
{
    let Some(answer) = answer else {
        return Ok(Some(ShownAttendee {
            address: Text::copy(alloc, line.value())?,
            partstat: participation(line),
            percent: None,
        }));
    };
    match answer.kind {
        Kind::Remove => Ok(None),
        _ => Ok(Some(ShownAttendee {
            address: Text::copy(alloc, line.value())?,
            partstat: partstat_in(answer.todo.attendees.as_slice()),
            percent: answer.todo.percent,
        })),
    }
}

/// PARTSTAT of an answer: that of its first ATTENDEE line, NEEDS-ACTION without one.
fn partstat_in(lines: &[Property]) -> PartStat
    ensures { result ≡ partstat_in lines.now }
{
    match lines {
        [line, ..] => participation(line),
        [] => PartStat::NeedsAction,
    }
}
