//! The rows of one UID: there is one where a live item governs, and none where a cancelled one does.
ghost use Rattle.std.specs.Prelude.{◌≡◌, ◌++◌, IfOk, OnOk, MatchBool, List, Some, None, map, option_to_list};
ghost use Rattle.std.specs.Option.{option_copied, option_map};
ghost use Rattle.itip_recur.specs.ToDoShape.{IsShape};
ghost use Rattle.itip_todo.specs.Properties.{Property};
ghost use Rattle.itip_view.specs.Answers.{AreShown};
ghost use Rattle.itip_view.specs.RowsOfUid.{AreOccurrencesOf, ArePlaces, AreRowsOf, asked_by};
ghost use Rattle.itip_view.specs.UnmadeRows.{AreWanted, IsMade, IsPlaceAt, IsShownAt, IsWanted, governing_item, questions_of};
ghost use Rattle.itip_view.specs.InUid.{HasWhole, HasBetween, HasItsRows, HasOccurrence, HasAll, IsViewOf};
ghost use Rattle.itip_view.specs.InUid.{HasStanding, HasNoStanding, HasRuling, HasNoRuling, HasNoneAtStart, HasLiveSeries};
ghost use Rattle.itip_view.specs.PutRows.{IsPut, IsPlacePut, ArePut};
ghost use Rattle.itip_view.specs.Wanted.{shows_named};
ghost use Rattle.itip_view.specs.declared.row.ShownAttendee.{ShownAttendee};
ghost use Rattle.itip_view.specs.declared.window.Window.{Window};

use crate::NoMemory;
use crate::answers::AnswerSearch;
use crate::between::Between;
use crate::dates::{day_of, instance_day};
use crate::keyed_item::{AttendeeLine, KeyedItem};
use crate::progress::progress_of;
use crate::row::Row;
use crate::row_text::write_row;
use crate::standing::{is_live, standing_item, stands_beside};
use crate::unmade_row::{Governing, RowKind, UnmadeRow};
use crate::wanted::Wanted;
use crate::whole::{Whole, occurrences, sorted_moments, whole_of};
use crate::window::Window;
use itip_items::{Item, Key};
use itip_lines::Text;
use itip_moment::Moment;
use itip_recur::Shape;
use itip_state::ItemsOfUid;
use itip_todo::Todo;
use std::alloc::Global;

/// The view of one UID: its kept items, its to-do as a whole, what governs the occurrences in the window, the window itself, and the
/// moments at which there may be rows, ascending.
#[derive(Drop)]
struct UidView<'v, 'a> {
    alloc: Global,
    items: &'v ItemsOfUid<'a>,
    whole: Option<Whole<'a>>,
    between: Option<Between<'v, 'a>>,
    window: Window,
    places: Vec<Moment>,
}

/// The rows of a UID in a window, in order.
pub(crate) fn rows_of_uid(
    alloc: Global,
    items: &ItemsOfUid<'_>,
    window: Window,
) -> Result<Vec<Row>, NoMemory>
    ensures { IfOk result (λ rows. AreRowsOf items.now.items window items.now.uid rows.items) }
{
    let view = UidView::of(alloc, items, window)?;
    view.rows()
}

/// Appends the text of the rows of a UID in a window that are asked for, each as it is made, and returns their number. On an error
/// (out of memory) part of it may have been appended.
pub(crate) fn put_rows_of_uid(
    alloc: Global,
    items: &ItemsOfUid<'_>,
    window: Window,
    wanted: &Wanted<'_>,
    out: &mut Vec<u8>,
) -> Result<usize, NoMemory>
    ensures { IfOk result (ArePut wanted.now items.now window out.old.items out.new.items) }
{
    let view = UidView::of(alloc, items, window)?;
    view.put(wanted, out)
}

/// How many of the rows of a UID in a window are asked for. No row is made.
pub(crate) fn count_of_uid(
    alloc: Global,
    items: &ItemsOfUid<'_>,
    window: Window,
    wanted: &Wanted<'_>,
) -> Result<usize, NoMemory>
    ensures { IfOk result (AreWanted wanted.now items.now window) }
{
    let view = UidView::of(alloc, items, window)?;
    view.count(wanted)
}

/// The moments at which there may be rows, ascending: those at which instance items stand, and the given occurrences.
fn places_of(items: &ItemsOfUid<'_>, occurrences: Vec<Moment>) -> Result<Vec<Moment>, NoMemory>
    ensures { IfOk result (λ places. (window : Window) → AreOccurrencesOf items.now.items window items.now.uid occurrences.items
        → ArePlaces items.now.items window items.now.uid places.items) }
{
    let mut places = occurrences;
    let series = items.series();
    for item in items.as_slice() {
        if let Key::Instance(_, at) = &item.key {
            if stands_beside(series, item) {
                places.push(at.clone()?)?;
            }
        }
    }
    sorted_moments(places)
}

impl<'v, 'a> UidView<'v, 'a> {
    /// The view of a UID in a window.
    fn of(
        alloc: Global,
        items: &'v ItemsOfUid<'a>,
        window: Window,
    ) -> Result<UidView<'v, 'a>, NoMemory>
        ensures { IfOk result (IsViewOf items.now window) }
    {
        let whole = whole_of(alloc, items)?;
        let occurrences = occurrences(alloc, &whole, window)?;
        let between = Between::of(alloc, items, &whole, occurrences.as_slice())?;
        let places = places_of(items, occurrences)?;
        Ok(UidView {
            alloc,
            items,
            whole,
            between,
            window,
            places,
        })
    }

    /// The rows, in order.
    fn rows(&self) -> Result<Vec<Row>, NoMemory>
        requires { HasAll self.now }
        ensures { IfOk result (λ rows. HasItsRows self.now rows.items) }
    {
        let mut rows = Vec::with_capacity(self.alloc, self.places.len().saturating_add(1))?;
        let row = self.made(&self.whole_place())?;
        push_some(&mut rows, row)?;
        for at in &self.places {
            let row = self.made(&self.place_at(at))?;
            push_some(&mut rows, row)?;
        }
        Ok(rows)
    }

    /// Appends the text of the rows that are asked for, and returns their number.
    fn put(&self, wanted: &Wanted<'_>, out: &mut Vec<u8>) -> Result<usize, NoMemory>
        requires { HasAll self.now }
        ensures { IfOk result (ArePut wanted.now self.now.items.now self.now.window out.old.items out.new.items) }
    {
        let is_put = self.put_place(&self.whole_place(), wanted, out)?;
        let mut number = usize::from(is_put);
        for at in &self.places {
            let is_put = self.put_place(&self.place_at(at), wanted, out)?;
            number += usize::from(is_put);
        }
        Ok(number)
    }

    /// Appends the text of the row of a place if there is one and it is asked for; returns whether it did.
    fn put_place(
        &self,
        place: &Option<UnmadeRow<'_>>,
        wanted: &Wanted<'_>,
        out: &mut Vec<u8>,
    ) -> Result<bool, NoMemory>
        ensures { IfOk result (IsPlacePut wanted.now self.now.items.now place.now out.old.items out.new.items) }
    {
        let row = self.made(place)?;
        let is_put = put_if_wanted(&row, wanted, out);
        drop(row);
        is_put
    }

    /// How many of the rows are asked for.
    fn count(&self, wanted: &Wanted<'_>) -> Result<usize, NoMemory>
        requires { HasAll self.now }
        ensures { IfOk result (AreWanted wanted.now self.now.items.now self.now.window) }
    {
        let is_wanted = self.is_wanted(&self.whole_place(), wanted)?;
        let mut number = usize::from(is_wanted);
        for at in &self.places {
            let is_wanted = self.is_wanted(&self.place_at(at), wanted)?;
            number += usize::from(is_wanted);
        }
        Ok(number)
    }

    /// The place of the row of the to-do as a whole, if it has one.
    fn whole_place(&self) -> Option<UnmadeRow<'_>>
        requires { HasWhole self.now }
        ensures { IsPlaceAt self.now.items.now self.now.window None result }
    {
        let Some(whole) = &self.whole else {
            return None;
        };
        match &whole.shape {
            Shape::Single => self.single_place(whole.item),
            Shape::Opaque => Some(UnmadeRow {
                governing: Governing::Plain(whole.item),
                kind: RowKind::Opaque,
            }),
            Shape::Repeats(_) => None,
        }
    }

    /// The place of the row of a to-do that doesn't recur, if it has one in the window.
    fn single_place<'p>(&'p self, series: &'p Item) -> Option<UnmadeRow<'p>>
        requires live { HasLiveSeries self.now series.now }
        requires single { IsShape series.now.todo Shape.Single }
        ensures { IsPlaceAt self.now.items.now self.now.window None result }
    {
        if !self.window.has(day_of(&series.todo)) {
            return None;
        }
        if self.is_replaced(series) {
            return None;
        }
        Some(UnmadeRow {
            governing: Governing::Plain(series),
            kind: RowKind::Single,
        })
    }

    /// Whether an instance item stands at DTSTART of the series item.
    fn is_replaced(&self, series: &Item) -> bool
        ensures { MatchBool result (HasNoneAtStart self.now series.now → ⊥) (HasNoneAtStart self.now series.now) }
    {
        match &series.todo.start {
            Some(start) => standing_item(self.items, start).is_some(),
            None => false,
        }
    }

    /// The place of the row at a moment, if there is one: of the item that stands there, or of the occurrence.
    fn place_at<'p>(&'p self, at: &'p Moment) -> Option<UnmadeRow<'p>>
        requires whole { HasWhole self.now }
        requires between { HasBetween self.now }
        requires occurs { HasNoStanding self.now at.now → HasOccurrence self.now at.now }
        ensures { IsPlaceAt self.now.items.now self.now.window (Some at.now) result }
    {
        match standing_item(self.items, at) {
            Some(item) => self.live_instance_place(item, at),
            None => self.place_between(at),
        }
    }

    /// The place of the row of an instance, if it is live and its day is in the window.
    fn live_instance_place<'p>(&'p self, item: &'p Item, at: &'p Moment) -> Option<UnmadeRow<'p>>
        requires { HasStanding self.now at.now item.now }
        ensures { IsPlaceAt self.now.items.now self.now.window (Some at.now) result }
    {
        if !is_live(item.kind) {
            return None;
        }
        if !self.window.has(instance_day(at, &item.todo)) {
            return None;
        }
        Some(UnmadeRow {
            governing: Governing::Plain(item),
            kind: RowKind::Instance(at),
        })
    }

    /// The place of the row of an occurrence at which no instance item stands, if it has one.
    fn place_between<'p>(&'p self, at: &'p Moment) -> Option<UnmadeRow<'p>>
        requires whole { HasWhole self.now }
        requires between { HasBetween self.now }
        requires none { HasNoStanding self.now at.now }
        requires occurs { HasOccurrence self.now at.now }
        ensures { IsPlaceAt self.now.items.now self.now.window (Some at.now) result }
    {
        let Some(between) = &self.between else {
            return None;
        };
        match between.ranges.ruling(at) {
            Some(range) => self.range_place(between.series.item, range, at),
            None => self.occurrence_place(&between.series, at),
        }
    }

    /// The place of the row of an occurrence that a range item rules, if that item is live.
    fn range_place<'p>(
        &'p self,
        series: &'p Item,
        range: &'p KeyedItem<'p>,
        at: &'p Moment,
    ) -> Option<UnmadeRow<'p>>
        requires live { HasLiveSeries self.now series.now }
        requires none { HasNoStanding self.now at.now }
        requires rules { HasRuling self.now at.now range.now.item.now }
        requires occurs { HasOccurrence self.now at.now }
        ensures { IsPlaceAt self.now.items.now self.now.window (Some at.now) result }
    {
        let Key::Range(_, id) = &range.item.key else {
            return None;
        };
        if !is_live(range.item.kind) {
            return None;
        }
        Some(UnmadeRow {
            governing: Governing::Keyed(range),
            kind: RowKind::Ranged { at, id, series },
        })
    }

    /// The place of the row of an occurrence that no range item rules.
    fn occurrence_place<'p>(
        &'p self,
        governing: &'p KeyedItem<'p>,
        at: &'p Moment,
    ) -> Option<UnmadeRow<'p>>
        requires whole { HasWhole self.now }
        requires live { HasLiveSeries self.now governing.now.item.now }
        requires none { HasNoStanding self.now at.now }
        requires none_rules { HasNoRuling self.now at.now }
        requires occurs { HasOccurrence self.now at.now }
        ensures { IsPlaceAt self.now.items.now self.now.window (Some at.now) result }
    {
        let Some(whole) = &self.whole else {
            return None;
        };
        let series = match &whole.shape {
            Shape::Repeats(series) => series,
            Shape::Single | Shape::Opaque => return None,
        };
        Some(UnmadeRow {
            governing: Governing::Keyed(governing),
            kind: RowKind::Occurrence {
                at,
                start: &series.start,
            },
        })
    }

    /// The row of a place, if there is one.
    fn made(&self, place: &Option<UnmadeRow<'_>>) -> Result<Option<Row>, NoMemory>
        ensures { IfOk result (IsMade self.now.items.now place.now) }
    {
        let Some(place) = place else {
            return Ok(None);
        };
        let row = self.row_of(place)?;
        Ok(Some(row))
    }

    fn row_of(&self, place: &UnmadeRow<'_>) -> Result<Row, NoMemory>
        ensures { IfOk result (IsShownAt self.now.items.now place.now) }
    {
        match place.governing {
            Governing::Keyed(keyed) => self.row_with(place, &keyed.lines),
            Governing::Plain(item) => {
                let keyed = KeyedItem::of(self.alloc, item)?;
                self.row_with(place, &keyed.lines)
            }
        }
    }

    /// The row of a place; `lines` are the ATTENDEE lines of the item that governs it, with their keys.
    fn row_with(&self, place: &UnmadeRow<'_>, lines: &[AttendeeLine<'_>]) -> Result<Row, NoMemory>
        requires { map (λ line. line.line.now) lines.now ≡ (governing_item place.now.governing).todo.attendees }
        ensures { IfOk result (IsShownAt self.now.items.now place.now) }
    {
        let item = place.item();
        let todo = &item.todo;
        let questions = place.questions();
        let asked = AnswerSearch {
            items: self.items,
            questions: &questions,
        };
        let attendees = asked.shown_attendees(self.alloc, lines)?;
        let progress = progress_of(attendees.as_slice());
        let uid = self.items.uid().clone()?;
        let id = place.id()?;
        let dates = place.dates()?;
        let summary = summary(self.alloc, todo)?;
        Ok(Row {
            uid,
            id,
            seq: item.own,
            status: todo.status,
            percent: todo.percent,
            priority: todo.priority,
            start: dates.start,
            due: dates.due,
            summary,
            attendees,
            progress,
        })
    }

    /// Whether a place has a row that is asked for.
    fn is_wanted(
        &self,
        place: &Option<UnmadeRow<'_>>,
        wanted: &Wanted<'_>,
    ) -> Result<bool, NoMemory>
        ensures { IfOk result (IsWanted wanted.now self.now.items.now place.now) }
    {
        let Some(place) = place else {
            return Ok(false);
        };
        let dates = place.dates()?;
        if !wanted.takes(&dates.due, place.item().todo.status) {
            return Ok(false);
        }
        self.shows_named(place, wanted)
    }

    /// Whether the row of a place shows the attendee who is named, with something left to do if only open rows are asked for; true if
    /// none is named.
    fn shows_named(&self, place: &UnmadeRow<'_>, wanted: &Wanted<'_>) -> Result<bool, NoMemory>
        ensures { IfOk result (λ shows. (shown : List ShownAttendee)
            → AreShown self.now.items.now.items (asked_by self.now.items.now.uid
            (questions_of (governing_item place.now.governing) place.now.kind))
            (governing_item place.now.governing).todo.attendees shown
            → shows_named wanted.now.is_open (option_copied wanted.now.attendee) shown ≡ shows) }
    {
        let Some(address) = wanted.attendee else {
            return Ok(true);
        };
        let questions = place.questions();
        let asked = AnswerSearch {
            items: self.items,
            questions: &questions,
        };
        let lines = place.item().todo.attendees.as_slice();
        asked.shows(self.alloc, lines, address, wanted.is_open)
    }
}

/// Adds the row, if there is one.
fn push_some(rows: &mut Vec<Row>, row: Option<Row>) -> Result<(), NoMemory>
    ensures { OnOk result (rows.new.items ≡ rows.old.items ++ option_to_list row) }
{
    if let Some(row) = row {
        rows.push(row)?;
    }
    Ok(())
}

/// Appends the text of a row if there is one and it is asked for; returns whether it did.
fn put_if_wanted(
    row: &Option<Row>,
    wanted: &Wanted<'_>,
    out: &mut Vec<u8>,
) -> Result<bool, NoMemory>
    ensures { IfOk result (IsPut wanted.now row.now out.old.items out.new.items) }
{
    let Some(row) = row else {
        return Ok(false);
    };
    if !wanted.has(row) {
        return Ok(false);
    }
    write_row(row, out)?;
    Ok(true)
}

fn summary(alloc: Global, todo: &Todo) -> Result<Option<Text>, NoMemory>
    ensures { IfOk result (λ summary. summary ≡ option_map (λ (p : Property). p.value) todo.now.summary) }
{
    match &todo.summary {
        Some(summary) => Ok(Some(Text::copy(alloc, summary.value())?)),
        None => Ok(None),
    }
}
