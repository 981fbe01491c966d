//! What became of each told item.
ghost use Rattle.std.specs.Prelude.{◌≡◌, ◌↔◌, IfOk, IsTrue, MatchOption};
ghost use Rattle.std.specs.List.{Contains};
ghost use Rattle.std.specs.Option.{option_copied};
ghost use Rattle.itip_state.specs.Kept.{IsBest, IsDead, IsKept, AreKept, AreOf};
ghost use Rattle.itip_view.specs.InQuestion.{IsInQuestion};
ghost use Rattle.itip_view.specs.Standing.{StandsUnder};
ghost use Rattle.itip_explain.specs.Asking.{asking_key};
ghost use Rattle.itip_explain.specs.Fates.{IsFate, IsOverrideFate, IsAnswerFate, IsRefreshFate, IsUnder, IsAttendee};
ghost use Rattle.itip_explain.specs.Fates.{standing_fate, waiting_fate};
ghost use Rattle.itip_explain.specs.Knowing.{told_to, heard_by, IsSound, Kills, Hides};
ghost use Rattle.itip_explain.specs.Latest.{IsInOrder};
ghost use Rattle.itip_explain.specs.Told.{heard_of, IsFirstToTell};

use crate::NoMemory;
use crate::asked::Asked;
use crate::fate::Fate;
use crate::latest::Latest;
use crate::told::{Place, ToldItem};
use itip_items::{Item, Key, Kind};
use itip_moment::Moment;
use itip_report::is_wanted;
use itip_state::ItemsOfUid;
use itip_view::{InQuestion, governing, is_live, stands_beside};
use std::alloc::Global;

/// What decides the fates of told items: the latest of each key, which rows are in question, and whom items ask.
#[derive(Drop)]
pub(crate) struct Fates<'v, 'a, 't> {
    pub(crate) latest: &'v Latest<'t>,
    pub(crate) question: InQuestion<'v, 'a>,
    pub(crate) asked: Asked<'a>,
}

impl<'v, 'a, 't> Fates<'v, 'a, 't> {
    /// The fates of what was told; `items` is what is kept of it.
    pub(crate) fn of(
        alloc: Global,
        latest: &'v Latest<'t>,
        items: &'v ItemsOfUid<'a>,
    ) -> Result<Fates<'v, 'a, 't>, NoMemory>
        requires order { IsInOrder latest.now }
        requires about { AreOf items.now.uid (heard_of latest.now.told.now) }
        requires kept { AreKept items.now.items (heard_of latest.now.told.now) }
        ensures sound { IfOk result IsSound }
        ensures told { IfOk result (λ fates. told_to fates ≡ latest.now.told.now) }
    {
        let question = InQuestion::of(alloc, items)?;
        let asked = Asked::by(alloc, items.as_slice())?;
        Ok(Fates {
            latest,
            question,
            asked,
        })
    }

    /// What was told.
    pub(crate) fn told(&self) -> &'t [ToldItem]
        ensures { result.now ≡ told_to self.now }
    {
        self.latest.told
    }

    /// What became of one of the told items.
    pub(crate) fn fate(&self, item: &Item) -> Fate
        requires sound { IsSound self.now }
        requires heard { Contains (heard_by self.now) item.now }
        ensures { IsFate (told_to self.now) item.now result }
    {
        let latest = self.latest.of_key(item);
        if latest.item.cmp_rev(item).is_gt() {
            return Fate::OvertakenBy(latest.place);
        }
        self.fate_of_best(item)
    }

    /// What became of an item that is the best of its key.
    fn fate_of_best(&self, item: &Item) -> Fate
        requires sound { IsSound self.now }
        requires best { IsBest (heard_by self.now) item.now.key item.now }
        ensures { IsFate (told_to self.now) item.now result }
    {
        match self.killer(item) {
            Some(series) => Fate::VoidBy(self.place_of(series)),
            None => self.fate_of_kept(item),
        }
    }

    /// The series item that an item, the best of its key, is dead below; `None` if it isn't dead.
    fn killer(&self, item: &Item) -> Option<&'a Item>
        requires sound { IsSound self.now }
        requires best { IsBest (heard_by self.now) item.now.key item.now }
        ensures { MatchOption (option_copied result) (¬ IsDead (heard_by self.now) item.now) (Kills (heard_by self.now) item.now) }
    {
        // The best item of a key is dead if it isn't kept.
        let items = self.question.items();
        match items.best(&item.key) {
            Some(_) => None,
            None => items.series(),
        }
    }

    /// The place of the first message to tell an item that is the best of its key.
    fn place_of(&self, item: &Item) -> Place
        requires sound { IsSound self.now }
        requires best { IsBest (heard_by self.now) item.now.key item.now }
        ensures { IsFirstToTell (told_to self.now) item.now result }
    {
        self.latest.of_key(item).place
    }

    /// What became of a kept item.
    fn fate_of_kept(&self, item: &Item) -> Fate
        requires sound { IsSound self.now }
        requires kept { IsKept (heard_by self.now) item.now }
        ensures { IsFate (told_to self.now) item.now result }
    {
        match &item.key {
            Key::Series(_) => standing_fate(item.kind, Fate::CancelsToDo),
            Key::Instance(_, _) => self.override_fate(item, Fate::CancelsInstance),
            Key::Range(_, _) => self.override_fate(item, Fate::CancelsOnward),
            Key::Answer(_, id, attendee) => self.answer_fate(item, id, attendee.as_str()),
            Key::Refresh(_, id, _) => self.refresh_fate(item, id),
        }
    }

    /// What became of a kept instance or range item: `cancels` if it stands and isn't live.
    fn override_fate(&self, item: &Item, cancels: Fate) -> Fate
        requires sound { IsSound self.now }
        requires kept { IsKept (heard_by self.now) item.now }
        ensures { IsOverrideFate (told_to self.now) self.now.question.uid item.now.key cancels item.now result }
    {
        match self.hidden_by(item) {
            Some(series) => Fate::CancelledWithToDoBy(self.place_of(series)),
            None => standing_fate(item.kind, cancels),
        }
    }

    /// The series item beside which a kept instance or range item doesn't stand; `None` if the item stands.
    fn hidden_by(&self, item: &Item) -> Option<&'a Item>
        requires sound { IsSound self.now }
        requires kept { IsKept (heard_by self.now) item.now }
        ensures { MatchOption (option_copied result) (StandsUnder (heard_by self.now) self.now.question.uid item.now.key item.now)
            (Hides (heard_by self.now) self.now.question.uid item.now) }
    {
        let series = self.question.items().series();
        if stands_beside(series, item) {
            None
        } else {
            series
        }
    }

    /// What became of a kept answer or removal of an attendee, to an instance or to the to-do as a whole.
    fn answer_fate(&self, item: &Item, id: &Option<Moment>, attendee: &str) -> Fate
        requires { IsSound self.now }
        ensures { IsAnswerFate (told_to self.now) self.now.question.uid id.now attendee.now item.now result }
    {
        match self.question.governing(id.as_ref()) {
            Some(governing) => self.fate_under(governing, item, id, attendee),
            None => Fate::AboutNothing,
        }
    }

    /// What became of an answer or removal under the item that governs the row in question.
    fn fate_under(&self, governing: &Item, item: &Item, id: &Option<Moment>, attendee: &str) -> Fate
        requires sound { IsSound self.now }
        requires in_question { IsInQuestion (heard_by self.now) self.now.question.uid id.now governing.now }
        ensures { IsUnder (told_to self.now) self.now.question.uid id.now attendee.now governing.now item.now result }
    {
        if item.own < governing.own {
            return Fate::ForOlderThan(self.place_of(governing));
        }
        if self.asks(governing, id, attendee) {
            Fate::Counts
        } else {
            Fate::FromNoAttendeeOf(self.place_of(governing))
        }
    }

    /// Whether the attendee with a key is one of the item that governs a row in question or, for the to-do as a whole, of a live range
    /// item that stands.
    fn asks(&self, governing: &Item, id: &Option<Moment>, attendee: &str) -> bool
        requires sound { IsSound self.now }
        requires in_question { IsInQuestion (heard_by self.now) self.now.question.uid id.now governing.now }
        ensures { IsTrue result ↔ IsAttendee (heard_by self.now) self.now.question.uid id.now governing.now attendee.now }
    {
        self.asked.has(asking_key(governing, id), attendee)
    }

    /// What became of a kept refresh request for an instance, or for the to-do as a whole.
    fn refresh_fate(&self, item: &Item, id: &Option<Moment>) -> Fate
        requires sound { IsSound self.now }
        requires kept { IsKept (heard_by self.now) item.now }
        ensures { IsRefreshFate (told_to self.now) self.now.question.uid id.now item.now result }
    {
        let items = self.question.items();
        let ranges = self.question.ranges();
        match governing(items, ranges, id) {
            Some(_) => waiting_fate(is_wanted(items, ranges, item)),
            None => Fate::AboutNothing,
        }
    }
}

/// The fate of a refresh request: it waits if it is wanted, else it is answered.
fn waiting_fate(is_wanted: bool) -> Fate
    ensures { result ≡ waiting_fate is_wanted }
{
    if is_wanted {
        Fate::Waits
    } else {
        Fate::IsAnswered
    }
}

/// The key under which the attendees of the item that governs a row in question are looked for; `None` for the to-do as a whole.
fn asking_key<'k>(governing: &'k Item, id: &Option<Moment>) -> Option<&'k Key>
    ensures { option_copied result ≡ asking_key governing.now id.now }
{
    match id {
        Some(_) => Some(&governing.key),
        None => None,
    }
}

/// The fate of what stands: `Stands` if it is live, else `cancels`.
fn standing_fate(kind: Kind, cancels: Fate) -> Fate
    ensures { result ≡ standing_fate kind cancels }
{
    if is_live(kind) { Fate::Stands } else { cancels }
}
