//! What became of an item that was told.

use crate::told::Place;

/// What became of an item that was told (our own rules). The place of an item is that of the first message to tell it.
#[derive(Clone, Copy, Debug)]
pub enum Fate {
    /// Another item of its key is later; the place is that of the latest.
    OvertakenBy(Place),
    /// It is dead; the place is that of the best series item.
    VoidBy(Place),
    /// It is kept, stands and is live.
    Stands,
    /// It is the best series item, and cancels the to-do.
    CancelsToDo,
    /// It stands, and cancels an instance.
    CancelsInstance,
    /// It stands, and cancels an instance and all after it.
    CancelsOnward,
    /// It is kept, and doesn't stand beside the series item, which is cancelled; the place is that of the series item.
    CancelledWithToDoBy(Place),
    /// It is kept, and no row is in question or, for a refresh request, nothing governs what it names.
    AboutNothing,
    /// It is for an earlier revision than that of the item that governs the row in question; the place is that of the governing item.
    ForOlderThan(Place),
    /// It is from no attendee of the item that governs the row in question nor, if it is for the to-do as a whole, of a live range item
    /// that stands; the place is that of the governing item.
    FromNoAttendeeOf(Place),
    /// It is an answer or a removal, and counts.
    Counts,
    /// It is a refresh request that waits for an answer.
    Waits,
    /// It is a refresh request that is no newer than the item that governs what it names.
    IsAnswered,
}

impl Fate {
    ghost use Rattle.std.specs.Prelude.{◌≡◌};
    ghost use Rattle.itip_explain.specs.Lines.{fate_words, named_place};

    /// The words for it, up to the place.
    pub(crate) fn as_str(self) -> &'static str
        ensures { result.now ≡ fate_words self }
    {
        match self {
            Fate::OvertakenBy(_) => "overtaken by",
            Fate::VoidBy(_) => "void by",
            Fate::Stands => "stands",
            Fate::CancelsToDo => "cancels the to-do",
            Fate::CancelsInstance => "cancels the instance",
            Fate::CancelsOnward => "cancels from there on",
            Fate::CancelledWithToDoBy(_) => "cancelled with the to-do by",
            Fate::AboutNothing => "about nothing that stands",
            Fate::ForOlderThan(_) => "for an older revision than",
            Fate::FromNoAttendeeOf(_) => "from no attendee of",
            Fate::Counts => "counts",
            Fate::Waits => "waits",
            Fate::IsAnswered => "is answered",
        }
    }

    /// The place that it names, if any.
    pub(crate) fn place(self) -> Option<Place>
        ensures { result ≡ named_place self }
    {
        match self {
            Fate::OvertakenBy(place)
            | Fate::VoidBy(place)
            | Fate::CancelledWithToDoBy(place)
            | Fate::ForOlderThan(place)
            | Fate::FromNoAttendeeOf(place) => Some(place),
            Fate::Stands
            | Fate::CancelsToDo
            | Fate::CancelsInstance
            | Fate::CancelsOnward
            | Fate::AboutNothing
            | Fate::Counts
            | Fate::Waits
            | Fate::IsAnswered => None,
        }
    }
}
