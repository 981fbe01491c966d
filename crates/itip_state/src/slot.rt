//! Where a state holds an item.
ghost use Rattle.std.specs.Prelude.{◌≡◌, IfOk, refl};
ghost use Rattle.std.specs.Cmp.{partial_order_from_total, partial_equiv_from_equiv, eq_by_cmp_equiv};
ghost use Rattle.std.specs.Option.{option_cmp, option_copied};
ghost use Rattle.std.specs.Ordering.{as_partial_cmp, eq_by_cmp, nat_cmp, ordering_then};
ghost use Rattle.std.specs.Cmp.Lexicographic.{slice_cmp};
ghost use Rattle.itip_moment.specs.Order.{moment_cmp};
ghost use Rattle.itip_state.specs.Slots.{time_cmp, rest_cmp, slot_cmp, slot_total};

use itip_items::Key;
use itip_join::{Exact, NoMemory};
use itip_moment::Moment;
use std::alloc::Global;
use std::cmp::Ordering;
use std::marker::Model;
use std::sync::Arc;

/// The key of an item among those of its UID: in order by kind of key, day and second of the instance, attendee, and whole instance, and
/// only then by UID, which is the same. It is shared, as a revision is.
#[derive(Debug, Drop)]
pub(crate) struct Slot {
    shared: Arc<Key>,
}

impl Model for Slot {
    ghost use Rattle.itip_items.specs.declared.key.Key.{Key};

    ghost Value = { Key };

    ghost use Rattle.itip_items.specs.contracts.key.Key as key;

    ghost coded = { key.the_row.coded };

    ghost use Rattle.std.specs.Arc.{arc_value};

    ghost view = { λ s. arc_value s.shared };
}

impl Slot {
    /// The slot of this key.
    pub(crate) fn new(alloc: Global, key: Key) -> Result<Slot, NoMemory>
        ensures { IfOk result (λ slot. slot ≡ key) }
    {
        Ok(Slot {
            shared: Arc::new(alloc, key)?,
        })
    }

    /// The key.
    pub(crate) fn key(&self) -> &Key
        ensures { result.now ≡ self.now }
    {
        &self.shared
    }
}

/// Compares by kind of key, day and second of the instance, attendee, and whole instance, and then by UID.
///
/// Numbers come first. The answers of one to-do of a message share their instance and their UID, and the text of either can be long: so the
/// whole instance and the UID come last.
pub(crate) fn compare(key: &Key, other: &Key) -> Ordering
    ensures { result ≡ slot_cmp key.now other.now }
{
    match compare_rest(key, other) {
        Ordering::Equal => key.uid().cmp(other.uid()),
        unequal => unequal,
    }
}

/// Compares by kind of key, day and second of the instance, attendee, and whole instance.
fn compare_rest(key: &Key, other: &Key) -> Ordering
    ensures { result ≡ rest_cmp key.now other.now }
{
    // Of a to-do there can be many answers: these are compared without asking each key again for its parts.
    match (key, other) {
        (Key::Answer(_, at, attendee), Key::Answer(_, other_at, other_attendee)) => compare_within(
            at.as_ref(),
            attendee.as_str(),
            other_at.as_ref(),
            other_attendee.as_str(),
        ),
        _ => compare_parts(key, other),
    }
}

/// Compares keys of any kinds, as [`compare_rest`] does.
fn compare_parts(key: &Key, other: &Key) -> Ordering
    ensures { result ≡ rest_cmp key.now other.now }
{
    match key.rank().cmp(&other.rank()) {
        Ordering::Equal => compare_within(
            key.instance(),
            key.attendee(),
            other.instance(),
            other.attendee(),
        ),
        unequal => unequal,
    }
}

/// Compares by day and second of the instance, attendee, and whole instance.
fn compare_within(
    at: Option<&Moment>,
    attendee: &str,
    other_at: Option<&Moment>,
    other_attendee: &str,
) -> Ordering
    ensures { result ≡ ordering_then (option_cmp time_cmp (option_copied at.entry) (option_copied other_at.entry))
        (ordering_then (slice_cmp nat_cmp attendee.now other_attendee.now)
        (option_cmp moment_cmp (option_copied at.entry) (option_copied other_at.entry))) }
{
    match compare_times(at, other_at) {
        Ordering::Equal => match attendee.cmp(other_attendee) {
            Ordering::Equal => at.cmp(&other_at),
            unequal => unequal,
        },
        unequal => unequal,
    }
}

/// Compares two instances by day and second. `None`, the to-do as a whole, comes first, and of one day a date comes before every second.
pub(crate) fn compare_times(at: Option<&Moment>, other: Option<&Moment>) -> Ordering
    ensures { result ≡ option_cmp time_cmp (option_copied at.entry) (option_copied other.entry) }
{
    match (at, other) {
        (Some(at), Some(other)) => at
            .day()
            .cmp(&other.day())
            .then_with(|| at.second().cmp(&other.second())),
        (Some(_), None) => Ordering::Greater,
        (None, Some(_)) => Ordering::Less,
        (None, None) => Ordering::Equal,
    }
}

impl PartialEq for Slot {
    ghost eq = { eq_by_cmp slot_cmp };

    ghost laws = { partial_equiv_from_equiv (eq_by_cmp_equiv slot_total) };

    fn eq(&self, other: &Slot) -> bool {
        self.cmp(other) == Ordering::Equal
    }
}

impl Eq for Slot {
    ghost laws = { eq_by_cmp_equiv slot_total };
}

impl PartialOrd for Slot {
    ghost partial_cmp = { as_partial_cmp slot_cmp };

    ghost laws = { partial_order_from_total slot_total };

    fn partial_cmp(&self, other: &Slot) -> Option<Ordering> {
        Some(self.cmp(other))
    }
}

impl Ord for Slot {
    ghost cmp = { slot_cmp };

    ghost total = { slot_total };

    ghost matches_partial_cmp = { λ x y. refl };

    ghost matches_eq = { λ x y. refl };

    fn cmp(&self, other: &Slot) -> Ordering {
        compare(self.key(), other.key())
    }
}

impl Exact for Slot {
    ghost use Rattle.itip_state.specs.Slots.{slot_exact};

    ghost exact = { slot_exact };

    fn copy(&self) -> Result<Slot, NoMemory> {
        Ok(Slot {
            shared: self.shared.clone()?,
        })
    }
}
