//! The entries of an index of kept items.
ghost use Rattle.std.specs.Prelude.{◌≡◌, IfOk, refl};
ghost use Rattle.std.specs.Option.{option_copied};
ghost use Rattle.std.specs.Cmp.{partial_order_from_total, partial_equiv_from_equiv, eq_by_cmp_equiv};
ghost use Rattle.std.specs.Ordering.{as_partial_cmp, eq_by_cmp};
ghost use Rattle.itip_items.specs.KeyParts.{rank_of, instance_of};
ghost use Rattle.itip_desk.specs.Entries.{sort_of, day_of, mark_cmp, mark_of, item_cmp, owner_cmp};
ghost use Rattle.itip_desk.specs.Entries.{day_cmp, day_total, name_cmp, name_total, day_bound, name_bound};

use itip_join::Exact;
use itip_moment::Moment;
use itip_state::Revision;
use itip_view::RowDays;
use std::alloc::AllocError;
use std::cmp::Ordering;

/// The days by which an item is found.
#[derive(Clone, Copy, Debug)]
pub(crate) enum Mark {
    /// A day, counted from 1970-01-01, on which a row that needs the item can be.
    Day(i32),
    /// Every window: its rows can be on any day.
    Always,
}

/// An item, and the number of its UID. No UID has the number 0 or `u32::MAX`: an owner with one of these is a bound, before all items
/// or after all of them, whatever its own item.
#[derive(Debug, Drop)]
pub(crate) struct Owner {
    pub(crate) uid: u32,
    pub(crate) item: Revision,
}

/// An item, and the days by which it is found.
#[derive(Debug, Drop)]
pub(crate) struct DayEntry {
    pub(crate) mark: Mark,
    pub(crate) owner: Owner,
}

/// An item, the number of its UID, and the number of an attendee that its rows can show. An item can have thousands of these, so the
/// fields of its owner are inlined: 16 bytes.
#[derive(Debug, Drop)]
pub(crate) struct NameEntry {
    pub(crate) attendee: u32,
    pub(crate) uid: u32,
    pub(crate) item: Revision,
}

impl Mark {
    /// The mark of these days.
    pub(crate) fn of(days: RowDays) -> Mark
        ensures { result ≡ mark_of days }
    {
        match days {
            RowDays::One(day) => Mark::Day(day),
            RowDays::Any => Mark::Always,
        }
    }

    fn sort(&self) -> u8
        ensures { result ≡ sort_of self.now }
    {
        match self {
            Mark::Day(_) => 0,
            Mark::Always => 1,
        }
    }

    fn day(&self) -> i32
        ensures { result ≡ day_of self.now }
    {
        match self {
            Mark::Day(day) => *day,
            Mark::Always => 0,
        }
    }

    fn compare(&self, other: &Mark) -> Ordering
        ensures { result ≡ mark_cmp self.now other.now }
    {
        self.sort()
            .cmp(&other.sort())
            .then(self.day().cmp(&other.day()))
    }
}

impl Owner {
    fn compare(&self, other: &Owner) -> Ordering
        ensures { result ≡ owner_cmp self.now other.now }
    {
        self.uid
            .cmp(&other.uid)
            .then_with(|| compare_items(&self.item, &other.item))
    }
}

impl DayEntry {
    /// A bound at this mark, with `uid` in place of the number of a UID.
    pub(crate) fn bound(&self, mark: Mark, uid: u32) -> Result<DayEntry, AllocError>
        ensures { IfOk result (λ bound. bound ≡ day_bound mark uid self.now.owner.item) }
    {
        let item = self.owner.item.copy()?;
        Ok(DayEntry {
            mark,
            owner: Owner { uid, item },
        })
    }
}

impl NameEntry {
    /// A bound at this number of an attendee, with `uid` in place of the number of a UID.
    pub(crate) fn bound(&self, attendee: u32, uid: u32) -> Result<NameEntry, AllocError>
        ensures { IfOk result (λ bound. bound ≡ name_bound attendee uid self.now.item) }
    {
        let item = self.item.copy()?;
        Ok(NameEntry {
            attendee,
            uid,
            item,
        })
    }
}

fn kind(item: &Revision) -> u8
    ensures { result ≡ rank_of item.now.key }
{
    item.item().key.rank()
}

fn instance(item: &Revision) -> Option<&Moment>
    ensures { option_copied result ≡ instance_of item.now.key }
{
    item.item().key.instance()
}

/// By kind of key, then by instance, then as revisions.
fn compare_items(item: &Revision, other: &Revision) -> Ordering
    ensures { result ≡ item_cmp item.now other.now }
{
    kind(item)
        .cmp(&kind(other))
        .then_with(|| instance(item).cmp(&instance(other)))
        .then_with(|| item.cmp(other))
}

impl PartialEq for DayEntry {
    ghost eq = { eq_by_cmp day_cmp };

    ghost laws = { partial_equiv_from_equiv (eq_by_cmp_equiv day_total) };

    fn eq(&self, other: &DayEntry) -> bool {
        self.cmp(other) == Ordering::Equal
    }
}

impl Eq for DayEntry {
    ghost laws = { eq_by_cmp_equiv day_total };
}

impl PartialOrd for DayEntry {
    ghost partial_cmp = { as_partial_cmp day_cmp };

    ghost laws = { partial_order_from_total day_total };

    fn partial_cmp(&self, other: &DayEntry) -> Option<Ordering> {
        Some(self.cmp(other))
    }
}

/// By mark, then by owner.
impl Ord for DayEntry {
    ghost cmp = { day_cmp };

    ghost total = { day_total };

    ghost matches_partial_cmp = { λ x y. refl };

    ghost matches_eq = { λ x y. refl };

    fn cmp(&self, other: &DayEntry) -> Ordering {
        self.mark
            .compare(&other.mark)
            .then_with(|| self.owner.compare(&other.owner))
    }
}

impl PartialEq for NameEntry {
    ghost eq = { eq_by_cmp name_cmp };

    ghost laws = { partial_equiv_from_equiv (eq_by_cmp_equiv name_total) };

    fn eq(&self, other: &NameEntry) -> bool {
        self.cmp(other) == Ordering::Equal
    }
}

impl Eq for NameEntry {
    ghost laws = { eq_by_cmp_equiv name_total };
}

impl PartialOrd for NameEntry {
    ghost partial_cmp = { as_partial_cmp name_cmp };

    ghost laws = { partial_order_from_total name_total };

    fn partial_cmp(&self, other: &NameEntry) -> Option<Ordering> {
        Some(self.cmp(other))
    }
}

/// By the number of the attendee, then by that of the UID, then by item.
impl Ord for NameEntry {
    ghost cmp = { name_cmp };

    ghost total = { name_total };

    ghost matches_partial_cmp = { λ x y. refl };

    ghost matches_eq = { λ x y. refl };

    fn cmp(&self, other: &NameEntry) -> Ordering {
        self.attendee
            .cmp(&other.attendee)
            .then(self.uid.cmp(&other.uid))
            .then_with(|| compare_items(&self.item, &other.item))
    }
}
