//! How many rows show each attendee.
ghost use Rattle.std.specs.Prelude.{◌≡◌, ◌<◌, ◌≤◌, ◌+◌, ◌++◌, ◌∷◌, [], ℕ, List, IfOk, OnOk, IsOk, codes, length, map};
ghost use Rattle.std.specs.Fmt.{decimal};
ghost use Rattle.std.specs.BTreeMap.{get};
ghost use Rattle.std.specs.List.{flat_map};
ghost use Rattle.std.specs.Ordering.{nat_cmp};
ghost use Rattle.std.specs.Cmp.Lexicographic.{slice_cmp};
ghost use Rattle.std.specs.String.{string_bytes};
ghost use Rattle.itip_view.specs.declared.row.Row.{Row};
ghost use Rattle.itip_report.specs.Load.{keys_in, load_lines};
ghost use Rattle.itip_report.specs.Records.{load_records};
ghost use Rattle.itip_report.specs.Tally.{AreTallied, IsTally, rows_before, rows_of};

use crate::NoMemory;
use crate::records::AttendeeLoad;
use itip_lines::Text;
use itip_todo::attendee_key;
use itip_view::Row;
use std::alloc::Global;
use std::collections::BTreeMap;

/// How many rows have shown an attendee, and the place of the last of them, from 0.
#[derive(Clone, Copy, Debug)]
struct Tallied {
    rows: usize,
    last: usize,
}

/// The attendees that rows show, each with a count. Rows are counted one after another, and none is held.
#[derive(Debug, Drop)]
pub(crate) struct Tally {
    /// In the order of first appearance.
    keys: Vec<Text>,
    counts: BTreeMap<Text, Tallied>,
    /// How many rows have been counted.
    rows: usize,
}

impl Tally {
    /// The tally of no rows.
    pub(crate) fn new(alloc: Global) -> Tally
        ensures { AreTallied [] result }
    {
        Tally {
            keys: Vec::new(alloc),
            counts: BTreeMap::new(alloc),
            rows: 0,
        }
    }
}

/// `address count` for each attendee that rows show, in the order of first appearance: the address with ASCII letters in lower case,
/// and the number of rows that show it. Fails if an allocation fails. Allocates nothing if no row shows an attendee.
pub fn load_by_attendee(alloc: Global, rows: &[Row]) -> Result<Vec<String>, NoMemory>
    ensures lines { IfOk result (λ lines. map string_bytes lines.items ≡ load_lines rows.now) }
    ensures succeeds { load_lines rows.now ≡ [] → IsOk result }
{
    let mut tally = Tally::new(alloc);
    count_rows(alloc, &mut tally, rows)?;
    tallied_lines(alloc, &tally)
}

/// The attendees that rows show, in the order of first appearance, each with the number of rows that show them: the lines of
/// [`load_by_attendee`] as records. Fails if an allocation fails. Allocates nothing if no row shows an attendee.
pub fn load_records(alloc: Global, rows: &[Row]) -> Result<Vec<AttendeeLoad>, NoMemory>
    ensures records { IfOk result (λ loads. loads.items ≡ load_records rows.now) }
    ensures succeeds { load_records rows.now ≡ [] → IsOk result }
{
    let mut tally = Tally::new(alloc);
    count_rows(alloc, &mut tally, rows)?;
    tallied_records(alloc, &tally)
}

/// The records of [`load_records`] for the rows that have been counted.
fn tallied_records(alloc: Global, tally: &Tally) -> Result<Vec<AttendeeLoad>, NoMemory>
    ensures records { IfOk result (λ loads. (done : List Row) → AreTallied done tally.now → loads.items ≡ load_records done) }
    ensures succeeds { tally.now.keys.items ≡ [] → IsOk result }
{
    let mut loads = Vec::new(alloc);
    for key in &tally.keys {
        loads.push(AttendeeLoad {
            attendee: key.clone()?,
            rows: rows_of(&tally.counts, key),
        })?;
    }
    Ok(loads)
}

/// The lines of [`load_by_attendee`] for the rows that have been counted.
pub(crate) fn tallied_lines(alloc: Global, tally: &Tally) -> Result<Vec<String>, NoMemory>
    ensures lines { IfOk result (λ lines. (done : List Row) → AreTallied done tally.now → map string_bytes lines.items ≡ load_lines done) }
    ensures succeeds { tally.now.keys.items ≡ [] → IsOk result }
{
    let mut lines = Vec::new(alloc);
    for key in &tally.keys {
        lines.push(load_line(alloc, key, rows_of(&tally.counts, key))?)?;
    }
    Ok(lines)
}

/// The number of rows counted for an attendee.
fn rows_of(counts: &BTreeMap<Text, Tallied>, key: &Text) -> usize
    ensures { result ≡ rows_of (get (slice_cmp nat_cmp) counts.now key.now) }
{
    match counts.get(key) {
        None => 0,
        Some(seen) => seen.rows,
    }
}

fn load_line(alloc: Global, key: &Text, rows: usize) -> Result<String, NoMemory>
    ensures { IfOk result (λ line. string_bytes line ≡ key.now ++ (codes " " ++ decimal rows)) }
{
    let mut line = String::new(alloc);
    line.push_str(key.as_str())?;
    line.push_str(" ")?;
    let digits = rows.to_string(alloc)?;
    line.push_str(digits.as_str())?;
    Ok(line)
}

/// Counts rows, after those that have been counted, up to `usize::MAX` rows in all.
pub(crate) fn count_rows(alloc: Global, tally: &mut Tally, rows: &[Row]) -> Result<(), NoMemory>
    ensures counted { OnOk result ((done : List Row) → length done + length rows.now ≤ usize.MAX
        → AreTallied done tally.old → AreTallied (done ++ rows.now) tally.new) }
    ensures succeeds { flat_map keys_in rows.now ≡ [] → IsOk result }
{
    for row in rows {
        count_row(alloc, tally, row)?;
    }
    Ok(())
}

/// Counts a row, after those that have been counted. Does nothing if `usize::MAX` rows have been.
fn count_row(alloc: Global, tally: &mut Tally, row: &Row) -> Result<(), NoMemory>
    ensures counted { OnOk result ((done : List Row) → length done < usize.MAX
        → AreTallied done tally.old → AreTallied (done ++ row.now ∷ []) tally.new) }
    ensures succeeds { keys_in row.now ≡ [] → IsOk result }
{
    let place = tally.rows;
    let Some(rows) = place.checked_add(1) else {
        return Ok(());
    };
    count_attendees(alloc, tally, row, place)?;
    tally.rows = rows;
    Ok(())
}

/// Counts the row at `place`, once for each attendee that it shows.
fn count_attendees(
    alloc: Global,
    tally: &mut Tally,
    row: &Row,
    place: usize,
) -> Result<(), NoMemory>
    requires { place < usize.MAX }
    ensures counted { OnOk result ((done : List Row) → length done ≡ place
        → IsTally done [] tally.old.keys.items tally.old.counts → IsTally (done ++ row.now ∷ []) [] tally.new.keys.items tally.new.counts) }
    ensures succeeds { keys_in row.now ≡ [] → IsOk result }
{
    for attendee in row.attendees.as_slice() {
        let key = attendee_key(alloc, attendee.address.as_str())?;
        count(tally, key, place)?;
    }
    Ok(())
}

/// Counts the row at `place` for one attendee, unless it has been counted for them.
fn count(tally: &mut Tally, key: Text, place: usize) -> Result<(), NoMemory>
    requires { place < usize.MAX }
    ensures { OnOk result ((done : List Row) (before : List (List ℕ)) → length done ≡ place
        → IsTally done before tally.old.keys.items tally.old.counts
        → IsTally done (before ++ key ∷ []) tally.new.keys.items tally.new.counts) }
{
    let Some(rows) = rows_before(&tally.counts, &key, place) else {
        return Ok(());
    };
    if rows == 0 {
        tally.keys.push(key.clone()?)?;
    }
    let seen = Tallied {
        rows: rows.saturating_add(1),
        last: place,
    };
    tally.counts.insert(key, seen)?;
    Ok(())
}

/// The number of rows counted so far for an attendee, or `None` if the row at `place` has been counted already.
fn rows_before(counts: &BTreeMap<Text, Tallied>, key: &Text, place: usize) -> Option<usize>
    ensures { result ≡ rows_before place (get (slice_cmp nat_cmp) counts.now key.now) }
{
    match counts.get(key) {
        None => Some(0),
        Some(seen) => {
            if seen.last == place {
                None
            } else {
                Some(seen.rows)
            }
        }
    }
}
