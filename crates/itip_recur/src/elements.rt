//! The values of a rule's parts: numbers, weekdays, places, and lists of these.
ghost use Rattle.std.specs.Prelude.{◌≡◌, ℕ, List, [], ◌∷◌, ◌++◌, IfOk, MatchOption};
ghost use Rattle.std.specs.List.{AllZip};
ghost use Rattle.jiff_core.specs.declared.civil.weekday.Weekday.{Weekday};
ghost use Rattle.itip_recur.specs.declared.rule.Place.{Place};
ghost use Rattle.itip_recur.specs.declared.rule.MonthWeekday.{MonthWeekday};
ghost use Rattle.itip_recur.specs.RuleText.{IsNumberText, IsPlaceText, IsWeekdayText, IsMonthWeekdayText, elements};

use crate::rule::{MonthWeekday, Place};
use crate::{NoMemory, Weekday};
use itip_lines::ListOf;
use std::alloc::Global;

/// A value that an element of a list may spell.
pub(crate) trait Element: Drop {
    /// The text spells the value.
    ghost spells: { List ℕ → Self → Type 0 };

    /// The value that a text spells, if any.
    fn read(text: &[u8]) -> Option<Self>
        ensures { MatchOption result ((value : Self) → spells text.now value → ⊥) (spells text.now) };
}

/// An element of BYDAY in a weekly rule.
impl Element for Weekday {
    ghost spells = { IsWeekdayText };

    fn read(text: &[u8]) -> Option<Weekday> {
        read_weekday(text)
    }
}

/// An element of BYDAY in a monthly rule.
impl Element for MonthWeekday {
    ghost spells = { IsMonthWeekdayText };

    fn read(text: &[u8]) -> Option<MonthWeekday> {
        read_month_weekday(text)
    }
}

/// An element of BYMONTHDAY.
impl Element for Place {
    ghost spells = { IsPlaceText 31 };

    fn read(text: &[u8]) -> Option<Place> {
        read_place(text, 31)
    }
}

/// An element of BYMONTH.
impl Element for u8 {
    ghost spells = { IsNumberText 12 };

    fn read(text: &[u8]) -> Option<u8> {
        read_small(text, 12)
    }
}

/// Reads one or more digits that spell a number from 1 to `limit`.
pub(crate) fn read_number(text: &[u8], limit: u32) -> Option<u32>
    ensures { MatchOption result ((n : ℕ) → IsNumberText limit text.now n → ⊥) (IsNumberText limit text.now) }
{
    if !text.first()?.is_ascii_digit() {
        return None;
    }
    match str::from_utf8(text).ok()?.parse::<u32>() {
        Ok(number) if 1 <= number && number <= limit => Some(number),
        _ => None,
    }
}

/// Reads a number from 1 to `limit` with an optional sign; after `-` it counts from the end.
pub(crate) fn read_place(text: &[u8], limit: u8) -> Option<Place>
    ensures { MatchOption result ((p : Place) → IsPlaceText limit text.now p → ⊥) (IsPlaceText limit text.now) }
{
    match text {
        [b'-', rest @ ..] => Some(Place::FromLast(read_small(rest, limit)?)),
        [b'+', rest @ ..] => Some(Place::FromFirst(read_small(rest, limit)?)),
        _ => Some(Place::FromFirst(read_small(text, limit)?)),
    }
}

pub(crate) fn read_small(text: &[u8], limit: u8) -> Option<u8>
    ensures { MatchOption result ((n : ℕ) → IsNumberText limit text.now n → ⊥) (IsNumberText limit text.now) }
{
    Some(read_number(text, limit as u32)? as u8)
}

/// Reads the first two letters of a weekday, in either case.
pub(crate) fn read_weekday(text: &[u8]) -> Option<Weekday>
    ensures { MatchOption result ((w : Weekday) → IsWeekdayText text.now w → ⊥) (IsWeekdayText text.now) }
{
    let [first, second] = text else {
        return None;
    };
    match (first.to_ascii_uppercase(), second.to_ascii_uppercase()) {
        (b'M', b'O') => Some(Weekday::Monday),
        (b'T', b'U') => Some(Weekday::Tuesday),
        (b'W', b'E') => Some(Weekday::Wednesday),
        (b'T', b'H') => Some(Weekday::Thursday),
        (b'F', b'R') => Some(Weekday::Friday),
        (b'S', b'A') => Some(Weekday::Saturday),
        (b'S', b'U') => Some(Weekday::Sunday),
        _ => None,
    }
}

/// Reads a weekday, perhaps preceded by a place up to 5.
pub(crate) fn read_month_weekday(text: &[u8]) -> Option<MonthWeekday>
    ensures { MatchOption result ((w : MonthWeekday) → IsMonthWeekdayText text.now w → ⊥) (IsMonthWeekdayText text.now) }
{
    match text {
        [_, _] => Some(MonthWeekday::Every(read_weekday(text)?)),
        [place @ .., first, second] => Some(MonthWeekday::Nth(
            read_place(place, 5)?,
            read_weekday(&[*first, *second])?,
        )),
        _ => None,
    }
}

// The first element of a list of more than one, and what follows its comma.
fn first_element<'a>(value: &'a str) -> Option<(&'a str, &'a str)>
    ensures { MatchOption result (elements value.now ≡ value.now ∷ [])
        (λ p. (elements value.now ≡ p.0.now ∷ elements p.1.now) × (value.now ≡ p.0.now ++ 44 ∷ p.1.now)) }
{
    value.split_once(',')
}

/// The values of a list's elements; `None` if some element spells no value.
pub(crate) fn read_list<T: Element>(
    alloc: Global,
    value: &str,
) -> Result<Option<ListOf<T>>, NoMemory>
    ensures { IfOk result (λ r. MatchOption r ((list : List T) → AllZip T.spells (elements value.now) list → ⊥)
        (AllZip T.spells (elements value.now))) }
{
    let mut list = Vec::new(alloc);
    let mut rest = value;
    while let Some((element, behind)) = first_element(rest) {
        let Some(one) = T::read(element.as_bytes()) else {
            return Ok(None);
        };
        list.push(one)?;
        rest = behind;
    }
    let Some(last) = T::read(rest.as_bytes()) else {
        return Ok(None);
    };
    list.push(last)?;
    Ok(Some(ListOf::from_vec(list)))
}
