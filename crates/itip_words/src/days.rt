//! The clock, and the days that are asked for: those of the rows, and the day that they are due before.
ghost use Rattle.std.specs.Prelude.{◌≡◌, ◌≤ℤ◌, ◌<◌, ◌/◌, ◌%◌, ℤ, pos, Option, IfSome, IfNone, MatchOption, MatchBool};
ghost use Rattle.std.specs.Option.{option_copied, option_map};
ghost use Rattle.itip_moment.specs.Spelling.{IsDateText};
ghost use Rattle.itip_view.specs.declared.window.Window.{Window};
ghost use Rattle.itip_moment.specs.declared.stamp.Stamp.{Stamp};
ghost use Rattle.itip_words.specs.Asking.{IsToday};
ghost use Rattle.itip_words.specs.Finding.{Never};
ghost use Rattle.itip_words.specs.Days.{numbered, IsGiven, IsAskedWindow, first_day, day_after, days_back, days_long, is_today};

use itip_moment::{Day, Stamp, read_date};
use itip_view::Window;
use std::rt::Clock;
use std::time::{SystemTime, UNIX_EPOCH};

const SECONDS_OF_DAY: u64 = 86_400;

// 9999-12-31
const LAST_DAY: u64 = 2_932_896;

// How many days before and after today a window goes if neither of its ends is named. If rows are asked for by their DUE, it begins
// earlier.
const DAYS_AROUND: i32 = 366;

/// The moment of a clock, in UTC. `None` if it can't be read, or shows a time before 1970 or after the year 9999.
pub fn now(clock: &impl Clock) -> Option<Stamp> {
    let now = SystemTime::now(clock).ok()?;
    stamp_of_seconds(now.duration_since(UNIX_EPOCH).ok()?.as_secs())
}

/// The stamp of a second, counted from the beginning of 1970-01-01. `None` after the year 9999.
fn stamp_of_seconds(seconds: u64) -> Option<Stamp>
    ensures day { IfSome result (λ stamp. stamp.day ≡ pos (seconds / 86_400)) }
    ensures second { IfSome result (λ stamp. stamp.second ≡ seconds % 86_400) }
    ensures none { IfNone result (2_932_896 < seconds / 86_400) }
{
    let number = seconds / SECONDS_OF_DAY;
    if number > LAST_DAY {
        return None;
    }
    Some(Stamp {
        day: number as i32,
        second: (seconds % SECONDS_OF_DAY) as u32,
    })
}

/// The day of a stamp.
fn day_of(stamp: Stamp) -> Day
    ensures { result.number ≡ stamp.day }
{
    Day { number: stamp.day }
}

/// The day that is taken as today: that of the word if it is given, else that of the clock. `None` if the word is no date.
pub(crate) fn today_of(word: Option<&str>, clock: Option<Stamp>) -> Option<Option<Day>>
    ensures found { IfSome result (λ today. IsToday (option_copied word.entry) clock (numbered today)) }
    ensures none { IfNone result (Never (IsToday (option_copied word.entry) clock)) }
{
    let Some(text) = word else {
        return Some(clock_day(clock));
    };
    let day = read_date(text)?;
    Some(Some(day))
}

fn clock_day(clock: Option<Stamp>) -> Option<Day>
    ensures { numbered result ≡ option_map (λ (stamp : Stamp). stamp.day) clock }
{
    match clock {
        Some(now) => Some(day_of(now)),
        None => None,
    }
}

/// The day of a word, if the word is given. `None` if it is no date.
fn given_day(word: Option<&str>) -> Option<Option<Day>>
    ensures found { IfSome result (λ day. IsGiven (option_copied word.entry) (numbered day)) }
    ensures none { IfNone result ((day : Option ℤ) → IsGiven (option_copied word.entry) day → ⊥) }
{
    let Some(text) = word else {
        return Some(None);
    };
    let day = read_date(text)?;
    Some(Some(day))
}

/// The window that the words for its first day and for the day after its last ask for. If one of them is absent, its end is
/// counted from the other; if both are, from today. With `is_due` rows are asked for by their DUE, and such a window is longer.
/// `None` if a word is no date, if there is no such window, or if it depends on today and today isn't known.
pub(crate) fn asked_window(
    from: Option<&str>,
    to: Option<&str>,
    today: Option<Day>,
    is_due: bool,
) -> Option<Window>
    ensures found { IfSome result (IsAskedWindow (option_copied from.entry) (option_copied to.entry) (numbered today) is_due) }
    ensures none { IfNone result ((window : Window) →
        IsAskedWindow (option_copied from.entry) (option_copied to.entry) (numbered today) is_due window → ⊥) }
{
    let from = given_day(from)?;
    let to = given_day(to)?;
    let first = first_day(is_due, from, to, today)?;
    let after = day_after(is_due, to, from, today)?;
    Window::new(first, after).ok()
}

fn first_day(is_due: bool, from: Option<Day>, to: Option<Day>, today: Option<Day>) -> Option<i32>
    ensures { result ≡ first_day is_due (numbered from) (numbered to) (numbered today) }
{
    match (from, to) {
        (Some(from), _) => Some(from.number),
        (None, Some(to)) => Some(to.number - days_long(is_due)),
        (None, None) => Some(today?.number - days_back(is_due)),
    }
}

fn day_after(is_due: bool, to: Option<Day>, from: Option<Day>, today: Option<Day>) -> Option<i32>
    ensures { result ≡ day_after is_due (numbered to) (numbered from) (numbered today) }
{
    match (to, from) {
        (Some(to), _) => Some(to.number),
        (None, Some(from)) => Some(from.number + days_long(is_due)),
        (None, None) => Some(today?.number + DAYS_AROUND),
    }
}

/// How many days before today a window begins if neither of its ends is named.
fn days_back(is_due: bool) -> i32
    ensures days { result ≡ pos (days_back is_due) }
    ensures low { pos 0 ≤ℤ result }
    ensures high { result ≤ℤ pos 3_290 }
{
    if is_due { 3_290 } else { DAYS_AROUND }
}

/// How many days a window has if one of its ends is named.
fn days_long(is_due: bool) -> i32
    ensures days { result ≡ pos (days_long is_due) }
    ensures low { pos 0 ≤ℤ result }
    ensures high { result ≤ℤ pos 3_656 }
{
    if is_due { 3_656 } else { 732 }
}

/// The day of a word that is a date, or `today`. `None` if it is neither, or if it is `today` and today isn't known.
pub(crate) fn due_day(word: &str, today: Option<Day>) -> Option<Day>
    ensures { MatchBool (is_today word.now) (result ≡ today)
        (MatchOption result ((day : ℤ) → IsDateText word.now day → ⊥) (λ day. IsDateText word.now day.number)) }
{
    if is_today(word) {
        today
    } else {
        read_date(word)
    }
}

/// Whether a word stands for today.
pub(crate) fn is_today(word: &str) -> bool
    ensures { result ≡ is_today word.now }
{
    word == "today"
}
