//! Recurrence of a to-do (RFC 5545 3.3.10, a profile of it): which rule a text spells, and which moments a series has.
//!
//! [`read_rule`] reads a rule of the profile; any other text is opaque. [`shape`] says whether a to-do is
//! single, opaque or repeats as a [`Series`]. [`occurrences`] lists the moments of a series in a window of
//! days, at most 100,000, and [`all_occurrences`] without that limit; [`is_day`] asks for one day, and an
//! [`Occurring`] is a series that is asked about many moments.
//!
//! [`occurrences`] makes sets of a rule's lists first, so that a day costs the same however long they are. A window far from
//! the start costs nothing for the occurrences before it; with COUNT it costs at most one step for each month before it, of
//! which at most some thirty are walked through day by day. Making an [`Occurring`] sorts RDATE and, with COUNT, finds the end of the
//! rule, at most a step for each month up to it or to the year 9999; a question then costs two binary searches and no memory.
#![tactic(auto)]

mod ascending;
mod calendar;
mod elements;
mod error;
mod listing;
mod members;
mod month_counts;
mod occurring;
mod parts;
mod periods;
mod prepared_rule;
mod read;
mod rule;
mod selected_days;
mod series;
mod sets;
mod todo_shape;
mod waits;
mod walk;

pub use error::RecurError;
pub use jiff_core::civil::Weekday;
pub use listing::{all_occurrences, occurrences};
pub use occurring::Occurring;
pub use read::{Reading, read_rule};
pub use rule::{End, Frequency, MonthDays, MonthWeekday, Place, Rule, WeekDays, YearDays};
pub use selected_days::is_day;
pub use series::{Series, Shape};
pub use std::alloc::AllocError as NoMemory;
pub use todo_shape::{recurs, shape};
