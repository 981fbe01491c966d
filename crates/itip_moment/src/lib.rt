//! Moments of a calendar: the text, the order and the exact shift of dates and date-times.
//!
//! A [`Moment`] is a date, or a date-time that is floating, in UTC or in a zone named by TZID
//! (RFC 5545 3.3.4 and 3.3.5). No zone is ever converted. A [`Stamp`] outside a moment is a date-time in UTC.
//! Days are numbered from 1970-01-01, and lie in the years 0000 to 9999.
#![tactic(auto)]

mod day;
mod digits;
mod laws;
mod moment;
mod read;
mod shift;
mod shown;
mod stamp;
mod write;
mod zone_name;

pub use day::Day;
pub use laws::{
    orders_tell_values_apart, readers_give_back_what_was_written, sums_are_one_moment,
    texts_spell_one_value, written_texts_are_read_back,
};
pub use moment::{Form, Moment};
pub use read::{read_date, read_moment, read_moment_in, read_stamp};
pub use shown::BadText;
pub use stamp::Stamp;
pub use std::alloc::AllocError as NoMemory;
pub use write::{stamp_bytes, write_moment, write_stamp};
pub use zone_name::ZoneName;
