//! Messages (RFC 5546 3.4): what they say, and what a program says itself.
//!
//! [`read_message`] returns the items of a message, or refuses it for its first cause, with the to-do and the line. [`read_all`] does
//! so for many messages on threads, and [`next_message`] cuts a text into messages. A desk takes what
//! [`read_batch`](crate::desks::read_batch) returns.
//!
//! An [`Item`] says one thing about one [`Key`]: a to-do, an instance of it or all from one on, an answer, a refresh request. Its
//! canonical bytes are a message that is read as the item again. [`TodoBuilder`] makes one from a UID, a DTSTAMP and properties; the
//! other messages are those of an [`Errand`](crate::writing::Errand).
//!
//! Days and stamps are read by `parse`: `"20260105".parse::<Day>()`, `"20260105T080000Z".parse::<Stamp>()`. [`read_moment`] reads any
//! moment, given its TZID if it has one. No zone is converted.
pub use itip_items::{Item, Key, Kind, Method};
pub use itip_lines::Text;
pub use itip_message::{
    MessageCause, MessageRefusal, ReadError, TodoBuilder, next_message, read_draft, read_message,
};
pub use itip_moment::{BadText, Day, Moment, Stamp, ZoneName, read_moment};
pub use itip_reading::read_all;
pub use itip_todo::{PartStat, Property, PropertyName, Status, Todo, Uid};
