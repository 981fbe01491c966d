//! To-dos (RFC 5545 3.6.2): the lines of a VTODO are read into a `Todo`, and a `Todo` is written canonically.
//!
//! The table of properties, with how often each may appear, is in `specs/Table.antt`, what their values may be in
//! `specs/Values.antt`, and the canonical octets of a to-do in `specs/Written.antt`.
#![tactic(auto)]

mod add;
mod attendee;
mod collected;
mod copies;
mod draft;
mod error;
mod exact;
mod finish;
mod head;
mod laws;
mod list;
mod number;
mod place;
mod property;
mod property_name;
mod read;
mod single;
mod status;
mod todo;
mod uid;
mod values;
mod write;
mod write_moment;

pub use attendee::{PartStat, attendee_key, participation};
pub use error::{TodoCause, TodoError, TodoRefusal};
pub use laws::{reading_laws, writing_laws};
pub use property::Property;
pub use property_name::{PropertyName, has_period};
pub use read::read_todo;
pub use status::{BadStatus, Status};
pub use std::alloc::AllocError as NoMemory;
pub use todo::Todo;
pub use uid::Uid;
pub use write::{write_property, write_todo, write_todo_front, write_todo_rest, write_todo_up_to};
pub use write_moment::write_recurrence_id;
