//! Writing: the messages that an office sends (RFC 5546 3.4).
//!
//! [`message_for`] writes what an [`Errand`] asks for, so that nothing that the state keeps can overtake it: an answer, a request for
//! the newest revision, a cancellation of a to-do, of an instance or of all from one on, the removal of attendees, a request, or the
//! messages of a to-do once more. The to-dos of a request are read from a text by [`read_draft`](crate::messages::read_draft), or made
//! from properties by [`TodoBuilder`](crate::messages::TodoBuilder). The desk should take what is written, too, by `read_batch`.
//!
//! A [`Message`] names the properties that RFC 5546 wants and that it lacks. A [`WritingError`] is the first cause why none is written.
pub use itip_report::next_seq;
pub use itip_writing::{Answer, Errand, Message, WritingError, message_for};
