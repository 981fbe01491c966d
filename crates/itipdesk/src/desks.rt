//! Desks: what counts of all that was heard.
//!
//! A [`Desk`] takes a [`Batch`], which is what one message or one delta says ([`read_batch`],
//! [`read_delta`](crate::deltas::read_delta)), or items that a program made (`Batch::of_items`). It keeps the newest revision of each
//! to-do and the newest answer of each attendee, in whatever order they came. [`Changed`] has the UIDs that moved, and the tick of the
//! desk afterwards, which has risen by one if any did. A refusal changes nothing.
//!
//! `desk.state()` is what is kept, a [`State`]: `of_uid` has the items of a UID. Desks that have heard the same keep the same, and
//! `State::merge` makes the least upper bound of two states.
//!
//! [`write_desk`] writes a desk as a file, with its tick and what moved when, to any writer, such as a `Vec`; if that fails, a
//! [`StreamFault`] says why. [`read_desk`] reads the file: the desk that it returns keeps the same, and has the same delta since every
//! tick.
pub use itip_desk::{
    Batch, Changed, Desk, DeskError, FileError, FileRefusal, read_batch, read_desk, write_desk,
};
pub use itip_state::{ItemsOfUid, SharedItem, State};
pub use itip_streams::StreamFault;
