//! The messages that an office sends (RFC 5546 3.4): answers, refresh requests, cancellations, removals of attendees and requests; and
//! those that it sends again, unchanged. SEQUENCE and DTSTAMP of a new one are chosen so that nothing heard before can overtake it,
//! except for a refresh request, which one heard with a SEQUENCE above 0 overtakes.
#![tactic(auto)]

mod answer;
mod asked;
mod attendee_keys;
mod brief;
mod cancel;
mod cancel_laws;
mod errand;
mod error;
mod lacking;
mod laws;
mod message;
mod onward;
mod program_version;
mod refresh;
mod removing;
mod reply;
mod request;
mod request_laws;
mod rid;
mod same_key;
mod sent_revision;
mod stamping;

pub use answer::Answer;
pub use cancel::cancellation;
pub use cancel_laws::{
    cancellations_are_read, cancelled_is_gone, cancelling_of_kept, removed_are_gone,
};
pub use errand::{Errand, Message, message_for};
pub use error::WritingError;
pub use laws::{answers_are_shown, messages_are_read, refreshes_are_wanted, writing_of_kept};
pub use onward::onward_cancellation;
pub use program_version::VERSION;
pub use refresh::refresh_of;
pub use removing::removal;
pub use reply::reply_to;
pub use request::request_of;
pub use request_laws::{one_request, request_stands};
pub use std::alloc::AllocError as NoMemory;
