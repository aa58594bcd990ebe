//! Answers one request of a client over an archive.
#![tactic(auto)]

mod answer_text;
mod answering;
mod exchanging;
mod faults;
mod finding;
mod found;
mod heads;
mod laws;
mod listing;
mod passing;
mod refusing;
mod replaying;
mod saying;
mod seeking;
mod shipping;
mod visit;
mod visiting;

pub use answer_text::Answer;
pub use answering::{Ask, Asked, answer};
pub use heads::asks_for_head;
pub use laws::{limits_are_these, stored_captures_have_their_payload};
pub use saying::say;

/// The greatest number of requests of a connection: the answer to the last closes it.
pub const REQUEST_LIMIT: usize = 1_000;
