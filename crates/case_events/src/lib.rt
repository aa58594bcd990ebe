//! Lists of events over an archive, and what each replies.
#![tactic(auto)]

mod events;
mod replies;

pub use events::events_outcome_of;
