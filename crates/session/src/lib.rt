//! Serves a client's connection over an archive.
#![tactic(auto)]

mod giving_up;
mod heads;
mod laws;
mod reading;
mod served;
mod serving;

pub use laws::{
    courses_keep_their_answers, courses_leave_no_choice, courses_only_grow, requests_are_answered,
    shown_captures_stay,
};
pub use served::Served;
pub use serving::serve;
