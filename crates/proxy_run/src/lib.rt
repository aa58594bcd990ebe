//! The call that the program makes.
#![tactic(auto)]

mod checking;
mod counting;
mod laws;
mod piping;
mod running;
mod seating;
mod server;
mod serving;

pub use command::{Known, Unknown};
pub use laws::{
    pipes_leave_no_choice, ready_archives_are_served, servers_keep_their_promise,
    servers_leave_ready, sound_archives_verify,
};
pub use running::{CREW, Crew, run};
