//! A load that anybody can make again: what clients ask, what origins answer, and what a clock answers, by the number of
//! an exchange.
//!
//! Each fourth exchange has the payload of the third before it, under another URL of another host, so that a quarter of
//! what is stored are revisits.
#![tactic(auto)]

mod answering;
mod asking;
mod checking;
mod exchange;

pub use answering::{origin, payload};
pub use asking::{client, uri};
pub use checking::{CheckFault, check_brought, check_taken};
pub use exchange::date;
