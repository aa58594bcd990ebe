//! The world outside the proxy: its clients, origins, clock and output, each with a count of faults.
#![tactic(auto)]

mod calls;
mod clock;
mod dialer;
mod echo;
mod echo_dialer;
mod echo_link;
mod gate;
mod laws;
mod link;
mod memory;
mod records;
mod sink;
mod source;

pub use capture::Failed;
pub use clock::Clock;
pub use dialer::{DialError, Dialer, Transcript};
pub use echo_dialer::EchoDialer;
pub use echo_link::EchoLink;
pub use gate::{Accepted, Gate, Heard};
pub use laws::{connections_hung_up_are_logged, links_hung_up_are_logged};
pub use link::Link;
pub use memory::{MemoryClock, MemoryDialer, MemoryGate, MemoryLink, MemorySink};
pub use sink::Sink;
