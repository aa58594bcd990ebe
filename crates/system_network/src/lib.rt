//! The network and the standard streams as the program asks for them, and the system's own, with a line on standard error for the cause of each fault.
#![tactic(auto)]

mod causes;
mod error_lines;
mod network;
mod sockets;
mod streams;

pub use causes::Causes;
pub use error_lines::MOST_WRITERS;
pub use network::{Network, Socket};
pub use sockets::{SystemSocket, put_first};
pub use streams::{EndingInput, print_when_taken, read_some, write_some};
