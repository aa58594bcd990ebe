//! Messages of HTTP/1.1, read from a stream that comes in pieces (RFC 9112).
#![tactic(auto)]

mod framing;
mod held;
mod laws;
mod progress;
mod request;
mod response;

pub use laws::{decisions_are_one, decisions_stay, responses_can_be_stored};
pub use progress::{Fed, Progress};
pub use request::reader::RequestReader;
pub use response::reader::ResponseReader;
