//! Bodies of HTTP/1.1 messages, read from a stream that comes in pieces (RFC 9112, sections 6 and 7).
#![tactic(auto)]

mod chunks;
mod fed;
mod feeding;
mod reader;
mod reading;
mod runs;
mod trailer;

pub use fed::{BodyFed, BodyProgress};
pub use reader::BodyReader;
