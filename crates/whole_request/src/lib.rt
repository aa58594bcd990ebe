//! A request of HTTP/1.1 (RFC 9112) that is there whole: its parts, or its method alone.
#![tactic(auto)]

mod method;
mod reading;

pub use method::request_method_in;
pub use reading::read_request;
