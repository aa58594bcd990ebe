//! Bodies of HTTP/1.1 messages: what tells their length, and their payloads.
#![tactic(auto)]

mod content_length;
mod decode;
mod fields;
mod framing;
mod in_place;
mod laws;
mod lent;
mod limits;
mod members;
mod number;
mod payload;
mod slices;
mod split;

pub use framing::{framing_of, request_framing_of};
pub use in_place::{joined_in_place, payload_in_place};
pub use laws::{heads_tell_framings, held_bodies_are_bodies};
pub use lent::Payload;
pub use members::split_member;
pub use number::Number;
pub use payload::{PayloadFault, payload_in, payload_of, payload_of_cut};
pub use slices::Slices;
