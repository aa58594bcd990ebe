//! The plain types that memproxy is about, and the definitions of message, payload and accepted target.
#![tactic(auto)]

mod book;
mod bytes;
mod captured;
mod failed;
mod framing;
mod items;
mod laws;
mod limits;
mod memory;
mod ows;
mod put;
mod refusal;
mod site;
mod target;
mod text;

pub use book::{Book, Volume};
pub use bytes::Bytes;
pub use captured::{Brought, Digest, Kept, Stored, Taken};
pub use failed::Failed;
pub use framing::{Framing, FramingFault, MessageFault};
pub use items::Items;
pub use laws::{
    captures_have_one_payload, chunked_bodies_split_one_way, ended_bodies_are_cut,
    growth_keeps_captures, heads_end_at_the_first_empty_line, limits_are_these,
    wires_have_one_payload,
};
pub use limits::{BODY_LIMIT, FIELD_LIMIT, HEAD_LIMIT, INTERIM_LIMIT, Limits, SIZE_LINE_LIMIT};
pub use memory::Memory;
pub use ows::trim_ows;
pub use put::{put_all, put_number};
pub use refusal::Refusal;
pub use site::Site;
pub use target::{accepted_uri, accepted_url, authority_len, is_target_text};
pub use text::Text;
