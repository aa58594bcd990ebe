//! Heads of messages of HTTP/1.1: where they end in a stream, and their parts (RFC 9112, sections 2 to 5).
#![tactic(auto)]

mod fields;
mod head;
mod head_reader;
mod laws;
mod lines;
mod parse;
mod parts;
mod section;
mod seek;

pub use fields::first_value;
pub use head::{
    Field, Received, RequestHead, RequestMessage, RequestOutline, ResponseHead, Version, WireFault,
};
pub use head_reader::{HeadFed, HeadProgress, HeadReader};
pub use laws::fronts_stay;
pub use lines::{count_line_feeds, is_short_head};
pub use parse::{read_head, read_request_head, read_request_outline};
pub use section::{find_section_end, is_section, read_section};
pub use seek::find_head_end;
