//! The lines that the program writes itself into the head of a message (RFC 9112, sections 2 to 6), and the body behind it.
#![tactic(auto)]

mod end;
mod fields;
mod start;
mod status;

pub use end::{put_body_unless, put_head_end, put_line_end};
pub use fields::{
    put_close_line, put_close_line_where, put_field_line, put_length_line, put_link_name,
    put_type_line,
};
pub use start::{put_own_status_line, put_status_line};
pub use status::{Status, tells_no_length};
