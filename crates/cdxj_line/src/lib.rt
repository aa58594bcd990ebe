//! CDXJ lines, one for each capture: its look-up key, its date and a JSON object, as an index of an archive has them.
#![tactic(auto)]

mod content_type;
mod cut;
mod file_name;
mod json_string;
mod laws;
mod length;
mod line;
mod line_parts;
mod members;
mod number;
mod object;
mod read;
mod shown;
mod unescaping;
mod write;

pub use content_type::{REVISIT, media_type};
pub use laws::{
    lines_are_told_by_their_texts, lines_end_at_their_line_feed, lines_end_where_they_end,
};
pub use length::line_len;
pub use line::Line;
pub use line_parts::LineParts;
pub use object::put_object;
pub use read::read_line;
pub use write::{line_text, put_line, put_parts};
