//! Reads what stands before the messages of a volume's records (ISO 28500, WARC 1.1): their openings, the lengths of their blocks, and
//! a whole warcinfo. What is read is exactly what `warc_text` writes.
#![tactic(auto)]

mod block;
mod cut;
mod fields;
mod first_opening;
mod form;
mod front;
mod info_step;
mod no_record;
mod opening;
mod opening_parts;
mod scan_info;
mod stop;
mod strip;

pub use block::{Block, split_block};
pub use cut::behind_record;
pub use first_opening::{FirstOpening, read_first_opening};
pub use front::{Front, front_of};
pub use info_step::InfoStep;
pub use no_record::NoRecord;
pub use opening::{Opening, read_opening};
pub use opening_parts::{Refers, strip_request_opening};
pub use scan_info::next_info;
pub use stop::Stop;
