//! Reads WARC files of other tools: their records, and the captures that an import makes of these.
#![tactic(auto)]

mod asking;
mod blocks;
mod captures;
mod dates;
mod fields;
mod files;
mod import;
mod kind;
mod laws;
mod lengths;
mod outcomes;
mod record;
mod records;
mod requests;
mod targets;

pub use captures::CaptureReader;
pub use import::{ImportFault, Outcome, Reason, Skipped};
pub use laws::{
    files_have_one_import, imported_captures_can_be_stored, imports_come_in_turn,
    records_are_read_in_one_way,
};
pub use record::{BLOCK_LIMIT, Record, RecordFault};
pub use records::read_record;
