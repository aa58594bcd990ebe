//! A record of a WARC file in parts.
ghost use Rattle.std.specs.Prelude.{◌≡◌};

use capture::{Items, Memory};
use http_head::Field;
use thiserror::Error;

/// The greatest length of a record's block, in bytes.
pub const BLOCK_LIMIT: u64 = 268_435_456;

/// A record at the front of a text (ISO 28500:2017, sections 4 and 5).
#[derive(Drop)]
pub struct Record<'b> {
    /// Its fields, in order.
    pub fields: Items<Field>,
    /// Its block, which is lent from the text.
    pub block: &'b [u8],
    /// The text behind the record.
    pub rest: &'b [u8],
}

/// Why a text gives no record.
#[derive(Clone, Copy, Debug, Error)]
pub enum RecordFault {
    /// No record stands at its front.
    #[error("no WARC record")]
    NotARecord,
    /// There was no memory.
    #[error("no memory")]
    Memory,
}

impl From<Memory> for RecordFault {
    ghost use Rattle.warc_reader.specs.declared.record.RecordFault.TheVariants.{Memory as OutOfMemory};

    ghost from_gives = { λ _ fault. fault ≡ OutOfMemory };

    fn from(_error: Memory) -> RecordFault {
        RecordFault::Memory
    }
}
