//! What an import makes of a file.
ghost use Rattle.std.specs.Prelude.{◌≡◌};

use crate::record::RecordFault;
use capture::Taken;
use thiserror::Error;

/// Why a record of type `response` or `revisit` gives no capture. The first reason that applies is told.
#[derive(Clone, Copy)]
pub enum Reason {
    /// It is of type `revisit`.
    Revisit,
    /// Its block isn't `application/http`.
    ContentType,
    /// Its target isn't an accepted absolute one.
    Target,
    /// Its date isn't one of the years 1970 to 9999.
    Date,
    /// It is a segment, or its block isn't one whole final response to the request's method within the limits, nor, where it is
    /// marked as truncated, one that ends inside its body.
    Message,
}

/// A record that gives no capture.
#[derive(Clone, Copy)]
pub struct Skipped {
    /// The place of its first byte in the file.
    pub at: u64,
    /// Why.
    pub reason: Reason,
}

/// What a record gives.
#[derive(Drop)]
pub enum Outcome {
    /// A capture.
    Taken(Taken),
    /// None, though it is of type `response` or `revisit`.
    Skipped(Skipped),
    /// None, since it is of another type.
    PassedOver,
}

/// Why a file isn't imported.
#[derive(Clone, Copy, Debug, Error)]
pub enum ImportFault {
    /// At this place no record stands, and whole records stand before it.
    #[error("no WARC record at byte {0}")]
    NotARecord(u64),
    /// There was no memory.
    #[error("no memory")]
    Memory,
}

impl ImportFault {
    ghost use Rattle.warc_reader.specs.Files.{import_fault};

    /// Why the file isn't imported, where no record was read at this place.
    pub fn of(fault: RecordFault, at: u64) -> ImportFault
        ensures { result ≡ import_fault at fault }
    {
        match fault {
            RecordFault::NotARecord => ImportFault::NotARecord(at),
            RecordFault::Memory => ImportFault::Memory,
        }
    }
}
