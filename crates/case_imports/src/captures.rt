//! What an import makes of the records of a file, as texts.
use capture::{Memory, Taken, put_all, put_number};
use std::alloc::Global;
use warc_reader::{CaptureReader, ImportFault, Outcome, Reason, Skipped};

/// What each record of the file gives, in order; or where no record stands.
pub fn captures_shown(alloc: Global, file: &[u8]) -> Result<Vec<u8>, Memory> {
    let mut out = Vec::new(alloc);
    put_captures(&mut out, alloc, file)?;
    Ok(out)
}

fn put_captures(out: &mut Vec<u8>, alloc: Global, file: &[u8]) -> Result<(), Memory> {
    match CaptureReader::new(alloc, file) {
        Ok(mut reader) => put_outcomes(out, alloc, file, &mut reader),
        Err(ImportFault::NotARecord(at)) => put_place(out, b"NotARecord ", at),
        Err(ImportFault::Memory) => Err(Memory),
    }
}

fn put_place(out: &mut Vec<u8>, name: &[u8], at: u64) -> Result<(), Memory> {
    put_all(out, name)?;
    put_number(out, at)
}

/// What each record gives, and `end`.
fn put_outcomes(
    out: &mut Vec<u8>,
    alloc: Global,
    file: &[u8],
    reader: &mut CaptureReader,
) -> Result<(), Memory> {
    // No file has more records than bytes.
    for _ in file {
        match reader.next(alloc)? {
            Some(outcome) => put_outcome(out, outcome)?,
            None => break,
        }
    }
    put_all(out, b"end")
}

fn put_outcome(out: &mut Vec<u8>, outcome: Outcome) -> Result<(), Memory> {
    match &outcome {
        Outcome::Taken(taken) => put_taken(out, taken),
        Outcome::Skipped(skipped) => put_skipped(out, skipped),
        Outcome::PassedOver => put_all(out, b"PassedOver; "),
    }
}

fn put_skipped(out: &mut Vec<u8>, skipped: &Skipped) -> Result<(), Memory> {
    put_place(out, b"Skipped ", skipped.at)?;
    put_all(out, b" ")?;
    put_all(out, reason_name(skipped.reason).as_bytes())?;
    put_all(out, b"; ")
}

fn reason_name(reason: Reason) -> &'static str {
    match reason {
        Reason::Revisit => "revisit",
        Reason::ContentType => "content-type",
        Reason::Target => "target",
        Reason::Date => "date",
        Reason::Message => "message",
    }
}

/// `Taken METHOD URI DATE | REQUEST | HEAD | WIRE | whole`, or `cut` in its place.
fn put_taken(out: &mut Vec<u8>, taken: &Taken) -> Result<(), Memory> {
    put_asked(out, taken)?;
    put_part(out, taken.request.as_slice())?;
    put_part(out, taken.head.as_slice())?;
    put_part(out, taken.wire.as_slice())?;
    let end: &[u8] = if taken.cut { b"cut; " } else { b"whole; " };
    put_all(out, end)
}

fn put_asked(out: &mut Vec<u8>, taken: &Taken) -> Result<(), Memory> {
    put_all(out, b"Taken ")?;
    put_all(out, taken.method.as_slice())?;
    put_all(out, b" ")?;
    put_all(out, taken.uri.as_slice())?;
    put_place(out, b" ", taken.date)?;
    put_all(out, b" | ")
}

fn put_part(out: &mut Vec<u8>, part: &[u8]) -> Result<(), Memory> {
    put_all(out, part)?;
    put_all(out, b" | ")
}
