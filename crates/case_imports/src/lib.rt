//! Calls over WARC files of other tools, by name: their records, and what an import makes of these. The answer is a text.
#![tactic(auto)]

mod captures;

use capture::{Memory, put_all, put_number};
use captures::captures_shown;
use case_texts::{Call, always, told};
use std::alloc::Global;
use warc_reader::{Record, RecordFault, read_record};

/// What a file holds: how many records, fields of these and bytes of their blocks.
#[derive(Clone, Copy)]
struct Counts {
    records: u64,
    fields: u64,
    bytes: u64,
}

/// What the call answers. `None` where no call has that name.
pub fn answer(alloc: Global, call: &Call) -> Result<Option<Vec<u8>>, Memory> {
    let text = call.text.as_slice();
    match call.name {
        "foreign_record" => always(record_shown(alloc, text)),
        "foreign_file" => always(file_shown(alloc, text)),
        "foreign_captures" => always(captures_shown(alloc, text)),
        _ => Ok(None),
    }
}

/// The fields, the block and the rest behind the record at the front of the text, or the fault.
fn record_shown(alloc: Global, text: &[u8]) -> Result<Vec<u8>, Memory> {
    match read_record(alloc, text) {
        Ok(record) => record_parts(alloc, &record),
        Err(RecordFault::NotARecord) => told(alloc, b"NotARecord"),
        Err(RecordFault::Memory) => Err(Memory),
    }
}

fn record_parts(alloc: Global, record: &Record) -> Result<Vec<u8>, Memory> {
    let mut out = told(alloc, b"Record")?;
    put_parts(&mut out, record)?;
    Ok(out)
}

/// `; NAME=VALUE` for each field, and the block and the rest, each behind ` | `.
fn put_parts(out: &mut Vec<u8>, record: &Record) -> Result<(), Memory> {
    for field in record.fields.as_slice() {
        put_all(out, b"; ")?;
        put_all(out, field.name.as_slice())?;
        put_all(out, b"=")?;
        put_all(out, field.value.as_slice())?;
    }
    put_all(out, b" | ")?;
    put_all(out, record.block)?;
    put_all(out, b" | ")?;
    put_all(out, record.rest)
}

/// How many records stand at the front of the file, and where they end or no further one stands.
fn file_shown(alloc: Global, file: &[u8]) -> Result<Vec<u8>, Memory> {
    let mut counts = Counts {
        records: 0,
        fields: 0,
        bytes: 0,
    };
    let mut rest = file;
    // No file has more records than bytes.
    for _ in file {
        if rest.is_empty() {
            break;
        }
        match read_record(alloc, rest) {
            Ok(record) => {
                count(&mut counts, &record);
                rest = record.rest;
            }
            Err(RecordFault::NotARecord) => {
                return counts_shown(alloc, counts, b" NotARecord ", place_of(file, rest));
            }
            Err(RecordFault::Memory) => return Err(Memory),
        }
    }
    counts_shown(alloc, counts, b" ends ", place_of(file, rest))
}

/// Where the rest of a file stands in it.
fn place_of(file: &[u8], rest: &[u8]) -> u64 {
    file.len().saturating_sub(rest.len()) as u64
}

fn count(counts: &mut Counts, record: &Record) {
    counts.records = counts.records.saturating_add(1);
    counts.fields = counts
        .fields
        .saturating_add(record.fields.as_slice().len() as u64);
    counts.bytes = counts.bytes.saturating_add(record.block.len() as u64);
}

/// The counts, what came of the file, and the place.
fn counts_shown(alloc: Global, counts: Counts, end: &[u8], place: u64) -> Result<Vec<u8>, Memory> {
    let mut out = Vec::new(alloc);
    put_counts(&mut out, counts, end, place)?;
    Ok(out)
}

fn put_counts(out: &mut Vec<u8>, counts: Counts, end: &[u8], place: u64) -> Result<(), Memory> {
    put_number(out, counts.records)?;
    put_all(out, b" ")?;
    put_number(out, counts.fields)?;
    put_all(out, b" ")?;
    put_number(out, counts.bytes)?;
    put_all(out, end)?;
    put_number(out, place)
}
