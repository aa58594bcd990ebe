//! What is asked of an archive that is open.
use crate::filling::{filled, load_in};
use crate::following::piece_taken;
use crate::pieces::{piece_of, volumes_text};
use crate::settling::settled;
use crate::storing::{compared, rolled, stored};
use archive_core::Archive;
use capture::Memory;
use case_captures::{
    brought, counts_text, entry_text, exchanged_in, found_by_date, mapped, prepared_of,
    starting_with, told_bytes, told_text,
};
use case_language::number_in;
use case_steps::Deed;
use disk_model::Disk;
use std::alloc::Global;

/// What the step tells. `None` where no step has that name, or the text isn't one that it takes.
pub fn told<D: Disk>(
    alloc: Global,
    archive: &mut Archive<D>,
    step: &Deed,
) -> Result<Option<Vec<u8>>, Memory> {
    let text = step.text.as_slice();
    match step.name {
        "store" => store(alloc, archive, text),
        "fill" => fill(alloc, archive, text),
        "roll" => roll(alloc, archive, text),
        "compare" => told_text(compared(alloc, archive, text)),
        "settle" => told_text(settled(alloc, archive)),
        "take-piece" => told_text(piece_taken(alloc, archive, text)),
        _ => found(alloc, archive, step),
    }
}

/// What a step tells that asks for captures of a url, or for all of the archive.
fn found<D: Disk>(
    alloc: Global,
    archive: &mut Archive<D>,
    step: &Deed,
) -> Result<Option<Vec<u8>>, Memory> {
    let text = step.text.as_slice();
    match step.name {
        "by-date" => found_by_date(alloc, archive, text),
        "map" => mapped(alloc, archive, text),
        "starting" => starting_with(alloc, archive, text),
        "counts" => told_text(counts_text(alloc, archive.counts())),
        "faults" => told_text(faults_text(alloc, archive.faults())),
        "volumes" => told_bytes(volumes_text(alloc, archive)),
        _ => match capture_in(text) {
            Some(number) => of_capture(alloc, archive, step.name, number),
            None => Ok(None),
        },
    }
}

/// What a step tells that asks for the capture with a number.
fn of_capture<D: Disk>(
    alloc: Global,
    archive: &mut Archive<D>,
    name: &str,
    number: u32,
) -> Result<Option<Vec<u8>>, Memory> {
    match name {
        "bring" => told_bytes(brought(alloc, archive, number)),
        "piece" => told_bytes(piece_of(alloc, archive, number)),
        "entry" => told_text(entry_text(alloc, archive.entry(number))),
        _ => Ok(None),
    }
}

/// The number of a capture.
fn capture_in(text: &[u8]) -> Option<u32> {
    u32::try_from(number_in(text)?).ok()
}

fn faults_text(alloc: Global, faults: u64) -> Result<String, Memory> {
    Ok(format!(in alloc; "{faults}")?)
}

fn store<D: Disk>(
    alloc: Global,
    archive: &mut Archive<D>,
    text: &[u8],
) -> Result<Option<Vec<u8>>, Memory> {
    let Some(exchanged) = exchanged_in(text) else {
        return Ok(None);
    };
    match prepared_of(alloc, &exchanged)? {
        Some(prepared) => told_text(stored(alloc, archive, prepared.taken)),
        None => Ok(None),
    }
}

fn fill<D: Disk>(
    alloc: Global,
    archive: &mut Archive<D>,
    text: &[u8],
) -> Result<Option<Vec<u8>>, Memory> {
    match load_in(text) {
        Some(load) => filled(alloc, archive, load),
        None => Ok(None),
    }
}

fn roll<D: Disk>(
    alloc: Global,
    archive: &mut Archive<D>,
    text: &[u8],
) -> Result<Option<Vec<u8>>, Memory> {
    match number_in(text) {
        Some(now) => rolled(alloc, archive, now),
        None => Ok(None),
    }
}
