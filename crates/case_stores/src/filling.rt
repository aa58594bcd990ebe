//! A load is stored, one exchange after the other.
ghost use Rattle.std.specs.Prelude.{IfOk, IfSome};
ghost use Rattle.case_captures.specs.Preparing.{IsPrepared};

use archive_core::Archive;
use archive_shelf::{Receipt, Shelf, StoreFault};
use capture::Memory;
use case_captures::{Exchanged, Prepared, prepared_of, store_fault_text, told_bytes, told_text};
use case_language::{TextWords, number_in};
use disk_model::Disk;
use load_maker::{date, origin, uri};
use std::alloc::Global;

/// The exchanges of a load from one number up to another, which isn't among them.
#[derive(Clone, Copy)]
pub struct Load {
    seed: u64,
    from: u32,
    to: u32,
}

/// A load's number, the first exchange's and that behind the last one's.
pub fn load_in(text: &[u8]) -> Option<Load> {
    let mut words = TextWords::of(text);
    Some(Load {
        seed: words.number()?,
        from: words.small_number()?,
        to: u32::try_from(number_in(words.rest)?).ok()?,
    })
}

/// `filled`, or behind the number of the exchange that wasn't stored the fault.
pub fn filled<D: Disk>(
    alloc: Global,
    archive: &mut Archive<D>,
    load: Load,
) -> Result<Option<Vec<u8>>, Memory> {
    for number in load.from..load.to {
        let Some(prepared) = prepared(alloc, load.seed, number)? else {
            return Ok(None);
        };
        if let Some(fault) = fault_of(alloc, archive, prepared)? {
            return told_text(refused(alloc, number, fault));
        }
    }
    told_bytes(told(alloc))
}

fn told(alloc: Global) -> Result<Vec<u8>, Memory> {
    Ok(Vec::from_slice(alloc, b"filled")?)
}

fn refused(alloc: Global, number: u32, fault: String) -> Result<String, Memory> {
    Ok(format!(in alloc; "{number} {fault}")?)
}

/// The capture of an exchange.
fn prepared(alloc: Global, seed: u64, number: u32) -> Result<Option<Prepared>, Memory>
    ensures { IfOk result (λ found. IfSome found IsPrepared) }
{
    let url = uri(alloc, number)?;
    let stream = origin(alloc, seed, number)?;
    let Ok(uri) = std::str::from_utf8(url.as_slice()) else {
        return Ok(None);
    };
    let exchanged = Exchanged {
        date: date(number),
        method: "GET",
        uri,
        stream: stream.as_slice(),
    };
    prepared_of(alloc, &exchanged)
}

/// Why the capture isn't stored.
fn fault_of<D: Disk>(
    alloc: Global,
    archive: &mut Archive<D>,
    prepared: Prepared,
) -> Result<Option<String>, Memory>
    requires { IsPrepared prepared }
{
    fault_in(alloc, archive.store(alloc, &prepared.taken))
}

fn fault_in(alloc: Global, stored: Result<Receipt, StoreFault>) -> Result<Option<String>, Memory> {
    match stored {
        Ok(_) => Ok(None),
        Err(fault) => Ok(Some(store_fault_text(alloc, fault)?)),
    }
}
