//! What a store and an opening tell.
use archive_shelf::{Counts, Receipt, ReopenFault, StoreFault};
use capture::{Digest, Memory};
use digest32::base32_of;
use std::alloc::Global;

/// `stored` and the capture's number, and behind `as` that of the one that it refers to.
pub fn receipt_text(alloc: Global, receipt: Receipt) -> Result<String, Memory> {
    let number = receipt.number;
    match receipt.same_as {
        Some(same) => Ok(format!(in alloc; "stored {number} as {same}")?),
        None => Ok(format!(in alloc; "stored {number}")?),
    }
}

/// The fault's name, and what it tells.
pub fn store_fault_text(alloc: Global, fault: StoreFault) -> Result<String, Memory> {
    match fault {
        StoreFault::Full { count, limit } => Ok(format!(in alloc; "Full {count} {limit}")?),
        StoreFault::DiskFault => Ok(String::from_str(alloc, "DiskFault")?),
        StoreFault::Damaged {
            number,
            kept,
            found,
        } => damage_text(alloc, number, &kept, found),
        StoreFault::Memory => Err(Memory),
    }
}

/// `Damaged`, the number of the capture that keeps the payload, the digest that is kept, and the one that was found or `-`.
pub fn damage_text(
    alloc: Global,
    number: u32,
    kept: &Digest,
    found: Option<Digest>,
) -> Result<String, Memory> {
    let mut text = format!(in alloc; "Damaged {number} ")?;
    put_digests(&mut text, kept, found)?;
    Ok(text)
}

fn put_digests(text: &mut String, kept: &Digest, found: Option<Digest>) -> Result<(), Memory> {
    put_digest(text, kept)?;
    text.push(' ')?;
    match found {
        Some(digest) => put_digest(text, &digest),
        None => Ok(text.push('-')?),
    }
}

/// Puts a digest in base32.
pub fn put_digest(text: &mut String, digest: &Digest) -> Result<(), Memory> {
    let digits = base32_of(digest);
    for byte in digits.as_slice() {
        text.push(*byte as char)?;
    }
    Ok(())
}

/// How many captures, revisits and volumes there are.
pub fn counts_text(alloc: Global, counts: Counts) -> Result<String, Memory> {
    let (captures, revisits, volumes) = (counts.captures, counts.revisits, counts.volumes);
    Ok(format!(in alloc; "captures {captures} revisits {revisits} volumes {volumes}")?)
}

/// Why an archive wasn't opened.
pub fn reopen_fault_text(alloc: Global, fault: ReopenFault) -> Result<String, Memory> {
    match fault {
        ReopenFault::Damaged {
            kind: _,
            file,
            place,
        } => Ok(format!(in alloc; "Damaged {file} {place}")?),
        ReopenFault::OtherNamespace(namespace) => {
            Ok(format!(in alloc; "OtherNamespace {namespace}")?)
        }
        ReopenFault::DiskFault => Ok(String::from_str(alloc, "DiskFault")?),
        ReopenFault::Memory => Err(Memory),
    }
}
