//! A capture that is stored with what was found of its payload before.
ghost use Rattle.std.specs.Prelude.{◌≡◌, IfOk, IfSome};
ghost use Rattle.sha1.specs.Sha1.{sha1};
ghost use Rattle.archive_core.specs.Holdings.{contents_of};
ghost use Rattle.archive_core.specs.Looking.{IsRightOf};
ghost use Rattle.case_archive.specs.Timing.{IsTimed};
ghost use Rattle.case_captures.specs.Preparing.{IsPayloadOfTaken, IsPrepared};

use archive_core::{Archive, compared_payloads_serve_later};
use archive_shelf::{Looked, StoreFault};
use capture::{Digest, Memory, growth_keeps_captures};
use case_captures::{Prepared, exchanged_in, prepared_of, receipt_text, store_fault_text};
use case_language::{number_in, split_word};
use digest32::payload_digest;
use disk_model::{Disk, MemoryDisk};
use std::alloc::Global;

/// A capture, and how many calls of the disk pass between the look for its payload and the first that fails.
#[derive(Drop)]
pub struct Timed {
    pub calls: u64,
    pub prepared: Prepared,
}

/// How many calls pass, and what a step `store` is given, behind a space.
pub fn timed_in(alloc: Global, text: &[u8]) -> Result<Option<Timed>, Memory>
    ensures { IfOk result (λ found. IfSome found IsTimed) }
{
    let Some((calls, rest)) = split_word(text) else {
        return Ok(None);
    };
    let (Some(calls), Some(exchanged)) = (number_in(calls.as_bytes()), exchanged_in(rest)) else {
        return Ok(None);
    };
    match prepared_of(alloc, &exchanged)? {
        Some(prepared) => Ok(Some(Timed { calls, prepared })),
        None => Ok(None),
    }
}

/// Looks for the payload, lets so many further calls of the disk pass, and stores the capture. The archive behind that, and what is told.
pub fn stored_after(
    alloc: Global,
    mut archive: Archive<MemoryDisk>,
    timed: &Timed,
) -> (Archive<MemoryDisk>, Result<String, Memory>)
    requires { IsTimed timed.now }
{
    let prepared = &timed.prepared;
    let digest = payload_digest(prepared.payload.as_slice());
    match looked_for(alloc, &mut archive, prepared, &digest) {
        Ok(looked) => stored_with(alloc, archive.fused(timed.calls), prepared, &digest, looked),
        Err(fault) => (archive, store_fault_text(alloc, fault)),
    }
}

/// What is found of the capture's payload.
fn looked_for<D: Disk>(
    alloc: Global,
    archive: &mut Archive<D>,
    prepared: &Prepared,
    digest: &Digest,
) -> Result<Looked, StoreFault>
    requires has { IsPayloadOfTaken prepared.now.taken prepared.now.payload }
    requires digest { digest.now ≡ sha1 prepared.now.payload }
    ensures { IfOk result (λ looked. IsRightOf (contents_of archive.new) prepared.now.taken looked) }
{
    compared_payloads_serve_later();
    growth_keeps_captures();
    match archive.compare(alloc, prepared.payload.as_slice(), digest, Looked::none()) {
        Ok(looked) => Ok(looked),
        Err(fault) => Err(fault),
    }
}

/// Stores the capture with what was found of its payload. The archive behind that, and what is told.
fn stored_with<D: Disk>(
    alloc: Global,
    mut archive: Archive<D>,
    prepared: &Prepared,
    digest: &Digest,
    looked: Looked,
) -> (Archive<D>, Result<String, Memory>)
    requires prepared { IsPrepared prepared.now }
    requires digest { digest.now ≡ sha1 prepared.now.payload }
    requires right { IsRightOf (contents_of archive) prepared.now.taken looked }
{
    let told = told_with(alloc, &mut archive, prepared, digest, looked);
    (archive, told)
}

/// Stores the capture with what was found of its payload, and tells what that answers.
fn told_with<D: Disk>(
    alloc: Global,
    archive: &mut Archive<D>,
    prepared: &Prepared,
    digest: &Digest,
    looked: Looked,
) -> Result<String, Memory>
    requires prepared { IsPrepared prepared.now }
    requires digest { digest.now ≡ sha1 prepared.now.payload }
    requires right { IsRightOf (contents_of archive.old) prepared.now.taken looked }
{
    compared_payloads_serve_later();
    match archive.store_after(alloc, &prepared.taken, digest, looked) {
        Ok(receipt) => receipt_text(alloc, receipt),
        Err(fault) => store_fault_text(alloc, fault),
    }
}
