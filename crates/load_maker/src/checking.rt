//! Whether what a recording proxy stores, or brings back, is what it makes of an exchange.
ghost use Rattle.std.specs.Prelude.{◌≡◌, ◌++◌, IfOk, OnOk, codes};
ghost use Rattle.load_maker.specs.Load as load;

use crate::answering::{payload, payload_len, put_head};
use crate::asking::uri;
use crate::exchange::{date, put_host};
use capture::{Brought, Bytes, Memory, Taken, Text, put_all, put_number};
use std::alloc::Global;

/// Why something isn't known to be what is made of an exchange.
#[derive(Clone, Copy)]
pub enum CheckFault {
    /// It is another.
    Differs,
    /// There was no memory.
    Memory,
}

impl From<Memory> for CheckFault {
    fn from(_memory: Memory) -> CheckFault {
        CheckFault::Memory
    }
}

/// Checks that a capture is that of an exchange, in each of its parts.
pub fn check_taken(alloc: Global, seed: u64, number: u32, taken: &Taken) -> Result<(), CheckFault>
    ensures { OnOk result (taken.now ≡ load.taken_of seed number) }
{
    check_asked(alloc, number, &taken.method, &taken.uri)?;
    check_date(number, taken.date)?;
    check_forwarded(alloc, number, &taken.request)?;
    check_head(alloc, seed, number, &taken.head)?;
    check_payload(alloc, seed, number, &taken.wire)?;
    if taken.cut {
        return Err(CheckFault::Differs);
    }
    Ok(())
}

/// Checks that a capture that was brought back is that of an exchange, in each of its parts.
pub fn check_brought(
    alloc: Global,
    seed: u64,
    number: u32,
    brought: &Brought,
) -> Result<(), CheckFault>
    ensures { OnOk result (brought.now ≡ load.brought_of seed number) }
{
    check_asked(alloc, number, &brought.method, &brought.uri)?;
    check_date(number, brought.date)?;
    check_head(alloc, seed, number, &brought.head)?;
    check_payload(alloc, seed, number, &brought.payload)?;
    Ok(())
}

/// Checks the method and the URL.
fn check_asked(alloc: Global, number: u32, method: &Text, target: &Text) -> Result<(), CheckFault>
    ensures method { OnOk result (method.now ≡ codes "GET") }
    ensures target { OnOk result (target.now ≡ load.uri_text number) }
{
    check_same(method.as_slice(), b"GET")?;
    let due = uri(alloc, number)?;
    check_same(target.as_slice(), due.as_slice())
}

/// Checks the date, in milliseconds since 1970.
fn check_date(number: u32, found: u64) -> Result<(), CheckFault>
    ensures { OnOk result (found ≡ load.date number) }
{
    if found == date(number) {
        return Ok(());
    }
    Err(CheckFault::Differs)
}

/// Checks what was sent to the origin.
fn check_forwarded(alloc: Global, number: u32, request: &Bytes) -> Result<(), CheckFault>
    ensures { OnOk result (request.now ≡ load.forwarded_text number) }
{
    let due = forwarded(alloc, number)?;
    check_same(request.as_slice(), due.as_slice())
}

/// Checks the head of the response.
fn check_head(alloc: Global, seed: u64, number: u32, head: &Bytes) -> Result<(), CheckFault>
    ensures { OnOk result (head.now ≡ load.head_text (load.payload_len seed number)) }
{
    let due = head_of(alloc, seed, number)?;
    check_same(head.as_slice(), due.as_slice())
}

/// Checks the payload of the response.
fn check_payload(alloc: Global, seed: u64, number: u32, found: &Bytes) -> Result<(), CheckFault>
    ensures { OnOk result (found.now ≡ load.payload seed number) }
{
    let due = payload(alloc, seed, number)?;
    check_same(found.as_slice(), due.as_slice())
}

/// Checks that bytes are those that are due.
fn check_same(found: &[u8], due: &[u8]) -> Result<(), CheckFault>
    ensures { OnOk result (found.now ≡ due.now) }
{
    if found == due {
        return Ok(());
    }
    Err(CheckFault::Differs)
}

/// The head of an exchange's response.
fn head_of(alloc: Global, seed: u64, number: u32) -> Result<Vec<u8>, Memory>
    ensures { IfOk result (λ text. text.items ≡ load.head_text (load.payload_len seed number)) }
{
    let mut out = Vec::new(alloc);
    put_head(&mut out, payload_len(seed, number) as u64)?;
    Ok(out)
}

/// What a recording proxy sends to the origin of an exchange.
fn forwarded(alloc: Global, number: u32) -> Result<Vec<u8>, Memory>
    ensures { IfOk result (λ text. text.items ≡ load.forwarded_text number) }
{
    let mut out = Vec::new(alloc);
    put_forwarded(&mut out, number)?;
    Ok(out)
}

/// Puts what a recording proxy sends to the origin of an exchange.
#[tactic(auto, unfolding(crate::specs::Load::forwarded_text))]
fn put_forwarded(out: &mut Vec<u8>, number: u32) -> Result<(), Memory>
    ensures { OnOk result (out.new.items ≡ out.old.items ++ load.forwarded_text number) }
{
    put_forwarded_begin(out, number)?;
    put_all(out, b" HTTP/1.1\r\nHost: ")?;
    put_host(out, number)?;
    put_forwarded_end(out)
}

/// Puts what stands before the version there.
#[tactic(auto, unfolding(crate::specs::Load::forwarded_begin))]
fn put_forwarded_begin(out: &mut Vec<u8>, number: u32) -> Result<(), Memory>
    ensures { OnOk result (out.new.items ≡ out.old.items ++ load.forwarded_begin number) }
{
    put_all(out, b"GET /p")?;
    put_number(out, u64::from(number))
}

/// Puts what stands behind the host there.
#[tactic(auto, unfolding(crate::specs::Load::forwarded_end))]
fn put_forwarded_end(out: &mut Vec<u8>) -> Result<(), Memory>
    ensures { OnOk result (out.new.items ≡ out.old.items ++ load.forwarded_end) }
{
    put_all(out, b"\r\nVia: 1.1 memproxy\r\nConnection: close\r\n\r\n")
}
