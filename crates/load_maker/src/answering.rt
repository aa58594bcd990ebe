//! What origins answer.
ghost use Rattle.std.specs.Prelude.{◌≡◌, ◌++◌, IfOk, OnOk};
ghost use Rattle.load_maker.specs.Load as load;

use crate::exchange::page_of;
use capture::{Bytes, Memory, put_all, put_number};
use std::alloc::Global;

/// No payload is as long, in bytes.
const LONGEST: u128 = 2_049;

/// Room for the longest head, in bytes.
const HEAD_ROOM: usize = 80;

/// What the origin of an exchange sends: a response with its payload. `seed` is the number of the load: another one gives
/// payloads of other lengths.
pub fn origin(alloc: Global, seed: u64, number: u32) -> Result<Bytes, Memory>
    ensures { IfOk result (λ text. text ≡ load.origin_text seed number) }
{
    let len = payload_len(seed, number);
    let mut out = Vec::with_capacity(alloc, HEAD_ROOM + len)?;
    put_head(&mut out, len as u64)?;
    put_payload(&mut out, seed, number)?;
    Ok(Bytes::of(out))
}

/// The payload of an exchange: one letter, over and over.
pub fn payload(alloc: Global, seed: u64, number: u32) -> Result<Bytes, Memory>
    ensures { IfOk result (λ text. text ≡ load.payload seed number) }
{
    let mut out = Vec::new(alloc);
    put_payload(&mut out, seed, number)?;
    Ok(Bytes::of(out))
}

/// How long the payload of an exchange is, in bytes: below 2,049.
pub(crate) fn payload_len(seed: u64, number: u32) -> usize
    ensures { result ≡ load.payload_len seed number }
{
    let page = page_of(number);
    ((u128::from(seed) + 97 * u128::from(page)) % LONGEST) as usize
}

/// Puts the head of a response with a payload of so many bytes.
#[tactic(auto, unfolding(crate::specs::Load::head_text))]
pub(crate) fn put_head(out: &mut Vec<u8>, len: u64) -> Result<(), Memory>
    ensures { OnOk result (out.new.items ≡ out.old.items ++ load.head_text len) }
{
    put_front(out)?;
    put_number(out, len)?;
    put_all(out, b"\r\n\r\n")
}

/// Puts what stands before the length in each response's head.
#[tactic(auto, unfolding(crate::specs::Load::head_front))]
fn put_front(out: &mut Vec<u8>) -> Result<(), Memory>
    ensures { OnOk result (out.new.items ≡ out.old.items ++ load.head_front) }
{
    put_all(
        out,
        b"HTTP/1.1 200 OK\r\nContent-Type: text/plain\r\nContent-Length: ",
    )
}

/// Puts the payload of an exchange.
pub(crate) fn put_payload(out: &mut Vec<u8>, seed: u64, number: u32) -> Result<(), Memory>
    ensures { OnOk result (out.new.items ≡ out.old.items ++ load.payload seed number) }
{
    let letter = b'a' + (page_of(number) % 26) as u8;
    let end = out
        .len()
        .checked_add(payload_len(seed, number))
        .ok_or(Memory)?;
    out.resize(end, letter)?;
    Ok(())
}
