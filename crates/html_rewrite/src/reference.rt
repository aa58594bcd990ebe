//! The references of a value: how it is read, and how an address is written into it.
ghost use Rattle.std.specs.Prelude.{◌≡◌, ◌++◌, ◌≤◌, length, IfOk, OnOk};
ghost use Rattle.html_rewrite.specs.Links as spec;

use capture::Memory;
use memchr::memchr2;
use std::alloc::Global;

/// The value as it is read: each `&amp;` as `&`.
pub fn decode(alloc: Global, value: &[u8]) -> Result<Vec<u8>, Memory>
    ensures { IfOk result (λ list. list.items ≡ spec.decoded value.now) }
{
    let mut list = Vec::with_capacity(alloc, value.len())?;
    let mut rest = value;
    'bytes: while let Some((first, others)) = rest.split_first() {
        list.push(*first)?;
        rest = behind_reference(*first, others);
    }
    Ok(list)
}

/// What stands behind the byte, without `amp;` where the byte is `&`.
fn behind_reference(first: u8, others: &[u8]) -> &[u8]
    ensures value { spec.decoded result.now ≡ spec.decoded_behind (spec.skipped first others.now) others.now }
    ensures shorter { length result.now ≤ length others.now }
{
    if first != b'&' || !others.starts_with(b"amp;") {
        return others;
    }
    let (_, rest) = others.split_at(4);
    rest
}

/// How many bytes an address takes in a value at most.
pub fn escaped_len(address: &[u8]) -> usize
    ensures { length address.now ≤ result }
{
    match memchr2(b'&', b'\'', address) {
        Some(_) => address.len().saturating_mul(5),
        None => address.len(),
    }
}

/// Puts the address behind what is written, so that it is read back from a value in any quotes.
pub fn put_escaped(out: &mut Vec<u8>, address: &[u8]) -> Result<(), Memory>
    ensures { OnOk result (out.new.items ≡ out.old.items ++ spec.escaped address.now) }
{
    match memchr2(b'&', b'\'', address) {
        Some(_) => put_escaped_bytes(out, address),
        None => {
            out.extend_from_slice(address)?;
            Ok(())
        }
    }
}

/// Puts each byte of the address, escaped where it has to be.
fn put_escaped_bytes(out: &mut Vec<u8>, address: &[u8]) -> Result<(), Memory>
    ensures { OnOk result (out.new.items ≡ out.old.items ++ spec.escaped address.now) }
{
    for byte in address {
        put_escaped_byte(out, *byte)?;
    }
    Ok(())
}

/// Puts `&amp;` for `&`, `&#39;` for `'`, and each other byte as it is.
fn put_escaped_byte(out: &mut Vec<u8>, byte: u8) -> Result<(), Memory>
    ensures { OnOk result (out.new.items ≡ out.old.items ++ spec.escaped_byte byte) }
{
    match byte {
        b'&' => out.extend_from_slice(b"&amp;")?,
        b'\'' => out.extend_from_slice(b"&#39;")?,
        _ => out.push(byte)?,
    }
    Ok(())
}
