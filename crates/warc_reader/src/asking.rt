//! The request of a response record.
ghost use Rattle.std.specs.Prelude.{◌≡◌, ◌≢◌, ◌++◌, ◌≤◌, ℕ, List, length, map, drop, IfOk, OnOk};
ghost use Rattle.http_head.specs.Heads.{named_value};
ghost use Rattle.warc_reader.specs.Files.{Knows, asked_with};
ghost use Rattle.warc_reader.specs.Records.{BeginsWithRecord, IsFile, IsRecord, WarcRecord, print_record};
ghost use Rattle.warc_reader.specs.Requests.{IsAskedFor, IsAskedIn, made, made_request, placed_from};

use crate::record::RecordFault;
use crate::records::read_record;
use crate::requests::Requests;
use capture::{Bytes, Memory, Text, put_all};
use http_head::{Field, RequestHead, RequestMessage, WireFault};
use std::alloc::Global;
use whole_request::read_request;

/// A request of a method, in bytes.
#[derive(Drop)]
pub struct Ask {
    pub method: Text,
    pub text: Bytes,
}

/// The request of a response record of these fields for this target: the block of the first request record that stands with it,
/// where that is one whole request, else one that is made.
pub fn asked_for(
    alloc: Global,
    file: &[u8],
    requests: &Requests,
    fields: &[Field],
    uri: &[u8],
) -> Result<Ask, Memory>
    requires { Knows file.now requests.now }
    ensures { IfOk result (λ ask. (records : List WarcRecord) → IsFile records file.now
        → IsAskedFor (placed_from 0 records) (map named_value fields.now) uri.now (asked_with ask)) }
{
    match requests.find(fields) {
        Some(at) => asked_at(alloc, file, at as usize, uri),
        None => make_ask(alloc, uri),
    }
}

/// The request of the record at this place of the file.
fn asked_at(alloc: Global, file: &[u8], at: usize, uri: &[u8]) -> Result<Ask, Memory>
    requires within { at ≤ length file.now }
    requires begins { BeginsWithRecord (drop at file.now) }
    ensures { IfOk result (λ ask. (form : WarcRecord) (rest : List ℕ) → IsRecord form → drop at file.now ≡ print_record form ++ rest
        → IsAskedIn form.block uri.now (asked_with ask)) }
{
    let (_, behind) = file.split_at(at);
    match read_record(alloc, behind) {
        Ok(record) => asked_in(alloc, record.block, uri),
        Err(RecordFault::Memory) => Err(Memory),
        Err(RecordFault::NotARecord) => unreachable!(),
    }
}

/// The request that the block is, else one that is made for the target.
fn asked_in(alloc: Global, block: &[u8], uri: &[u8]) -> Result<Ask, Memory>
    ensures { IfOk result (λ ask. IsAskedIn block.now uri.now (asked_with ask)) }
{
    match read_request(alloc, block) {
        Ok(message) => ask_of(alloc, message, block),
        Err(fault) => asked_without(alloc, fault, uri),
    }
}

/// The request where a block gave none for this cause: one that is made, but where there was no memory.
fn asked_without(alloc: Global, fault: WireFault, uri: &[u8]) -> Result<Ask, Memory>
    ensures { IfOk result (λ ask. (fault ≢ WireFault.Memory) × (asked_with ask ≡ made uri.now)) }
{
    match fault {
        WireFault::Memory => Err(Memory),
        _ => make_ask(alloc, uri),
    }
}

/// The request of this message, with a copy of its text.
fn ask_of(alloc: Global, message: RequestMessage, text: &[u8]) -> Result<Ask, Memory>
    ensures { IfOk result (λ ask. (ask.method ≡ message.head.method) × (ask.text ≡ text.now)) }
{
    let RequestMessage { head, .. } = message;
    let RequestHead { method, .. } = head;
    Ok(Ask {
        method,
        text: Bytes::from_slice(alloc, text)?,
    })
}

/// A request that is made for the target.
fn make_ask(alloc: Global, uri: &[u8]) -> Result<Ask, Memory>
    ensures { IfOk result (λ ask. asked_with ask ≡ made uri.now) }
{
    let mut text = Vec::new(alloc);
    put_request(&mut text, uri)?;
    Ok(Ask {
        method: Text::from_str(alloc, "GET")?,
        text: Bytes::of(text),
    })
}

/// Puts the request that is made for the target at the end.
fn put_request(out: &mut Vec<u8>, uri: &[u8]) -> Result<(), Memory>
    ensures { OnOk result (out.new.items ≡ out.old.items ++ made_request uri.now) }
{
    put_all(out, b"GET ")?;
    put_all(out, uri)?;
    put_all(out, b" HTTP/1.0\r\n\r\n")
}
