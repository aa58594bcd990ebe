//! What a record gives.
ghost use Rattle.std.specs.Prelude.{◌≡◌, ℕ, List, map, IfOk, IfErr, IfSome, IfNone};
ghost use Rattle.capture.specs.Fields.{named_values};
ghost use Rattle.http_head.specs.Heads.{named_value};
ghost use Rattle.warc_reader.specs.Fields.{kind_of as kind_by};
ghost use Rattle.warc_reader.specs.Files.{HasNotTaken, Knows, asked_with};
ghost use Rattle.warc_reader.specs.Imports.{IsDated, IsOutcome, IsResponseRecord, IsTaken};
ghost use Rattle.warc_reader.specs.Records.{IsFile, WarcRecord};
ghost use Rattle.warc_reader.specs.Requests.{IsAskedFor, Placed, placed_from};
ghost use Rattle.warc_reader.specs.declared.kind.Kind.TheVariants.{Response};

use crate::asking::{Ask, asked_for};
use crate::blocks::{BlockFault, read_response};
use crate::dates::read_date;
use crate::fields::{has_http_type, is_segmented, is_truncated, kind_of};
use crate::import::{Outcome, Reason, Skipped};
use crate::kind::Kind;
use crate::record::Record;
use crate::requests::Requests;
use crate::targets::accepted_target;
use capture::{Memory, Taken, Text};
use http_head::{Field, Received, first_value};
use std::alloc::Global;

/// Why a response record gives no capture.
#[derive(Clone, Copy)]
pub enum NotTaken {
    /// For this reason.
    Because(Reason),
    /// There was no memory.
    Memory,
}

/// What the record at this place of the file gives.
pub fn outcome_of(
    alloc: Global,
    file: &[u8],
    requests: &Requests,
    parts: &Record,
    at: usize,
) -> Result<Outcome, Memory>
    requires { Knows file.now requests.now }
    ensures { IfOk result (λ outcome. (records : List WarcRecord) (form : WarcRecord) → IsFile records file.now
        → map named_value parts.now.fields ≡ named_values form.fields → parts.now.block.now ≡ form.block
        → IsOutcome (placed_from 0 records) (record { at = at; form = form }) outcome) }
{
    match kind_of(parts.fields.as_slice()) {
        Kind::Response => {
            match take_response(alloc, file, requests, parts.fields.as_slice(), parts.block) {
                Ok(taken) => Ok(Outcome::Taken(taken)),
                Err(NotTaken::Because(reason)) => Ok(skipped(at, reason)),
                Err(NotTaken::Memory) => Err(Memory),
            }
        }
        Kind::Revisit => Ok(skipped(at, Reason::Revisit)),
        Kind::Request => Ok(Outcome::PassedOver),
        Kind::Other => Ok(Outcome::PassedOver),
    }
}

/// A record that is skipped.
fn skipped(at: usize, reason: Reason) -> Outcome
    ensures { result ≡ Outcome.Skipped (record { at = at; reason = reason }) }
{
    Outcome::Skipped(Skipped {
        at: at as u64,
        reason,
    })
}

/// The capture that a response record of these fields and this block gives.
fn take_response(
    alloc: Global,
    file: &[u8],
    requests: &Requests,
    fields: &[Field],
    block: &[u8],
) -> Result<Taken, NotTaken>
    requires known { Knows file.now requests.now }
    requires typed { kind_by (map named_value fields.now) ≡ Response }
    ensures ok { IfOk result (λ taken. (records : List WarcRecord) → IsFile records file.now
        → IsTaken (placed_from 0 records) (map named_value fields.now) block.now taken) }
    ensures not_taken { IfErr result (λ why. (records : List WarcRecord) → IsFile records file.now
        → HasNotTaken (placed_from 0 records) (map named_value fields.now) block.now why) }
{
    if !has_http_type(fields) {
        return Err(NotTaken::Because(Reason::ContentType));
    }
    let uri = match accepted_target(alloc, fields) {
        Ok(Some(uri)) => uri,
        Ok(None) => return Err(NotTaken::Because(Reason::Target)),
        Err(_) => return Err(NotTaken::Memory),
    };
    match date_of(fields) {
        Some(date) => take_dated(alloc, file, requests, fields, block, uri, date),
        None => Err(NotTaken::Because(Reason::Date)),
    }
}

/// The same, where the record has an accepted target and a date.
fn take_dated(
    alloc: Global,
    file: &[u8],
    requests: &Requests,
    fields: &[Field],
    block: &[u8],
    uri: Text,
    date: u64,
) -> Result<Taken, NotTaken>
    requires known { Knows file.now requests.now }
    requires response { IsResponseRecord (map named_value fields.now) uri }
    requires dated { IsDated (map named_value fields.now) date }
    ensures ok { IfOk result (λ taken. (records : List WarcRecord) → IsFile records file.now
        → IsTaken (placed_from 0 records) (map named_value fields.now) block.now taken) }
    ensures not_taken { IfErr result (λ why. (records : List WarcRecord) → IsFile records file.now
        → HasNotTaken (placed_from 0 records) (map named_value fields.now) block.now why) }
{
    match asked_for(alloc, file, requests, fields, uri.as_slice()) {
        Ok(ask) => take_answer(alloc, fields, block, uri, date, ask),
        Err(_) => Err(NotTaken::Memory),
    }
}

/// The same, where this was asked.
fn take_answer(
    alloc: Global,
    fields: &[Field],
    block: &[u8],
    uri: Text,
    date: u64,
    ask: Ask,
) -> Result<Taken, NotTaken>
    requires response { IsResponseRecord (map named_value fields.now) uri }
    requires dated { IsDated (map named_value fields.now) date }
    ensures ok { IfOk result (λ taken. (all : List Placed) → IsAskedFor all (map named_value fields.now) uri (asked_with ask)
        → IsTaken all (map named_value fields.now) block.now taken) }
    ensures not_taken { IfErr result (λ why. (all : List Placed) → IsAskedFor all (map named_value fields.now) uri (asked_with ask)
        → HasNotTaken all (map named_value fields.now) block.now why) }
{
    if is_segmented(fields) {
        return Err(NotTaken::Because(Reason::Message));
    }
    match read_response(alloc, ask.method.as_slice(), is_truncated(fields), block) {
        Ok(received) => Ok(taken_of(uri, date, ask, received)),
        Err(BlockFault::NoMessage) => Err(NotTaken::Because(Reason::Message)),
        Err(BlockFault::Memory) => Err(NotTaken::Memory),
    }
}

/// The capture of these parts.
fn taken_of(uri: Text, date: u64, ask: Ask, received: Received) -> Taken
    ensures { result ≡ record {
      method = ask.method;
      uri = uri;
      date = date;
      request = ask.text;
      head = received.head.text;
      wire = received.wire;
      cut = received.cut;
    } }
{
    let Ask { method, text } = ask;
    let Received {
        head,
        wire,
        cut,
        ..
    } = received;
    Taken {
        method,
        uri,
        date,
        request: text,
        head: head.text,
        wire,
        cut,
    }
}

/// The date of a record.
fn date_of(fields: &[Field]) -> Option<u64>
    ensures some { IfSome result (IsDated (map named_value fields.now)) }
    ensures none { IfNone result ((date : ℕ) → ¬ (IsDated (map named_value fields.now) date)) }
{
    match first_value(fields, b"warc-date") {
        Some(text) => read_date(text),
        None => None,
    }
}
