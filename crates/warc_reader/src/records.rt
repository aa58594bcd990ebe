//! Reads the record at the front of a text.
ghost use Rattle.std.specs.Prelude.{◌≡◌, ◌≤◌, ◌++◌, ℕ, List, [], map, length, All, Some, IfOk, IfSome, IfNone, IsErrOf};
ghost use Rattle.httparse.specs.Grammar.{Field as FieldForm, IsField, LineEnd, print_section, ReadsSection};
ghost use Rattle.capture.specs.Head.{section_len};
ghost use Rattle.capture.specs.declared.limits.TheConstants.{FIELD_LIMIT as FIELDS, HEAD_LIMIT as BYTES};
ghost use Rattle.http_head.specs.Heads.{named_value};
ghost use Rattle.http_head.specs.Sections.{HoldsFields, IsSection};
ghost use Rattle.warc_reader.specs.Records.{BeginsWithRecord, HasNoneBehind, HasVersion, HoldsBehindVersion, HoldsRecord, TellsBlock, fault_of_section, record_end, version_line};

use crate::lengths::block_len;
use crate::record::{Record, RecordFault};
use capture::{FIELD_LIMIT, HEAD_LIMIT, Items, heads_end_at_the_first_empty_line};
use http_head::{Field, WireFault, find_section_end, read_section};
use std::alloc::Global;

/// The version lines (ISO 28500:2017, section 4).
const VERSION_10: &[u8] = b"WARC/1.0\r\n";

const VERSION_11: &[u8] = b"WARC/1.1\r\n";

/// The two empty lines behind a block.
const RECORD_END: &[u8] = b"\r\n\r\n";

/// The record at the front of the text (ISO 28500:2017, sections 4 and 5): `WARC/1.0` or `WARC/1.1`; a section of at most
/// 65,536 bytes and 128 fields, with one WARC-Type and one Content-Length; its block; two empty lines. NotARecord: no record
/// stands there. The fields have memory of their own.
pub fn read_record<'b>(alloc: Global, text: &'b [u8]) -> Result<Record<'b>, RecordFault>
    ensures ok { IfOk result (HoldsRecord text.now) }
    ensures not_a_record { IsErrOf result RecordFault.NotARecord → ¬ (BeginsWithRecord text.now) }
{
    match after_version(text) {
        Some(rest) => read_behind_version(alloc, rest),
        None => Err(RecordFault::NotARecord),
    }
}

/// What stands behind the version line.
fn after_version(text: &[u8]) -> Option<&[u8]>
    ensures some { IfSome result (λ rest. HasVersion text.now rest.now) }
    ensures none { IfNone result ((minor : ℕ) (rest : List ℕ) → minor ≤ 1 → ¬ (text.now ≡ version_line minor ++ rest)) }
{
    if text.len() < VERSION_10.len() {
        return None;
    }
    let (line, rest) = text.split_at(VERSION_10.len());
    if line == VERSION_10 {
        return Some(rest);
    }
    if line == VERSION_11 {
        return Some(rest);
    }
    None
}

/// The section of fields at the front of the text, the block and the rest.
fn read_behind_version<'b>(alloc: Global, text: &'b [u8]) -> Result<Record<'b>, RecordFault>
    ensures ok { IfOk result (HoldsBehindVersion text.now) }
    ensures not_a_record { IsErrOf result RecordFault.NotARecord → HasNoneBehind text.now }
{
    heads_end_at_the_first_empty_line();
    let (section, behind) = match split_section(text) {
        Some(parts) => parts,
        None => return Err(RecordFault::NotARecord),
    };
    let fields = match read_fields(alloc, section) {
        Ok(fields) => fields,
        Err(fault) => return Err(fault),
    };
    match split_block(fields.as_slice(), behind) {
        Some((block, rest)) => Ok(Record {
            fields,
            block,
            rest,
        }),
        None => Err(RecordFault::NotARecord),
    }
}

/// The section of fields at the front of the text, which is within its limit, and what stands behind it.
fn split_section(text: &[u8]) -> Option<(&[u8], &[u8])>
    ensures composed { IfSome result (λ parts. text.now ≡ parts.0.now ++ parts.1.now) }
    ensures ends { IfSome result (λ parts. section_len text.now ≡ Some (length parts.0.now)) }
    ensures short { IfSome result (λ parts. length parts.0.now ≤ BYTES) }
    ensures none { IfNone result ((fields : List FieldForm) (end : LineEnd) (rest : List ℕ) → All IsField fields
        → length (print_section fields end) ≤ BYTES → ¬ (text.now ≡ print_section fields end ++ rest)) }
{
    heads_end_at_the_first_empty_line();
    match find_section_end(text) {
        Some(end) => {
            if end > HEAD_LIMIT {
                return None;
            }
            if end > text.len() {
                return None;
            }
            Some(text.split_at(end))
        }
        None => None,
    }
}

/// The fields of the section that the text is, of which there are no more than the limit.
fn read_fields(alloc: Global, section: &[u8]) -> Result<Items<Field>, RecordFault>
    ensures ok { IfOk result (HoldsFields section.now) }
    ensures few { IfOk result (λ fields. length fields ≤ FIELDS) }
    ensures not_a_record { IsErrOf result RecordFault.NotARecord → (fields : List FieldForm) (end : LineEnd)
        → ReadsSection section.now fields end [] → ¬ (length fields ≤ FIELDS) }
{
    let fields = match read_section(alloc, section) {
        Ok(fields) => fields,
        Err(fault) => return Err(section_fault(fault)),
    };
    if fields.as_slice().len() > FIELD_LIMIT {
        return Err(RecordFault::NotARecord);
    }
    Ok(fields)
}

/// The block at the front of the text, of which the fields tell, and what stands behind its two empty lines.
fn split_block<'b>(fields: &[Field], text: &'b [u8]) -> Option<(&'b [u8], &'b [u8])>
    ensures told { IfSome result (λ parts. TellsBlock (map named_value fields.now) (length parts.0.now)) }
    ensures composed { IfSome result (λ parts. text.now ≡ parts.0.now ++ record_end ++ parts.1.now) }
    ensures none { IfNone result ((block rest : List ℕ) → TellsBlock (map named_value fields.now) (length block)
        → ¬ (text.now ≡ block ++ record_end ++ rest)) }
{
    match block_len(fields) {
        Some(len) => {
            if len > text.len() {
                return None;
            }
            let (block, behind) = text.split_at(len);
            match after_end(behind) {
                Some(rest) => Some((block, rest)),
                None => None,
            }
        }
        None => None,
    }
}

/// What stands behind the two empty lines.
fn after_end(text: &[u8]) -> Option<&[u8]>
    ensures some { IfSome result (λ rest. text.now ≡ record_end ++ rest.now) }
    ensures none { IfNone result ((rest : List ℕ) → ¬ (text.now ≡ record_end ++ rest)) }
{
    if text.len() < RECORD_END.len() {
        return None;
    }
    let (end, rest) = text.split_at(RECORD_END.len());
    if end == RECORD_END { Some(rest) } else { None }
}

/// Why a text that is no section of fields gives no record.
fn section_fault(fault: WireFault) -> RecordFault
    ensures { result ≡ fault_of_section fault }
{
    match fault {
        WireFault::Memory => RecordFault::Memory,
        _ => RecordFault::NotARecord,
    }
}
