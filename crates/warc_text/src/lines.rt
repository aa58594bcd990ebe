//! The lines of a record, and its block.
ghost use Rattle.std.specs.Prelude.{◌≡◌, ◌++◌, ◌+◌, ◌≤◌, decimal, length, OnOk};
ghost use Rattle.time_text.specs.Texts.{InRange};
ghost use Rattle.warc_text.specs.Ids.{uuid_text};
ghost use Rattle.warc_text.specs.Lines as spec;

use crate::kind::RecordKind;
use crate::put::{put_date, put_id, put_uuid};
use capture::{Digest, Memory, put_all, put_number};
use digest32::base32_of;
use uuid::Uuid;

/// Puts a field.
#[tactic(auto, unfolding(crate::specs::Lines::field))]
fn put_field(out: &mut Vec<u8>, name: &[u8], value: &[u8]) -> Result<(), Memory>
    ensures { OnOk result (out.new.items ≡ out.old.items ++ spec.field name.now value.now) }
{
    put_all(out, name)?;
    put_all(out, b": ")?;
    put_all(out, value)?;
    put_all(out, b"\r\n")
}

/// Puts a field whose value is an id.
#[tactic(auto, unfolding(crate::specs::Lines::field, crate::specs::Lines::id_field))]
fn put_id_field(out: &mut Vec<u8>, name: &[u8], id: &Uuid) -> Result<(), Memory>
    ensures { OnOk result (out.new.items ≡ out.old.items ++ spec.id_field name.now id.now) }
{
    put_all(out, name)?;
    put_all(out, b": ")?;
    put_id(out, id)?;
    put_all(out, b"\r\n")
}

/// Puts a field whose value is a date.
#[tactic(auto, unfolding(crate::specs::Lines::field, crate::specs::Lines::date_field))]
fn put_date_field(out: &mut Vec<u8>, name: &[u8], date: u64) -> Result<(), Memory>
    requires { InRange date }
    ensures { OnOk result (out.new.items ≡ out.old.items ++ spec.date_field name.now date) }
{
    put_all(out, name)?;
    put_all(out, b": ")?;
    put_date(out, date)?;
    put_all(out, b"\r\n")
}

/// Puts a field whose value is a number.
#[tactic(auto, unfolding(crate::specs::Lines::field))]
fn put_number_field(out: &mut Vec<u8>, name: &[u8], number: u64) -> Result<(), Memory>
    ensures { OnOk result (out.new.items ≡ out.old.items ++ spec.field name.now (decimal number)) }
{
    put_all(out, name)?;
    put_all(out, b": ")?;
    put_number(out, number)?;
    put_all(out, b"\r\n")
}

/// Puts a field whose value is a UUID.
#[tactic(auto, unfolding(crate::specs::Lines::field))]
fn put_uuid_field(out: &mut Vec<u8>, name: &[u8], uuid: &Uuid) -> Result<(), Memory>
    ensures { OnOk result (out.new.items ≡ out.old.items ++ spec.field name.now (uuid_text uuid.now)) }
{
    put_all(out, name)?;
    put_all(out, b": ")?;
    put_uuid(out, uuid)?;
    put_all(out, b"\r\n")
}

/// Puts the line that each record begins with.
#[tactic(auto, unfolding(crate::specs::Lines::version_line))]
fn put_version_line(out: &mut Vec<u8>) -> Result<(), Memory>
    ensures { OnOk result (out.new.items ≡ out.old.items ++ spec.version_line) }
{
    put_all(out, b"WARC/1.1\r\n")
}

/// Puts the type of a record.
#[tactic(auto, unfolding(crate::specs::Lines::field, crate::specs::Lines::type_line))]
fn put_type_line(out: &mut Vec<u8>, kind: RecordKind) -> Result<(), Memory>
    ensures { OnOk result (out.new.items ≡ out.old.items ++ spec.type_line kind) }
{
    match kind {
        RecordKind::Info => put_all(out, b"WARC-Type: warcinfo\r\n"),
        RecordKind::Response => put_all(out, b"WARC-Type: response\r\n"),
        RecordKind::Revisit => put_all(out, b"WARC-Type: revisit\r\n"),
        RecordKind::Request => put_all(out, b"WARC-Type: request\r\n"),
    }
}

/// Puts the id of a record.
#[tactic(auto, unfolding(crate::specs::Lines::id_line))]
fn put_id_line(out: &mut Vec<u8>, id: &Uuid) -> Result<(), Memory>
    ensures { OnOk result (out.new.items ≡ out.old.items ++ spec.id_line id.now) }
{
    put_id_field(out, b"WARC-Record-ID", id)
}

/// Puts the date of a record.
#[tactic(auto, unfolding(crate::specs::Lines::date_line))]
fn put_date_line(out: &mut Vec<u8>, date: u64) -> Result<(), Memory>
    requires { InRange date }
    ensures { OnOk result (out.new.items ≡ out.old.items ++ spec.date_line date) }
{
    put_date_field(out, b"WARC-Date", date)
}

/// Puts what each record begins with: the version, its type, its id and its date.
#[tactic(auto, unfolding(crate::specs::Lines::opening))]
pub fn put_opening(out: &mut Vec<u8>, kind: RecordKind, id: &Uuid, date: u64) -> Result<(), Memory>
    requires { InRange date }
    ensures { OnOk result (out.new.items ≡ out.old.items ++ spec.opening kind id.now date) }
{
    put_version_line(out)?;
    put_type_line(out, kind)?;
    put_id_line(out, id)?;
    put_date_line(out, date)
}

/// Puts the target.
#[tactic(auto, unfolding(crate::specs::Lines::target_line))]
pub fn put_target_line(out: &mut Vec<u8>, uri: &[u8]) -> Result<(), Memory>
    ensures { OnOk result (out.new.items ≡ out.old.items ++ spec.target_line uri.now) }
{
    put_field(out, b"WARC-Target-URI", uri)
}

/// Puts the digest of the payload.
#[tactic(auto, unfolding(crate::specs::Lines::field, crate::specs::Lines::digest_line))]
pub fn put_digest_line(out: &mut Vec<u8>, digest: &Digest) -> Result<(), Memory>
    ensures { OnOk result (out.new.items ≡ out.old.items ++ spec.digest_line digest.now) }
{
    put_all(out, b"WARC-Payload-Digest: sha1:")?;
    put_all(out, &base32_of(digest))?;
    put_all(out, b"\r\n")
}

/// Puts the id of the response that goes with a request.
#[tactic(auto, unfolding(crate::specs::Lines::concurrent_line))]
pub fn put_concurrent_line(out: &mut Vec<u8>, id: &Uuid) -> Result<(), Memory>
    ensures { OnOk result (out.new.items ≡ out.old.items ++ spec.concurrent_line id.now) }
{
    put_id_field(out, b"WARC-Concurrent-To", id)
}

/// Puts the id of the record that a revisit refers to.
#[tactic(auto, unfolding(crate::specs::Lines::refers_line))]
pub fn put_refers_line(out: &mut Vec<u8>, id: &Uuid) -> Result<(), Memory>
    ensures { OnOk result (out.new.items ≡ out.old.items ++ spec.refers_line id.now) }
{
    put_id_field(out, b"WARC-Refers-To", id)
}

/// Puts the target of the capture that a revisit refers to.
#[tactic(auto, unfolding(crate::specs::Lines::refers_target_line))]
pub fn put_refers_target_line(out: &mut Vec<u8>, uri: &[u8]) -> Result<(), Memory>
    ensures { OnOk result (out.new.items ≡ out.old.items ++ spec.refers_target_line uri.now) }
{
    put_field(out, b"WARC-Refers-To-Target-URI", uri)
}

/// Puts the date of the capture that a revisit refers to.
#[tactic(auto, unfolding(crate::specs::Lines::refers_date_line))]
pub fn put_refers_date_line(out: &mut Vec<u8>, date: u64) -> Result<(), Memory>
    requires { InRange date }
    ensures { OnOk result (out.new.items ≡ out.old.items ++ spec.refers_date_line date) }
{
    put_date_field(out, b"WARC-Refers-To-Date", date)
}

/// Puts the profile of a revisit, and that it ends with its head.
#[tactic(auto, unfolding(crate::specs::Lines::field, crate::specs::Lines::profile_lines))]
pub fn put_profile_lines(out: &mut Vec<u8>) -> Result<(), Memory>
    ensures { OnOk result (out.new.items ≡ out.old.items ++ spec.profile_lines) }
{
    put_all(
        out,
        b"WARC-Profile: http://netpreserve.org/warc/1.1/revisit/identical-payload-digest\r\nWARC-Truncated: length\r\n",
    )
}

/// Puts, where a response was cut, that its origin ended inside its body.
#[tactic(auto, unfolding(crate::specs::Lines::field, crate::specs::Lines::cut_line))]
pub fn put_cut_line(out: &mut Vec<u8>, cut: bool) -> Result<(), Memory>
    ensures { OnOk result (out.new.items ≡ out.old.items ++ spec.cut_line cut) }
{
    if cut {
        put_all(out, b"WARC-Truncated: disconnect\r\n")
    } else {
        Ok(())
    }
}

/// Puts the type of a record's block.
#[tactic(auto, unfolding(crate::specs::Lines::field, crate::specs::Lines::content_line))]
pub fn put_content_line(out: &mut Vec<u8>, kind: RecordKind) -> Result<(), Memory>
    ensures { OnOk result (out.new.items ≡ out.old.items ++ spec.content_line kind) }
{
    match kind {
        RecordKind::Info => put_all(out, b"Content-Type: application/warc-fields\r\n"),
        RecordKind::Response | RecordKind::Revisit => put_all(
            out,
            b"Content-Type: application/http;msgtype=response\r\n",
        ),
        RecordKind::Request => put_all(out, b"Content-Type: application/http;msgtype=request\r\n"),
    }
}

/// Puts the length of a block, and the empty line before it.
#[tactic(auto, unfolding(crate::specs::Lines::field, crate::specs::Lines::length_lines))]
pub fn put_length_lines(out: &mut Vec<u8>, length: u64) -> Result<(), Memory>
    ensures { OnOk result (out.new.items ≡ out.old.items ++ spec.length_lines length) }
{
    put_all(out, b"Content-Length: ")?;
    put_number(out, length)?;
    put_all(out, b"\r\n\r\n")
}

/// Puts what stands behind a block.
#[tactic(auto, unfolding(crate::specs::Lines::record_end))]
pub fn put_record_end(out: &mut Vec<u8>) -> Result<(), Memory>
    ensures { OnOk result (out.new.items ≡ out.old.items ++ spec.record_end) }
{
    put_all(out, b"\r\n\r\n")
}

/// The length of a block in two parts.
fn joined_length(front: &[u8], rest: &[u8]) -> u64
    ensures { result ≡ length (front.now ++ rest.now) }
{
    front.len() as u64 + rest.len() as u64
}

/// Puts what each record ends with: its block's length, an empty line, and the block, which is given
/// in two parts.
#[tactic(auto, unfolding(crate::specs::Lines::ended))]
pub fn put_block(out: &mut Vec<u8>, front: &[u8], rest: &[u8]) -> Result<(), Memory>
    ensures { OnOk result (out.new.items ≡ out.old.items ++ spec.ended (front.now ++ rest.now)) }
{
    put_length_lines(out, joined_length(front, rest))?;
    put_all(out, front)?;
    put_all(out, rest)?;
    put_record_end(out)
}

/// Puts what wrote the archive, and its version.
#[tactic(auto, unfolding(crate::specs::Lines::field, crate::specs::Lines::software_lines))]
fn put_software_lines(out: &mut Vec<u8>) -> Result<(), Memory>
    ensures { OnOk result (out.new.items ≡ out.old.items ++ spec.software_lines) }
{
    put_all(out, b"software: memproxy\r\narchive-version: 1\r\n")
}

/// Puts the namespace of the archive.
#[tactic(auto, unfolding(crate::specs::Lines::namespace_line))]
fn put_namespace_line(out: &mut Vec<u8>, namespace: &Uuid) -> Result<(), Memory>
    ensures { OnOk result (out.new.items ≡ out.old.items ++ spec.namespace_line namespace.now) }
{
    put_uuid_field(out, b"archive-namespace", namespace)
}

/// Puts the number of the volume.
#[tactic(auto, unfolding(crate::specs::Lines::volume_line))]
fn put_volume_line(out: &mut Vec<u8>, volume: u32) -> Result<(), Memory>
    ensures { OnOk result (out.new.items ≡ out.old.items ++ spec.volume_line volume) }
{
    put_number_field(out, b"archive-volume", u64::from(volume))
}

/// Puts what a `warcinfo` record says of a volume.
#[tactic(auto, unfolding(crate::specs::Lines::info_block))]
pub fn put_info_block(out: &mut Vec<u8>, namespace: &Uuid, volume: u32) -> Result<(), Memory>
    ensures { OnOk result (out.new.items ≡ out.old.items ++ spec.info_block namespace.now volume) }
{
    put_software_lines(out)?;
    put_namespace_line(out, namespace)?;
    put_volume_line(out, volume)
}
