//! The records of a capture.
ghost use Rattle.std.specs.Prelude.{◌≡◌, ◌++◌, IfOk, OnOk, IfSome, option_copied};
ghost use Rattle.time_text.specs.Texts.{InRange};
ghost use Rattle.warc_text.specs.References.{reference_to, reference_of};
ghost use Rattle.warc_text.specs.Records as spec;

use crate::SameOf;
use crate::id::{IdKind, id_of};
use crate::kind::RecordKind;
use crate::lines::{
    put_block, put_concurrent_line, put_content_line, put_cut_line, put_digest_line, put_opening,
    put_profile_lines, put_refers_date_line, put_refers_line, put_refers_target_line,
    put_target_line,
};
use capture::{Bytes, Digest, Memory, Taken};
use std::alloc::Global;
use uuid::Uuid;

/// More than what the two records have beside a capture's own texts.
const ADDED: usize = 2048;

/// Puts the group of a capture by its number at the end of a text: a response record, or a revisit
/// record where it is the same as an earlier capture, and a request record (ISO 28500, sections 6.3,
/// 6.7 and 6.5). `digest` is that of its payload.
#[tactic(auto, unfolding(crate::specs::Records::group_text, crate::specs::Records::answer_text, crate::specs::Records::response_text, crate::specs::Records::revisit_text, crate::specs::Records::revisit_opening))]
pub fn put_group(
    out: &mut Vec<u8>,
    namespace: &Uuid,
    number: u32,
    taken: &Taken,
    digest: &Digest,
    same: Option<&SameOf>,
) -> Result<(), Memory>
    requires date { InRange taken.now.date }
    requires same_date { IfSome (option_copied same) (λ s. InRange s.date) }
    ensures { OnOk result (out.new.items ≡ out.old.items
        ++ spec.group_text namespace.now number taken.now digest.now (reference_of namespace.now (option_copied same.entry))) }
{
    out.reserve(capacity_for(taken, same))?;
    let id = id_of(namespace, IdKind::Response, number);
    match same {
        None => {
            put_response_opening(out, &id, taken, digest)?;
            put_block(out, taken.head.as_slice(), taken.wire.as_slice())?;
        }
        Some(same) => {
            put_revisit_front(out, &id, taken, digest)?;
            put_revisit_end(out, namespace, same)?;
            put_block(out, taken.head.as_slice(), b"")?;
        }
    }
    let request_id = id_of(namespace, IdKind::Request, number);
    put_request(out, &request_id, &id, taken)
}

/// The group of a capture by its number, as [`put_group`] puts it.
pub fn group_text(
    alloc: Global,
    namespace: &Uuid,
    number: u32,
    taken: &Taken,
    digest: &Digest,
    same: Option<&SameOf>,
) -> Result<Bytes, Memory>
    requires date { InRange taken.now.date }
    requires same_date { IfSome (option_copied same) (λ s. InRange s.date) }
    ensures { IfOk result (λ text. text
        ≡ spec.group_text namespace.now number taken.now digest.now (reference_of namespace.now (option_copied same.entry))) }
{
    let mut out = Vec::new(alloc);
    put_group(&mut out, namespace, number, taken, digest, same)?;
    Ok(Bytes::of(out))
}

/// Room for the group, which needn't be exact. A revisit has no wire, and another target.
fn capacity_for(taken: &Taken, same: Option<&SameOf>) -> usize {
    let other = match same {
        None => taken.wire.as_slice().len(),
        Some(same) => same.uri.as_slice().len(),
    };
    let uri = taken.uri.as_slice().len();
    let answer = taken.head.as_slice().len().saturating_add(other);
    let request = taken.request.as_slice().len().saturating_add(ADDED);
    let targets = uri.saturating_add(uri);
    answer.saturating_add(request).saturating_add(targets)
}

/// Puts the opening of the response record of a capture that keeps its wire.
#[tactic(auto, unfolding(crate::specs::Records::response_opening))]
fn put_response_opening(
    out: &mut Vec<u8>,
    id: &Uuid,
    taken: &Taken,
    digest: &Digest,
) -> Result<(), Memory>
    requires { InRange taken.now.date }
    ensures { OnOk result (out.new.items ≡ out.old.items
        ++ spec.response_opening id.now taken.now.date taken.now.uri digest.now taken.now.cut) }
{
    put_opening(out, RecordKind::Response, id, taken.date)?;
    put_target_line(out, taken.uri.as_slice())?;
    put_digest_line(out, digest)?;
    put_cut_line(out, taken.cut)?;
    put_content_line(out, RecordKind::Response)
}

/// Puts what the opening of a revisit record says of the capture itself.
#[tactic(auto, unfolding(crate::specs::Records::revisit_front))]
fn put_revisit_front(
    out: &mut Vec<u8>,
    id: &Uuid,
    taken: &Taken,
    digest: &Digest,
) -> Result<(), Memory>
    requires { InRange taken.now.date }
    ensures { OnOk result (out.new.items ≡ out.old.items
        ++ spec.revisit_front id.now taken.now.date taken.now.uri digest.now) }
{
    put_opening(out, RecordKind::Revisit, id, taken.date)?;
    put_target_line(out, taken.uri.as_slice())?;
    put_digest_line(out, digest)
}

/// Puts what it says of the capture that it refers to, and the type of its block.
#[tactic(auto, unfolding(crate::specs::Records::refers_to, crate::specs::Records::revisit_end))]
fn put_revisit_end(out: &mut Vec<u8>, namespace: &Uuid, same: &SameOf) -> Result<(), Memory>
    requires { InRange same.now.date }
    ensures { OnOk result (out.new.items ≡ out.old.items
        ++ spec.revisit_end (reference_to namespace.now same.now)) }
{
    let id = id_of(namespace, IdKind::Response, same.number);
    put_refers_line(out, &id)?;
    put_refers_target_line(out, same.uri.as_slice())?;
    put_refers_date_line(out, same.date)?;
    put_profile_lines(out)?;
    put_content_line(out, RecordKind::Revisit)
}

/// Puts the request record of a capture, beside the response or revisit record with `answer_id`.
#[tactic(auto, unfolding(crate::specs::Records::request_text, crate::specs::Records::request_opening))]
fn put_request(out: &mut Vec<u8>, id: &Uuid, answer_id: &Uuid, taken: &Taken) -> Result<(), Memory>
    requires { InRange taken.now.date }
    ensures { OnOk result (out.new.items ≡ out.old.items ++ spec.request_text id.now answer_id.now taken.now) }
{
    put_opening(out, RecordKind::Request, id, taken.date)?;
    put_target_line(out, taken.uri.as_slice())?;
    put_concurrent_line(out, answer_id)?;
    put_content_line(out, RecordKind::Request)?;
    put_block(out, taken.request.as_slice(), b"")
}
