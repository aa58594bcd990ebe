//! What is kept of a group, in memory of its own.
ghost use Rattle.std.specs.Prelude.{◌≡◌, option_map, IfOk, IfSome, IsTrue};
ghost use Rattle.capture.specs.Target.{is_accepted_uri};
ghost use Rattle.record_opening.specs.Openings.{reference_of};
ghost use Rattle.warc_scan.specs.steps.Founds.{AreCopies, IsFound};
ghost use Rattle.warc_scan.specs.steps.Responses.{kept_by};
ghost use Rattle.warc_scan.specs.Groups.{reference_in};

use crate::Revisited;
use crate::answer::{Answer, Form};
use crate::find::Found;
use capture::{Bytes, Kept, Memory, Text};
use record_opening::Refers;
use std::alloc::Global;

/// What a group keeps of its parts.
#[derive(Drop)]
pub struct Copies {
    /// The target.
    pub uri: Text,
    /// The request.
    pub request: Bytes,
    /// The response's head.
    pub head: Bytes,
    /// The record that a revisit refers to.
    pub same: Option<Revisited>,
    /// What is kept of the response.
    pub kept: Kept,
}

/// Copies of these parts, of which this is the response.
pub fn copy_parts(alloc: Global, found: &Found<'_>, answer: &Answer<'_>) -> Result<Copies, Memory>
    requires { IsFound found.now }
    ensures { IfOk result (AreCopies found.now answer.now) }
{
    let uri = copy_target(alloc, found.opening.uri)?;
    let request = Bytes::from_slice(alloc, found.request)?;
    let head = Bytes::from_slice(alloc, answer.head)?;
    let same = copy_revisited(alloc, &found.opening.same)?;
    let kept = copy_kept(alloc, answer)?;
    Ok(Copies {
        uri,
        request,
        head,
        same,
        kept,
    })
}

/// What is kept of a response. Which capture a revisit is of isn't known yet.
fn copy_kept(alloc: Global, answer: &Answer<'_>) -> Result<Kept, Memory>
    ensures { IfOk result (λ kept. kept ≡ kept_by answer.now.form answer.now.wire.now) }
{
    match answer.form {
        Form::Whole => Ok(Kept::Wire(Bytes::from_slice(alloc, answer.wire)?)),
        Form::Revisit => Ok(Kept::Same(u32::MAX)),
        Form::Cut => Ok(Kept::Cut(Bytes::from_slice(alloc, answer.wire)?)),
    }
}

/// What is referred to, in memory of its own.
pub fn copy_revisited(alloc: Global, same: &Option<Refers<'_>>) -> Result<Option<Revisited>, Memory>
    requires { IfSome same.now (λ refers. IsTrue (is_accepted_uri refers.uri.now)) }
    ensures { IfOk result (λ revisited. reference_in revisited ≡ option_map reference_of same.now) }
{
    match same {
        None => Ok(None),
        Some(refers) => {
            let uri = copy_target(alloc, refers.uri)?;
            Ok(Some(Revisited {
                id: refers.id,
                uri,
                date: refers.date,
            }))
        }
    }
}

/// A copy of an accepted target.
pub fn copy_target(alloc: Global, uri: &[u8]) -> Result<Text, Memory>
    requires { IsTrue (is_accepted_uri uri.now) }
    ensures { IfOk result (λ text. text ≡ uri.now) }
{
    match Text::of(Vec::from_slice(alloc, uri)?) {
        Some(text) => Ok(text),
        None => unreachable!(),
    }
}
