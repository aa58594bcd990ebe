//! The openings of response and revisit records (ISO 28500, WARC 1.1, sections 6.3 and 6.7).
ghost use Rattle.std.specs.Prelude.{◌≡◌, ℕ, List, ◌++◌, IfOk, IfErr};
ghost use Rattle.capture.specs.Target.{IsAcceptedAs};
ghost use Rattle.record_opening.specs.steps.Kinds.{IsKind};
ghost use Rattle.record_opening.specs.Openings.{IsOpening, opening_of, opening_text};
ghost use Rattle.record_opening.specs.Stops.{NoneStands};

use crate::opening_parts::{Refers, read_common, read_cut, read_revisit_end};
use crate::stop::Stop;
use crate::strip::strip;
use capture::Digest;
use std::alloc::Global;
use url::Url;
use uuid::Uuid;

/// What the opening of a response or revisit record says.
#[derive(Drop)]
pub struct Opening<'b> {
    /// The capture's date.
    pub date: u64,
    /// Its target.
    pub uri: &'b [u8],
    /// The URL that the target is parsed to.
    pub url: Url,
    /// Its payload's digest.
    pub digest: Digest,
    /// Whether the response was cut.
    pub cut: bool,
    /// The record that a revisit refers to.
    pub same: Option<Refers<'b>>,
    /// What stands behind it: the block's length, and the block.
    pub rest: &'b [u8],
}

/// Which of the two records stands there.
#[derive(Clone, Copy)]
enum AnswerKind {
    /// A response, whole or cut.
    Response,
    /// The head of a response whose payload is that of an earlier one.
    Revisit,
}

/// Reads the opening of the response or revisit record with this id.
pub fn read_opening<'b>(alloc: Global, bytes: &'b [u8], id: &Uuid) -> Result<Opening<'b>, Stop>
    ensures right { IfOk result (λ opening. IsOpening (opening_of opening)) }
    ensures url { IfOk result (λ opening. IsAcceptedAs opening.uri.now opening.url) }
    ensures ok { IfOk result (λ opening. bytes.now ≡ opening_text id.now (opening_of opening) ++ opening.rest.now) }
    ensures err { IfErr result (λ stop. NoneStands IsOpening (opening_text id.now) stop bytes.now) }
{
    let kind = kind_of(bytes)?;
    match kind {
        AnswerKind::Response => read_response(alloc, bytes, id),
        AnswerKind::Revisit => read_revisit(alloc, bytes, id),
    }
}

/// The kind of the record, which its type's third letter tells.
fn kind_of(bytes: &[u8]) -> Result<AnswerKind, Stop>
    ensures kind { IfOk result (IsKind bytes.now) }
    ensures err { IfErr result (λ stop. (id : List ℕ) → NoneStands IsOpening (opening_text id) stop bytes.now) }
{
    let letter = strip(bytes, b"WARC/1.1\r\nWARC-Type: re")?;
    match letter {
        [b's', ..] => Ok(AnswerKind::Response),
        [b'v', ..] => Ok(AnswerKind::Revisit),
        [_, ..] => Err(Stop::Wrong),
        [] => Err(Stop::Open),
    }
}

/// Reads the opening of a response.
fn read_response<'b>(alloc: Global, bytes: &'b [u8], id: &Uuid) -> Result<Opening<'b>, Stop>
    requires { IsKind bytes.now AnswerKind.Response }
    ensures right { IfOk result (λ opening. IsOpening (opening_of opening)) }
    ensures url { IfOk result (λ opening. IsAcceptedAs opening.uri.now opening.url) }
    ensures ok { IfOk result (λ opening. bytes.now ≡ opening_text id.now (opening_of opening) ++ opening.rest.now) }
    ensures err { IfErr result (λ stop. NoneStands IsOpening (opening_text id.now) stop bytes.now) }
{
    let common = read_common(alloc, bytes, b"response", id)?;
    let (cut, rest) = read_cut(common.rest)?;
    Ok(Opening {
        date: common.date,
        uri: common.uri,
        url: common.url,
        digest: common.digest,
        cut,
        same: None,
        rest,
    })
}

/// Reads the opening of a revisit.
fn read_revisit<'b>(alloc: Global, bytes: &'b [u8], id: &Uuid) -> Result<Opening<'b>, Stop>
    requires { IsKind bytes.now AnswerKind.Revisit }
    ensures right { IfOk result (λ opening. IsOpening (opening_of opening)) }
    ensures url { IfOk result (λ opening. IsAcceptedAs opening.uri.now opening.url) }
    ensures ok { IfOk result (λ opening. bytes.now ≡ opening_text id.now (opening_of opening) ++ opening.rest.now) }
    ensures err { IfErr result (λ stop. NoneStands IsOpening (opening_text id.now) stop bytes.now) }
{
    let common = read_common(alloc, bytes, b"revisit", id)?;
    // A `?` on a result that holds an id isn't covered.
    let (refers, rest) = match read_revisit_end(alloc, common.rest) {
        Ok(read) => read,
        Err(stop) => return Err(stop),
    };
    Ok(Opening {
        date: common.date,
        uri: common.uri,
        url: common.url,
        digest: common.digest,
        cut: false,
        same: Some(refers),
        rest,
    })
}
