//! The parts of openings of records: all up to a block's length (ISO 28500, WARC 1.1, sections 5 and 6).
ghost use Rattle.std.specs.Prelude.{◌≡◌, ⊤, ◌++◌, length, IfOk, IfErr};
ghost use Rattle.capture.specs.Target.{IsAcceptedAs};
ghost use Rattle.digest32.specs.Base32.{IsDigest};
ghost use Rattle.time_text.specs.Texts.{InRange};
ghost use Rattle.warc_text.specs.Ids.{IsUuid};
ghost use Rattle.warc_text.specs.Lines.{concurrent_line, cut_line, content_line, date_line, digest_line, profile_lines, refers_line};
ghost use Rattle.warc_text.specs.Records.{request_opening, revisit_end};
ghost use Rattle.warc_text.specs.declared.kind.RecordKind.TheVariants as kinds;
ghost use Rattle.record_opening.specs.Openings.{IsOpening, IsRevisited, IsTarget, reference_of};
ghost use Rattle.record_opening.specs.steps.OpeningFronts.{front_text, start_text};
ghost use Rattle.record_opening.specs.Stops.{Differs, NoneStands};

use crate::fields::{read_date_field, read_target_field, read_uuid, strip_field, strip_uuid};
use crate::form::{DIGEST_FORM, open_form};
use crate::stop::Stop;
use crate::strip::strip;
use capture::Digest;
use digest32::read_base32;
use std::alloc::Global;
use time_text::write_warc;
use url::Url;
use uuid::Uuid;

/// The length of a digest's text.
const DIGEST_LEN: usize = 32;

/// The record that a revisit refers to.
#[derive(Clone, Copy)]
pub struct Refers<'b> {
    /// Its id.
    pub id: Uuid,
    /// Its target.
    pub uri: &'b [u8],
    /// Its date.
    pub date: u64,
}

/// What the openings of responses and revisits have in common.
#[derive(Drop)]
pub struct Common<'b> {
    /// The capture's date.
    pub date: u64,
    /// Its target.
    pub uri: &'b [u8],
    /// The URL that the target is parsed to.
    pub url: Url,
    /// Its payload's digest.
    pub digest: Digest,
    /// What stands behind it.
    pub rest: &'b [u8],
}

/// What stands behind the version, the type and the id of a record.
pub fn strip_start<'b>(bytes: &'b [u8], word: &[u8], id: &Uuid) -> Result<&'b [u8], Stop>
    ensures ok { IfOk result (λ rest. bytes.now ≡ start_text word.now id.now ++ rest.now) }
    ensures err { IfErr result (λ stop. Differs stop bytes.now (start_text word.now id.now)) }
{
    let typed = strip(bytes, b"WARC/1.1\r\nWARC-Type: ")?;
    let named = strip(typed, word)?;
    let given = strip(named, b"\r\nWARC-Record-ID: <urn:uuid:")?;
    let end = strip_uuid(given, id)?;
    strip(end, b">\r\n")
}

/// Reads the digest of a payload.
pub fn read_digest_line(bytes: &[u8]) -> Result<(Digest, &[u8]), Stop>
    ensures ok { IfOk result (λ read. IsDigest read.0 × (bytes.now ≡ digest_line read.0 ++ read.1.now)) }
    ensures err { IfErr result (λ stop. NoneStands IsDigest digest_line stop bytes.now) }
{
    let given = strip(bytes, b"WARC-Payload-Digest: sha1:")?;
    if given.len() < DIGEST_LEN {
        return Err(open_form(given, DIGEST_FORM));
    }
    let (text, end) = given.split_at(DIGEST_LEN);
    let Some(digest) = read_base32(text) else {
        return Err(Stop::Wrong);
    };
    twenty_bytes(&digest);
    let rest = strip(end, b"\r\n")?;
    Ok((digest, rest))
}

/// What the type of a digest says of it.
fn twenty_bytes(digest: &[u8])
    requires { length digest.now ≡ 20 }
    ensures { IsDigest digest.now }
{}

/// Reads what the openings of responses and revisits have in common.
pub fn read_common<'b>(
    alloc: Global,
    bytes: &'b [u8],
    word: &[u8],
    id: &Uuid,
) -> Result<Common<'b>, Stop>
    ensures date { IfOk result (λ common. InRange common.date) }
    ensures target { IfOk result (λ common. IsTarget common.uri.now) }
    ensures url { IfOk result (λ common. IsAcceptedAs common.uri.now common.url) }
    ensures digest { IfOk result (λ common. IsDigest common.digest) }
    ensures ok { IfOk result (λ common. bytes.now
        ≡ front_text word.now id.now common.date common.uri.now common.digest ++ common.rest.now) }
    ensures err { IfErr result (λ stop. NoneStands IsOpening (λ o. front_text word.now id.now o.date o.uri o.digest) stop bytes.now) }
{
    let dated = strip_start(bytes, word, id)?;
    let (date, aimed) = read_date_field(dated, b"WARC-Date: ")?;
    let (uri, url, digested) = read_target_field(alloc, aimed, b"WARC-Target-URI: ")?;
    let (digest, rest) = read_digest_line(digested)?;
    Ok(Common {
        date,
        uri,
        url,
        digest,
        rest,
    })
}

/// Reads whether a response is marked as cut, and the type of its block.
pub fn read_cut(bytes: &[u8]) -> Result<(bool, &[u8]), Stop>
    ensures ok { IfOk result (λ read. bytes.now ≡ cut_line read.0 ++ content_line kinds.Response ++ read.1.now) }
    ensures err { IfErr result (λ stop. NoneStands (λ cut. ⊤) (λ cut. cut_line cut ++ content_line kinds.Response) stop bytes.now) }
{
    match bytes {
        [b'W', ..] => {
            let typed = strip(bytes, b"WARC-Truncated: disconnect\r\n")?;
            let rest = strip_content(typed)?;
            Ok((true, rest))
        }
        [_, ..] => {
            let rest = strip_content(bytes)?;
            Ok((false, rest))
        }
        [] => Err(Stop::Open),
    }
}

/// What stands behind the type of a response's block, which is that of a revisit's too.
fn strip_content(bytes: &[u8]) -> Result<&[u8], Stop>
    ensures ok { IfOk result (λ rest. bytes.now ≡ content_line kinds.Response ++ rest.now) }
    ensures err { IfErr result (λ stop. Differs stop bytes.now (content_line kinds.Response)) }
{
    strip(
        bytes,
        b"Content-Type: application/http;msgtype=response\r\n",
    )
}

/// Reads what a revisit says of the record that it refers to, its profile and the type of its block.
pub fn read_revisit_end(alloc: Global, bytes: &[u8]) -> Result<(Refers<'_>, &[u8]), Stop>
    ensures revisited { IfOk result (λ read. IsRevisited (reference_of read.0)) }
    ensures ok { IfOk result (λ read. bytes.now ≡ revisit_end (reference_of read.0) ++ read.1.now) }
    ensures err { IfErr result (λ stop. NoneStands IsRevisited revisit_end stop bytes.now) }
{
    let (id, aimed) = match read_refers_line(bytes) {
        Ok(read) => read,
        Err(stop) => return Err(stop),
    };
    let (uri, _, dated) = read_target_field(alloc, aimed, b"WARC-Refers-To-Target-URI: ")?;
    let (date, profiled) = read_date_field(dated, b"WARC-Refers-To-Date: ")?;
    let typed = strip_profile(profiled)?;
    let rest = strip_content(typed)?;
    Ok((Refers { id, uri, date }, rest))
}

/// Reads the id of the record that a revisit refers to.
fn read_refers_line(bytes: &[u8]) -> Result<(Uuid, &[u8]), Stop>
    ensures ok { IfOk result (λ read. IsUuid read.0 × (bytes.now ≡ refers_line read.0 ++ read.1.now)) }
    ensures err { IfErr result (λ stop. NoneStands IsUuid refers_line stop bytes.now) }
{
    let given = strip(bytes, b"WARC-Refers-To: <urn:uuid:")?;
    let read = match read_uuid(given) {
        Ok(read) => read,
        Err(stop) => return Err(stop),
    };
    let rest = strip(read.1, b">\r\n")?;
    Ok((read.0, rest))
}

/// What stands behind the profile of a revisit, and that it ends with its head.
fn strip_profile(bytes: &[u8]) -> Result<&[u8], Stop>
    ensures ok { IfOk result (λ rest. bytes.now ≡ profile_lines ++ rest.now) }
    ensures err { IfErr result (λ stop. Differs stop bytes.now profile_lines) }
{
    strip(
        bytes,
        b"WARC-Profile: http://netpreserve.org/warc/1.1/revisit/identical-payload-digest\r\nWARC-Truncated: length\r\n",
    )
}

/// What stands behind the opening of a request record beside the response with `answer_id`, all of which is known.
pub fn strip_request_opening<'b>(
    bytes: &'b [u8],
    id: &Uuid,
    answer_id: &Uuid,
    date: u64,
    uri: &[u8],
) -> Result<&'b [u8], Stop>
    requires { InRange date }
    ensures ok { IfOk result (λ rest. bytes.now ≡ request_opening id.now answer_id.now date uri.now ++ rest.now) }
    ensures err { IfErr result (λ stop. Differs stop bytes.now (request_opening id.now answer_id.now date uri.now)) }
{
    let dated = strip_start(bytes, b"request", id)?;
    let aimed = strip_date_line(dated, date)?;
    let joined = strip_field(aimed, b"WARC-Target-URI: ", uri)?;
    let typed = strip_concurrent_line(joined, answer_id)?;
    strip_request_content(typed)
}

/// What stands behind the id of the response that goes with a request.
fn strip_concurrent_line<'b>(bytes: &'b [u8], id: &Uuid) -> Result<&'b [u8], Stop>
    ensures ok { IfOk result (λ rest. bytes.now ≡ concurrent_line id.now ++ rest.now) }
    ensures err { IfErr result (λ stop. Differs stop bytes.now (concurrent_line id.now)) }
{
    let given = strip(bytes, b"WARC-Concurrent-To: <urn:uuid:")?;
    let end = strip_uuid(given, id)?;
    strip(end, b">\r\n")
}

/// What stands behind the type of a request's block.
fn strip_request_content(bytes: &[u8]) -> Result<&[u8], Stop>
    ensures ok { IfOk result (λ rest. bytes.now ≡ content_line kinds.Request ++ rest.now) }
    ensures err { IfErr result (λ stop. Differs stop bytes.now (content_line kinds.Request)) }
{
    strip(bytes, b"Content-Type: application/http;msgtype=request\r\n")
}

/// What stands behind the date of a record, which is known.
fn strip_date_line(bytes: &[u8], date: u64) -> Result<&[u8], Stop>
    requires { InRange date }
    ensures ok { IfOk result (λ rest. bytes.now ≡ date_line date ++ rest.now) }
    ensures err { IfErr result (λ stop. Differs stop bytes.now (date_line date)) }
{
    let Ok(text) = write_warc(date) else {
        unreachable!();
    };
    strip_field(bytes, b"WARC-Date: ", text.as_slice())
}
