//! Reads a whole head into its parts.
ghost use Rattle.std.specs.Prelude.{◌≡◌, ◌==◌, ◌≤◌, length, count_by, IfOk, IfErr, IsErrOf, IfSome, IfNone};
ghost use Rattle.httparse.specs.Ascii.{line_feed};
ghost use Rattle.httparse.specs.Grammar.{RequestHead as RequestForm, ResponseHead as ResponseForm};
ghost use Rattle.httparse.specs.Spans.{IsRequestWithin, IsResponseWithin};
ghost use Rattle.capture.specs.Message.{IsRequestHeadText, IsResponseHeadText};
ghost use Rattle.http_head.specs.Heads.{HoldsRequest, HoldsOutline, HoldsResponse, IsHeadFault};
ghost use Rattle.http_head.specs.steps.HeadSpans.{SpansRequest, SpansResponse};

use super::fields::has_framing;
use super::head::{RequestHead, RequestOutline, ResponseHead, WireFault};
use super::lines::line_ends_len;
use super::parts::{copy_fields, copy_text, version_of};
use super::section::make_headers;
use capture::{Bytes, Memory};
use httparse::Status;
use httparse::spans::{HeaderSpan, RequestSpans, ResponseSpans, parse_request, parse_response};
use std::alloc::Global;

/// The least status code (RFC 9110, section 15).
const LEAST_STATUS: u16 = 100;

/// The status that would leave HTTP/1.1 (RFC 9110, section 15.2.2).
const SWITCHING_PROTOCOLS: u16 = 101;

/// The parts of a request head (RFC 9112, section 3). Malformed: the text isn't one whole request head that
/// begins with its first line. There is no limit.
pub fn read_request_head(alloc: Global, text: &[u8]) -> Result<RequestHead, WireFault>
    ensures ok { IfOk result (λ head. HoldsRequest text.now head) }
    ensures malformed { IsErrOf result WireFault.Malformed → (h : RequestForm) → ¬ (IsRequestHeadText text.now h) }
    ensures faults { IfErr result IsHeadFault }
{
    let mut headers = make_headers(alloc, text)?;
    match find_request(text, headers.as_mut_slice()) {
        Some(spans) => Ok(copy_request(alloc, text, headers.as_slice(), spans)?),
        None => Err(WireFault::Malformed),
    }
}

/// The method of a request head (RFC 9112, section 3), and whether a body may stand behind it. Of its parts the method
/// alone is copied. Malformed: the text isn't one whole request head that begins with its first line. There is no limit.
pub fn read_request_outline(alloc: Global, text: &[u8]) -> Result<RequestOutline, WireFault>
    ensures ok { IfOk result (λ outline. HoldsOutline text.now outline) }
    ensures malformed { IsErrOf result WireFault.Malformed → (h : RequestForm) → ¬ (IsRequestHeadText text.now h) }
    ensures faults { IfErr result IsHeadFault }
{
    let mut headers = make_headers(alloc, text)?;
    match find_request(text, headers.as_mut_slice()) {
        Some(spans) => Ok(copy_outline(alloc, text, headers.as_slice(), spans)?),
        None => Err(WireFault::Malformed),
    }
}

/// The parts of a response head (RFC 9112, section 4). Malformed: the text isn't one whole response head that
/// begins with its first line, or its status is below 100, or it is 101. There is no limit.
pub fn read_head(alloc: Global, text: &[u8]) -> Result<ResponseHead, WireFault>
    ensures ok { IfOk result (λ head. HoldsResponse text.now head) }
    ensures malformed { IsErrOf result WireFault.Malformed → (h : ResponseForm) → ¬ (IsResponseHeadText text.now h) }
    ensures faults { IfErr result IsHeadFault }
{
    let mut headers = make_headers(alloc, text)?;
    match find_response(text, headers.as_mut_slice()) {
        Some(spans) => Ok(copy_response(alloc, text, headers.as_slice(), spans)?),
        None => Err(WireFault::Malformed),
    }
}

/// Where the parts of the request head are that the text is.
fn find_request(text: &[u8], headers: &mut [HeaderSpan]) -> Option<RequestSpans>
    requires { length headers.old ≡ count_by (λ b. b == line_feed) text.now }
    ensures within { IfSome result (IsRequestWithin text.now headers.new) }
    ensures spans { IfSome result (SpansRequest text.now headers.new) }
    ensures none { IfNone result ((h : RequestForm) → ¬ (IsRequestHeadText text.now h)) }
{
    if line_ends_len(text) != 0 {
        return None;
    }
    match parse_request(text, headers) {
        Ok(Status::Complete(spans)) => {
            if spans.len == text.len() {
                Some(spans)
            } else {
                None
            }
        }
        Ok(Status::Partial) => None,
        Err(_) => None,
    }
}

/// Where the parts of the response head are that the text is.
fn find_response(text: &[u8], headers: &mut [HeaderSpan]) -> Option<ResponseSpans>
    requires { length headers.old ≡ count_by (λ b. b == line_feed) text.now }
    ensures within { IfSome result (IsResponseWithin text.now headers.new) }
    ensures spans { IfSome result (SpansResponse text.now headers.new) }
    ensures none { IfNone result ((h : ResponseForm) → ¬ (IsResponseHeadText text.now h)) }
{
    if line_ends_len(text) != 0 {
        return None;
    }
    match parse_response(text, headers) {
        Ok(Status::Complete(spans)) => {
            if spans.len == text.len()
                && spans.code >= LEAST_STATUS
                && spans.code != SWITCHING_PROTOCOLS
            {
                Some(spans)
            } else {
                None
            }
        }
        Ok(Status::Partial) => None,
        Err(_) => None,
    }
}

/// Copies of the parts that the spans cover.
fn copy_request(
    alloc: Global,
    text: &[u8],
    headers: &[HeaderSpan],
    spans: RequestSpans,
) -> Result<RequestHead, Memory>
    requires within { IsRequestWithin text.now headers.now spans }
    requires spans { SpansRequest text.now headers.now spans }
    ensures { IfOk result (λ head. HoldsRequest text.now head) }
{
    let (used, _) = headers.split_at(spans.headers);
    Ok(RequestHead {
        method: copy_text(alloc, spans.method.of(text))?,
        target: Bytes::from_slice(alloc, spans.path.of(text))?,
        version: version_of(spans.version),
        fields: copy_fields(alloc, text, used)?,
        text: Bytes::from_slice(alloc, text)?,
    })
}

/// A copy of the method that the spans cover, and whether a header of theirs tells a length of the body.
fn copy_outline(
    alloc: Global,
    text: &[u8],
    headers: &[HeaderSpan],
    spans: RequestSpans,
) -> Result<RequestOutline, Memory>
    requires within { IsRequestWithin text.now headers.now spans }
    requires spans { SpansRequest text.now headers.now spans }
    ensures { IfOk result (λ outline. HoldsOutline text.now outline) }
{
    let (used, _) = headers.split_at(spans.headers);
    Ok(RequestOutline {
        method: copy_text(alloc, spans.method.of(text))?,
        is_framed: has_framing(text, used),
    })
}

/// Copies of the parts that the spans cover.
fn copy_response(
    alloc: Global,
    text: &[u8],
    headers: &[HeaderSpan],
    spans: ResponseSpans,
) -> Result<ResponseHead, Memory>
    requires within { IsResponseWithin text.now headers.now spans }
    requires spans { SpansResponse text.now headers.now spans }
    ensures { IfOk result (λ head. HoldsResponse text.now head) }
{
    let (used, _) = headers.split_at(spans.headers);
    Ok(ResponseHead {
        version: version_of(spans.version),
        status: spans.code,
        reason: Bytes::from_slice(alloc, spans.reason.of(text))?,
        fields: copy_fields(alloc, text, used)?,
        text: Bytes::from_slice(alloc, text)?,
    })
}
