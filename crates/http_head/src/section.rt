//! Sections of field lines: where they end, and the fields of one.
ghost use Rattle.std.specs.Prelude.{◌≡◌, ◌==◌, ◌↔◌, length, count_by, IsTrue, IfOk, IfErr, IsErrOf, IfSome, IfNone};
ghost use Rattle.httparse.specs.Ascii.{line_feed};
ghost use Rattle.httparse.specs.Spans.{IsSectionWithin};
ghost use Rattle.capture.specs.Head.{section_len};
ghost use Rattle.http_head.specs.Heads.{IsHeadFault};
ghost use Rattle.http_head.specs.steps.HeadSpans.{SpansSection};
ghost use Rattle.http_head.specs.Sections.{IsSection, HoldsFields};

use crate::head::{Field, WireFault};
use crate::lines::count_line_feeds;
use crate::parts::copy_fields;
use crate::seek::{Seek, seek_end};
use capture::{Items, Memory};
use httparse::Status;
use httparse::spans::{EMPTY_HEADER_SPAN, HeaderSpan, parse_headers};
use std::alloc::Global;

/// How many bytes of the text go up to and with the empty line that ends a section of field lines (RFC 9112, section
/// 7.1.2), if it does. There is no limit.
pub fn find_section_end(text: &[u8]) -> Option<usize>
    ensures { result ≡ section_len text.now }
{
    // A section begins as the text behind the LF of a line does.
    let found = seek_end(Seek::AfterLf, text);
    match found.seek {
        Seek::Ended => Some(found.used),
        _ => None,
    }
}

/// Whether the text is one section of field lines, its empty line with it (RFC 9112, sections 5 and 7.1.2). There is no
/// limit.
pub fn is_section(alloc: Global, text: &[u8]) -> Result<bool, Memory>
    ensures { IfOk result (λ is. IsTrue is ↔ IsSection text.now) }
{
    let mut headers = make_headers(alloc, text)?;
    match find_section(text, headers.as_mut_slice()) {
        Some(_) => Ok(true),
        None => Ok(false),
    }
}

/// The fields of one section of field lines, in order (RFC 9112, sections 5 and 7.1.2). Malformed: the text isn't one
/// section with its empty line. There is no limit. The fields have memory of their own.
pub fn read_section(alloc: Global, text: &[u8]) -> Result<Items<Field>, WireFault>
    ensures ok { IfOk result (HoldsFields text.now) }
    ensures malformed { IsErrOf result WireFault.Malformed → ¬ (IsSection text.now) }
    ensures faults { IfErr result IsHeadFault }
{
    let mut headers = make_headers(alloc, text)?;
    read_fields(alloc, text, headers.as_mut_slice())
}

/// Room for the header of each line of the text.
pub fn make_headers(alloc: Global, text: &[u8]) -> Result<Vec<HeaderSpan>, Memory>
    ensures { IfOk result (λ headers. length headers.items ≡ count_by (λ b. b == line_feed) text.now) }
{
    Ok(vec![in alloc; EMPTY_HEADER_SPAN; count_line_feeds(text)]?)
}

/// How many headers the section has that the text is. There is room for a header at each LF.
fn find_section(text: &[u8], headers: &mut [HeaderSpan]) -> Option<usize>
    requires { length headers.old ≡ count_by (λ b. b == line_feed) text.now }
    ensures within { IfSome result (IsSectionWithin text.now headers.new (length text.now)) }
    ensures spans { IfSome result (SpansSection text.now headers.new) }
    ensures none { IfNone result (¬ (IsSection text.now)) }
{
    match parse_headers(text, headers) {
        Ok(Status::Complete((len, count))) => { if len == text.len() { Some(count) } else { None } }
        Ok(Status::Partial) => None,
        Err(_) => None,
    }
}

/// The fields of the section that the text is. There is room for a header at each LF.
fn read_fields(
    alloc: Global,
    text: &[u8],
    headers: &mut [HeaderSpan],
) -> Result<Items<Field>, WireFault>
    requires { length headers.old ≡ count_by (λ b. b == line_feed) text.now }
    ensures ok { IfOk result (HoldsFields text.now) }
    ensures malformed { IsErrOf result WireFault.Malformed → ¬ (IsSection text.now) }
    ensures faults { IfErr result IsHeadFault }
{
    match find_section(text, headers) {
        Some(count) => Ok(copy_section(alloc, text, headers, count)?),
        None => Err(WireFault::Malformed),
    }
}

/// Copies of the fields that the spans cover.
fn copy_section(
    alloc: Global,
    text: &[u8],
    headers: &[HeaderSpan],
    count: usize,
) -> Result<Items<Field>, Memory>
    requires within { IsSectionWithin text.now headers.now (length text.now) count }
    requires spans { SpansSection text.now headers.now count }
    ensures { IfOk result (HoldsFields text.now) }
{
    let (used, _) = headers.split_at(count);
    copy_fields(alloc, text, used)
}
