//! Fields of a record (ISO 28500, WARC 1.1, sections 4 and 5), and the values in them.
ghost use Rattle.std.specs.Prelude.{◌≡◌, ◌+◌, ◌<◌, ◌++◌, length, IfOk, IfErr, IfSome, IfNone, IsErrOf};
ghost use Rattle.httparse.specs.Ascii.{crlf_bytes};
ghost use Rattle.capture.specs.Target.{IsAcceptedAs};
ghost use Rattle.time_text.specs.Texts.{InRange, warc_date};
ghost use Rattle.warc_text.specs.Groups.{IsOneLine};
ghost use Rattle.warc_text.specs.Ids.{IsUuid, uuid_text};
ghost use Rattle.record_opening.specs.steps.Dates.{IsDateLen};
ghost use Rattle.record_opening.specs.steps.OpeningFronts.{marked};
ghost use Rattle.record_opening.specs.OpenValues.{IsDateMark, IsPartOfDate, IsPartOfTarget, IsPartOfUuid, IsTargetMark};
ghost use Rattle.record_opening.specs.Openings.{IsTarget};
ghost use Rattle.record_opening.specs.steps.SplitLines.{IsSplitLine};
ghost use Rattle.record_opening.specs.Stops.{Differs, NoneStands, NoValueStands};

use crate::form::{DATE_FORM, UUID_FORM, open_form};
use crate::stop::Stop;
use crate::strip::strip;
use capture::{accepted_url, is_target_text};
use memchr::memchr;
use std::alloc::Global;
use time_text::read_warc;
use url::Url;
use uuid::Uuid;

/// Where `Z` stands in a date that is a whole second, and else the dot before its fraction.
const SECOND_END: usize = 19;

/// The length of a date that is a whole second.
const SECOND_LEN: usize = 20;

/// The length of a date with a fraction of a second.
const FRACTION_LEN: usize = 24;

/// The length of a UUID's text.
const UUID_LEN: usize = 36;

/// What stands behind the field with this mark, its name and what follows that, and this value.
pub fn strip_field<'b>(bytes: &'b [u8], mark: &[u8], value: &[u8]) -> Result<&'b [u8], Stop>
    ensures ok { IfOk result (λ rest. bytes.now ≡ marked mark.now value.now ++ rest.now) }
    ensures err { IfErr result (λ stop. Differs stop bytes.now (marked mark.now value.now)) }
{
    let given = strip(bytes, mark)?;
    let end = strip(given, value)?;
    strip(end, b"\r\n")
}

/// What stands behind the text of a UUID (RFC 9562, section 4), in lower case and with hyphens.
pub fn strip_uuid<'b>(bytes: &'b [u8], id: &Uuid) -> Result<&'b [u8], Stop>
    ensures ok { IfOk result (λ rest. bytes.now ≡ uuid_text id.now ++ rest.now) }
    ensures err { IfErr result (λ stop. Differs stop bytes.now (uuid_text id.now)) }
{
    let mut buffer = Uuid::encode_buffer();
    let text = id.hyphenated().encode_lower(&mut buffer);
    strip(bytes, text.as_bytes())
}

/// Reads a date off the front.
pub fn read_date(bytes: &[u8]) -> Result<(u64, &[u8]), Stop>
    ensures ok { IfOk result (λ read. InRange read.0 × (bytes.now ≡ warc_date read.0 ++ read.1.now)) }
    ensures err { IfErr result (λ stop. NoValueStands InRange warc_date IsPartOfDate stop bytes.now) }
    ensures ends { IsErrOf result Stop.Open → length bytes.now < 24 }
{
    let len = date_len(bytes);
    if bytes.len() < len {
        return Err(open_form(bytes, DATE_FORM));
    }
    let (text, rest) = bytes.split_at(len);
    match read_warc(text) {
        Ok(date) => Ok((date, rest)),
        Err(_) => Err(Stop::Wrong),
    }
}

/// The length that a date at the front has: that of a whole second where its `Z` has come, else that with a fraction.
fn date_len(bytes: &[u8]) -> usize
    ensures { IsDateLen bytes.now result }
{
    if bytes.len() <= SECOND_END {
        return FRACTION_LEN;
    }
    if bytes[SECOND_END] == b'Z' {
        SECOND_LEN
    } else {
        FRACTION_LEN
    }
}

/// Reads the field with this mark, whose value is a date.
pub fn read_date_field<'b>(bytes: &'b [u8], mark: &[u8]) -> Result<(u64, &'b [u8]), Stop>
    requires { IsDateMark mark.now }
    ensures ok { IfOk result (λ read. InRange read.0 × (bytes.now ≡ marked mark.now (warc_date read.0) ++ read.1.now)) }
    ensures err { IfErr result (λ stop. NoneStands InRange (λ date. marked mark.now (warc_date date)) stop bytes.now) }
    ensures ends { IsErrOf result Stop.Open → length bytes.now < length mark.now + 26 }
{
    let given = strip(bytes, mark)?;
    let (date, end) = read_date(given)?;
    let rest = strip(end, b"\r\n")?;
    Ok((date, rest))
}

/// Reads a target, with the URL that it is parsed to, and its line's end. Of one that goes on each byte is a target's.
pub fn read_target(alloc: Global, bytes: &[u8]) -> Result<(&[u8], Url, &[u8]), Stop>
    ensures ok { IfOk result (λ read. IsTarget read.0.now
        × (bytes.now ≡ (read.0.now ++ crlf_bytes) ++ read.2.now)) }
    ensures url { IfOk result (λ read. IsAcceptedAs read.0.now read.1) }
    ensures err { IfErr result (λ stop. NoValueStands IsTarget (λ uri. uri ++ crlf_bytes) IsPartOfTarget stop bytes.now) }
{
    let Some((uri, behind)) = split_line(bytes) else {
        return Err(open_target(bytes));
    };
    let accepted = accepted_url(alloc, uri)?;
    match accepted {
        Some(url) => {
            let rest = strip(behind, b"\r\n")?;
            Ok((uri, url, rest))
        }
        None => Err(Stop::Wrong),
    }
}

/// Whether bytes without a line's end may be the beginning of a target.
fn open_target(bytes: &[u8]) -> Stop
    requires { IsOneLine bytes.now }
    ensures { NoValueStands IsTarget (λ uri. uri ++ crlf_bytes) IsPartOfTarget result bytes.now }
{
    if is_target_text(bytes) {
        Stop::Open
    } else {
        Stop::Wrong
    }
}

/// A line at the front, and what stands from its end on. `None` where no line's end stands in the bytes.
pub fn split_line(bytes: &[u8]) -> Option<(&[u8], &[u8])>
    ensures some { IfSome result (λ split. IsSplitLine bytes.now split.0.now split.1.now) }
    ensures none { IfNone result (IsOneLine bytes.now) }
{
    match memchr(b'\r', bytes) {
        Some(end) => Some(bytes.split_at(end)),
        None => None,
    }
}

/// Reads the field with this mark, whose value is a target, with the URL that this is parsed to.
pub fn read_target_field<'b>(
    alloc: Global,
    bytes: &'b [u8],
    mark: &[u8],
) -> Result<(&'b [u8], Url, &'b [u8]), Stop>
    requires { IsTargetMark mark.now }
    ensures ok { IfOk result (λ read. IsTarget read.0.now
        × (bytes.now ≡ marked mark.now read.0.now ++ read.2.now)) }
    ensures url { IfOk result (λ read. IsAcceptedAs read.0.now read.1) }
    ensures err { IfErr result (λ stop. NoneStands IsTarget (λ uri. marked mark.now uri) stop bytes.now) }
{
    let given = strip(bytes, mark)?;
    read_target(alloc, given)
}

/// Reads the text of a UUID (RFC 9562, section 4), in lower case and with hyphens.
pub fn read_uuid(bytes: &[u8]) -> Result<(Uuid, &[u8]), Stop>
    ensures ok { IfOk result (λ read. IsUuid read.0 × (bytes.now ≡ uuid_text read.0 ++ read.1.now)) }
    ensures err { IfErr result (λ stop. NoValueStands IsUuid uuid_text IsPartOfUuid stop bytes.now) }
    ensures ends { IsErrOf result Stop.Open → length bytes.now < 36 }
{
    if bytes.len() < UUID_LEN {
        return Err(open_form(bytes, UUID_FORM));
    }
    let (text, rest) = bytes.split_at(UUID_LEN);
    let Ok(id) = Uuid::try_parse_ascii(text) else {
        return Err(Stop::Wrong);
    };
    // The parser takes other forms too.
    let mut buffer = Uuid::encode_buffer();
    let written = id.hyphenated().encode_lower(&mut buffer);
    if written.as_bytes() == text {
        Ok((id, rest))
    } else {
        Err(Stop::Wrong)
    }
}
