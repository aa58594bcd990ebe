//! The body of a memento.
ghost use Rattle.std.specs.Prelude.{◌≡◌, ◌&&◌, map, not, codes, bytes_eq, IfOk, unwrap_or};
ghost use Rattle.std.specs.List.{list_any};
ghost use Rattle.time_text.specs.Texts.{InRange};
ghost use Rattle.cdxj_line.specs.MediaType.{media_type_of};
ghost use Rattle.http_head.specs.Heads.{named_value};
ghost use Rattle.replay_answer.specs.Bodies as spec;
ghost use Rattle.replay_answer.specs.Bodies.{IsBody};

use crate::replay::Replay;
use capture::{Bytes, Memory};
use cdxj_line::media_type;
use html_rewrite::rewrite;
use http_head::{Field, first_value};
use std::alloc::Global;

/// The coding that leaves the content as it is.
const IDENTITY: &[u8] = b"identity";

/// The page that stands in place of the payload, if it is rewritten and not too long.
pub fn page_of(alloc: Global, replay: &Replay, fields: &[Field]) -> Result<Option<Bytes>, Memory>
    requires { InRange replay.now.capture.now.date }
    ensures { IfOk result (λ page. IsBody replay.now.site.now.base replay.now.capture.now replay.now.raw (map named_value fields.now) (unwrap_or page replay.now.capture.now.payload)) }
{
    if !is_rewritten(alloc, replay.raw, fields)? {
        return Ok(None);
    }
    let capture = replay.capture;
    rewrite(
        alloc,
        capture.payload.as_slice(),
        capture.uri.as_slice(),
        capture.date,
        replay.site,
    )
}

/// Whether the body is a page that is to be rewritten.
fn is_rewritten(alloc: Global, raw: bool, fields: &[Field]) -> Result<bool, Memory>
    ensures { IfOk result (λ b. b ≡ spec.is_rewritten raw (map named_value fields.now)) }
{
    if raw {
        return Ok(false);
    }
    if has_coding(fields) {
        return Ok(false);
    }
    is_html(alloc, fields)
}

/// Whether the media type is that of HTML.
fn is_html(alloc: Global, fields: &[Field]) -> Result<bool, Memory>
    ensures { IfOk result (λ b. b ≡ bytes_eq (media_type_of (map named_value fields.now)) (codes "text/html")) }
{
    let mime = media_type(alloc, first_value(fields, b"content-type"))?;
    Ok(mime.as_str() == "text/html")
}

/// Whether some field tells a coding of the content (RFC 9110, section 8.4).
fn has_coding(fields: &[Field]) -> bool
    ensures { result ≡ list_any spec.tells_coding (map named_value fields.now) }
{
    fields.iter().any(tells_coding)
}

/// Whether the field tells a coding of the content other than `identity`.
fn tells_coding(field: &Field) -> bool
    ensures { result ≡ spec.tells_coding (named_value field.now) }
{
    field.has_name(b"content-encoding") && field.value.as_slice() != IDENTITY
}
