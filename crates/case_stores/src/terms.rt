//! How an archive may be asked to open.
ghost use Rattle.std.specs.Prelude.{◌≡◌, IfSome, length};
ghost use Rattle.archive_core.specs.Holdings.{AreLimits};
ghost use Rattle.case_stores.specs.Opening.{IsOpening};
ghost use Rattle.warc_text.specs.Ids.{IsUuid};

use capture::Limits;
use case_language::{number_in, split_word};
use uuid::Uuid;

/// How an archive is opened.
#[derive(Clone, Copy)]
pub struct Opening {
    /// The limits of volumes and captures.
    pub limits: Limits,
    /// The namespace that is asked for, if any is.
    pub namespace: Option<Uuid>,
}

/// An archive's volumes are shorter than this, in bytes.
const MOST_BYTES: u64 = 1 << 62;

/// An archive holds fewer captures than this.
const MOST_CAPTURES: u32 = u32::MAX;

/// The limits where a case names none: a volume's bytes, and captures.
const VOLUME_BYTES: u64 = 1 << 40;

const CAPTURES: u32 = 1_000_000;

/// What stands in place of a namespace where none is asked for.
const NONE: &[u8] = b"-";

/// How long a UUID is that is written with hyphens.
const UUID_LEN: usize = 36;

/// The namespace where a case names none.
const NAMESPACE: &str = "6ba7b810-9dad-11d1-80b4-00c04fd430c8";

/// The limit of a volume's bytes, that of the captures, and a namespace or `-`, each behind a space; or nothing.
pub fn opening_in(text: &[u8]) -> Option<Opening>
    ensures { IfSome result IsOpening }
{
    if text.is_empty() {
        return opening_with(VOLUME_BYTES, u64::from(CAPTURES), NAMESPACE.as_bytes());
    }
    let (bytes, rest) = split_word(text)?;
    let (captures, namespace) = split_word(rest)?;
    opening_with(
        number_in(bytes.as_bytes())?,
        number_in(captures.as_bytes())?,
        namespace,
    )
}

fn opening_with(volume_bytes: u64, captures: u64, namespace: &[u8]) -> Option<Opening>
    ensures { IfSome result IsOpening }
{
    let limits = limits_of(volume_bytes, captures)?;
    if namespace == NONE {
        return Some(Opening {
            limits,
            namespace: None,
        });
    }
    match namespace_in(namespace) {
        Some(namespace) => Some(Opening {
            limits,
            namespace: Some(namespace),
        }),
        None => None,
    }
}

/// The UUID that is written so, with hyphens.
fn namespace_in(text: &[u8]) -> Option<Uuid>
    ensures { IfSome result IsUuid }
{
    match str::from_utf8(text) {
        Ok(text) if text.len() == UUID_LEN => uuid_in(text),
        _ => None,
    }
}

fn uuid_in(text: &str) -> Option<Uuid>
    requires { length text.now ≡ 36 }
    ensures { IfSome result IsUuid }
{
    match Uuid::parse_str(text) {
        Ok(namespace) => Some(namespace),
        Err(_) => None,
    }
}

/// `None` where an archive can't have these limits.
fn limits_of(volume_bytes: u64, captures: u64) -> Option<Limits>
    ensures { IfSome result AreLimits }
{
    let captures = u32::try_from(captures).ok()?;
    if volume_bytes >= MOST_BYTES || captures >= MOST_CAPTURES {
        return None;
    }
    Some(Limits {
        volume_bytes,
        captures,
    })
}
