//! The names that the Connection fields of a head list (RFC 9110, section 7.6.1).
ghost use Rattle.std.specs.Prelude.{◌≡◌, map, IfOk};
ghost use Rattle.http_head.specs.Heads.{named_value};
ghost use Rattle.exchange.specs.Texts as spec;

use crate::members::put_members;
use capture::Memory;
use http_head::Field;
use std::alloc::Global;

/// The names that the Connection fields list, in order.
pub fn connection_names(alloc: Global, fields: &[Field]) -> Result<Vec<&[u8]>, Memory>
    ensures { IfOk result (λ names. map (λ n. n.now) names.items ≡ spec.listed_names (map named_value fields.now)) }
{
    // Most heads list no more names than they have fields.
    let mut names = Vec::with_capacity(alloc, fields.len())?;
    for field in fields {
        if field.has_name(b"connection") {
            put_members(&mut names, field.value.as_slice())?;
        }
    }
    Ok(names)
}

/// Whether the name is one of those that are listed, ASCII case ignored. It is asked once for each field of a head, of which
/// there are at most 128 in at most 65,536 bytes, so a table of the names would save little.
pub fn is_listed(listed: &[&[u8]], name: &[u8]) -> bool
    ensures { result ≡ spec.is_listed (map (λ n. n.now) listed.now) name.now }
{
    listed.iter().any(|member| is_same_name(member, name))
}

/// Whether two names are the same, ASCII case ignored.
fn is_same_name(a: &[u8], b: &[u8]) -> bool
    ensures { result ≡ spec.is_same_name a.now b.now }
{
    a.eq_ignore_ascii_case(b)
}
