//! The parts of a query's text, and the values that they give to names.
ghost use Rattle.std.specs.Prelude.{◌≡◌, ◌≤◌, ℕ, List, [], ◌∷◌, ◌++◌, drop, filter, length, map, Err, IfOk};
ghost use Rattle.percent_encoding.specs.Percent.{percent_decode};
ghost use Rattle.cdx_query.specs.Given.{IsGiven, listed};
ghost use Rattle.cdx_query.specs.Values as spec;
ghost use Rattle.cdx_query.specs.Values.{gives, values_of};

use crate::QueryFault;
use capture::Memory;
use percent_encoding::percent_decode;
use std::alloc::Global;

/// The name of the URL, with the `=` behind it, as the other names have it.
pub const URL: &[u8] = b"url=";
/// The name of the match type.
pub const MATCH_TYPE: &[u8] = b"matchType=";
/// The name of the earliest time.
pub const FROM: &[u8] = b"from=";
/// The name of the latest time.
pub const TO: &[u8] = b"to=";
/// The name of the limit.
pub const LIMIT: &[u8] = b"limit=";
/// The name of the output.
pub const OUTPUT: &[u8] = b"output=";

/// The parts of the text between `&`.
pub fn parts_of(alloc: Global, text: &[u8]) -> Result<Vec<&[u8]>, Memory>
    ensures { IfOk result (λ parts. map (λ p. p.now) parts.items ≡ spec.parts_of text.now) }
{
    Ok(text.split(|b| *b == b'&').collect(alloc)?)
}

/// Whether each part gives a value to one of the names.
pub fn are_known(parts: &[&[u8]]) -> bool
    ensures { result ≡ spec.are_known (map (λ p. p.now) parts.now) }
{
    for part in parts {
        if !is_known(part) {
            return false;
        }
    }
    true
}

/// Whether the part gives a value to one of the names.
fn is_known(part: &[u8]) -> bool
    ensures { result ≡ spec.is_known part.now }
{
    part.starts_with(URL)
        || part.starts_with(MATCH_TYPE)
        || part.starts_with(FROM)
        || part.starts_with(TO)
        || part.starts_with(LIMIT)
        || part.starts_with(OUTPUT)
}

/// The value that the parts give to the name, if any, with its bytes in place of their escapes. `BadQuery` where they give it two.
pub fn value_of(alloc: Global, parts: &[&[u8]], name: &[u8]) -> Result<Option<Vec<u8>>, QueryFault>
    ensures value { IfOk result (λ value. values_of name.now (map (λ p. p.now) parts.now) ≡ listed value) }
    ensures twice { result ≡ Err QueryFault.BadQuery → 2 ≤ length (values_of name.now (map (λ p. p.now) parts.now)) }
{
    match part_of(parts, name) {
        Given::Never => Ok(None),
        Given::Once(part) => Ok(Some(decoded_behind(alloc, part, name.len())?)),
        Given::Twice => Err(QueryFault::BadQuery),
    }
}

/// How often parts give a value to a name, and the part that does.
enum Given<'a> {
    /// No part does.
    Never,
    /// This part alone does.
    Once(&'a [u8]),
    /// Two parts do, or more.
    Twice,
}

/// The part that gives a value to the name.
fn part_of<'a>(parts: &[&'a [u8]], name: &[u8]) -> Given<'a>
    ensures { IsGiven (filter (gives name.now) (map (λ p. p.now) parts.now)) result }
{
    let mut given = Given::Never;
    for part in parts {
        given = with_part(given, part, name);
    }
    given
}

/// What was given, and this part where it gives a value to the name.
fn with_part<'a>(given: Given<'a>, part: &'a [u8], name: &[u8]) -> Given<'a>
    ensures { (giving : List (List ℕ)) → IsGiven giving given.entry → IsGiven (giving ++ filter (gives name.now) (part.now ∷ [])) result }
{
    if part.starts_with(name) {
        once_more(given, part)
    } else {
        given
    }
}

/// What was given, and this part.
fn once_more<'a>(given: Given<'a>, part: &'a [u8]) -> Given<'a>
    ensures { (giving : List (List ℕ)) → IsGiven giving given.entry → IsGiven (giving ++ part.now ∷ []) result }
{
    match given {
        Given::Never => Given::Once(part),
        Given::Once(_) => Given::Twice,
        Given::Twice => Given::Twice,
    }
}

/// The bytes of the text from this place on, where `%` and two hexadecimal digits stand for a byte.
fn decoded_behind(alloc: Global, text: &[u8], place: usize) -> Result<Vec<u8>, Memory>
    requires { place ≤ length text.now }
    ensures { IfOk result (λ value. value.items ≡ percent_decode (drop place text.now)) }
{
    let (_, value) = text.split_at(place);
    let mut out = Vec::with_capacity(alloc, value.len())?;
    percent_decode(value).append_to(&mut out)?;
    Ok(out)
}
