//! Reading a query.
ghost use Rattle.std.specs.Prelude.{◌≡◌, ◌≤◌, length, map, Err, IfOk};
ghost use Rattle.std.specs.List.{prefix_len};
ghost use Rattle.cdx_query.specs.Picking as spec;
ghost use Rattle.cdx_query.specs.Picking.{is_of_host};
ghost use Rattle.cdx_query.specs.Reading.{IsQuery, IsQueryOf};
ghost use Rattle.cdx_query.specs.declared.query.Query.{Query};

use crate::parts::{FROM, TO, are_known, parts_of};
use crate::values::{key_in, kind_in, limit_in, output_in, time_in};
use crate::{MatchKind, Query, QueryFault};
use capture::Memory;
use std::alloc::Global;
use surt_key::Key;

/// The query that a text is, and `BadQuery` where it is none.
///
/// The text is parts `name=value` with `&` between each two. Each name stands once at most, in this case of its letters, and `url`
/// stands once. In values `%` and two hexadecimal digits are that byte.
///
/// | Name | Value |
/// |---|---|
/// | `url` | a URL that has a look-up key, which gets `http://` where it begins with neither `http://` nor `https://` |
/// | `matchType` | `exact`, which is meant where it is left out, `prefix`, `host` or `domain` |
/// | `from`, `to` | a time in 4, 6, 8, 10, 12, 14 or 17 digits |
/// | `limit` | 1 to 1,000,000 without leading zeros |
/// | `output` | `cdxj`, which is meant where it is left out, or `json` |
pub fn read_query(alloc: Global, text: &[u8]) -> Result<Query, QueryFault>
    ensures query { IfOk result (IsQuery text.now) }
    ensures bad { result ≡ Err QueryFault.BadQuery → (query : Query) → ¬ IsQuery text.now query }
{
    let parts = parts_of(alloc, text)?;
    query_of(alloc, parts.as_slice())
}

/// The query that these parts make.
fn query_of(alloc: Global, parts: &[&[u8]]) -> Result<Query, QueryFault>
    ensures query { IfOk result (IsQueryOf (map (λ p. p.now) parts.now)) }
    ensures bad { result ≡ Err QueryFault.BadQuery → (query : Query) → ¬ IsQueryOf (map (λ p. p.now) parts.now) query }
{
    if !are_known(parts) {
        return Err(QueryFault::BadQuery);
    }
    let kind = kind_in(alloc, parts)?;
    let limit = limit_in(alloc, parts)?;
    let json = output_in(alloc, parts)?;
    let key = key_in(alloc, parts)?;
    let start = start_of(&key, kind)?;
    let from = time_in(alloc, parts, FROM)?;
    let to = time_in(alloc, parts, TO)?;
    Ok(Query {
        key,
        start,
        kind,
        from,
        to,
        limit,
        json,
    })
}

/// What the keys that meet the match type begin with.
fn start_of(key: &Key, kind: MatchKind) -> Result<Key, Memory>
    ensures { IfOk result (λ start. start ≡ spec.start_of kind key.now) }
{
    match kind {
        MatchKind::Exact | MatchKind::Prefix => key.copy(),
        MatchKind::Host | MatchKind::Domain => key.prefix(host_len(key.as_slice())),
    }
}

/// How long the host in a key is, with its port.
pub fn host_len(key: &[u8]) -> usize
    ensures within { result ≤ length key.now }
    ensures value { result ≡ prefix_len is_of_host key.now }
{
    key.iter().take_while(|b| is_of_host(**b)).count()
}

/// Whether the byte doesn't end the host in a key.
fn is_of_host(byte: u8) -> bool
    ensures { result ≡ spec.is_of_host byte }
{
    byte != b')'
}
