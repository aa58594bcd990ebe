//! What the values of a query say.
ghost use Rattle.std.specs.Prelude.{◌≡◌, ◌≢◌, ℕ, Bool, List, Option, Err, IfOk, map};
ghost use Rattle.cdx_query.specs.Reading.{IsCount, IsKeyOf, IsKind, IsLimit, IsOutput, IsTime, NamesTime, kind_name, output_text};
ghost use Rattle.cdx_query.specs.Values.{limit_name, match_type_name, output_name, url_name, values_of};
ghost use Rattle.cdx_query.specs.declared.query.MatchKind.{MatchKind};

use crate::parts::{LIMIT, MATCH_TYPE, OUTPUT, URL, value_of};
use crate::{MatchKind, QueryFault};
use capture::Text;
use replay_url::read_number;
use std::alloc::Global;
use surt_key::{Key, KeyFault, key_of_address};
use time_text::{read_time, texts_have_no_blanks};

/// The most entries that a query may ask for.
const MOST: u32 = 1_000_000;

/// The key of the URL.
pub fn key_in(alloc: Global, parts: &[&[u8]]) -> Result<Key, QueryFault>
    ensures key { IfOk result (IsKeyOf (values_of url_name (map (λ p. p.now) parts.now))) }
    ensures bad { result ≡ Err QueryFault.BadQuery → (key : List ℕ) → ¬ IsKeyOf (values_of url_name (map (λ p. p.now) parts.now)) key }
{
    let Some(url) = value_of(alloc, parts, URL)? else {
        return Err(QueryFault::BadQuery);
    };
    match key_of_address(alloc, url.as_slice()) {
        Ok(keyed) => Ok(keyed.key),
        Err(KeyFault::NotHttp) => Err(QueryFault::BadQuery),
        Err(KeyFault::Memory) => Err(QueryFault::Memory),
    }
}

/// The match type.
pub fn kind_in(alloc: Global, parts: &[&[u8]]) -> Result<MatchKind, QueryFault>
    ensures kind { IfOk result (IsKind (values_of match_type_name (map (λ p. p.now) parts.now))) }
    ensures bad { result ≡ Err QueryFault.BadQuery → (kind : MatchKind) → ¬ IsKind (values_of match_type_name (map (λ p. p.now) parts.now)) kind }
{
    let Some(name) = value_of(alloc, parts, MATCH_TYPE)? else {
        return Ok(MatchKind::Exact);
    };
    kind_named(name.as_slice())
}

/// The match type of this name.
fn kind_named(name: &[u8]) -> Result<MatchKind, QueryFault>
    ensures kind { IfOk result (λ kind. name.now ≡ kind_name kind) }
    ensures bad { result ≡ Err QueryFault.BadQuery → (kind : MatchKind) → name.now ≢ kind_name kind }
{
    match name {
        b"exact" => Ok(MatchKind::Exact),
        b"prefix" => Ok(MatchKind::Prefix),
        b"host" => Ok(MatchKind::Host),
        b"domain" => Ok(MatchKind::Domain),
        _ => Err(QueryFault::BadQuery),
    }
}

/// The digits of the time of this name.
pub fn time_in(alloc: Global, parts: &[&[u8]], name: &[u8]) -> Result<Option<Text>, QueryFault>
    ensures time { IfOk result (IsTime (values_of name.now (map (λ p. p.now) parts.now))) }
    ensures bad { result ≡ Err QueryFault.BadQuery → (time : Option (List ℕ)) → ¬ IsTime (values_of name.now (map (λ p. p.now) parts.now)) time }
{
    let Some(digits) = value_of(alloc, parts, name)? else {
        return Ok(None);
    };
    Ok(Some(time_of(digits)?))
}

/// The digits, where they name a time.
fn time_of(digits: Vec<u8>) -> Result<Text, QueryFault>
    ensures time { IfOk result (λ time. (time ≡ digits.items) × NamesTime digits.items) }
    ensures bad { result ≡ Err QueryFault.BadQuery → ¬ NamesTime digits.items }
{
    texts_have_no_blanks();
    if read_time(digits.as_slice()).is_err() {
        return Err(QueryFault::BadQuery);
    }
    match Text::of(digits) {
        Some(time) => Ok(time),
        None => Err(QueryFault::BadQuery),
    }
}

/// The limit.
pub fn limit_in(alloc: Global, parts: &[&[u8]]) -> Result<Option<u32>, QueryFault>
    ensures limit { IfOk result (IsLimit (values_of limit_name (map (λ p. p.now) parts.now))) }
    ensures bad { result ≡ Err QueryFault.BadQuery → (limit : Option ℕ) → ¬ IsLimit (values_of limit_name (map (λ p. p.now) parts.now)) limit }
{
    let Some(digits) = value_of(alloc, parts, LIMIT)? else {
        return Ok(None);
    };
    Ok(Some(count_of(digits.as_slice())?))
}

/// The number of entries that the digits name.
fn count_of(digits: &[u8]) -> Result<u32, QueryFault>
    ensures count { IfOk result (IsCount digits.now) }
    ensures bad { result ≡ Err QueryFault.BadQuery → (count : ℕ) → ¬ IsCount digits.now count }
{
    let Some(count) = read_number(digits) else {
        return Err(QueryFault::BadQuery);
    };
    if count < 1 {
        return Err(QueryFault::BadQuery);
    }
    if count > MOST {
        return Err(QueryFault::BadQuery);
    }
    Ok(count)
}

/// Whether the output is JSON.
pub fn output_in(alloc: Global, parts: &[&[u8]]) -> Result<bool, QueryFault>
    ensures output { IfOk result (IsOutput (values_of output_name (map (λ p. p.now) parts.now))) }
    ensures bad { result ≡ Err QueryFault.BadQuery → (json : Bool) → ¬ IsOutput (values_of output_name (map (λ p. p.now) parts.now)) json }
{
    let Some(name) = value_of(alloc, parts, OUTPUT)? else {
        return Ok(false);
    };
    is_json(name.as_slice())
}

/// Whether the output of this name is JSON.
fn is_json(name: &[u8]) -> Result<bool, QueryFault>
    ensures output { IfOk result (λ json. name.now ≡ output_text json) }
    ensures bad { result ≡ Err QueryFault.BadQuery → (json : Bool) → name.now ≢ output_text json }
{
    match name {
        b"json" => Ok(true),
        b"cdxj" => Ok(false),
        _ => Err(QueryFault::BadQuery),
    }
}
