//! Which request records stand with a response record.
ghost use Rattle.std.specs.Prelude.{◌≡◌, ◌++◌, ℕ, List, [], ◌∷◌, map, IfOk};
ghost use Rattle.std.specs.List.{list_any};
ghost use Rattle.std.specs.Str.{bytes_eq};
ghost use Rattle.capture.specs.Fields.{named_values, values_of};
ghost use Rattle.http_head.specs.Heads.{named_value};
ghost use Rattle.warc_reader.specs.Fields.{concurrent_to, first_of, has_id, record_id};
ghost use Rattle.warc_reader.specs.Records.{WarcRecord};
ghost use Rattle.warc_reader.specs.Requests.{Placed, found_request, is_request as is_request_kind};
ghost use Rattle.warc_reader.specs.Tables.{HoldsRequests, Rises, earlier as earlier_of, first_at, first_by, noted, place_at as at_id, place_of};

use crate::fields::kind_of;
use crate::kind::Kind;
use capture::Memory;
use http_head::{Field, first_value};
use std::alloc::Global;
use std::collections::BTreeMap;

/// The request records of a file: the place of the first by its id, and of the first by each id to which it is concurrent.
#[derive(Drop)]
pub struct Requests {
    by_id: BTreeMap<Vec<u8>, u64>,
    by_concurrent: BTreeMap<Vec<u8>, u64>,
}

impl Requests {
    /// No records. Takes no memory.
    pub fn new(alloc: Global) -> Requests
        ensures { HoldsRequests result [] }
    {
        Requests {
            by_id: BTreeMap::new(alloc),
            by_concurrent: BTreeMap::new(alloc),
        }
    }

    /// Adds the record of these fields at this place, which stands behind those that are there.
    pub fn add(&mut self, alloc: Global, fields: &[Field], at: u64) -> Result<(), Memory>
        ensures { IfOk result (λ _. (done : List Placed) (form : WarcRecord) → HoldsRequests self.old done
            → map named_value fields.now ≡ named_values form.fields
            → HoldsRequests self.new (done ++ record { at = at; form = form } ∷ [])) }
    {
        if !is_request(kind_of(fields)) {
            return Ok(());
        }
        note_own_id(&mut self.by_id, alloc, fields, at)?;
        note_concurrent(&mut self.by_concurrent, alloc, fields, at)
    }

    /// The place of the first request record that stands with a response record of these fields (ISO 28500:2017, 5.7): it is
    /// concurrent to that one's id, or that one is concurrent to its id.
    pub fn find(&self, fields: &[Field]) -> Option<u64>
        ensures { (done : List Placed) → Rises done → HoldsRequests self.now done
            → result ≡ place_of (found_request done (map named_value fields.now)) }
    {
        match first_value(fields, b"warc-record-id") {
            Some(id) => find_first(&self.by_id, fields, find_at(&self.by_concurrent, id)),
            None => find_first(&self.by_id, fields, None),
        }
    }
}

/// Whether the record holds a request.
fn is_request(kind: Kind) -> bool
    ensures { result ≡ is_request_kind kind }
{
    match kind {
        Kind::Request => true,
        Kind::Response => false,
        Kind::Revisit => false,
        Kind::Other => false,
    }
}

/// Keeps the place at the id, unless one is there.
fn note(
    places: &mut BTreeMap<Vec<u8>, u64>,
    alloc: Global,
    id: &[u8],
    at: u64,
) -> Result<(), Memory>
    ensures { IfOk result (λ _. (other : List ℕ) → at_id places.new other ≡ noted (at_id places.old other) (bytes_eq id.now other) at) }
{
    if places.contains_key(id) {
        return Ok(());
    }
    let key = Vec::from_slice(alloc, id)?;
    places.insert(key, at)?;
    Ok(())
}

/// Keeps the place at the record's own id, where it has one.
fn note_own_id(
    places: &mut BTreeMap<Vec<u8>, u64>,
    alloc: Global,
    fields: &[Field],
    at: u64,
) -> Result<(), Memory>
    ensures { IfOk result (λ _. (other : List ℕ) → at_id places.new other
        ≡ noted (at_id places.old other) (has_id other (first_of record_id (map named_value fields.now))) at) }
{
    match first_value(fields, b"warc-record-id") {
        Some(id) => note(places, alloc, id, at),
        None => Ok(()),
    }
}

/// Keeps the place at each id to which the record is concurrent.
fn note_concurrent(
    places: &mut BTreeMap<Vec<u8>, u64>,
    alloc: Global,
    fields: &[Field],
    at: u64,
) -> Result<(), Memory>
    ensures { IfOk result (λ _. (other : List ℕ) → at_id places.new other
        ≡ noted (at_id places.old other) (list_any (λ id. bytes_eq id other) (values_of concurrent_to (map named_value fields.now))) at) }
{
    for field in fields {
        if field.has_name(b"warc-concurrent-to") {
            note(places, alloc, field.value.as_slice(), at)?;
        }
    }
    Ok(())
}

/// The place at the id.
fn find_at(places: &BTreeMap<Vec<u8>, u64>, id: &[u8]) -> Option<u64>
    ensures { result ≡ at_id places.now id.now }
{
    match places.get(id) {
        Some(place) => Some(*place),
        None => None,
    }
}

/// The least of the place that was found and those at the ids to which the record is concurrent.
#[tactic(auto, using(crate::proofs::TableLaws::first_at_more))]
fn find_first(places: &BTreeMap<Vec<u8>, u64>, fields: &[Field], found: Option<u64>) -> Option<u64>
    ensures { result ≡ first_at (at_id places.now) (values_of concurrent_to (map named_value fields.now)) found }
{
    let mut first = found;
    for field in fields {
        first = find_by(places, field, first);
    }
    first
}

/// The least of the place that was found and the one at the id to which this field says that the record is concurrent.
fn find_by(places: &BTreeMap<Vec<u8>, u64>, field: &Field, found: Option<u64>) -> Option<u64>
    ensures { result ≡ first_by (at_id places.now) (named_value field.now) found }
{
    if field.has_name(b"warc-concurrent-to") {
        return earlier(found, find_at(places, field.value.as_slice()));
    }
    found
}

/// The least of two places.
fn earlier(place: Option<u64>, other: Option<u64>) -> Option<u64>
    ensures { result ≡ earlier_of place other }
{
    match place {
        None => other,
        Some(at) => match other {
            None => Some(at),
            Some(there) => Some(at.min(there)),
        },
    }
}
