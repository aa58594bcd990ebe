//! The answer to a query.
ghost use Rattle.std.specs.Prelude.{◌≡◌, ◌<◌, ◌∷◌, ◌++◌, List, filter, take, IfOk, OnOk};
ghost use Rattle.index_entry.specs.Facts.{Facts};
ghost use Rattle.cdx_query.specs.Answers.{AreStarting, IsAnswer, answer_text, item_text};
ghost use Rattle.cdx_query.specs.Picking as spec;
ghost use Rattle.cdx_query.specs.Passing.{rest_text};
ghost use Rattle.cdx_query.specs.Picking.{start_of};

use crate::Query;
use crate::filter::meets;
use crate::length::answer_len;
use capture::{Bytes, Memory, put_all};
use cdxj_line::{put_object, put_parts};
use index_entry::Entry;
use std::alloc::Global;

/// The method of each capture that an index shows.
pub const METHOD: &[u8] = b"GET";

/// The text that answers a query: the entries that meet it, in order, as many as its limit says.
///
/// The entries are those of an index whose key begins with the query's `start`, in order. The text takes its own length in memory, which
/// is reserved at once, and nothing beside it.
pub fn answer(alloc: Global, query: &Query, entries: &[Entry]) -> Result<Bytes, Memory>
    ensures text { IfOk result (λ text. text ≡ answer_text query.now (filter (spec.meets query.now) entries.now)) }
    ensures shown { (shown : List Facts) → query.now.start ≡ start_of query.now.kind query.now.key
        → AreStarting query.now.start shown entries.now → IfOk result (IsAnswer query.now shown) }
{
    let mut out = Vec::with_capacity(alloc, answer_len(query, entries))?;
    put_answer(&mut out, query, entries)?;
    Ok(Bytes::of(out))
}

/// Puts the text of the answer.
fn put_answer(out: &mut Vec<u8>, query: &Query, entries: &[Entry]) -> Result<(), Memory>
    ensures { OnOk result (out.new.items ≡ out.old.items ++ answer_text query.now (filter (spec.meets query.now) entries.now)) }
{
    let mut left = most(query, entries);
    for entry in entries {
        if left == 0 {
            return Ok(());
        }
        put_met(out, &mut left, query, entry)?;
    }
    Ok(())
}

/// Puts the text of the entry where it meets the query, and counts it.
fn put_met(out: &mut Vec<u8>, left: &mut usize, query: &Query, entry: &Entry) -> Result<(), Memory>
    requires { 0 < left.old }
    ensures { OnOk result ((rest : List Facts) → out.new.items ++ rest_text query.now left.new rest
        ≡ out.old.items ++ rest_text query.now left.old (entry.now ∷ rest)) }
{
    if !meets(query, entry) {
        return Ok(());
    }
    *left -= 1;
    put_item(out, query.json, entry)
}

/// How many of the entries are answered at most.
pub fn most(query: &Query, entries: &[Entry]) -> usize
    ensures { spec.limited query.now.limit (filter (spec.meets query.now) entries.now) ≡ take result (filter (spec.meets query.now) entries.now) }
{
    match query.limit {
        Some(limit) => limit as usize,
        None => entries.len(),
    }
}

/// Puts the text of an entry.
#[tactic(auto, unfolding(crate::specs::Answers::item_text))]
fn put_item(out: &mut Vec<u8>, json: bool, entry: &Entry) -> Result<(), Memory>
    ensures { OnOk result (out.new.items ≡ out.old.items ++ item_text json entry.now) }
{
    let parts = entry.parts(METHOD);
    if !json {
        return put_parts(out, &parts);
    }
    put_object(out, &parts, true)?;
    put_all(out, b"\n")
}
