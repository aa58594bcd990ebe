//! Calls over tables, by name: tables of names, the index of captures, queries over it, and the table of their digests. The answer is a
//! text: what the table tells.
#![tactic(auto)]

mod captures;
mod entries;
mod names;
mod queries;

use capture::Memory;
use case_texts::{Call, always};
use std::alloc::Global;

/// What the call answers. `None` where no call has that name, or the text isn't one that the call takes.
pub fn answer(alloc: Global, call: &Call) -> Result<Option<Vec<u8>>, Memory> {
    let text = call.text.as_slice();
    match call.name {
        "hop_by_hop_field" => always(names::is_hop_by_hop(alloc, text)),
        "memento_field" => always(names::is_kept(alloc, text)),
        "nearest" => entries::nearest_of(alloc, text),
        "of_key" => entries::of_key(alloc, text),
        "starting" => entries::starting(alloc, text),
        "read_query" => always(queries::query_read(alloc, text)),
        "answer_query" => queries::query_answered(alloc, text),
        "answer_many" => queries::many_answered(alloc, text),
        "candidates" => captures::candidates_of(alloc, text),
        _ => Ok(None),
    }
}
