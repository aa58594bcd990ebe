//! The length of an answer, told without writing it. Nothing here takes memory.
ghost use Rattle.std.specs.Prelude.{◌≡◌, ◌<◌, ℕ, List, ◌∷◌, filter, length};
ghost use Rattle.index_entry.specs.Facts.{Facts};
ghost use Rattle.cdxj_line.specs.Lengths.{capped};
ghost use Rattle.surt_key.specs.Spaces.{HoldsNoSpace};
ghost use Rattle.cdx_query.specs.Answers.{answer_text, item_text};
ghost use Rattle.cdx_query.specs.Passing as passing;
ghost use Rattle.cdx_query.specs.Passing.{IsPartOf, marks};
ghost use Rattle.cdx_query.specs.Picking as spec;

use crate::Query;
use crate::filter::meets;
use crate::put::{METHOD, most};
use cdxj_line::line_len;
use index_entry::Entry;
use surt_key::keys_hold_no_space;
use time_text::texts_have_no_blanks;

/// What an object on a line of its own has beside the bytes of a CDXJ line: the names of two members, with what stands round their values.
const FURTHER: usize = 25;

/// The length of the answer's text in bytes. One that no `usize` tells is told as the greatest one.
pub fn answer_len(query: &Query, entries: &[Entry]) -> usize
    ensures { result ≡ capped (length (answer_text query.now (filter (spec.meets query.now) entries.now))) }
{
    let mut left = most(query, entries);
    let mut len: usize = 0;
    for entry in entries {
        if left == 0 {
            return len;
        }
        add_met(&mut len, &mut left, query, entry);
    }
    len
}

/// Adds the length of the text of the entry where it meets the query, and counts it.
fn add_met(len: &mut usize, left: &mut usize, query: &Query, entry: &Entry)
    requires { 0 < left.old }
    ensures { (rest : List Facts) (whole : ℕ) → IsPartOf query.now len.old left.old (entry.now ∷ rest) whole
        → IsPartOf query.now len.new left.new rest whole }
{
    if !meets(query, entry) {
        return;
    }
    *left -= 1;
    *len = len.saturating_add(item_len(query.json, entry));
}

/// The length of the text of an entry.
fn item_len(json: bool, entry: &Entry) -> usize
    ensures { result ≡ capped (length (item_text json entry.now)) }
{
    texts_have_no_blanks();
    let parts = entry.parts(METHOD);
    let line = line_len(&parts);
    if !json {
        return line;
    }
    line.saturating_add(FURTHER.saturating_add(marks_in(key_of(entry))))
}

/// The key of the entry, which holds no control.
fn key_of(entry: &Entry) -> &[u8]
    ensures value { result.now ≡ entry.now.key }
    ensures no_space { HoldsNoSpace result.now }
{
    keys_hold_no_space();
    entry.key.as_slice()
}

/// How many bytes of a key have to be escaped in a JSON string. Keys hold no controls.
fn marks_in(key: &[u8]) -> usize
    ensures value { result ≡ marks key.now }
{
    let mut count: usize = 0;
    for byte in key {
        if is_mark(*byte) {
            count += 1;
        }
    }
    count
}

/// Whether the byte has to be escaped, as no other one that stands in a key.
fn is_mark(byte: u8) -> bool
    ensures { result ≡ passing.is_mark byte }
{
    byte == b'"' || byte == b'\\'
}
