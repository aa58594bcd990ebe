//! Calls of `cdx_query`.

use crate::entries::entry_of;
use capture::{Memory, Text, put_all, put_number};
use case_language::{number_in, split_word};
use case_texts::{always, put_next, put_next_number, told};
use cdx_query::{MatchKind, Query, QueryFault, answer, read_query};
use cdxj_index::Index;
use cdxj_line::read_line;
use digest32::{base32_of, payload_digest};
use index_entry::Entry;
use std::alloc::Global;
use surt_key::Key;

/// 2024-01-31T12:00:00Z, in milliseconds since 1970.
const NOON: u64 = 1_706_702_400_000;

/// The parts of the query, or `BadQuery`.
pub fn query_read(alloc: Global, text: &[u8]) -> Result<Vec<u8>, Memory> {
    match read_query(alloc, text) {
        Ok(query) => query_text(alloc, &query),
        Err(fault) => fault_text(alloc, fault),
    }
}

/// The match type, the key, the start, the times, the limit and the output.
fn query_text(alloc: Global, query: &Query) -> Result<Vec<u8>, Memory> {
    let mut out = told(alloc, kind_word(query.kind))?;
    put_next(&mut out, query.key.as_slice())?;
    put_next(&mut out, query.start.as_slice())?;
    put_time(&mut out, &query.from)?;
    put_time(&mut out, &query.to)?;
    put_limit(&mut out, query.limit)?;
    put_next(&mut out, query.media_type())?;
    Ok(out)
}

fn kind_word(kind: MatchKind) -> &'static [u8] {
    match kind {
        MatchKind::Exact => b"exact",
        MatchKind::Prefix => b"prefix",
        MatchKind::Host => b"host",
        MatchKind::Domain => b"domain",
    }
}

fn put_time(out: &mut Vec<u8>, time: &Option<Text>) -> Result<(), Memory> {
    match time {
        Some(digits) => put_next(out, digits.as_slice()),
        None => put_next(out, b"None"),
    }
}

fn put_limit(out: &mut Vec<u8>, limit: Option<u32>) -> Result<(), Memory> {
    match limit {
        Some(count) => put_next_number(out, u64::from(count)),
        None => put_next(out, b"None"),
    }
}

/// What a query is answered. Behind it stand the lines of the captures that are shown, each ended by LF, in any order.
pub fn query_answered(alloc: Global, text: &[u8]) -> Result<Option<Vec<u8>>, Memory> {
    let (asked, lines) = split_line(text);
    let mut index = Index::new(alloc);
    if !add_lines(alloc, &mut index, lines)? {
        return Ok(None);
    }
    always(answer_text(alloc, asked, &index))
}

/// What stands before the first LF, and what stands behind it.
fn split_line(text: &[u8]) -> (&[u8], &[u8]) {
    match text.iter().position(|byte| *byte == b'\n') {
        Some(place) => (&text[..place], &text[place + 1..]),
        None => (text, &[]),
    }
}

/// Adds the entries of these lines, up to the first that is none. Whether all are.
fn add_lines(alloc: Global, index: &mut Index, lines: &[u8]) -> Result<bool, Memory> {
    let mut rest = lines;
    for _ in 0..lines.len() {
        if rest.is_empty() {
            return Ok(true);
        }
        let (line, others) = split_line(rest);
        if !add_line(alloc, index, line)? {
            return Ok(false);
        }
        rest = others;
    }
    Ok(rest.is_empty())
}

/// Adds the entry of this line, to which its LF is given back. Whether it is a line, of a number that isn't there yet.
fn add_line(alloc: Global, index: &mut Index, line: &[u8]) -> Result<bool, Memory> {
    let mut whole = told(alloc, line)?;
    put_all(&mut whole, b"\n")?;
    let Some(line) = read_line(alloc, whole.as_slice())? else {
        return Ok(false);
    };
    let entry = Entry::of_line(line);
    if index.at(entry.number).is_some() {
        return Ok(false);
    }
    index.add(alloc, entry)?;
    Ok(true)
}

/// The answer from the entries of the index that begin as the query says.
fn answer_text(alloc: Global, text: &[u8], index: &Index) -> Result<Vec<u8>, Memory> {
    match read_query(alloc, text) {
        Ok(query) => answer_from(alloc, &query, index),
        Err(fault) => fault_text(alloc, fault),
    }
}

fn answer_from(alloc: Global, query: &Query, index: &Index) -> Result<Vec<u8>, Memory> {
    let mut entries = Vec::new(alloc);
    put_starting(&mut entries, index, &query.start)?;
    let answer = answer(alloc, query, entries.as_slice())?;
    told(alloc, answer.as_slice())
}

/// Puts copies of the entries whose key begins so.
fn put_starting(out: &mut Vec<Entry>, index: &Index, start: &Key) -> Result<(), Memory> {
    for entry in index.starting(start) {
        out.push(entry.copy()?)?;
    }
    Ok(())
}

fn fault_text(alloc: Global, fault: QueryFault) -> Result<Vec<u8>, Memory> {
    match fault {
        QueryFault::BadQuery => told(alloc, b"BadQuery"),
        QueryFault::Memory => Err(Memory),
    }
}

/// The length and the digest of what a query is answered from many entries. Before it stands how many there are.
pub fn many_answered(alloc: Global, text: &[u8]) -> Result<Option<Vec<u8>>, Memory> {
    let Some((count, asked)) = split_word(text) else {
        return Ok(None);
    };
    let Some(count) = number_in(count.as_bytes()) else {
        return Ok(None);
    };
    match u32::try_from(count) {
        Ok(count) => always(answer_size(alloc, asked, count)),
        Err(_) => Ok(None),
    }
}

fn answer_size(alloc: Global, text: &[u8], count: u32) -> Result<Vec<u8>, Memory> {
    match read_query(alloc, text) {
        Ok(query) => size_of_answer(alloc, &query, count),
        Err(fault) => fault_text(alloc, fault),
    }
}

fn size_of_answer(alloc: Global, query: &Query, count: u32) -> Result<Vec<u8>, Memory> {
    let mut entries = Vec::new(alloc);
    put_pages(alloc, &mut entries, count)?;
    let answer = answer(alloc, query, entries.as_slice())?;
    length_and_digest(alloc, answer.as_slice())
}

fn length_and_digest(alloc: Global, text: &[u8]) -> Result<Vec<u8>, Memory> {
    let mut out = Vec::new(alloc);
    put_number(&mut out, text.len() as u64)?;
    put_next(&mut out, &base32_of(&payload_digest(text)))?;
    Ok(out)
}

/// Puts the entries of so many pages.
fn put_pages(alloc: Global, out: &mut Vec<Entry>, count: u32) -> Result<(), Memory> {
    for number in 0..count {
        out.push(page_of(alloc, number)?)?;
    }
    Ok(())
}

/// The entry of a page of its own, each a second behind the one before it.
fn page_of(alloc: Global, number: u32) -> Result<Entry, Memory> {
    let uri = format!(in alloc; "http://a.test/{number:07}")?;
    let date = NOON + 1_000 * u64::from(number);
    match entry_of(alloc, uri.as_bytes(), date, number) {
        Ok(Some(entry)) => Ok(entry),
        Ok(None) => Err(Memory),
        Err(Memory) => Err(Memory),
    }
}
