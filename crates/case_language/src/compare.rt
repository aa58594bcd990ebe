//! Compares what a case gave with what it expects.
use crate::escapes::{decode, encode};
use crate::names::Names;
use std::alloc::{AllocError, Global};

/// A line `front TEXT` is met by each line that TEXT begins with.
const FRONT: &[u8] = b"front ";

/// A line `maybe TEXT` is met by the line TEXT, and by none.
const MAYBE: &[u8] = b"maybe ";

/// A line `any WORD` is met by all lines that begin with WORD and stand there, and by none.
const ANY: &[u8] = b"any ";

/// The line between two lists of lines, one of which is expected.
const OR: &str = "or";

/// The first difference from the last of the lists that are expected, as a text; none where all is as one of them says.
pub fn difference(
    alloc: Global,
    expected: &[&str],
    given: &[Vec<u8>],
    names: Names,
) -> Result<Option<String>, AllocError> {
    let mut found = None;
    for lines in expected.split(|line| *line == OR) {
        found = difference_from(alloc, lines, given, names)?;
        if found.is_none() {
            return Ok(None);
        }
    }
    Ok(found)
}

/// The first difference from this list of lines.
fn difference_from(
    alloc: Global,
    expected: &[&str],
    given: &[Vec<u8>],
    names: Names,
) -> Result<Option<String>, AllocError> {
    let mut given = given;
    for text in expected {
        let Some(wanted) = decode(alloc, text, names)? else {
            return Ok(Some(format!(in alloc; "no line: {text}")?));
        };
        match behind(given, wanted.as_slice()) {
            Some(rest) => given = rest,
            None => return not_met(alloc, text, given),
        }
    }
    match given.first() {
        Some(line) => shown(alloc, "nothing more", line.as_slice()),
        None => Ok(None),
    }
}

/// The lines behind those at the front that this line is met by. `None` where it isn't met.
fn behind<'a>(given: &'a [Vec<u8>], wanted: &[u8]) -> Option<&'a [Vec<u8>]> {
    match given.split_first() {
        Some((line, rest)) if meets(line.as_slice(), wanted) => Some(rest),
        _ if wanted.starts_with(MAYBE) => Some(given),
        _ if wanted.starts_with(ANY) => Some(behind_all(given, wanted)),
        _ => None,
    }
}

/// What stands there in place of an expected line.
fn not_met(alloc: Global, wanted: &str, given: &[Vec<u8>]) -> Result<Option<String>, AllocError> {
    match given.first() {
        Some(line) => shown(alloc, wanted, line.as_slice()),
        None => Ok(Some(format!(in alloc; "missing: {wanted}")?)),
    }
}

/// The lines behind those at the front that a line `any WORD` is met by.
fn behind_all<'a>(given: &'a [Vec<u8>], wanted: &[u8]) -> &'a [Vec<u8>] {
    let Some(word) = wanted.strip_prefix(ANY) else {
        return given;
    };
    let mut rest = given;
    for line in given {
        match rest.split_first() {
            Some((_, behind)) if line.starts_with(word) => rest = behind,
            _ => return rest,
        }
    }
    rest
}

fn meets(given: &[u8], wanted: &[u8]) -> bool {
    if let Some(line) = wanted.strip_prefix(MAYBE) {
        return given == line;
    }
    match wanted.strip_prefix(FRONT) {
        Some(whole) => whole.starts_with(given),
        None => given == wanted,
    }
}

fn shown(alloc: Global, wanted: &str, given: &[u8]) -> Result<Option<String>, AllocError> {
    let given = encode(alloc, given)?;
    Ok(Some(format!(in alloc; "expected: {wanted}\n    given: {given}")?))
}
