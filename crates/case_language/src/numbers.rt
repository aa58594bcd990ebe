//! Numbers in case files.
use crate::line::Line;
use std::alloc::{AllocError, Global};

/// The number that the digits write, or the case's own where it is `k`.
pub fn number_of(text: &str, k: u64) -> Option<u64> {
    if text == "k" {
        return Some(k);
    }
    text.parse::<u64>().ok()
}

/// The byte that is written as `0x` and two digits.
pub fn byte_of(text: &str) -> Option<u8> {
    match text.strip_prefix("0x") {
        Some(digits) => u8::from_str_radix(digits, 16).ok(),
        None => None,
    }
}

/// The numbers of a line. `None` where one of its words is none.
pub fn numbers_of(alloc: Global, text: &str, k: u64) -> Result<Option<Vec<u64>>, AllocError> {
    let mut numbers = Vec::new(alloc);
    if put_numbers(&mut numbers, text, k)? {
        Ok(Some(numbers))
    } else {
        Ok(None)
    }
}

/// Puts the numbers of a line, up to the first word that is none. Whether each word is one.
fn put_numbers(numbers: &mut Vec<u64>, text: &str, k: u64) -> Result<bool, AllocError> {
    for word in text.split_whitespace() {
        match number_of(word, k) {
            Some(number) => numbers.push(number)?,
            None => return Ok(false),
        }
    }
    Ok(true)
}

/// The numbers for which a case is played: those from the first to before the second of a line `for`, those of a line
/// `each`, and 0 alone where there is no line. `None` where the line doesn't hold such numbers.
pub fn plays_of(alloc: Global, line: Option<Line>) -> Result<Option<Vec<u64>>, AllocError> {
    let Some(line) = line else {
        return numbers_of(alloc, "0", 0);
    };
    if line.word == "each" {
        return numbers_of(alloc, line.rest, 0);
    }
    match ends_of(line.rest) {
        Some((from, to)) => range(alloc, from, to),
        None => Ok(None),
    }
}

fn ends_of(text: &str) -> Option<(u64, u64)> {
    let Some((from, to)) = text.split_once(' ') else {
        return None;
    };
    match (from.parse::<u64>(), to.parse::<u64>()) {
        (Ok(from), Ok(to)) => Some((from, to)),
        _ => None,
    }
}

fn range(alloc: Global, from: u64, to: u64) -> Result<Option<Vec<u64>>, AllocError> {
    let mut numbers = Vec::new(alloc);
    for number in from..to {
        numbers.push(number)?;
    }
    Ok(Some(numbers))
}
