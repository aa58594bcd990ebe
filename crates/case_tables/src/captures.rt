//! Calls of `revisit_table`. The text begins with what is asked; behind each `;` stands a step: a digest and the number of a
//! capture that is added, a digest for which room is made, or the number of a capture that is taken back.
ghost use Rattle.std.specs.Prelude.{◌<◌, All};

use capture::{Digest, Memory};
use case_language::{number_in, split_front, split_part};
use case_texts::{always, put_next_number};
use digest32::read_base32;
use revisit_table::Digests;
use std::alloc::Global;

/// A table of digests, and a number above those of its captures.
#[derive(Drop)]
struct Numbered {
    digests: Digests,
    next: u64,
    ghost below: { All (λ entry. entry.1 < next) digests.kept },
}

/// The numbers of a digest's captures, in order. Asked is for the digest, or for it and the least number.
pub fn candidates_of(alloc: Global, text: &[u8]) -> Result<Option<Vec<u8>>, Memory> {
    let (asked, steps) = split_part(text);
    match table_of(alloc, steps) {
        Ok(Some(table)) => found_in(alloc, &table.digests, asked),
        Ok(None) => Ok(None),
        Err(Memory) => Err(Memory),
    }
}

fn found_in(alloc: Global, table: &Digests, asked: &[u8]) -> Result<Option<Vec<u8>>, Memory> {
    match split_front(asked) {
        Some((digest, least)) => found_from(alloc, table, digest, least),
        None => match read_base32(asked) {
            Some(digest) => always(numbers_shown(alloc, table.candidates(&digest))),
            None => Ok(None),
        },
    }
}

fn found_from(
    alloc: Global,
    table: &Digests,
    digest: &[u8],
    least: &[u8],
) -> Result<Option<Vec<u8>>, Memory> {
    let (Some(digest), Some(least)) = (read_base32(digest), small_number_in(least)) else {
        return Ok(None);
    };
    always(numbers_shown(alloc, table.candidates_from(&digest, least)))
}

fn numbers_shown(alloc: Global, numbers: &[u32]) -> Result<Vec<u8>, Memory> {
    let mut out = Vec::new(alloc);
    for number in numbers {
        put_next_number(&mut out, u64::from(*number))?;
    }
    Ok(out)
}

/// A number below 2^32.
fn small_number_in(text: &[u8]) -> Option<u32> {
    u32::try_from(number_in(text)?).ok()
}

/// The table behind these steps. `None` where one is no step.
fn table_of(alloc: Global, steps: &[u8]) -> Result<Option<Numbered>, Memory> {
    let mut table = Numbered {
        digests: Digests::new(alloc),
        next: 0,
    };
    match take_all(alloc, &mut table, steps) {
        Ok(true) => Ok(Some(table)),
        Ok(false) => Ok(None),
        Err(Memory) => Err(Memory),
    }
}

/// Does these steps, up to the first that is none. Whether all are steps.
fn take_all(alloc: Global, table: &mut Numbered, steps: &[u8]) -> Result<bool, Memory> {
    for text in steps.split(|byte| *byte == b';') {
        if !text.is_empty() && !table.take(alloc, text.strip_prefix(b" ").unwrap_or(text))? {
            return Ok(false);
        }
    }
    Ok(true)
}

impl Numbered {
    /// Does a step, and says whether the text is one.
    fn take(&mut self, alloc: Global, text: &[u8]) -> Result<bool, Memory> {
        let Some((digest, number)) = split_front(text) else {
            return self.take_short(alloc, text);
        };
        match (read_base32(digest), small_number_in(number)) {
            (Some(digest), Some(number)) => self.add(alloc, &digest, number),
            _ => Ok(false),
        }
    }

    /// Takes the capture of a number back, or makes room for one of a digest.
    fn take_short(&mut self, alloc: Global, text: &[u8]) -> Result<bool, Memory> {
        if let Some(number) = small_number_in(text) {
            self.take_back(number);
            return Ok(true);
        }
        let Some(digest) = read_base32(text) else {
            return Ok(false);
        };
        self.digests.reserve(alloc, &digest)?;
        Ok(true)
    }

    #[tactic(auto, using(crate::proofs::TableLaws::below_without, crate::proofs::TableLaws::below_last))]
    fn take_back(&mut self, number: u32) {
        self.digests.take_back(number);
        if u64::from(number) + 1 == self.next {
            self.next = u64::from(number);
        }
    }

    /// Adds a capture. `false` where its number isn't above those of the captures that are there.
    #[tactic(auto, using(crate::proofs::TableLaws::below_later, crate::proofs::TableLaws::below_added))]
    fn add(&mut self, alloc: Global, digest: &Digest, number: u32) -> Result<bool, Memory> {
        if u64::from(number) < self.next {
            return Ok(false);
        }
        self.digests.reserve(alloc, digest)?;
        self.digests.add(digest, number);
        self.next = u64::from(number) + 1;
        Ok(true)
    }
}
