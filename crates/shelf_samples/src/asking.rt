//! What a shelf is asked: to store, find, bring and ship.
use crate::samples::{Sample, address_of, payload_of, taken_of};
use archive_shelf::{Finder, Receipt, Shelf, StoreFault};
use capture::Memory;
use index_entry::Entry;
use std::alloc::Global;
use surt_key::key_of_address;

/// What a store answered: the capture's number and that of the one that it refers to. Where it was refused, the number is the last
/// one that there is.
#[derive(Clone, Copy)]
pub struct StoreAnswer {
    /// The capture's number.
    pub number: u32,
    /// That of the one that it refers to.
    pub same: Option<u32>,
}

/// That nothing was stored.
const REFUSED: StoreAnswer = StoreAnswer {
    number: u32::MAX,
    same: None,
};

/// Stores a capture, and says which number it has, and to which one it refers.
pub fn stored<S: Shelf>(alloc: Global, shelf: &mut S, sample: Sample) -> StoreAnswer {
    match taken_of(alloc, sample) {
        Some(taken) => answer_of(shelf.store(alloc, &taken)),
        None => REFUSED,
    }
}

/// What a store answered.
fn answer_of(answer: Result<Receipt, StoreFault>) -> StoreAnswer {
    match answer {
        Ok(receipt) => StoreAnswer {
            number: receipt.number,
            same: receipt.same_as,
        },
        Err(_) => REFUSED,
    }
}

/// The number of the capture of this address that is nearest to the first moment of 1970, if there is one. Where that can't be told
/// it is the last number that there is.
pub fn found<F: Finder>(alloc: Global, finder: &mut F, sample: Sample) -> Option<u32> {
    match key_of_address(alloc, address_of(sample).as_bytes()) {
        Ok(keyed) => number_of(finder.by_date(alloc, &keyed.key, 0)),
        Err(_) => Some(u32::MAX),
    }
}

/// The number of what was found.
fn number_of(answer: Result<Option<Entry>, Memory>) -> Option<u32> {
    match answer {
        Ok(Some(entry)) => Some(entry.number),
        Ok(None) => None,
        Err(_) => Some(u32::MAX),
    }
}

/// Whether a capture of this address and payload is brought.
pub fn brings<S: Shelf>(alloc: Global, shelf: &mut S, number: u32, sample: Sample) -> bool {
    match shelf.bring(alloc, number) {
        Ok(brought) => {
            brought.uri.as_slice() == address_of(sample).as_bytes()
                && brought.payload.as_slice() == payload_of(sample)
        }
        Err(_) => false,
    }
}

/// Whether two shelves give the same piece of the capture with this number.
pub fn ship_alike<S: Shelf>(alloc: Global, one: &mut S, other: &mut S, number: u32) -> bool {
    match one.piece(alloc, number) {
        Ok(piece) => ships(alloc, other, number, piece.as_slice()),
        Err(_) => false,
    }
}

/// Whether a shelf gives this piece of the capture with this number.
fn ships<S: Shelf>(alloc: Global, shelf: &mut S, number: u32, bytes: &[u8]) -> bool {
    match shelf.piece(alloc, number) {
        Ok(piece) => piece.as_slice() == bytes,
        Err(_) => false,
    }
}
