//! The group of a capture that is to stand behind all others, and how it is laid out.
ghost use Rattle.std.specs.Prelude.{◌≡◌, ◌+◌, ◌^◌, ◌<◌, ℕ, List, length, IfOk, IfSome};
ghost use Rattle.sha1.specs.Sha1.{sha1};
ghost use Rattle.time_text.specs.Texts.{InRange};
ghost use Rattle.warc_text.specs.Lengths.{IsShort};
ghost use Rattle.archive_volumes.specs.Grouping.{IsGroupFor, TellsSame, StandsAt, block_of};
ghost use Rattle.archive_volumes.specs.Held.{book_of};
ghost use Rattle.archive_volumes.specs.Spots.{AreSpotsOf};
ghost use Rattle.capture.specs.declared.book.Book.{Book};

use crate::spot::Spot;
use crate::volumes::Volumes;
use capture::{Bytes, Digest, Memory, Taken};
use disk_model::Disk;
use std::alloc::Global;
use warc_text::{SameOf, group_text, request_len};

/// What a revisit says of the capture with this number, of which this is kept.
fn same_of(first: u32, spot: &Spot) -> Result<SameOf, Memory>
    ensures { IfOk result (λ same. same ≡ record { number = first; uri = spot.now.uri; date = spot.now.date }) }
{
    Ok(SameOf {
        number: first,
        uri: spot.uri.copy()?,
        date: spot.date,
    })
}

impl<D: Disk> Volumes<D> {
    /// The group of a capture whose payload has this digest, and which refers to this earlier one, if to any.
    pub(crate) fn group_of(
        &self,
        alloc: Global,
        spots: &[Spot],
        taken: &Taken,
        digest: &Digest,
        same: Option<u32>,
    ) -> Result<Bytes, Memory>
        requires spots { AreSpotsOf (book_of self.now.held) spots.now }
        requires few { length spots.now < 2 ^ 32 }
        requires date { InRange taken.now.date }
        requires same { IfSome same (λ first. first < length spots.now) }
        ensures group { (payload : List ℕ) → digest.now ≡ sha1 payload
            → IfOk result (IsGroupFor (book_of self.now.held) taken.now payload same) }
        ensures short { IsShort taken.now → (payload : List ℕ) → digest.now ≡ sha1 payload
            → IfOk result (λ text. length text < 2 ^ 61 + 2 ^ 60) }
    {
        let number = spots.len() as u32;
        match same {
            Some(first) => {
                let same = same_of(first, &spots[first as usize])?;
                group_text(
                    alloc,
                    &self.held.namespace,
                    number,
                    taken,
                    digest,
                    Some(&same),
                )
            }
            None => group_text(alloc, &self.held.namespace, number, taken, digest, None),
        }
    }
}

/// What stands behind a record's block.
const RECORD_END: u64 = 4;

/// The length of the block of a capture's first record: its head, and its wire where it keeps that.
fn block_len(taken: &Taken, same: Option<u32>) -> u64
    requires { IsShort taken.now }
    ensures value { result ≡ length (block_of taken.now same) }
    ensures short { result < 2 ^ 60 }
{
    match same {
        Some(_) => taken.head.as_slice().len() as u64,
        None => taken.head.as_slice().len() as u64 + taken.wire.as_slice().len() as u64,
    }
}

/// How a capture's group is laid out.
#[derive(Clone, Copy)]
pub struct Layout {
    /// The length of its first record, a response or a revisit, in bytes.
    pub record_len: u64,
    /// Where in the group the response's head begins, in bytes.
    pub head_at: u64,
}

/// How the group of a capture is laid out, which refers to this one, if to any.
pub(crate) fn layout_of(taken: &Taken, same: Option<u32>, group: &[u8]) -> Layout
    requires short { IsShort taken.now }
    requires group { (book : Book) × (payload : List ℕ) × IsGroupFor book taken.now payload same group.now }
    ensures { StandsAt taken.now same group.now result }
{
    let record_len = group.len() as u64 - request_len(taken);
    Layout {
        record_len,
        head_at: record_len - RECORD_END - block_len(taken, same),
    }
}
