//! Which earlier capture a revisit refers to.
ghost use Rattle.std.specs.Prelude.{◌≡◌, ◌<◌, ℕ, IfNone, IfSome, IsFalse, IsTrue, length, slice_index_or, Some};
ghost use Rattle.archive_gathering.specs.Originals.{IsMatch, IsMet};

use crate::measuring::Told;
use archive_volumes::Spot;
use uuid::Uuid;
use warc_scan::Revisited;
use warc_text::{IdKind, id_of};

/// What a revisit tells of the capture that it refers to.
#[derive(Clone, Copy)]
pub(crate) struct Sought<'a> {
    /// The namespace of the archive.
    pub(crate) namespace: &'a Uuid,
    /// The record that its own record names.
    pub(crate) same: &'a Revisited,
    /// What the revisit's head tells of the length of the payload.
    pub(crate) length: Told,
}

impl Sought<'_> {
    /// Whether a capture is the one: it has the target, the date and the id, and a payload of that length, unless a line alone told of it.
    pub(crate) fn is_met_by(self, number: u32, spot: &Spot, length: u64) -> bool
        ensures met { IsTrue result → IsMatch self.entry.namespace.now self.entry.same.now self.entry.length number spot.now length }
        ensures missed { IsFalse result → IsMatch self.entry.namespace.now self.entry.same.now self.entry.length number spot.now length → ⊥ }
    {
        if spot.date != self.same.date {
            return false;
        }
        if spot.uri != self.same.uri {
            return false;
        }
        if id_of(self.namespace, IdKind::Response, number) != self.same.id {
            return false;
        }
        if spot.form.is_told() {
            return true;
        }
        match self.length {
            Told::Any => true,
            Told::Exactly(told) => told == length,
            Told::TooMany => false,
        }
    }
}

/// The first of the captures with these numbers that is the one.
pub(crate) fn first_met(
    sought: Sought<'_>,
    candidates: &[u32],
    spots: &[Spot],
    lengths: &[u64],
) -> Option<u32>
    requires there { (k : ℕ) → k < length candidates.now → slice_index_or candidates.now k 0 < length spots.now }
    requires lengths { length lengths.now ≡ length spots.now }
    ensures met { IfSome result (λ number. IsMet sought.entry.namespace.now sought.entry.same.now sought.entry.length candidates.now spots.now lengths.now number) }
    ensures none { IfNone result ((number : ℕ) → IsMet sought.entry.namespace.now sought.entry.same.now sought.entry.length candidates.now spots.now lengths.now number → ⊥) }
{
    let mut at = 0;
    'candidates: while at < candidates.len() {
        let number = candidates[at];
        if sought.is_met_by(number, &spots[number as usize], lengths[number as usize]) {
            return Some(number);
        }
        at += 1;
    }
    None
}
