//! The lists of numbers by digest, made at once of captures in the order of their numbers.
ghost use Rattle.std.specs.Prelude.{◌≡◌, ◌∷◌, [], ℕ, List, All, IfOk, false};
ghost use Rattle.std.specs.Cmp.Lexicographic.{slice_cmp};
ghost use Rattle.std.specs.Ordering.{nat_cmp};
ghost use Rattle.revisit_table.specs.Groups.{AreInOrder, HasNumbers, IsFirstGroup, numbers_among};
ghost use Rattle.revisit_table.specs.Lists.{has_list, numbers_at};
ghost use Rattle.revisit_table.specs.Table.{numbers_of};

use crate::numbers::Numbers;
use capture::{Digest, Memory};
use std::alloc::Global;
use std::cmp::Ordering;
use std::collections::BTreeMap;

/// The numbers of each digest, in the order of the entries.
pub(crate) fn lists_of(
    alloc: Global,
    kept: &[(Digest, u32)],
) -> Result<BTreeMap<Digest, Numbers>, Memory>
    ensures same { IfOk result (λ lists. (digest : List ℕ) → numbers_at lists digest ≡ numbers_of digest kept.now) }
    ensures used { IfOk result (λ lists. (digest : List ℕ) → numbers_at lists digest ≡ [] → has_list lists digest ≡ false) }
{
    let sorted = by_digest(alloc, kept)?;
    let groups = grouped(alloc, sorted.as_slice())?;
    drop(sorted);
    Ok(BTreeMap::from_iter(alloc, groups)?)
}

/// The entries in the order of their digests, those of one digest in the order in which they came.
fn by_digest(alloc: Global, kept: &[(Digest, u32)]) -> Result<Vec<(Digest, u32)>, Memory>
    ensures in_order { IfOk result (λ sorted. AreInOrder sorted.items) }
    ensures same { IfOk result (λ sorted. (digest : List ℕ) → numbers_of digest sorted.items ≡ numbers_of digest kept.now) }
{
    let mut sorted = Vec::from_slice(alloc, kept)?;
    sorted.sort_by(|a, b| compared(a, b))?;
    Ok(sorted)
}

/// How two entries stand by their digests.
fn compared(a: &(Digest, u32), b: &(Digest, u32)) -> Ordering
    ensures { result ≡ slice_cmp nat_cmp a.now.0 b.now.0 }
{
    a.0.cmp(&b.0)
}

/// Each digest once, with its numbers, of entries in the order of their digests.
fn grouped(alloc: Global, sorted: &[(Digest, u32)]) -> Result<Vec<(Digest, Numbers)>, Memory>
    requires { AreInOrder sorted.now }
    ensures same { IfOk result (λ groups. (digest : List ℕ) → numbers_among groups.items digest ≡ numbers_of digest sorted.now) }
    ensures filled { IfOk result (λ groups. All HasNumbers groups.items) }
{
    let mut groups = Vec::with_capacity(alloc, sorted.len())?;
    let mut rest = sorted;
    'groups: while let Some((first, behind)) = rest.split_first() {
        let (numbers, left) = first_group(alloc, first, behind)?;
        groups.push((first.0, numbers))?;
        rest = left;
    }
    Ok(groups)
}

/// The numbers of the first entry's digest, and the entries behind the last that has it.
fn first_group<'e>(
    alloc: Global,
    first: &(Digest, u32),
    behind: &'e [(Digest, u32)],
) -> Result<(Numbers, &'e [(Digest, u32)]), Memory>
    requires { AreInOrder (first.now ∷ behind.now) }
    ensures { IfOk result (λ group. IsFirstGroup first.now.0 first.now.1 behind.now group.0 group.1.now) }
{
    let mut numbers = Numbers::One(first.1);
    let mut rest = behind;
    'entries: while let Some((entry, left)) = rest.split_first() {
        if entry.0 != first.0 {
            return Ok((numbers, rest));
        }
        numbers.put(alloc, entry.1)?;
        rest = left;
    }
    Ok((numbers, rest))
}
