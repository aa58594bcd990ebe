//! The lists of numbers by digest.
ghost use Rattle.std.specs.Prelude.{◌≡◌, ◌≢◌, ℕ, ◌<◌, ◌≤◌, false, not, ◌==◌, List, [], ◌∷◌, ◌++◌, filter, vec_len, Some, OnOk, OnErr, if◌then◌else◌};
ghost use Rattle.std.specs.List.Sorted.{IsStrictlyIncreasing};
ghost use Rattle.std.specs.Str.{bytes_eq};
ghost use Rattle.std.specs.Vec.{vec_capacity};
ghost use Rattle.revisit_table.specs.Lists.{has_list, numbers_at, spare_at};

use crate::numbers::Numbers;
use capture::{Digest, Memory};
use std::alloc::Global;
use std::collections::BTreeMap;

/// Makes room for one more number at the digest.
pub(crate) fn reserve_at(
    lists: &mut BTreeMap<Digest, Numbers>,
    alloc: Global,
    digest: &Digest,
) -> Result<(), Memory>
    ensures ok { OnOk result (0 < spare_at lists.new digest.now) }
    ensures same { (other : List ℕ) → numbers_at lists.new other ≡ numbers_at lists.old other }
    ensures spare { (other : List ℕ) → spare_at lists.old other ≤ spare_at lists.new other }
    ensures others { (other : List ℕ) → bytes_eq digest.now other ≡ false → has_list lists.new other ≡ has_list lists.old other }
    ensures err { OnErr result ((other : List ℕ) → has_list lists.new other ≡ has_list lists.old other) }
{
    if let Some(numbers) = lists.get_mut(digest) {
        numbers.reserve(alloc)?;
        return Ok(());
    }
    lists.insert(*digest, Numbers::Empty)?;
    Ok(())
}

/// Adds a number at the digest, in the room that is there.
pub(crate) fn add_at(lists: &mut BTreeMap<Digest, Numbers>, digest: &Digest, number: u32)
    requires { 0 < spare_at lists.old digest.now }
    ensures numbers { (other : List ℕ) → numbers_at lists.new other
        ≡ numbers_at lists.old other ++ (if bytes_eq digest.now other then number ∷ [] else []) }
    ensures lists { (other : List ℕ) → has_list lists.new other ≡ has_list lists.old other }
{
    if let Some(numbers) = lists.get_mut(digest) {
        numbers.push_reserved(number);
    }
}

/// Adds a number at the digest, by one look-up. After `Memory` no digest has other numbers, less room, or a list that it hadn't.
pub(crate) fn put_at(
    lists: &mut BTreeMap<Digest, Numbers>,
    alloc: Global,
    digest: &Digest,
    number: u32,
) -> Result<(), Memory>
    ensures ok { OnOk result ((other : List ℕ) → numbers_at lists.new other
        ≡ numbers_at lists.old other ++ (if bytes_eq digest.now other then number ∷ [] else [])) }
    ensures others { (other : List ℕ) → bytes_eq digest.now other ≡ false → has_list lists.new other ≡ has_list lists.old other }
    ensures same { OnErr result ((other : List ℕ) → numbers_at lists.new other ≡ numbers_at lists.old other) }
    ensures spare { OnErr result ((other : List ℕ) → spare_at lists.old other ≤ spare_at lists.new other) }
    ensures err { OnErr result ((other : List ℕ) → has_list lists.new other ≡ has_list lists.old other) }
{
    let numbers = lists.entry(*digest)?.or_insert(Numbers::Empty);
    numbers.put(alloc, number)
}

/// Takes a number out at the digest, if it's there.
pub(crate) fn take_at(lists: &mut BTreeMap<Digest, Numbers>, digest: &Digest, number: u32)
    requires { IsStrictlyIncreasing (numbers_at lists.old digest.now) }
    ensures same { (other : List ℕ) → numbers_at lists.new other
        ≡ (if bytes_eq digest.now other then filter (λ n. not (n == number)) (numbers_at lists.old other)
        else numbers_at lists.old other) }
    ensures spare { (other : List ℕ) → spare_at lists.old other ≤ spare_at lists.new other }
    ensures lists { (other : List ℕ) → has_list lists.new other ≡ has_list lists.old other }
{
    if let Some(numbers) = lists.get_mut(digest) {
        numbers.take_out(number);
    }
}

/// Leaves no empty list at the digest, unless the digest is the reserved one.
pub(crate) fn drop_unused(
    lists: &mut BTreeMap<Digest, Numbers>,
    digest: &Digest,
    reserved: Option<Digest>,
)
    ensures same { (other : List ℕ) → numbers_at lists.new other ≡ numbers_at lists.old other }
    ensures spare { (other : List ℕ) → reserved ≡ Some other → spare_at lists.new other ≡ spare_at lists.old other }
    ensures others { (other : List ℕ) → bytes_eq digest.now other ≡ false → has_list lists.new other ≡ has_list lists.old other }
    ensures unused { reserved ≢ Some digest.now → numbers_at lists.old digest.now ≡ [] → has_list lists.new digest.now ≡ false }
{
    if reserved == Some(*digest) {
        return;
    }
    match lists.get(digest) {
        Some(numbers) if numbers.as_slice().is_empty() => {
            lists.remove(digest);
        }
        _ => {}
    }
}
