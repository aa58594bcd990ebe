//! The table and the index that are made of what was gathered.
ghost use Rattle.std.specs.Prelude.{◌≡◌, IfOk};
ghost use Rattle.std.specs.List.Sorted.{IsPermutation, IsStrictlySortedBy};
ghost use Rattle.index_entry.specs.OfBook.{by_number};
ghost use Rattle.index_entry.specs.Queries.{IsIndex};
ghost use Rattle.revisit_table.specs.Table.{table_of};

use crate::entry_order::{bring_to_order, compared};
use capture::Memory;
use cdxj_index::Index;
use index_entry::Entry;
use revisit_table::{Digests, LazyDigests};
use std::alloc::Global;

/// The table of these digests, and the index of these entries.
pub fn tables_of(
    alloc: Global,
    digests: LazyDigests,
    entries: Vec<Entry>,
) -> Result<(Digests, Index), Memory>
    requires numbered { IsStrictlySortedBy by_number entries.items }
    ensures table { IfOk result (λ tables. tables.0 ≡ table_of digests.kept) }
    ensures index { IfOk result (λ tables. IsIndex tables.1) }
    ensures same { IfOk result (λ tables. IsPermutation entries.items tables.1) }
{
    // before the index, since it takes memory meanwhile
    let table = digests.into_table(alloc)?;
    let index = index_of(alloc, entries)?;
    Ok((table, index))
}

/// The index of these entries.
fn index_of(alloc: Global, mut entries: Vec<Entry>) -> Result<Index, Memory>
    requires numbered { IsStrictlySortedBy by_number entries.items }
    ensures index { IfOk result IsIndex }
    ensures same { IfOk result (λ index. IsPermutation entries.items index) }
{
    bring_to_order(alloc, &mut entries)?;
    // They are in order by now, so that this passes over them once.
    entries.sort_unstable_by(|a, b| compared(a, b));
    Index::of_sorted(alloc, entries)
}
