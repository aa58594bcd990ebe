//! A table of digests that is made at once when it is first asked.
ghost use Rattle.std.specs.Prelude.{◌≡◌, ◌<◌, ◌∷◌, ◌++◌, [], None, All, IfOk, OnOk, map};
ghost use Rattle.std.specs.List.Sorted.{IsStrictlyIncreasing};
ghost use Rattle.revisit_table.specs.Table.{empty_lazy_table, numbers_of, settled_table, table_of};

use crate::digests::Digests;
use capture::{Digest, Memory};
use std::alloc::Global;
use std::marker::Model;
use std::mem::replace;

/// Captures by digest, as they are read from a disk, which wait in a list until the table is asked. A clause sees all of them, and
/// those that wait. Their numbers rise strictly.
#[derive(Drop)]
pub struct LazyDigests {
    table: Digests,
    waiting: Vec<(Digest, u32)>,
}

impl Model for LazyDigests {
    ghost use Rattle.std.specs.Prelude.{◌≡◌, ◌++◌, None, map};
    ghost use Rattle.std.specs.List.Sorted.{IsStrictlyIncreasing};
    ghost use Rattle.revisit_table.specs.Table.{LazyTable};

    ghost Value = { LazyTable };

    ghost view = { λ lazy. record { kept = lazy.table.kept ++ lazy.waiting.items; waiting = lazy.waiting.items } };

    ghost invariant = { λ lazy. (lazy.table.reserved ≡ None) × IsStrictlyIncreasing (map (λ entry. entry.1) (lazy.table.kept ++ lazy.waiting.items)) };
}

impl LazyDigests {
    /// No digests. Takes no memory.
    pub fn new(alloc: Global) -> LazyDigests
        ensures { result ≡ empty_lazy_table }
    {
        LazyDigests {
            table: Digests::new(alloc),
            waiting: Vec::new(alloc),
        }
    }

    /// Adds a capture of this digest, which waits.
    pub fn push(&mut self, digest: &Digest, number: u32) -> Result<(), Memory>
        requires above { All (λ entry. entry.1 < number) self.old.kept }
        ensures { OnOk result (self.new.kept ≡ self.old.kept ++ (digest.now, number) ∷ []) }
    {
        self.waiting.push((*digest, number))?;
        Ok(())
    }

    /// Puts the captures that wait into the table, which is made of them at once where it has none yet. After `Memory` some of them may be gone.
    pub fn settle(&mut self, alloc: Global) -> Result<(), Memory>
        ensures { OnOk result (self.new ≡ settled_table self.old.kept) }
    {
        let waiting = replace(&mut self.waiting, Vec::new(alloc));
        if self.table.is_empty() {
            self.table = Digests::of(alloc, waiting)?;
            return Ok(());
        }
        put_all(alloc, &mut self.table, waiting.as_slice())
    }

    /// The numbers of the captures that have this digest, which rise strictly. None may wait.
    pub fn candidates(&self, digest: &Digest) -> &[u32]
        requires settled { self.now.waiting ≡ [] }
        ensures numbers { result.now ≡ numbers_of digest.now self.now.kept }
        ensures rising { IsStrictlyIncreasing result.now }
    {
        self.table.candidates(digest)
    }

    /// The table of all captures.
    pub fn into_table(self, alloc: Global) -> Result<Digests, Memory>
        ensures { IfOk result (λ table. table ≡ table_of self.kept) }
    {
        let mut lazy = self;
        lazy.settle(alloc)?;
        let LazyDigests { table, waiting: _ } = lazy;
        Ok(table)
    }
}

/// Puts these captures into a table one by one, behind those that are there.
fn put_all(alloc: Global, table: &mut Digests, entries: &[(Digest, u32)]) -> Result<(), Memory>
    requires unreserved { table.old.reserved ≡ None }
    requires rising { IsStrictlyIncreasing (map (λ entry. entry.1) (table.old.kept ++ entries.now)) }
    ensures ok { OnOk result (table.new ≡ table_of (table.old.kept ++ entries.now)) }
    ensures unreserved { table.new.reserved ≡ None }
    ensures rising { IsStrictlyIncreasing (map (λ entry. entry.1) table.new.kept) }
{
    let mut rest = entries;
    'entries: while let Some((entry, behind)) = rest.split_first() {
        table.put(alloc, &entry.0, entry.1)?;
        rest = behind;
    }
    Ok(())
}
