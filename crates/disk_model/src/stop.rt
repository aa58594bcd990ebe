//! What a disk in memory holds after it is stopped.
ghost use Rattle.std.specs.Prelude.{◌≡◌, ◌++◌, ◌∷◌, [], List, true, Option, Some, IfOk};
ghost use Rattle.disk_model.specs.Changes.{is_pending, replayed, torn_changes};
ghost use Rattle.disk_model.specs.steps.Pending.{kept_changes};
ghost use Rattle.disk_model.specs.declared.change.Change.{Change};

use crate::change::Change;
use crate::contents::Contents;
use crate::synced::pending_marks;
use capture::Memory;
use std::alloc::Global;

/// The files after a record of changes, of which the pending ones are made for so many written bytes, in order, or
/// not at all. The next byte of a pending write becomes `W`.
pub fn replay(
    alloc: Global,
    first: &Contents,
    changes: &[Change],
    budget: Option<u64>,
) -> Result<Contents, Memory>
    ensures { IfOk result (λ files. files ≡ replayed (kept_changes budget changes.now) first.now) }
{
    let pending = pending_marks(alloc, changes)?;
    let mut files = first.copy()?;
    let mut left = budget;
    for i in 0..changes.len() {
        left = step(alloc, &mut files, &changes[i], pending[i], left)?;
    }
    Ok(files)
}

/// Makes one change, and answers for how many bytes pending ones are made from then on.
fn step(
    alloc: Global,
    files: &mut Contents,
    change: &Change,
    pending: bool,
    budget: Option<u64>,
) -> Result<Option<u64>, Memory>
    ensures { IfOk result (λ left. (later : List Change) → pending ≡ is_pending change.now later
        → replayed (kept_changes budget (change.now ∷ later)) files.old ≡ replayed (kept_changes left later) files.new) }
{
    if !pending {
        files.apply(change)?;
        return Ok(budget);
    }
    match budget {
        None => Ok(None),
        Some(bytes) => tear(alloc, files, change, bytes),
    }
}

/// Makes a pending change for so many bytes.
fn tear(
    alloc: Global,
    files: &mut Contents,
    change: &Change,
    budget: u64,
) -> Result<Option<u64>, Memory>
    ensures { IfOk result (λ left. (later : List Change) → is_pending change.now later ≡ true
        → replayed (torn_changes budget (change.now ∷ later)) files.old ≡ replayed (kept_changes left later) files.new) }
{
    if let Change::Wrote {
        kind,
        file,
        at,
        bytes,
    } = change
    {
        let bytes = bytes.as_slice();
        if bytes.len() as u64 > budget {
            let torn = with_commit_byte(alloc, &bytes[..budget as usize])?;
            files.write_at(*kind, *file, *at, torn.as_slice())?;
            return Ok(None);
        }
        files.apply(change)?;
        return Ok(Some(budget - bytes.len() as u64));
    }
    files.apply(change)?;
    Ok(Some(budget))
}

/// The bytes, and a commit byte behind them.
fn with_commit_byte(alloc: Global, bytes: &[u8]) -> Result<Vec<u8>, Memory>
    ensures { IfOk result (λ torn. torn.items ≡ bytes.now ++ 87 ∷ []) }
{
    let mut torn = Vec::with_capacity(alloc, bytes.len() + 1)?;
    torn.extend_from_slice(bytes)?;
    torn.push(b'W')?;
    Ok(torn)
}
