//! What was done to the bytes of one file.
ghost use Rattle.std.specs.Prelude.{◌≡◌, ◌++◌, ◌∷◌, [], IfOk, OnOk};
ghost use Rattle.disk_model.specs.Image.{written};
ghost use Rattle.memory_folder.specs.Entry.{standing_of, done_by, torn_by, spent_by, spent, left_by, left, step_synced};

use crate::budget::Budget;
use crate::standing::Standing;
use capture::{Bytes, Memory};
use std::alloc::Global;

/// A write or a cut, and how sure it is on the disk.
#[derive(Drop)]
pub enum Step {
    /// These bytes were written at a place.
    Write {
        at: u64,
        bytes: Bytes,
        standing: Standing,
    },
    /// The file was cut to a length.
    Truncate {
        len: u64,
        standing: Standing,
    },
}

impl Step {
    /// How sure it is on the disk.
    fn standing(&self) -> Standing
        ensures { result ≡ standing_of self.now }
    {
        match self {
            Step::Write { standing, .. } => *standing,
            Step::Truncate { standing, .. } => *standing,
        }
    }

    /// A sync of the file was done, or failed.
    pub fn set_synced(&mut self, done: bool)
        ensures { self.new ≡ step_synced done self.old }
    {
        match self {
            Step::Write { standing, .. } => *standing = standing.after_sync(done),
            Step::Truncate { standing, .. } => *standing = standing.after_sync(done),
        }
    }

    /// Does it to these bytes.
    fn apply(&self, bytes: &mut Vec<u8>) -> Result<(), Memory>
        ensures { OnOk result (bytes.new.items ≡ done_by self.now bytes.old.items) }
    {
        match self {
            Step::Write {
                at,
                bytes: some,
                ..
            } => overwrite(bytes, *at as usize, some.as_slice()),
            Step::Truncate { len, .. } => {
                bytes.truncate(*len as usize);
                Ok(())
            }
        }
    }

    /// Does it to these bytes for so many bytes at most, and answers for how much later ones are done.
    fn tear(&self, alloc: Global, bytes: &mut Vec<u8>, most: u64) -> Result<Budget, Memory>
        ensures budget { IfOk result (λ rest. rest ≡ spent_by most self.now) }
        ensures bytes { OnOk result (bytes.new.items ≡ torn_by most self.now bytes.old.items) }
    {
        if let Step::Write {
            at,
            bytes: some,
            ..
        } = self
        {
            let some = some.as_slice();
            if some.len() as u64 > most {
                let torn = with_commit_byte(alloc, &some[..most as usize])?;
                overwrite(bytes, *at as usize, torn.as_slice())?;
                return Ok(Budget::Nothing);
            }
            self.apply(bytes)?;
            return Ok(Budget::First(most - some.len() as u64));
        }
        self.apply(bytes)?;
        Ok(Budget::First(most))
    }

    /// Does it to these bytes where it is sure, or as far as the budget goes, and answers what later ones have.
    fn leave(&self, alloc: Global, bytes: &mut Vec<u8>, budget: Budget) -> Result<Budget, Memory>
        ensures budget { IfOk result (λ rest. rest ≡ spent budget self.now) }
        ensures bytes { OnOk result (bytes.new.items ≡ left_by budget self.now bytes.old.items) }
    {
        if self.standing().is_sure() {
            self.apply(bytes)?;
            return Ok(budget);
        }
        match budget {
            Budget::All => {
                self.apply(bytes)?;
                Ok(Budget::All)
            }
            Budget::First(most) => self.tear(alloc, bytes, most),
            Budget::Nothing => Ok(Budget::Nothing),
        }
    }
}

/// The bytes behind these steps, of which those that aren't sure are done as far as the budget goes.
pub fn left_bytes(
    alloc: Global,
    base: &[u8],
    steps: &[Step],
    budget: Budget,
) -> Result<Vec<u8>, Memory>
    ensures { IfOk result (λ bytes. bytes.items ≡ left budget steps.now base.now) }
{
    let mut bytes = Vec::from_slice(alloc, base)?;
    let mut rest = budget;
    for step in steps {
        rest = step.leave(alloc, &mut bytes, rest)?;
    }
    Ok(bytes)
}

/// Writes bytes at a place, over what is there and behind it.
fn overwrite(old: &mut Vec<u8>, at: usize, bytes: &[u8]) -> Result<(), Memory>
    ensures { OnOk result (old.new.items ≡ written old.old.items at bytes.now) }
{
    let from = at.min(old.len());
    let inside = bytes.len().min(old.len() - from);
    let (over, past) = bytes.split_at(inside);
    old.extend_from_slice(past)?;
    let end = from + inside;
    old[from..end].copy_from_slice(over);
    Ok(())
}

/// The bytes, and a commit byte behind them.
fn with_commit_byte(alloc: Global, bytes: &[u8]) -> Result<Vec<u8>, Memory>
    ensures { IfOk result (λ torn. torn.items ≡ bytes.now ++ 87 ∷ []) }
{
    let mut torn = Vec::with_capacity(alloc, bytes.len() + 1)?;
    torn.extend_from_slice(bytes)?;
    torn.push(b'W')?;
    Ok(torn)
}
