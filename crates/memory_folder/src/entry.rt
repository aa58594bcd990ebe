//! A file of a folder in memory.
ghost use Rattle.std.specs.Prelude.{◌≡◌, ◌++◌, ◌∷◌, [], string_bytes, IfOk, OnOk, OnErr};
ghost use Rattle.std.specs.Str.{bytes_eq};
ghost use Rattle.memory_folder.specs.Entry.{left, steps_synced, entry_synced, entry_listed, is_left, left_entry};
ghost use Rattle.memory_folder.specs.declared.standing.Standing.TheVariants.{Fresh};

use crate::budget::Budget;
use crate::standing::Standing;
use crate::step::{Step, left_bytes};
use capture::Memory;
use std::alloc::Global;
use std::marker::Model;

/// A file of a folder in memory, by what the disk had of it first and what was done since.
#[derive(Drop)]
pub struct MemoryEntry {
    name: String,
    base: Vec<u8>,
    steps: Vec<Step>,
    named: Standing,
}

impl Model for MemoryEntry {
    ghost use Rattle.std.specs.Prelude.{string_bytes};
    ghost use Rattle.memory_folder.specs.Entry.{Entry};

    ghost Value = { Entry };

    ghost view = { λ e. record { name = string_bytes e.name; base = e.base.items; steps = e.steps.items; named = e.named } };
}

impl MemoryEntry {
    /// A file that is just made.
    pub fn made(alloc: Global, name: &str) -> Result<MemoryEntry, Memory>
        ensures { IfOk result (λ entry. entry ≡ record { name = name.now; base = []; steps = []; named = Fresh }) }
    {
        Ok(MemoryEntry {
            name: String::from_str(alloc, name)?,
            base: Vec::new(alloc),
            steps: Vec::new(alloc),
            named: Standing::Fresh,
        })
    }

    /// Its name.
    pub fn name(&self) -> &str
        ensures { result.now ≡ self.now.name }
    {
        self.name.as_str()
    }

    /// Whether this is its name.
    pub fn is_named(&self, name: &str) -> bool
        ensures { result ≡ bytes_eq name.now self.now.name }
    {
        name == self.name.as_str()
    }

    /// Its bytes behind the steps, of which those that aren't sure are done as far as the budget goes.
    pub fn bytes(&self, alloc: Global, budget: Budget) -> Result<Vec<u8>, Memory>
        ensures { IfOk result (λ bytes. bytes.items ≡ left budget self.now.steps self.now.base) }
    {
        left_bytes(alloc, self.base.as_slice(), self.steps.as_slice(), budget)
    }

    /// A step more, or none where memory was refused.
    pub fn push(&mut self, step: Step) -> Result<(), Memory>
        ensures ok { OnOk result (self.new ≡ record self.old { steps = self.old.steps ++ step ∷ [] }) }
        ensures err { OnErr result (self.new ≡ self.old) }
    {
        if self.steps.push(step).is_err() {
            return Err(Memory);
        }
        Ok(())
    }

    /// A sync of it was done, or failed.
    pub fn set_synced(&mut self, done: bool)
        ensures { self.new ≡ entry_synced done self.old }
    {
        sync_steps(self.steps.as_mut_slice(), done);
    }

    /// A sync of its folder was done, or failed.
    pub fn set_listed(&mut self, done: bool)
        ensures { self.new ≡ entry_listed done self.old }
    {
        self.named = self.named.after_sync(done);
    }

    /// Whether a stop leaves it.
    pub fn is_left(&self, budget: Budget) -> bool
        ensures { result ≡ is_left budget self.now }
    {
        budget.leaves_names() || self.named.is_sure()
    }

    /// What a stop leaves of it.
    pub fn left(&self, alloc: Global, budget: Budget) -> Result<MemoryEntry, Memory>
        ensures { IfOk result (λ entry. entry ≡ left_entry budget self.now) }
    {
        let name = String::from_str(alloc, self.name.as_str())?;
        let base = self.bytes(alloc, budget)?;
        Ok(MemoryEntry {
            name,
            base,
            steps: Vec::new(alloc),
            named: Standing::Sure,
        })
    }
}

/// A sync of the file was done, or failed.
fn sync_steps(steps: &mut [Step], done: bool)
    ensures { steps.new ≡ steps_synced done steps.old }
{
    for step in steps.iter_mut() {
        step.set_synced(done);
    }
}
