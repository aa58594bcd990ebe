//! The calls of an object in memory: their numbers, and which of them fail.
ghost use Rattle.std.specs.Prelude.{◌≡◌, ◌↔◌, ◌<◌, ◌≤◌, IsTrue, if◌then◌else◌};

use capture::Items;

/// How many calls an object has had, which are to fail by their number, and how many have failed. Both
/// counts stand still at their greatest value.
#[derive(Drop)]
pub(crate) struct Calls {
    fails: Items<u64>,
    made: u64,
    faults: u64,
}

impl Calls {
    ghost use Rattle.outside.specs.Calls.{one_more, is_listed, passed, failed, new_calls};

    /// No call so far, and those of these numbers are to fail, counted from 0.
    pub(crate) fn new(fails: Vec<u64>) -> Calls
        ensures { result ≡ new_calls fails.items }
    {
        Calls {
            fails: Items::of(fails),
            made: 0,
            faults: 0,
        }
    }

    /// One call more. Answers whether it is to fail, which is then counted.
    pub(crate) fn next_fails(&mut self) -> bool
        ensures listed { result ≡ is_listed self.old }
        ensures after { self.new ≡ (if result then failed self.old else passed self.old) }
        ensures later { self.old.faults ≤ self.new.faults }
    {
        let fails = self.fails.as_slice().contains(&self.made);
        self.made = self.made.saturating_add(1);
        if fails {
            self.faults = self.faults.saturating_add(1);
        }
        fails
    }

    /// Counts a fault of the call that was last.
    pub(crate) fn count_fault(&mut self)
        ensures after { self.new ≡ record self.old { faults = one_more self.old.faults } }
        ensures later { self.old.faults ≤ self.new.faults }
    {
        self.faults = self.faults.saturating_add(1);
    }

    /// How many calls have failed.
    pub(crate) fn faults(&self) -> u64
        ensures { result ≡ self.now.faults }
    {
        self.faults
    }

    /// Whether a call has failed.
    pub(crate) fn has_failed(&self) -> bool
        ensures { IsTrue result ↔ (0 < self.now.faults) }
    {
        self.faults != 0
    }
}
