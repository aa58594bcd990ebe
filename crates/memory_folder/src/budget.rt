//! How much of what isn't sure a stop leaves.
ghost use Rattle.std.specs.Prelude.{◌≡◌};
ghost use Rattle.memory_folder.specs.Entry.{budget_of, leaves_names};

/// How much of the writes and cuts of one file that aren't sure to be on the disk is there.
#[derive(Clone, Copy)]
pub enum Budget {
    /// All of them, as reads find it.
    All,
    /// The first so many bytes that were written, in order, and one more that is `W`.
    First(u64),
    /// None.
    Nothing,
}

impl Budget {
    /// What the choice of a stop names: 0 nothing, 1 all, and c above 1 the first c - 2 bytes.
    pub fn of(choice: u32) -> Budget
        ensures { result ≡ budget_of choice }
    {
        match choice {
            0 => Budget::Nothing,
            1 => Budget::All,
            _ => Budget::First(u64::from(choice - 2)),
        }
    }

    /// Whether names that aren't sure are there.
    pub fn leaves_names(self) -> bool
        ensures { result ≡ leaves_names self }
    {
        match self {
            Budget::All => true,
            Budget::First(_) => true,
            Budget::Nothing => false,
        }
    }
}
