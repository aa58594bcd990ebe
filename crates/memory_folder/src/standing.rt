//! How sure it is that something is on the disk.
ghost use Rattle.std.specs.Prelude.{◌≡◌};
ghost use Rattle.memory_folder.specs.Standing.{is_sure, after_sync};
ghost use Rattle.memory_folder.specs.declared.standing.Standing.TheVariants.{Fresh};

/// How sure it is that a write, a cut or a name is on the disk.
#[derive(Clone, Copy)]
pub enum Standing {
    /// It wasn't synced yet.
    Fresh,
    /// It is on the disk.
    Sure,
    /// A sync of it failed, so no later one answers for it.
    Doubtful,
}

impl Standing {
    /// Whether it is on the disk for sure.
    pub fn is_sure(self) -> bool
        ensures { result ≡ is_sure self }
    {
        match self {
            Standing::Fresh => false,
            Standing::Sure => true,
            Standing::Doubtful => false,
        }
    }

    /// How sure it is after a sync that was done, or failed.
    pub fn after_sync(self, done: bool) -> Standing
        ensures { result ≡ after_sync done self }
    {
        match self {
            Standing::Fresh => standing_of(done),
            Standing::Sure => Standing::Sure,
            Standing::Doubtful => Standing::Doubtful,
        }
    }
}

/// How sure what wasn't synced yet is after a sync.
fn standing_of(done: bool) -> Standing
    ensures { result ≡ after_sync done Fresh }
{
    if done {
        Standing::Sure
    } else {
        Standing::Doubtful
    }
}
