//! Why bytes don't begin with a text.
ghost use Rattle.std.specs.Prelude.{◌≡◌};

use capture::Memory;

/// Why bytes don't begin with a text, whatever follows them.
#[derive(Clone, Copy)]
pub enum Stop {
    /// They may: they end inside it.
    Open,
    /// They may: they end inside a block, and the text has at least so many bytes.
    Until(u64),
    /// They don't.
    Wrong,
    /// There was no memory.
    Memory,
}

impl From<Memory> for Stop {
    ghost use Rattle.record_opening.specs.declared.stop.Stop.TheVariants.{Memory as OutOfMemory};

    ghost from_gives = { λ _ stop. stop ≡ OutOfMemory };

    fn from(_error: Memory) -> Stop {
        Stop::Memory
    }
}
