//! Why a text has no key.
ghost use Rattle.std.specs.Prelude.{◌≡◌};

use capture::Memory;
use std::alloc::AllocError;
use thiserror::Error;

/// Why `key_of` or `key_of_address` gave no key.
#[derive(Clone, Copy, Debug, Error)]
pub enum KeyFault {
    /// The text isn't a URL of ASCII with the scheme http or https.
    #[error("no URL of ASCII with the scheme http or https")]
    NotHttp,
    /// Memory ran out, or the URL comes to 4 GB.
    #[error("memory ran out")]
    Memory,
}

impl From<Memory> for KeyFault {
    ghost use Rattle.surt_key.specs.declared.fault.KeyFault.TheVariants.{Memory as OutOfMemory};

    ghost from_gives = { λ _ fault. fault ≡ OutOfMemory };

    fn from(_error: Memory) -> KeyFault {
        KeyFault::Memory
    }
}

impl From<AllocError> for KeyFault {
    ghost use Rattle.surt_key.specs.declared.fault.KeyFault.TheVariants.{Memory as OutOfMemory};

    ghost from_gives = { λ _ fault. fault ≡ OutOfMemory };

    fn from(_error: AllocError) -> KeyFault {
        KeyFault::Memory
    }
}
