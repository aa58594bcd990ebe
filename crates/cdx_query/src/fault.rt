//! Why a text is no query.
ghost use Rattle.std.specs.Prelude.{◌≡◌};

use capture::Memory;
use std::alloc::AllocError;
use thiserror::Error;

/// Why `read_query` gave no query.
#[derive(Clone, Copy, Debug, Error)]
pub enum QueryFault {
    /// The text is no query.
    #[error("no query")]
    BadQuery,
    /// Memory ran out.
    #[error("memory ran out")]
    Memory,
}

impl From<Memory> for QueryFault {
    ghost use Rattle.cdx_query.specs.declared.fault.QueryFault.TheVariants.{Memory as OutOfMemory};

    ghost from_gives = { λ _ fault. fault ≡ OutOfMemory };

    fn from(_error: Memory) -> QueryFault {
        QueryFault::Memory
    }
}

impl From<AllocError> for QueryFault {
    ghost use Rattle.cdx_query.specs.declared.fault.QueryFault.TheVariants.{Memory as OutOfMemory};

    ghost from_gives = { λ _ fault. fault ≡ OutOfMemory };

    fn from(_error: AllocError) -> QueryFault {
        QueryFault::Memory
    }
}
