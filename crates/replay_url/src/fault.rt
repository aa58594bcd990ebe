//! Why an address has no form.
ghost use Rattle.std.specs.Prelude.{◌≡◌};

use capture::Memory;
use std::alloc::AllocError;
use thiserror::Error;

/// Why `read_form` or `read_keyed_form` gave no form.
#[derive(Clone, Copy, Debug, Error)]
pub enum FormFault {
    /// The address is none of the forms.
    #[error("no address of the archive")]
    NotAForm,
    /// It is a memento's, and its digits name no time.
    #[error("no time is named by the digits")]
    BadTime,
    /// Memory ran out.
    #[error("memory ran out")]
    Memory,
}

impl From<Memory> for FormFault {
    ghost use Rattle.replay_url.specs.declared.fault.FormFault.TheVariants.{Memory as OutOfMemory};

    ghost from_gives = { λ _ fault. fault ≡ OutOfMemory };

    fn from(_error: Memory) -> FormFault {
        FormFault::Memory
    }
}

impl From<AllocError> for FormFault {
    ghost use Rattle.replay_url.specs.declared.fault.FormFault.TheVariants.{Memory as OutOfMemory};

    ghost from_gives = { λ _ fault. fault ≡ OutOfMemory };

    fn from(_error: AllocError) -> FormFault {
        FormFault::Memory
    }
}
