//! Why a measurement ends early.
use capture::Memory;
use http_head::WireFault;
use std::alloc::{AllocError, AllocFailed};
use std::io;

/// There was no memory, the system refused the clock or the output, bytes were no message, or an archive answered otherwise than it
/// does with ample memory.
#[derive(Debug, Drop)]
pub enum Stopped {
    Memory,
    Archive,
    System(io::Error),
    Wire(WireFault),
}

impl From<Memory> for Stopped {
    fn from(_memory: Memory) -> Stopped {
        Stopped::Memory
    }
}

impl From<AllocError> for Stopped {
    fn from(_error: AllocError) -> Stopped {
        Stopped::Memory
    }
}

impl<T: Drop> From<AllocFailed<T>> for Stopped {
    fn from(_error: AllocFailed<T>) -> Stopped {
        Stopped::Memory
    }
}

impl From<io::Error> for Stopped {
    fn from(error: io::Error) -> Stopped {
        Stopped::System(error)
    }
}

impl From<WireFault> for Stopped {
    fn from(fault: WireFault) -> Stopped {
        Stopped::Wire(fault)
    }
}
