//! How a run of the program ended.

/// How a run of the program ended. The process ends with the number.
#[derive(Clone, Copy, Debug, PartialEq, Eq)]
pub enum Status {
    /// 0: all went well.
    Done = 0,
    /// 1: the words are none of the forms.
    Words = 1,
    /// 2: the archive wasn't opened, not all of an import was stored, or the check of its bytes found damage or was stopped by the disk.
    Archive = 2,
    /// 3: the gate, the output or the one connection failed, or that ended inside a message.
    Outside = 3,
    /// 4: there was no memory.
    Memory = 4,
}

/// A run's status, and its disk again.
#[derive(Drop)]
pub struct Ran<D> {
    pub status: Status,
    pub disk: D,
}
