//! What is held between two steps.
use archive_core::Archive;
use disk_model::{Disk, MemoryDisk};

/// A disk, or the archive that was opened over it.
#[derive(Drop)]
pub enum Held<D: Disk> {
    Disk(D),
    Archive(Archive<D>),
}

impl<D: Disk> Held<D> {
    /// The disk, where an archive was open it is closed.
    pub fn closed(self) -> D {
        match self {
            Held::Disk(disk) => disk,
            Held::Archive(archive) => archive.close(),
        }
    }
}

impl Held<MemoryDisk> {
    /// The same, where so many further calls of the disk pass, and each behind them fails.
    pub fn fused(self, calls: u64) -> Held<MemoryDisk> {
        match self {
            Held::Disk(disk) => Held::Disk(disk.fused(calls)),
            Held::Archive(archive) => Held::Archive(archive.fused(calls)),
        }
    }
}
