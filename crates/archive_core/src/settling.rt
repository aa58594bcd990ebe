//! How the checkpoints of sealed volumes are written.
ghost use Rattle.archive_core.specs.Settling.{SettlesOn};

use crate::Archive;
use archive_settling::settle_volumes;
use checkpoint::CheckpointFault;
use disk_model::Disk;
use std::alloc::Global;

impl<D: Disk> Archive<D> {
    /// Writes the checkpoint of each sealed volume, of each but the last, that has none yet. How many it wrote.
    ///
    /// The lines are read back from the volumes' records, of each volume once. One in which there is damage is passed over; a disk that
    /// tells what it holds has none. Refused, the checkpoints that were finished stay.
    pub fn settle(&mut self, alloc: Global) -> Result<u32, CheckpointFault>
        ensures { SettlesOn D.Disk self.old self.new result }
    {
        settle_volumes(
            &self.told,
            alloc,
            &mut self.volumes,
            self.spots.as_slice(),
            &mut self.settled,
        )
    }
}
