//! What a pass at its vault stores and brings, as one of many shelves over an archive.
use crate::at::At;
use crate::naming::Naming;
use archive_shelf::{BringFault, Receipt, Shelf, StoreFault};
use capture::{Brought, Bytes, Taken};
use disk_model::Disk;
use std::alloc::Global;
use std::sync::Wait;

impl<'a, R: Wait, D: Disk, J: Naming> Shelf for At<'a, R, D, J> {
    fn store(&mut self, alloc: Global, taken: &Taken) -> Result<Receipt, StoreFault> {
        self.vault.store(self.rt, alloc, &mut self.pass, taken)
    }

    fn bring(&mut self, alloc: Global, number: u32) -> Result<Brought, BringFault> {
        self.vault.bring(self.rt, alloc, &mut self.pass, number)
    }

    fn piece(&mut self, alloc: Global, number: u32) -> Result<Bytes, BringFault> {
        self.vault.piece(self.rt, alloc, &mut self.pass, number)
    }

    fn catch_up(&mut self, alloc: Global) {
        if self.pass.shows_all() {
            return;
        }
        self.pass.has_entries();
        self.vault.flush(self.rt, alloc, &mut self.pass)
    }
}
