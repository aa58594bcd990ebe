//! A file that was to be made and may be there: where it is, it is synced with its name, and the disk's from then on.
ghost use Rattle.std.specs.Prelude.{◌≡◌, ◌≢◌, false, None, Err, IsTrue, OnOk};
ghost use Rattle.folder_model.specs.Folder.{FolderPast, contents_of};
ghost use Rattle.held_folder.specs.declared.trust.Further.TheVariants.{Absent, Unsettled};
ghost use Rattle.held_folder.specs.Calls.{Creates, Looks};
ghost use Rattle.held_folder.specs.Doubts.{further_of, IsMissed};
ghost use Rattle.held_folder.specs.Held.{state_of, AreHeld};
ghost use Rattle.folder_files.specs.Counting.{known_of};
ghost use Rattle.held_folder.specs.State.{IsKnown};

use crate::held::Held;
use crate::reasons::{is_there_already, stopped};
use crate::trust::Further;
use disk_model::Kind;
use folder_files::{FileNames, OpenOne, no_further_number, open_empty};
use folder_model::{Folder, MakeFault, settle_durably};
use std::io;
use std::io::ErrorKind;

impl<F: Folder, N: FileNames> Held<F, N> {
    /// Notes what is known of the next file of a kind, which was to be made and wasn't, or may be there. Gives why.
    pub(crate) fn note_missed(&mut self, kind: Kind, number: u32, fault: MakeFault) -> io::Error
        requires going { self.old.trust.gave_up ≡ false }
        requires absent { further_of self.old.trust kind ≡ Absent }
        requires number { number ≡ known_of self.old.warc self.old.cdxj kind }
        requires written { self.old.files.written ≡ None }
        requires read { self.old.files.read ≡ None }
        ensures creates { (first : FolderPast) → (IsTrue F.tells → IsKnown N.name (record (state_of F.past self.old) { past = first }))
            → (IsTrue F.tells → IsMissed (N.name kind number) fault first (F.past self.old.timed.folder))
            → Creates F.tells N.name kind (record (state_of F.past self.old) { past = first }) (state_of F.past self.new) (Err result) }
        ensures open { IsTrue F.tells → AreHeld N.name F.name_of F.past self.new }
    {
        match fault {
            MakeFault::Unlisted(error) => {
                self.timed.go_on();
                self.trust.missed_list(kind);
                error
            }
            MakeFault::Unsettled(error) => {
                if self.lacks(kind, number) {
                    return error;
                }
                self.timed.go_on();
                self.trust
                    .missed(kind, error.kind() == ErrorKind::AlreadyExists);
                is_there_already(error)
            }
        }
    }

    /// Looks whether a file of a kind is there that was to be made. One that is there is synced, with its name, and known from
    /// then on. Where that fails it may be tried again, but behind a sync of the folder that failed.
    pub(crate) fn settle(&mut self, kind: Kind) -> io::Result<()>
        requires known { IsTrue F.tells → IsKnown N.name (state_of F.past self.old) }
        requires open { IsTrue F.tells → AreHeld N.name F.name_of F.past self.old }
        requires going { self.old.trust.gave_up ≡ false }
        ensures looks { Looks F.tells N.name (state_of F.past self.old) (state_of F.past self.new) }
        ensures open { IsTrue F.tells → AreHeld N.name F.name_of F.past self.new }
        ensures settled { OnOk result (further_of self.new.trust kind ≡ Absent) }
    {
        match self.trust.further(kind) {
            Further::Absent => Ok(()),
            Further::Unsettled => self.seek(kind),
            Further::Unlisted => Err(stopped()),
        }
    }

    /// Looks for the file in the folder's list. One that is there is left, as none other is to be taken for it.
    fn seek(&mut self, kind: Kind) -> io::Result<()>
        requires known { IsTrue F.tells → IsKnown N.name (state_of F.past self.old) }
        requires going { self.old.trust.gave_up ≡ false }
        requires unsettled { further_of self.old.trust kind ≡ Unsettled }
        ensures looks { Looks F.tells N.name (state_of F.past self.old) (state_of F.past self.new) }
        ensures open { IsTrue F.tells → AreHeld N.name F.name_of F.past self.new }
        ensures settled { OnOk result (further_of self.new.trust kind ≡ Absent) }
    {
        let number = self.known(kind);
        self.files.close();
        if self.lacks(kind, number) {
            self.trust.settled(kind);
            return Ok(());
        }
        match open_empty::<F, N>(&mut self.timed.folder, self.alloc, kind, number) {
            Ok(file) => {
                let done = self.take_in(kind, number, &file);
                self.files.leave(OpenOne {
                    kind,
                    number,
                    file,
                    len: 0,
                    for_writing: true,
                });
                done
            }
            Err(error) => Err(error),
        }
    }

    /// Syncs the file, the folder and the folder around it.
    fn take_in(&mut self, kind: Kind, number: u32, file: &F::File) -> io::Result<()>
        requires known { IsTrue F.tells → IsKnown N.name (state_of F.past self.old) }
        requires going { self.old.trust.gave_up ≡ false }
        requires unsettled { further_of self.old.trust kind ≡ Unsettled }
        requires number { number ≡ known_of self.old.warc self.old.cdxj kind }
        requires named { IsTrue F.tells → F.name_of file.now ≡ N.name kind number }
        requires there { IsTrue F.tells → contents_of (F.past self.old.timed.folder) (N.name kind number) ≢ None }
        requires written { self.old.files.written ≡ None }
        requires read { self.old.files.read ≡ None }
        ensures looks { Looks F.tells N.name (state_of F.past self.old) (state_of F.past self.new) }
        ensures open { IsTrue F.tells → AreHeld N.name F.name_of F.past self.new }
        ensures settled { OnOk result (further_of self.new.trust kind ≡ Absent) }
    {
        let Some(count) = number.checked_add(1) else {
            return Err(no_further_number());
        };
        match settle_durably(&mut self.timed.folder, file) {
            Ok(()) => {
                self.timed.go_on();
                self.trust.synced(kind, number);
                self.trust.settled(kind);
                self.set_known(kind, count);
                Ok(())
            }
            Err(MakeFault::Unlisted(error)) => {
                self.timed.go_on();
                self.trust.unlist();
                Err(error)
            }
            Err(MakeFault::Unsettled(error)) => {
                self.timed.go_on();
                Err(error)
            }
        }
    }
}
