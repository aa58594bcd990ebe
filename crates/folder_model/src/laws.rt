//! What the model promises to those who reason about a disk in a folder.
ghost use Rattle.folder_model.specs.Laws.{ReadingIsLeft, NoMoreFilesAreLeft, WriteIsTorn, CutIsCut, MakingMayCreate, SyncAddsNothing, SyncedFileIsDurable, NewFileIsDurable, WrittenAnewIsSure, RangeAnewIsSure, RangeAnewAddsNothing, OpenedFolderIsDisk, EachLeftIsDisk, ImagesNowCount, SinceNowIsNow, LaterIsSinceEarlier, WritesAreTheDisks, CutsAreTheDisks, SyncsAreTheDisks, FailedSyncsAreTheDisks, DoubtsAreTheDisks, MendingsAreTheDisks, MendedSyncsAreTheDisks, CreatesAreTheDisks, FailedCreatesAreTheDisks, SettlingsAreTheDisks, SettledFilesAreTheDisks, OpenedDiskKnows};

/// Each deed in a folder is a step of the disk that is seen in it, however files are named.
pub fn each_deed_is_a_step_of_the_disk()
    ensures write { WriteIsTorn }
    ensures cut { CutIsCut }
    ensures make { MakingMayCreate }
    ensures sync { SyncAddsNothing }
{}

/// What syncs make durable.
pub fn what_was_synced_is_durable()
    ensures file { SyncedFileIsDurable }
    ensures name { NewFileIsDurable }
    ensures anew { WrittenAnewIsSure }
{}

/// What a sync that failed leaves in doubt of a file that was written in one range is mended by writing the range anew.
pub fn what_a_failed_sync_leaves_is_mended()
    ensures sure { RangeAnewIsSure }
    ensures adds_none { RangeAnewAddsNothing }
{}

/// What a crash leaves of a folder is a disk, with no file more than reads find and without a gap.
pub fn what_is_left_is_a_disk()
    ensures reading { ReadingIsLeft }
    ensures no_more { NoMoreFilesAreLeft }
    ensures opened { OpenedFolderIsDisk }
    ensures each { EachLeftIsDisk }
{}

/// Which images a crash since a moment might have left, as a disk's laws say it.
pub fn moments_have_their_images()
    ensures now { ImagesNowCount }
    ensures only_now { SinceNowIsNow }
    ensures earlier { LaterIsSinceEarlier }
{}

/// What the calls of a disk over a folder leave is what `Disk` says of them, and the disk goes on to know of the folder.
pub fn each_call_is_the_disks()
    ensures opened { OpenedDiskKnows }
    ensures write { WritesAreTheDisks }
    ensures cut { CutsAreTheDisks }
    ensures sync { SyncsAreTheDisks }
    ensures sync_failed { FailedSyncsAreTheDisks }
    ensures doubt { DoubtsAreTheDisks }
    ensures mending { MendingsAreTheDisks }
    ensures mended { MendedSyncsAreTheDisks }
    ensures create { CreatesAreTheDisks }
    ensures create_failed { FailedCreatesAreTheDisks }
    ensures settling { SettlingsAreTheDisks }
    ensures settled { SettledFilesAreTheDisks }
{}
