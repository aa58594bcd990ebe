//! What the model promises to those who reason about files, beside the laws of the trait.
ghost use Rattle.disk_model.specs.Laws.{CutLeavesAFrontBehind, TornAppendStandsBehind, TornByteIsAlone, WrittenAtTheEndStandsBehind, WrittenByteIsAlone, NewFileChangesNoBytes, OtherFilesStay, SyncedKindIsAsRead};

/// A change of one file leaves the bytes of all others, and so does a file that is made.
#[tactic(auto, using(crate::specs::steps::ImageLaws::others_stay, crate::specs::steps::ImageLaws::bytes_stay))]
pub fn other_files_stay()
    ensures changed { OtherFilesStay }
    ensures made { NewFileChangesNoBytes }
{}

/// A write at the end of a file that a crash cuts short leaves what was there, with at most as many bytes
/// behind it as were written.
#[tactic(auto, using(crate::specs::steps::CrashLaws::torn_append))]
pub fn torn_append_stands_behind()
    ensures { TornAppendStandsBehind }
{}

/// A write of one byte inside a file that a crash cuts short leaves all other bytes.
#[tactic(auto, using(crate::specs::steps::CrashLaws::torn_byte))]
pub fn torn_byte_is_alone()
    ensures { TornByteIsAlone }
{}

/// A cut at the end of a text that a crash cuts short leaves the text, with a front of what stood behind it.
#[tactic(auto, using(crate::specs::steps::CrashLaws::cut_behind))]
pub fn cut_leaves_a_front_behind()
    ensures { CutLeavesAFrontBehind }
{}

/// What a write that was done leaves: at the end its bytes stand behind the old ones, and one byte takes
/// the place of one.
#[tactic(auto, using(crate::specs::steps::CrashLaws::written_at_end, crate::specs::steps::CrashLaws::written_byte))]
pub fn written_bytes_stand_in_place()
    ensures at_end { WrittenAtTheEndStandsBehind }
    ensures one_byte { WrittenByteIsAlone }
{}

/// Where each file of a kind that a read knows is in an image as it is read, and the image has no more files of the
/// kind, it has just the files that are read, also where there are none.
#[tactic(auto, using(crate::specs::steps::ImageLaws::as_read))]
pub fn synced_kind_is_as_read()
    ensures { SyncedKindIsAsRead }
{}
