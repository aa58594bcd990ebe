//! What a disk promises from one run to the next.
ghost use Rattle.folder_disk.specs.Laws.{CrashedIsImage, LetGoIsRead, CrashedVolumesAreRead, LetGoVolumesAreRead};

/// What one disk has left in the folder the next one finds there, behind a crash or without; and who only reads all volumes of it.
pub fn what_was_left_is_found()
    ensures crashed { CrashedIsImage }
    ensures let_go { LetGoIsRead }
    ensures crashed_read { CrashedVolumesAreRead }
    ensures let_go_read { LetGoVolumesAreRead }
{}
