//! What checkpoints and lines of volumes promise to those who build on them.
ghost use Rattle.checkpoint.specs.Checkpoints.{CheckpointsHaveOneListOfLines};
ghost use Rattle.checkpoint.specs.Putting.{FinishedIsGiven, VolumesStay};
ghost use Rattle.checkpoint.specs.OfVolume.{SealedLinesStay, VolumesHaveOneListOfLines};

use capture::growth_keeps_captures;
use disk_model::Disk;
use warc_text::numbers_have_one_group;

/// A finished checkpoint is of one volume, and has one list of lines.
pub fn checkpoints_have_one_list_of_lines()
    ensures { CheckpointsHaveOneListOfLines }
{}

/// A volume has one list of lines. It stays when the book grows, where the volume isn't the last.
pub fn volumes_have_one_list_of_lines()
    ensures one { VolumesHaveOneListOfLines }
    ensures stay { SealedLinesStay }
{
    // What the proof cites.
    numbers_have_one_group();
    growth_keeps_captures();
}

/// Where the lines of a volume are written, no image has a finished checkpoint with other lines, unless one did before; and the
/// Warc files of each image are those of one from before, so that a journal stays in step.
pub fn writing_leaves_what_is_given<D: Disk>()
    ensures finished { FinishedIsGiven }
    ensures volumes { VolumesStay D.Disk }
{}
