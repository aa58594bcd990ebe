//! What the journal promises to those who add texts, and to those who work on other files of its disk.
ghost use Rattle.warc_journal.specs.Laws.{CheckpointsStayBesideTexts, JustTextsAreHeld, TextsStayBesideOtherWork};

use disk_model::Disk;

/// Files that are just the texts hold them, as a crash may leave them.
#[tactic(auto, using(crate::specs::Laws::just_are_held))]
pub fn just_texts_are_held()
    ensures { JustTextsAreHeld }
{}

/// Work that leaves the Warc files, as a read gives them and in each image, keeps a journal in step.
#[tactic(auto, using(crate::specs::Laws::in_step_beside))]
pub fn texts_stay_beside_other_work<D: Disk>()
    ensures { TextsStayBesideOtherWork D.Disk }
{}

/// Work on texts keeps the Cdxj files of an image from before, in each image. What `append`, `roll` and `repair` say that they
/// leave gives the premise.
pub fn checkpoints_stay_beside_texts<D: Disk>()
    ensures { CheckpointsStayBesideTexts D.Disk }
{}
