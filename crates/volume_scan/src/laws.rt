//! What the answers of a scan say of the books for which the files stand.
ghost use Rattle.volume_scan.specs.Books.{BooksEndWithWhatWasRead, BooksGoOnWithGroups, BooksGoOnWithInfos, BooksGoOnWithSkipped, DamageBehindSkippedIsOfNoBook, DamagedFilesStandForNoBook, FilesBeginWithWhatWasRead};
ghost use Rattle.volume_scan.specs.Scannings.{ScansStayBesideOtherWork};

use disk_model::Disk;

/// The files begin with the texts that were read of them.
#[tactic(auto, using(crate::proofs::Texts::read_is_front))]
pub fn files_begin_with_what_was_read()
    ensures { FilesBeginWithWhatWasRead }
{}

/// A sound book for which the files stand, and which begins with what was read, goes on with what is found: a volume with this
/// birth in its namespace, or the group of its next capture.
pub fn books_go_on_with_what_is_found()
    ensures infos { BooksGoOnWithInfos }
    ensures groups { BooksGoOnWithGroups }
{}

/// A sound book that begins with what was read goes on with a volume that is skipped, where that has so many captures and another
/// volume is found behind it.
pub fn books_go_on_with_what_is_skipped()
    ensures { BooksGoOnWithSkipped }
{}

/// At the end, when the files hold what was read, a sound book that begins with it has no more volumes and no more captures.
pub fn books_end_with_what_was_read()
    ensures { BooksEndWithWhatWasRead }
{}

/// Damaged files, of which no volume was skipped last, stand for no sound book that begins with what was read.
pub fn damaged_files_stand_for_no_book()
    ensures { DamagedFilesStandForNoBook }
{}

/// Files in which no volume is found behind one that was skipped stand for no sound book in which that one isn't the last.
pub fn damage_behind_a_skipped_volume_is_of_no_book()
    ensures { DamageBehindSkippedIsOfNoBook }
{}

/// Work that leaves the Warc files, as a read gives them and in each image, keeps a scan where it stands.
#[tactic(auto, using(crate::proofs::Beside::in_place_beside))]
pub fn scans_stay_beside_other_work<D: Disk>()
    ensures { ScansStayBesideOtherWork D.Disk }
{}
