//! What the texts promise to those who read them.
ghost use Rattle.warc_text.specs.Groups.{EqualGroupsAreOfEqualCaptures, GroupsArePrefixFree, GroupsTellTheirCaptures, ReferencesTellTheirCaptures};
ghost use Rattle.warc_text.specs.Growth.{GroupsStay, LastVolumeGoesOn, NumbersHaveOneGroup, SealedVolumesStay, SoundVolumesHaveOneText};
ghost use Rattle.warc_text.specs.StandsFor.{FilesStandForNoVolume, FilesStandForOneBook, GroupsAreCommitted, GroupsOfBooksTellTheirCaptures, InfosAreCommitted};

/// Of two groups of one number, neither is the beginning of the other, so that a reader who knows the
/// number knows where a group ends.
#[tactic(auto, using(crate::proofs::PrefixLaws::groups_are_prefix_free))]
pub fn groups_are_prefix_free()
    ensures { GroupsArePrefixFree }
{}

/// Groups of one number have one text only where all that they say is the same: the date, the target,
/// the payload's digest, the record that is referred to, whether the response was cut, its block and the
/// request. Where the ids of responses differ, one record is one capture's.
pub fn groups_tell_their_captures()
    ensures groups { GroupsTellTheirCaptures }
    ensures references { ReferencesTellTheirCaptures }
{}

/// Where the messages are whole, or cut as is told, groups of one number have one text only for equal
/// captures, with one digest, that refer to one record or to none. A revisit has no wire, so that of
/// captures that refer to another all but the wire is equal.
pub fn equal_groups_are_of_equal_captures()
    ensures { EqualGroupsAreOfEqualCaptures }
{}

/// Where the ids of responses differ, texts of one number in sound books of one namespace are of one
/// capture, and so is all that begins with them.
pub fn groups_of_books_tell_their_captures()
    ensures { GroupsOfBooksTellTheirCaptures }
{}

/// Each warcinfo and each group begins with the commit byte, and has more behind it.
pub fn texts_are_committed()
    ensures infos { InfosAreCommitted }
    ensures groups { GroupsAreCommitted }
{}

/// A number has one group, of one capture, one payload and one reference.
pub fn numbers_have_one_group()
    ensures { NumbersHaveOneGroup }
{}

/// Each volume of a sound book has one text.
pub fn sound_volumes_have_one_text()
    ensures { SoundVolumesHaveOneText }
{}

/// The texts of groups, and of all volumes but the last, stay when a book grows. The text of the last
/// volume stays at the front, and the groups of the captures that it gains follow.
pub fn texts_stay_when_a_book_grows()
    ensures groups { GroupsStay }
    ensures sealed { SealedVolumesStay }
    ensures last { LastVolumeGoesOn }
{}

/// A list of files stands for one sound book at most, if a volume of that is there and the ids of its
/// responses differ. Files that stand for a book without volumes stand for such books alone.
pub fn files_stand_for_one_book()
    ensures one { FilesStandForOneBook }
    ensures no_volume { FilesStandForNoVolume }
{}
