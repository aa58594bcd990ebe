//! What storing promises to those who build on it.
ghost use Rattle.archive_shelf.specs.Entering.{EntriesAreAll, EntriesGainOne, EntriesStay, EntriesStayAll, NewEntriesAreOfTheirCaptures};
ghost use Rattle.archive_shelf.specs.Gaining.{CapturesAddTheirGroup, GrowthLeavesSoundness, StoringKeepsSoundness, VolumesAddTheirText, VolumesKeepSoundness};
ghost use Rattle.archive_shelf.specs.Laws.{BooksLeadToThemselves, CapturesAreStoredOneWay, FirstKeepsItsWire, GainsGrow, GainsStandBehind, LeadingGrows, LookedStaysRight, StoresGrow, StoringGains, StoringLeavesNext};

use capture::{captures_have_one_payload, growth_keeps_captures};
use warc_text::{
    numbers_have_one_group, sound_volumes_have_one_text, texts_stay_when_a_book_grows,
};

/// A book leads to itself, and what it leads to has grown from it.
pub fn leading_books_grow()
    ensures itself { BooksLeadToThemselves }
    ensures grows { LeadingGrows }
{
    growth_keeps_captures();
}

/// A capture that is gained stands behind all others, and the book has grown. A capture that is stored is gained; whatever a
/// store answers, the book has grown.
pub fn stored_captures_stand_behind()
    ensures behind { GainsStandBehind }
    ensures grows { GainsGrow }
    ensures storing { StoringGains }
    ensures stores { StoresGrow }
{
    growth_keeps_captures();
}

/// What was found of a payload so far stays right when the book grows.
pub fn looked_stays_right()
    ensures { LookedStaysRight }
{
    growth_keeps_captures();
}

/// The first capture with a payload, of those that weren't cut, keeps its whole wire.
pub fn first_keeps_its_wire()
    ensures { FirstKeepsItsWire }
{}

/// A book takes a capture in one way: what that refers to, the book with room for it and the book after it are each one.
/// Wherever storing it is stopped, what is left is next to the book.
pub fn captures_are_stored_one_way()
    ensures one { CapturesAreStoredOneWay }
    ensures next { StoringLeavesNext }
{
    captures_have_one_payload();
    numbers_have_one_group();
}

/// A new volume's text stands behind those of the others, and a new capture's group behind the text of the last volume.
pub fn texts_go_on_behind()
    ensures volumes { VolumesAddTheirText }
    ensures captures { CapturesAddTheirGroup }
{
    texts_stay_when_a_book_grows();
}

/// A sound book stays sound with a new volume, where all others hold a capture, and when a capture that fits is stored.
pub fn storing_keeps_soundness()
    ensures volumes { VolumesKeepSoundness }
    ensures captures { StoringKeepsSoundness }
{
    texts_stay_when_a_book_grows();
    numbers_have_one_group();
    sound_volumes_have_one_text();
}

/// A book from which a sound one has grown is sound.
pub fn growth_leaves_soundness()
    ensures { GrowthLeavesSoundness }
{
    growth_keeps_captures();
    texts_stay_when_a_book_grows();
    sound_volumes_have_one_text();
}

/// The entries of a book stay when it grows. A capture that is stored adds its own, where it is found by date.
pub fn entries_gain_what_is_stored()
    ensures stay { EntriesStay }
    ensures new { NewEntriesAreOfTheirCaptures }
    ensures one { EntriesGainOne }
    ensures all { EntriesAreAll }
    ensures same { EntriesStayAll }
{
    growth_keeps_captures();
}
