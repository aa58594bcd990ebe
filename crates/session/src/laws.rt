//! What the definitions promise to those who build on them.
ghost use Rattle.session.specs.Complete.{CapturesThatAreThereAreReplayed, RequestsAreNotRefused, ResponsesArePassedOn};
ghost use Rattle.session.specs.Laws.{CoursesGrow, CoursesShowOn, CoursesCountFaults, CoursesStayConsistent, FoundCapturesAreReplayed, IdsDifferOnTheWay, OriginsAloneAreDialed, OtherRoundsStoreNothing, PassedOnResponsesStay, ShownNumbersAreThere};
ghost use Rattle.session.specs.OneCourse.{CoursesEndOneWay, CoursesLeaveNoChoice, RoundsLeaveNoChoice};

use archive_shelf::{
    captures_are_stored_one_way, leading_books_grow, stored_captures_stand_behind,
};
use capture::{captures_have_one_payload, growth_keeps_captures, wires_have_one_payload};
use cdx_query::{queries_have_one_answer, texts_are_one_query};
use html_rewrite::a_page_has_one_split;
use http_head::fronts_stay;
use http_wire::{decisions_are_one, decisions_stay};
use index_entry::books_have_one_index;
use warc_text::numbers_have_one_group;

/// Over a lawful course the book only grows, and so does what is shown. Alone, each round is decided by just the entries of its
/// book, where that holds of the archive before; and where the ids of the last book differ, those of each book on the way do. The
/// counts of faults rise by those that its rounds met.
pub fn courses_only_grow()
    ensures grow { CoursesGrow }
    ensures show_on { CoursesShowOn }
    ensures consistent { CoursesStayConsistent }
    ensures faults { CoursesCountFaults }
    ensures ids { IdsDifferOnTheWay }
{
    growth_keeps_captures();
    leading_books_grow();
    stored_captures_stand_behind();
}

/// What a reader of a course may stop at. A response that was passed on is in the book that the course leaves, with its payload by its
/// number; nobody was dialed but the origins of the client's requests; and a round that passes no response on stores nothing.
pub fn courses_keep_their_answers()
    ensures stay { PassedOnResponsesStay }
    ensures dialed { OriginsAloneAreDialed }
    ensures others { OtherRoundsStoreNothing }
{
    growth_keeps_captures();
    leading_books_grow();
    stored_captures_stand_behind();
}

/// What holds in company as well. What is replayed by date is the capture of the entry that was found, and a number under which an entry
/// was shown isn't told as absent (404 `NoSuch`) in a later round; a fault of the disk, damage and want of memory stay.
pub fn shown_captures_stay()
    ensures replayed { FoundCapturesAreReplayed }
    ensures there { ShownNumbersAreThere }
{}

/// Where no count of faults rises and the disk is told, a response that came, whole or cut, with room for its capture is passed on,
/// and a capture that is there, or one that is shown, is answered with, and so are queries and pieces. The answer's text was written, or
/// memory ran out. Bytes that are a request which goes somewhere aren't refused for themselves.
pub fn requests_are_answered()
    ensures origins { ResponsesArePassedOn }
    ensures site { CapturesThatAreThereAreReplayed }
    ensures unrefused { RequestsAreNotRefused }
{
    decisions_are_one();
}

/// A course leaves no choice. Two lawful courses over the same archive, in which a client gave the same bytes, the clock the same times
/// and the links to origins the same, decide the same and write the same texts, round for round, and leave the same book. That is so
/// alone, over a disk that is told, where memory sufficed, no count of faults rose, and nothing that could be answered is left over. Where
/// the client's link didn't fail both end alike, and the same was written. Also in company a round is decided by what is seen and shown then.
pub fn courses_leave_no_choice()
    ensures one { CoursesLeaveNoChoice }
    ensures ends { CoursesEndOneWay }
    ensures rounds { RoundsLeaveNoChoice }
{
    fronts_stay();
    decisions_stay();
    decisions_are_one();
    wires_have_one_payload();
    captures_have_one_payload();
    captures_are_stored_one_way();
    books_have_one_index();
    numbers_have_one_group();
    texts_are_one_query();
    queries_have_one_answer();
    a_page_has_one_split();
}
