//! What runs promise to those who build on them.
ghost use Rattle.proxy_run.specs.Complete.{CapturesComeBack, ChecksAreAnswered, FollowsAreAnswered, FollowsLeaveReady, ImportsAreAnswered, ImportsLeaveReady, PipesAreAnswered, PipesLeaveReady, PipesLeaveSettled, PipesLeaveTheLast, PipesPassOn};
ghost use Rattle.command.specs.Objects.{kinds_of};
ghost use Rattle.proxy_run.specs.OnePipe.{PipesLeaveNoChoice};
ghost use Rattle.proxy_run.specs.Promises.{AllAreHungUp, AllAreReadOut, BooksLeadOn, BooksOnlyGrow, CapturesAreStoredOnce, FaultsAreCounted, GatesAreEmptied, LogsAreInOrder, ServersAreAnswered, ServersCapturesComeBack, ServersLeaveReady, ServersLeaveSettled, ServersLeaveTheLast, ServersWithoutShelvesComeBack, ServersWithoutShelvesLeaveReady};
ghost use Rattle.proxy_run.specs.Verified.{VerifiesAreAnswered};
ghost use Rattle.verifying.specs.Verified.{SoundVolumesVerify, VolumesVerifyOneWay};

use archive_settling::settling_keeps_checkpoints_right;
use disk_model::Disk;
use index_entry::books_have_one_index;
use outside::{Clock, Dialer, Gate, Sink};
use session::{courses_leave_no_choice, courses_only_grow};
use verifying::sound_volumes_verify;
use warc_text::files_stand_for_one_book;

/// Where no count of faults rises, over a disk that stands for a sound book in the namespace that is asked for, `check` prints how
/// much there is, and over one that is settled for a book that is known `pipe` goes well unless its client's link fails or ends inside a message, and `import` unless its
/// input isn't a whole file of records or the archive gets full, and `follow` unless its source isn't followed to its end: or memory ran out. Each image that they may leave
/// is ready for the next run, those of `pipe`, `import` and `follow` with a book that this may know, and each that
/// `pipe` may leave stands for a book that holds all captures of the last one in order, and one more at most. Where the disk didn't fail it stands for the last one itself, if links
/// tell their traffic; and where memory sufficed besides, it has the finished checkpoint of each sealed volume. What might be opened at any moment of `pipe` might have been before it, or a round of its
/// connection may leave it.
pub fn ready_archives_are_served<D: Disk, G: Gate, N: Dialer, C: Clock, O: Sink>()
    ensures checks { ChecksAreAnswered (kinds_of D.Disk G.Gate N.Dialer C.Clock O.Sink G.Link.tells N.Link.tells) }
    ensures pipes { PipesAreAnswered (kinds_of D.Disk G.Gate N.Dialer C.Clock O.Sink G.Link.tells N.Link.tells) }
    ensures imports { ImportsAreAnswered (kinds_of D.Disk G.Gate N.Dialer C.Clock O.Sink G.Link.tells N.Link.tells) }
    ensures follows { FollowsAreAnswered (kinds_of D.Disk G.Gate N.Dialer C.Clock O.Sink G.Link.tells N.Link.tells) }
    ensures follows_on { FollowsLeaveReady (kinds_of D.Disk G.Gate N.Dialer C.Clock O.Sink G.Link.tells N.Link.tells) }
    ensures goes_on { ImportsLeaveReady (kinds_of D.Disk G.Gate N.Dialer C.Clock O.Sink G.Link.tells N.Link.tells) }
    ensures again { PipesLeaveReady (kinds_of D.Disk G.Gate N.Dialer C.Clock O.Sink G.Link.tells N.Link.tells) }
    ensures back { CapturesComeBack (kinds_of D.Disk G.Gate N.Dialer C.Clock O.Sink G.Link.tells N.Link.tells) }
    ensures settled { PipesLeaveSettled (kinds_of D.Disk G.Gate N.Dialer C.Clock O.Sink G.Link.tells N.Link.tells) }
    ensures last { PipesLeaveTheLast (kinds_of D.Disk G.Gate N.Dialer C.Clock O.Sink G.Link.tells N.Link.tells) }
    ensures passed { PipesPassOn (kinds_of D.Disk G.Gate N.Dialer C.Clock O.Sink G.Link.tells N.Link.tells) }
{
    courses_only_grow();
    files_stand_for_one_book();
    settling_keeps_checkpoints_right();
}

/// Where what a read gives stands for a sound book, `verify` finds no volume of it damaged; and where that book is known, or no checkpoint is taken
/// in place of a volume, and no count of faults rises, it goes well, or memory ran out. What it finds of the same bytes is one, whatever is known.
pub fn sound_archives_verify<D: Disk, G: Gate, N: Dialer, C: Clock, O: Sink>()
    ensures sound { SoundVolumesVerify }
    ensures one { VolumesVerifyOneWay }
    ensures done { VerifiesAreAnswered (kinds_of D.Disk G.Gate N.Dialer C.Clock O.Sink G.Link.tells N.Link.tells) }
{
    sound_volumes_verify();
}

/// Over a disk whose book is known and told, `pipe` answers the same bytes, times and transcripts in one way: by the same texts, the same
/// book and the same status. That is so where neither its client's link nor one to an origin failed, nor the dialer or the disk, and
/// where memory sufficed.
pub fn pipes_leave_no_choice<D: Disk, G: Gate, N: Dialer, C: Clock, O: Sink>()
    ensures { PipesLeaveNoChoice (kinds_of D.Disk G.Gate N.Dialer C.Clock O.Sink G.Link.tells N.Link.tells) }
{
    courses_leave_no_choice();
    books_have_one_index();
}

/// What a server of many clients promises: the book only grows, and its count is printed; all that the gate gave was hung up, and the gate
/// was asked until it was closed; what the log gains stands in the members' order; each connection was read to its end or to the answer that
/// closes, unless its link failed or memory ran out; each capture that a round stored stands in the book once, which has no other behind
/// those that were there; what each connection begins with has grown into that book; rounds met no more faults of the disk than it
/// counted; where the disk counted none, each image that a crash may leave stands for the last book, if its ids differ; where it ended
/// otherwise than for want of memory besides, each has the finished checkpoint of each volume but the last; and where no count of faults rose, over a disk that is settled for a book that is known,
/// it went well or memory ran out.
pub fn servers_keep_their_promise<D: Disk, G: Gate, N: Dialer, C: Clock, O: Sink>()
    ensures grow { BooksOnlyGrow (kinds_of D.Disk G.Gate N.Dialer C.Clock O.Sink G.Link.tells N.Link.tells) }
    ensures hung_up { AllAreHungUp (kinds_of D.Disk G.Gate N.Dialer C.Clock O.Sink G.Link.tells N.Link.tells) }
    ensures emptied { GatesAreEmptied (kinds_of D.Disk G.Gate N.Dialer C.Clock O.Sink G.Link.tells N.Link.tells) }
    ensures in_order { LogsAreInOrder (kinds_of D.Disk G.Gate N.Dialer C.Clock O.Sink G.Link.tells N.Link.tells) }
    ensures read_out { AllAreReadOut (kinds_of D.Disk G.Gate N.Dialer C.Clock O.Sink G.Link.tells N.Link.tells) }
    ensures once { CapturesAreStoredOnce (kinds_of D.Disk G.Gate N.Dialer C.Clock O.Sink G.Link.tells N.Link.tells) }
    ensures lead { BooksLeadOn (kinds_of D.Disk G.Gate N.Dialer C.Clock O.Sink G.Link.tells N.Link.tells) }
    ensures faults { FaultsAreCounted (kinds_of D.Disk G.Gate N.Dialer C.Clock O.Sink G.Link.tells N.Link.tells) }
    ensures last { ServersLeaveTheLast (kinds_of D.Disk G.Gate N.Dialer C.Clock O.Sink G.Link.tells N.Link.tells) }
    ensures settled { ServersLeaveSettled (kinds_of D.Disk G.Gate N.Dialer C.Clock O.Sink G.Link.tells N.Link.tells) }
    ensures answered { ServersAreAnswered (kinds_of D.Disk G.Gate N.Dialer C.Clock O.Sink G.Link.tells N.Link.tells) }
{
    courses_only_grow();
}

/// Each image that a server of many clients may leave, and so what a read of its disk gives, is settled for a book that the next run may know, where the book is told
/// and the ids of the last one differ, and that of one more: whether the disk failed or not, whatever the links tell, and also where there was no memory
/// for its shelves. That book holds all captures of the last one in order, and one more at most. So of runs one after the other, of which some are servers, each is
/// concluded from the one before.
pub fn servers_leave_ready<D: Disk, G: Gate, N: Dialer, C: Clock, O: Sink>()
    ensures served { ServersLeaveReady (kinds_of D.Disk G.Gate N.Dialer C.Clock O.Sink G.Link.tells N.Link.tells) }
    ensures back { ServersCapturesComeBack (kinds_of D.Disk G.Gate N.Dialer C.Clock O.Sink G.Link.tells N.Link.tells) }
    ensures without_shelves { ServersWithoutShelvesLeaveReady (kinds_of D.Disk G.Gate N.Dialer C.Clock O.Sink G.Link.tells N.Link.tells) }
    ensures without_back { ServersWithoutShelvesComeBack (kinds_of D.Disk G.Gate N.Dialer C.Clock O.Sink G.Link.tells N.Link.tells) }
{
    files_stand_for_one_book();
    settling_keeps_checkpoints_right();
}
