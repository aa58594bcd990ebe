//! The command `follow`: an archive takes the captures of another one, piece by piece.
ghost use Rattle.std.specs.Prelude.{◌≡◌, ◌⊎◌, IfSome};
ghost use Rattle.following.specs.Follows.{Follows, FollowsTo};
ghost use Rattle.archive_opening.specs.Telling.{MayBeSettled};
ghost use Rattle.archive_reopening.specs.Known.{by_checkpoints};
ghost use Rattle.command.specs.Objects.{objects_of};
ghost use Rattle.command.specs.Opening.{IsNotOpened};
ghost use Rattle.command.specs.Printing.{printed_as};
ghost use Rattle.command.specs.Words as word;
ghost use Rattle.replica.specs.Sources.{source_of as spec_source_of};
ghost use Rattle.warc_text.specs.Ids.{IsUuid};

use crate::telling::tell_stop;
use archive_core::Archive;
use archive_shelf::Depth;
use capture::{Memory, Site};
use command::{Command, Known, Ran, Status, asked_of, open, print_count};
use disk_model::Disk;
use exchange::Window;
use outside::{Clock, Dialer, Sink};
use replica::{follow_source, source_of};
use std::alloc::Global;

/// Opens the archive on the disk by its checkpoints, in the namespace that the command names, follows the source at the site with the member's dialer,
/// prints how many captures the archive has then, or why it takes no more, and closes it. The captures that were taken before a stop stay. It writes no
/// checkpoint.
pub fn follow<K: Known, D: Disk, N: Dialer, C: Clock, O: Sink>(
    alloc: Global,
    command: Command,
    site: &Site,
    disk: D,
    member: &mut (N, C),
    out: &mut O,
) -> Ran<D>
    requires uuid { IfSome (word.asked_of command) IsUuid }
    requires known { MayBeSettled D.Disk disk (word.asked_of command) K.book }
    ensures { Follows D.Disk N.Dialer O.Sink N.Link.tells K.book (word.asked_of command) site.now (objects_of disk tt member.old out.old)
        (objects_of result.disk tt member.new out.new) result.status
        ⊎ (IsNotOpened D.Disk O.Sink (by_checkpoints disk (word.asked_of command) K.book) result.disk (printed_as out.old out.new result.status) × (member.new ≡ member.old)) }
{
    let mut archive = match open::<K, D, O>(
        alloc,
        disk,
        asked_of(command),
        Depth::Checkpoints,
        out,
    ) {
        Ok(archive) => archive,
        Err(ran) => return ran,
    };
    let status = follow_site(alloc, &mut archive, &mut member.0, site, out);
    Ran {
        status,
        disk: archive.close(),
    }
}

/// Follows the source at the site, and prints how many captures the archive has then, or why it takes no more.
fn follow_site<D: Disk, N: Dialer, O: Sink>(
    alloc: Global,
    archive: &mut Archive<D>,
    dialer: &mut N,
    site: &Site,
    out: &mut O,
) -> Status
    ensures { FollowsTo D.Disk N.Dialer O.Sink N.Link.tells (spec_source_of site.now) archive.old archive.new dialer.old dialer.new
        (printed_as out.old out.new result) }
{
    let source = match source_of(alloc, site) {
        Ok(source) => source,
        Err(Memory) => return Status::Memory,
    };
    let mut window = match Window::new(alloc) {
        Ok(window) => window,
        Err(Memory) => return Status::Memory,
    };
    match follow_source(alloc, archive, dialer, &mut window, &source) {
        Ok(()) => print_count(alloc, out, archive.counts().captures, Status::Done),
        Err(stop) => tell_stop(alloc, out, stop),
    }
}
