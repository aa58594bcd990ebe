//! The command `pipe`: one connection over an archive of its own.
ghost use Rattle.std.specs.Prelude.{◌⊎◌, IfSome};
ghost use Rattle.archive_opening.specs.Telling.{MayBeSettled};
ghost use Rattle.archive_reopening.specs.Known.{by_checkpoints};
ghost use Rattle.command.specs.Objects.{kinds_of, objects_of};
ghost use Rattle.proxy_run.specs.Pipes.{Pipes, Refuses};
ghost use Rattle.command.specs.Words as spec;
ghost use Rattle.warc_text.specs.Ids.{IsUuid};

use crate::serving::serve_watched;
use command::{Command, Known, Ran, asked_of, open_and_settle, settle_and_close, stood_on};
use disk_model::Disk;
use outside::{Clock, Dialer, Gate, Sink};
use shown::Shown;
use std::alloc::Global;
use std::marker::Brand;

/// Opens the archive on the disk in the namespace that the command names, by its checkpoints, serves the gate's first connection over it, and closes it.
/// Checkpoints that are missing are written before and after that.
pub fn pipe<K: Known, D: Disk, G: Gate, N: Dialer, C: Clock, O: Sink>(
    alloc: Global,
    command: Command,
    disk: D,
    gate: &mut G,
    member: &mut (N, C),
    out: &mut O,
) -> Ran<D>
    requires uuid { IfSome (spec.asked_of command) IsUuid }
    requires known { MayBeSettled D.Disk disk (spec.asked_of command) K.book }
    ensures { let kinds = kinds_of D.Disk G.Gate N.Dialer C.Clock O.Sink G.Link.tells N.Link.tells in
        let was = objects_of disk gate.old member.old out.old in
        let is = objects_of result.disk gate.new member.new out.new in
        Pipes kinds K.book (spec.asked_of command) was is result.status
        ⊎ Refuses kinds (by_checkpoints disk (spec.asked_of command) K.book) was is result.status }
{
    let given = Shown::told_by(&disk);
    let archive = match open_and_settle::<K, D, O>(alloc, disk, asked_of(command), out) {
        Ok(archive) => archive,
        Err(ran) => return ran,
    };
    let stood = stood_on(&given, &archive);
    let (archive, said) = serve_watched::<D, G, N, C, Brand>(alloc, archive, &stood, gate, member);
    settle_and_close(alloc, archive, said)
}
