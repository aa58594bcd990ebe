//! The command `serve`: the connections of many clients over one archive.
ghost use Rattle.std.specs.Prelude.{◌⊎◌, ◌≡◌, ◌<◌, ◌≤◌, ℕ, true, IfSome, IsTrue, List, Option, length};
ghost use Rattle.archive_core.specs.Holdings.{Holdings, contents_of};
ghost use Rattle.archive_reopening.specs.Standing.{StoodOn};
ghost use Rattle.archive_opening.specs.Telling.{MayBeSettled};
ghost use Rattle.capture.specs.declared.book.Book.{Book};
ghost use Rattle.archive_reopening.specs.Known.{by_checkpoints};
ghost use Rattle.command.specs.Objects.{kinds_of, objects_of};
ghost use Rattle.command.specs.Settling.{IsOf, OpensSettled};
ghost use Rattle.disk_model.specs.Crash.{Leaves};
ghost use Rattle.proxy_run.specs.Pipes.{Refuses};
ghost use Rattle.proxy_run.specs.Serves.{LacksShelves, Serves};
ghost use Rattle.command.specs.Words as spec;
ghost use Rattle.proxy_run.specs.steps.Seating.{IsNameOf};
ghost use Rattle.vault_turns.specs.Calm.{HasRightCheckpoints, IsCalm};
ghost use Rattle.warc_journal.specs.Journals.{disk_of};
ghost use Rattle.warc_text.specs.Ids.{IsUuid};

use crate::counting::tell_count;
use crate::seating::serve_by;
use archive_core::{Archive, StoodTexts};
use capture::Site;
use command::{Command, Known, Ran, Status, asked_of, open_and_settle, settle_and_close, stood_on};
use disk_model::Disk;
use outside::{Clock, Dialer, Gate, Sink};
use shown::Shown;
use std::alloc::Global;
use std::marker::Brand;
use std::sync::Wait;
use std::thread::Threads;
use vault::{Naming, Unnamed};
use vault_turns::Sure;

/// What the words ask a server for.
pub struct Service<'a> {
    /// Names the namespace in which the archive is opened.
    pub command: Command,
    /// Where the clients come to.
    pub site: &'a Site,
    /// How many members of the crew serve.
    pub workers: u32,
}

/// Opens the archive on the disk by its checkpoints, in the namespace that the command names, writes those that are missing, serves the gate's
/// connections over it by so many members of the crew until the gate is closed, prints how many captures there are, writes the checkpoints that
/// are missing by then, and closes the archive. What stops a checkpoint changes nothing else. May wait.
pub fn serve_many<K, R, D, G, N, C, O>(
    rt: &R,
    alloc: Global,
    service: Service,
    disk: D,
    gate: &mut G,
    crew: &mut Vec<(N, C)>,
    out: &mut O,
) -> Ran<D>
where
    K: Known,
    R: Threads + Wait + Sync,
    D: Disk + Send,
    G: Gate + Send,
    G::Link: Send,
    G::Past: Send,
    N: Dialer + Send,
    N::Link: Send,
    C: Clock + Send,
    O: Sink,
    requires uuid { IfSome (spec.asked_of service.command) IsUuid }
    requires known { MayBeSettled D.Disk disk (spec.asked_of service.command) K.book }
    requires some { 0 < service.workers }
    requires few { service.workers ≤ 16 }
    requires enough { service.workers ≤ length crew.old.items }
    ensures { let kinds = kinds_of D.Disk G.Gate N.Dialer C.Clock O.Sink G.Link.tells N.Link.tells in
        let was = objects_of disk gate.old crew.old.items out.old in
        let is = objects_of result.disk gate.new crew.new.items out.new in
        Serves kinds K.book (record { asked = spec.asked_of service.entry.command; site = service.entry.site.now; workers = service.entry.workers })
        was is result.status
        ⊎ LacksShelves kinds K.book (spec.asked_of service.entry.command) was is result.status
        ⊎ Refuses kinds (by_checkpoints disk (spec.asked_of service.entry.command) K.book) was is result.status }
{
    let Service {
        command,
        site,
        workers,
    } = service;
    let given = Shown::told_by(&disk);
    let archive = match open_and_settle::<K, D, O>(alloc, disk, asked_of(command), out) {
        Ok(archive) => archive,
        Err(ran) => return ran,
    };
    let stood = stood_on(&given, &archive);
    let sure = left_sure(&archive, &stood);
    match Unnamed::new(alloc, rt, archive, workers, sure) {
        Ok(unnamed) => {
            serve_named::<R, D, G, N, C, O, Brand>(rt, alloc, unnamed, site, gate, crew, out)
        }
        Err(archive) => settle_and_close(alloc, archive, Status::Memory),
    }
}

/// That a crash leaves the archive's book alone, and its checkpoints, where each image that is left stands for it and has these; and what stood in its volumes.
fn left_sure<D: Disk>(archive: &Archive<D>, stood: &Shown<StoodTexts>) -> Shown<Sure>
    requires { IsTrue archive.now.told → Leaves (D.images (disk_of archive.now.journal)) (IsOf archive.now.book) }
    ensures value { result.value ≡ record { calm = true; right = true; lasts = true; stood = stood.now.value } }
    ensures calm { IsCalm D.Disk archive.now }
    ensures right { HasRightCheckpoints D.Disk archive.now }
{
    // only the clauses read it
    let _ = archive;
    Shown::told_by(stood)
}

/// Serves over a vault under a name, ends it, prints how many captures there are, writes the checkpoints that are missing, and closes the
/// archive. May wait.
fn serve_named<R, D, G, N, C, O, J>(
    rt: &R,
    alloc: Global,
    unnamed: Unnamed<D>,
    site: &Site,
    gate: &mut G,
    crew: &mut Vec<(N, C)>,
    out: &mut O,
) -> Ran<D>
where
    R: Threads + Wait + Sync,
    D: Disk + Send,
    G: Gate + Send,
    G::Link: Send,
    G::Past: Send,
    N: Dialer + Send,
    N::Link: Send,
    C: Clock + Send,
    O: Sink,
    J: Naming + Send,
    requires name { unnamed ≡ J.vault }
    requires some { 0 < unnamed.passes }
    requires few { unnamed.passes ≤ 16 }
    requires enough { unnamed.passes ≤ length crew.old.items }
    ensures { let kinds = kinds_of D.Disk G.Gate N.Dialer C.Clock O.Sink G.Link.tells N.Link.tells in
        (known : Option Book) (asked : Option (List ℕ)) (disk : D) (before : Holdings D) → OpensSettled D.Disk (by_checkpoints disk asked known) before
        → IsNameOf unnamed (contents_of before) (D.faults (disk_of before.journal)) → (IsTrue D.tells → StoodOn D.Disk disk unnamed.sure.stood × (unnamed.sure.stood.book ≡ before.book))
        → Serves kinds known (record { asked = asked; site = site.now; workers = unnamed.passes }) (objects_of disk gate.old crew.old.items out.old)
        (objects_of result.disk gate.new crew.new.items out.new) result.status }
{
    let (vault, mut passes) = unnamed.named::<J>();
    let said = serve_by::<R, D, G, N, C, J>(rt, alloc, &vault, &mut passes, site, gate, crew);
    let archive = vault.close_all::<R, J>(rt, passes);
    let counted = tell_count(alloc, out, archive.counts().captures, said);
    settle_and_close(alloc, archive, counted)
}
