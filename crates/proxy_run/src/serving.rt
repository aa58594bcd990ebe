//! Serves the gate's first connection.
ghost use Rattle.std.specs.Prelude.{◌≡◌, ◌<◌, ◌⊎◌, true, IsTrue, IfOk};
ghost use Rattle.archive_core.specs.Lasting.{KeepsStored};
ghost use Rattle.archive_core.specs.Told.{told_of};
ghost use Rattle.archive_shelf.specs.Told.{GoesOn};
ghost use Rattle.outside.specs.Gate.{Connections, one_given};
ghost use Rattle.outside.specs.Link.{IsFresh};
ghost use Rattle.command.specs.Objects.{told_around};
ghost use Rattle.proxy_run.specs.Serving as spec;
ghost use Rattle.crew.specs.Crews.{IsEnd};
ghost use Rattle.proxy_run.specs.Serving.{ServesOne, pipe_site};

use archive_core::{Archive, StoodTexts};
use archive_reopening::{Since, Watched};
use archive_shelf::{Shelf, leading_books_grow};
use capture::{Memory, Site, Text};
use command::{Status, hang_up};
use disk_model::Disk;
use outside::{Accepted, Clock, Dialer, Gate};
use session::{Served, serve};
use shown::Shown;
use std::alloc::Global;

/// Serves the gate's first connection over an archive that keeps what stood in its volumes.
pub(crate) fn serve_watched<D: Disk, G: Gate, N: Dialer, C: Clock, S: Since>(
    alloc: Global,
    archive: Archive<D>,
    stood: &Shown<StoodTexts>,
    gate: &mut G,
    member: &mut (N, C),
) -> (Archive<D>, Status)
    requires { IsTrue D.tells → KeepsStored D.Disk S.stood archive }
    ensures serves { IsTrue G.Link.tells → IsTrue N.Link.tells
        → ServesOne true (record { site = pipe_site; clock_tells = C.tells }) (told_around G.Gate N.Dialer C.Clock gate.old member.old)
        (told_around G.Gate N.Dialer C.Clock gate.new member.new) (told_of D.Disk archive) (told_of D.Disk result.0) result.1
        ⊎ (IsEnd (G.closed gate.old) (G.faults gate.old) (G.faults gate.new) result.1
        × (told_around G.Gate N.Dialer C.Clock gate.new member.new ≡ told_around G.Gate N.Dialer C.Clock gate.old member.old) × (result.0 ≡ archive)) }
    ensures goes_on { GoesOn true (told_of D.Disk archive) (told_of D.Disk result.0) }
    ensures ends { (result.1 ≡ Status.Outside)
        ⊎ (((result.1 ≡ Status.Done) ⊎ (result.1 ≡ Status.Memory)) × (G.faults gate.new ≡ G.faults gate.old)) }
    ensures keeps { IsTrue D.tells → KeepsStored D.Disk S.stood result.0 }
{
    // only the clauses read it
    let _ = stood;
    let mut watched = Watched::<D, S>::over(archive);
    let said = serve_first(alloc, &mut watched, gate, member);
    (watched.into_archive(), said)
}

/// Serves the gate's first connection over an archive, with the dialer and the clock of a member, and hangs it up.
pub fn serve_first<S: Shelf, G: Gate, N: Dialer, C: Clock>(
    alloc: Global,
    shelf: &mut S,
    gate: &mut G,
    member: &mut (N, C),
) -> Status
    ensures serves { IsTrue G.Link.tells → IsTrue N.Link.tells
        → ServesOne S.alone (record { site = pipe_site; clock_tells = C.tells }) (told_around G.Gate N.Dialer C.Clock gate.old member.old)
        (told_around G.Gate N.Dialer C.Clock gate.new member.new) (S.told shelf.old) (S.told shelf.new) result
        ⊎ (IsEnd (G.closed gate.old) (G.faults gate.old) (G.faults gate.new) result
        × (told_around G.Gate N.Dialer C.Clock gate.new member.new ≡ told_around G.Gate N.Dialer C.Clock gate.old member.old) × (shelf.new ≡ shelf.old)) }
    ensures goes_on { GoesOn S.alone (S.told shelf.old) (S.told shelf.new) }
    ensures ends { (result ≡ Status.Outside)
        ⊎ (((result ≡ Status.Done) ⊎ (result ≡ Status.Memory)) × (G.faults gate.new ≡ G.faults gate.old)) }
{
    leading_books_grow();
    let site = match site_of_pipe(alloc) {
        Ok(site) => site,
        Err(Memory) => return Status::Memory,
    };
    match gate.accept() {
        Accepted::Connection(link) => serve_link(alloc, shelf, gate, link, member, &site),
        Accepted::Closed => Status::Done,
        Accepted::Failed => Status::Outside,
        Accepted::Memory => Status::Memory,
    }
}

/// Serves a fresh connection, which the gate gave last, and hangs it up.
fn serve_link<S: Shelf, G: Gate, N: Dialer, C: Clock>(
    alloc: Global,
    shelf: &mut S,
    gate: &mut G,
    link: G::Link,
    member: &mut (N, C),
    site: &Site,
) -> Status
    requires out { IsTrue G.Link.tells → 0 < (G.connections gate.old).out }
    requires no_fault { G.Link.faults link ≡ 0 }
    requires fresh { IsTrue G.Link.tells → IsFresh (G.Link.traffic link) }
    requires site { site.now ≡ pipe_site }
    ensures serves { IsTrue G.Link.tells → IsTrue N.Link.tells → (before : Connections) → G.connections gate.old ≡ one_given before
        → ServesOne S.alone (record { site = pipe_site; clock_tells = C.tells })
        (record (told_around G.Gate N.Dialer C.Clock gate.old member.old) { connections = before })
        (told_around G.Gate N.Dialer C.Clock gate.new member.new) (S.told shelf.old) (S.told shelf.new) result }
    ensures goes_on { GoesOn S.alone (S.told shelf.old) (S.told shelf.new) }
    ensures ends { (result ≡ Status.Outside)
        ⊎ (((result ≡ Status.Done) ⊎ (result ≡ Status.Memory)) × (G.faults gate.new ≡ G.faults gate.old)) }
{
    let mut link = link;
    let served = serve(alloc, shelf, &mut link, &mut member.0, &mut member.1, site);
    hang_up(gate, link);
    status_of(served)
}

/// The status of a program that served one connection.
fn status_of(served: Served) -> Status
    ensures { result ≡ spec.status_of served }
{
    match served {
        Served::Done | Served::ClientRefused(_) => Status::Done,
        Served::ClientBroke | Served::ClientEndedEarly => Status::Outside,
        Served::WantOfMemory => Status::Memory,
    }
}

/// The site of the archive that `pipe` serves.
pub fn site_of_pipe(alloc: Global) -> Result<Site, Memory>
    ensures { IfOk result (λ site. site ≡ pipe_site) }
{
    Ok(Site {
        base: Text::from_str(alloc, "http://localhost:8080")?,
        host: Text::from_str(alloc, "localhost")?,
        port: 8080,
    })
}
