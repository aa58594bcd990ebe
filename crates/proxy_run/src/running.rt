//! The call that the program makes.
ghost use Rattle.std.specs.Prelude.{◌≡◌, ◌<◌, ◌≤◌, length, IfErr, IfOk, IfSome, OnOk, None, Some};
ghost use Rattle.archive_opening.specs.Telling.{MayBeSettled};
ghost use Rattle.command.specs.Base.{site_among};
ghost use Rattle.command.specs.Objects.{kinds_of, objects_of};
ghost use Rattle.command.specs.Printing.{printed_as};
ghost use Rattle.proxy_run.specs.Runs.{HasBase, IsReady, IsUnready, LacksBase, MayRun, NamesNone, Runs, RunsFrom};
ghost use Rattle.proxy_run.specs.Runs as runs;
ghost use Rattle.command.specs.Words as word;
ghost use Rattle.warc_text.specs.Ids.{IsUuid};

use crate::checking::check;
use crate::piping::pipe;
use crate::server::{Service, serve_many};
use capture::{Memory, Site};
use command::{Command, Known, Ran, Status, begin, command_of, print_as, site_of};
use disk_model::Disk;
use following::follow;
use importing::import;
use load_trial::trial;
use outside::{Clock, Dialer, Gate, Sink};
use std::alloc::Global;
use std::sync::Wait;
use std::thread::Threads;
use verifying::verify;

/// How many members a crew has.
pub const CREW: usize = 16;

const USAGE: &[u8] =
    b"usage: memproxy pipe NS, serve NS BASE WORKERS, check, trial COUNT NUMBER, import NS, verify WORKERS, follow NS BASE\n";

/// Dialers, each with a clock of its own. `pipe` uses the first, `serve` as many as it has workers.
#[derive(Drop)]
pub struct Crew<N, C> {
    pub members: Vec<(N, C)>,
}

/// A command, and the words that name it.
struct Named<'a> {
    command: Command,
    words: &'a [&'a str],
}

/// Does what the words say. `pipe NS` opens the archive on the disk, serves the gate's first connection over it with the first
/// member's dialer and clock, and hangs it up; NS is the archive's namespace, a UUID in lower case with hyphens. What the client is
/// given of an origin stands on the disk first. `serve NS BASE WORKERS` does so with the connections of many clients: so many members, 1 to
/// 16, serve them side by side over one archive, at the site of that base, until the gate is closed; then it prints how many captures there
/// are. `import NS` opens the archive, reads the gate's first connection to its end, and stores
/// the captures of the WARC file that it gave. `check` opens the archive and prints how much it holds. `trial COUNT NUMBER`
/// stores so many exchanges of the load with that number in memory, brings them back, and prints how much that is. `verify WORKERS`
/// checks the bytes of the archive's volumes by so many workers, 1 to 16, and prints the verdicts. All other words print the usage.
///
/// `follow NS BASE` opens the archive, and takes the captures of the server at that base piece by piece, with the first member's dialer.
///
/// `pipe` and `serve` write the checkpoints that are missing, before they serve and behind that. These two, `import`, `follow` and `verify` open the
/// archive by its checkpoints, `check` by all that its volumes hold. Before one is opened to store, the checkpoints of volumes that aren't sealed are taken away.
///
/// What is claimed of an archive is claimed of the book for which the disk stands, and each disk that is handed back stands for one. Of an archive
/// that was opened by checkpoints it is claimed of the book that `K` names, if it names one: of a caller who kept the disk and knows what is on
/// it. The program knows none (`Unknown`), of which nothing is required, and its code is the same for each `K`. For a command that stores, what stands
/// beside the last volume isn't asked for: its checkpoint may be that of a volume which wasn't the last one once.
pub fn run<R, D, G, N, C, O, K>(
    rt: &R,
    alloc: Global,
    words: &[&str],
    disk: D,
    gate: &mut G,
    crew: &mut Crew<N, C>,
    out: &mut O,
) -> Ran<D>
where
    R: Threads + Wait + Sync,
    D: Disk + Send,
    G: Gate + Send,
    G::Link: Send,
    G::Past: Send,
    N: Dialer + Send,
    N::Link: Send,
    C: Clock + Send,
    O: Sink,
    K: Known,
    requires crew { length crew.old.members.items ≡ CREW }
    requires known { MayRun D.Disk disk K.book (word.command_of (word.texts words.now)) }

    ensures { let kinds = kinds_of D.Disk G.Gate N.Dialer C.Clock O.Sink G.Link.tells N.Link.tells in
        let was = objects_of disk gate.old crew.old.members.items out.old in
        let is = objects_of result.disk gate.new crew.new.members.items out.new in
        RunsFrom kinds K.book (word.command_of (word.texts words.now)) (site_among (word.texts words.now)) was is result.status }
{
    let Some(command) = command_of(words) else {
        return Ran {
            status: print_as(out, USAGE, Status::Words),
            disk,
        };
    };
    match get_ready(alloc, words, disk, out) {
        Ok(disk) => {
            let named = Named { command, words };
            run_named::<R, D, G, N, C, O, K>(rt, alloc, named, disk, gate, crew, out)
        }
        Err(ran) => ran,
    }
}

/// Does what a command asks for over the disk that it begins with.
fn run_named<R, D, G, N, C, O, K>(
    rt: &R,
    alloc: Global,
    named: Named,
    disk: D,
    gate: &mut G,
    crew: &mut Crew<N, C>,
    out: &mut O,
) -> Ran<D>
where
    R: Threads + Wait + Sync,
    D: Disk + Send,
    G: Gate + Send,
    G::Link: Send,
    G::Past: Send,
    N: Dialer + Send,
    N::Link: Send,
    C: Clock + Send,
    O: Sink,
    K: Known,
    requires crew { length crew.old.members.items ≡ CREW }
    requires uuid { IfSome (word.asked_of named.command) IsUuid }
    requires workers { IfSome (word.workers_of named.command) (λ n. (0 < n) × (n ≤ 16)) }
    requires known { MayBeSettled D.Disk disk (word.asked_of named.command) K.book }

    ensures { let kinds = kinds_of D.Disk G.Gate N.Dialer C.Clock O.Sink G.Link.tells N.Link.tells in
        let was = objects_of disk gate.old crew.old.members.items out.old in
        let is = objects_of result.disk gate.new crew.new.members.items out.new in
        Runs kinds K.book named.entry.command (site_among (word.texts named.entry.words.now)) was is result.status }
{
    let Named { command, words } = named;
    match command {
        Command::Check => check(alloc, disk, out),
        Command::Follow(_) => match named_site(alloc, words, out) {
            Ok(site) => {
                let first = &mut crew.members[0];
                follow::<K, D, N, C, O>(alloc, command, &site, disk, first, out)
            }
            Err(status) => Ran { status, disk },
        },
        Command::Import(_) => import::<K, D, G, O>(alloc, command, disk, gate, out),
        Command::Pipe(_) => {
            let member = &mut crew.members[0];
            pipe::<K, D, G, N, C, O>(alloc, command, disk, gate, member, out)
        }
        Command::Serve(_, workers) => match named_site(alloc, words, out) {
            Ok(site) => {
                let service = Service {
                    command,
                    site: &site,
                    workers,
                };
                let members = &mut crew.members;
                serve_many::<K, R, D, G, N, C, O>(rt, alloc, service, disk, gate, members, out)
            }
            Err(status) => Ran { status, disk },
        },
        Command::Trial(count, seed) => trial(alloc, count, seed, disk, out),
        Command::Verify(workers) => verify::<K, R, D, O>(rt, alloc, workers, disk, out),
    }
}

/// The disk that the words' command begins with, once its base was looked at.
fn get_ready<D: Disk, O: Sink>(
    alloc: Global,
    words: &[&str],
    disk: D,
    out: &mut O,
) -> Result<D, Ran<D>>
    ensures ready { IfOk result (IsReady D.Disk (word.command_of (word.texts words.now)) (site_among (word.texts words.now)) disk) }
    ensures unready { IfErr result (λ ran.
        IsUnready D.Disk O.Sink (word.command_of (word.texts words.now)) (site_among (word.texts words.now)) disk ran.disk (printed_as out.old out.new ran.status)) }
    ensures prints_nothing { OnOk result (out.new ≡ out.old) }
{
    let Some(command) = command_of(words) else {
        return Ok(disk);
    };
    match look_at_base(alloc, words, out) {
        Ok(()) => begin(alloc, command, disk, out),
        Err(status) => Err(Ran { status, disk }),
    }
}

/// Looks whether the words name the base that their command needs, before anything is touched. Where they name none the usage is printed.
fn look_at_base<O: Sink>(alloc: Global, words: &[&str], out: &mut O) -> Result<(), Status>
    ensures named { OnOk result (HasBase (word.command_of (word.texts words.now)) (site_among (word.texts words.now))) }
    ensures prints_nothing { OnOk result (out.new ≡ out.old) }
    ensures none { IfErr result (λ status.
        LacksBase O.Sink (word.command_of (word.texts words.now)) (site_among (word.texts words.now)) out.old out.new status) }
{
    let Some(command) = command_of(words) else {
        return Ok(());
    };
    match has_base(command) {
        true => {
            let _site = named_site(alloc, words, out)?;
            Ok(())
        }
        false => Ok(()),
    }
}

/// Whether a command has a base among its words.
fn has_base(command: Command) -> bool
    ensures { result ≡ runs.has_base command }
{
    match command {
        Command::Check => false,
        Command::Follow(_) => true,
        Command::Import(_) => false,
        Command::Pipe(_) => false,
        Command::Serve(_, _) => true,
        Command::Trial(_, _) => false,
        Command::Verify(_) => false,
    }
}

/// The site that the words name. Where they name none the usage is printed.
fn named_site<O: Sink>(alloc: Global, words: &[&str], out: &mut O) -> Result<Site, Status>
    ensures site { IfOk result (λ site. Some site ≡ site_among (word.texts words.now)) }
    ensures prints_nothing { OnOk result (out.new ≡ out.old) }
    ensures none { IfErr result (λ status. NamesNone O.Sink (site_among (word.texts words.now)) out.old out.new status) }
{
    match site_of(alloc, words) {
        Ok(Some(site)) => Ok(site),
        Ok(None) => Err(print_as(out, USAGE, Status::Words)),
        Err(Memory) => Err(Status::Memory),
    }
}
