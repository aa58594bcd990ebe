//! The command `verify`: whether the bytes of an archive are still what it wrote.
ghost use Rattle.std.specs.Prelude.{◌≡◌, ◌⊎◌, ◌+◌, ◌<◌, ◌≤◌, [], ◌∷◌, false, All, IfOk, IsTrue, List, None};
ghost use Rattle.archive_volumes.specs.Facts.{facts_of};
ghost use Rattle.archive_volumes.specs.declared.volume_facts.VolumeFacts.{VolumeFacts as Facts};
ghost use Rattle.fixity.specs.Faults.{CountsDisk};
ghost use Rattle.archive_opening.specs.Telling.{MayBeSettled};
ghost use Rattle.archive_reopening.specs.Known.{by_checkpoints};
ghost use Rattle.command.specs.Opening.{IsNotOpened};
ghost use Rattle.command.specs.Printing.{printed_as};
ghost use Rattle.verifying.specs.Verifies.{ChecksVolumes, IsVerified};
ghost use Rattle.verifying.specs.steps.Verifying.{ChecksUpTo, HasChecked, IsPlan, IsSmall, IsThere};

use crate::plan::Plan;
use crate::report::Report;
use archive_core::Archive;
use archive_shelf::Depth;
use archive_volumes::VolumeFacts;
use capture::{Memory, put_all};
use command::{Known, Ran, Status, open, print_as};
use disk_model::Disk;
use fixity::{FixityFault, check_volume};
use outside::Sink;
use std::alloc::Global;
use std::thread::Threads;
use uuid::Uuid;

/// Opens the archive on the disk by its checkpoints, checks the bytes of each of its volumes by at most so many workers, prints the
/// verdicts, and closes it. Nothing is written.
pub fn verify<K: Known, R: Threads + Sync, D: Disk, O: Sink>(
    rt: &R,
    alloc: Global,
    workers: u32,
    disk: D,
    out: &mut O,
) -> Ran<D>
    requires workers { (0 < workers) × (workers ≤ 16) }
    requires known { MayBeSettled D.Disk disk None K.book }
    ensures { IsVerified D.Disk O.Sink (by_checkpoints disk None K.book) result.disk (printed_as out.old out.new result.status)
        ⊎ IsNotOpened D.Disk O.Sink (by_checkpoints disk None K.book) result.disk (printed_as out.old out.new result.status) }
{
    let archive = match open::<K, D, O>(alloc, disk, None, Depth::Checkpoints, out) {
        Ok(archive) => archive,
        Err(ran) => return ran,
    };
    match plan_of(alloc, &archive, workers) {
        Ok(plan) => {
            let mut disk = archive.close();
            let status = check_by(rt, alloc, &mut disk, &plan, out);
            Ran { status, disk }
        }
        Err(Memory) => Ran {
            status: Status::Memory,
            disk: archive.close(),
        },
    }
}

/// What is due in the volumes of an archive, and how many workers check them.
fn plan_of<D: Disk>(alloc: Global, archive: &Archive<D>, workers: u32) -> Result<Plan, Memory>
    requires { (0 < workers) × (workers ≤ 16) }
    ensures plan { IfOk result IsPlan }
    ensures namespace { IfOk result (λ plan. plan.namespace ≡ archive.now.book.namespace) }
    ensures volumes { IfOk result (λ plan. plan.volumes.items ≡ facts_of archive.now.book) }
{
    let captures = archive.counts().captures;
    let volumes = archive.volumes(alloc)?;
    Ok(plan_for(volumes, archive.namespace(), captures, workers))
}

/// What is due in volumes that have so many captures together.
fn plan_for(volumes: Vec<VolumeFacts>, namespace: &Uuid, captures: u32, workers: u32) -> Plan
    requires some { 0 < workers }
    requires few { workers ≤ 16 }
    requires within { All (λ (facts : Facts). facts.first + facts.count ≤ captures) volumes.items }
    ensures plan { IsPlan result }
    ensures namespace { result.namespace ≡ namespace.now }
    ensures volumes { result.volumes.items ≡ volumes.items }
{
    Plan {
        namespace: *namespace,
        volumes,
        workers,
    }
}

/// Checks the volumes of a plan and prints the verdicts, unless there is no memory. Where the disk fails, that is told behind the
/// volumes that were checked before.
fn check_by<R: Threads + Sync, D: Disk, O: Sink>(
    rt: &R,
    alloc: Global,
    disk: &mut D,
    plan: &Plan,
    out: &mut O,
) -> Status
    requires plan { IsPlan plan.now }
    requires there { IsTrue D.tells → All (IsThere (D.reading disk.old)) plan.now.volumes.items }
    ensures checked { ChecksVolumes D.Disk O.Sink plan.now.namespace plan.now.volumes.items disk.old disk.new out.old out.new result }
    ensures reading { IsTrue D.tells → D.reading disk.new ≡ D.reading disk.old }
{
    let mut report = Report::new(alloc);
    match check_all(rt, alloc, disk, plan, &mut report) {
        Ok(()) => {
            let status = report.status();
            print_as(out, report.lines.as_slice(), status)
        }
        Err(FixityFault::DiskFault) => match put_all(&mut report.lines, b"disk fault\n") {
            Ok(()) => print_as(out, report.lines.as_slice(), Status::Archive),
            Err(Memory) => Status::Memory,
        },
        Err(FixityFault::Memory) => Status::Memory,
    }
}

/// Checks the volumes of a plan, and notes the verdicts in order.
fn check_all<R: Threads + Sync, D: Disk>(
    rt: &R,
    alloc: Global,
    disk: &mut D,
    plan: &Plan,
    report: &mut Report,
) -> Result<(), FixityFault>
    requires plan { IsPlan plan.now }
    requires there { IsTrue D.tells → All (IsThere (D.reading disk.old)) plan.now.volumes.items }
    requires no_lines { report.old.lines.items ≡ [] }
    requires undamaged { report.old.damaged ≡ false }
    ensures checks { ChecksUpTo D.tells (D.reading disk.old) plan.now [] report.new result }
    ensures reading { IsTrue D.tells → D.reading disk.new ≡ D.reading disk.old }
    ensures faults { CountsDisk (D.faults disk.old) (D.faults disk.new) result }
{
    let mut rest = plan.volumes.as_slice();
    'volumes: while let Some((facts, others)) = rest.split_first() {
        match check_one(rt, alloc, disk, plan, *facts, report) {
            Ok(()) => rest = others,
            Err(FixityFault::DiskFault) => return Err(FixityFault::DiskFault),
            Err(FixityFault::Memory) => return Err(FixityFault::Memory),
        }
    }
    Ok(())
}

/// Checks a volume of a plan, and notes the verdict on it.
fn check_one<R: Threads + Sync, D: Disk>(
    rt: &R,
    alloc: Global,
    disk: &mut D,
    plan: &Plan,
    facts: VolumeFacts,
    report: &mut Report,
) -> Result<(), FixityFault>
    requires some { 0 < plan.now.workers }
    requires few { plan.now.workers < 17 }
    requires small { IsSmall facts }
    requires there { IsTrue D.tells → IsThere (D.reading disk.old) facts }
    ensures checks { (others : List Facts) → HasChecked D.tells (D.reading disk.old) plan.now (facts ∷ others) report.old
        → ChecksUpTo D.tells (D.reading disk.old) plan.now others report.new result }
    ensures reading { IsTrue D.tells → D.reading disk.new ≡ D.reading disk.old }
    ensures faults { CountsDisk (D.faults disk.old) (D.faults disk.new) result }
{
    let last = u64::from(facts.volume) + 1 == plan.volumes.len() as u64;
    match check_volume(
        rt,
        alloc,
        disk,
        facts.volume,
        &plan.namespace,
        facts.first,
        facts.count,
        last,
        plan.workers,
    ) {
        Ok(verdict) => match report.note(facts.volume, verdict) {
            Ok(()) => Ok(()),
            Err(Memory) => Err(FixityFault::Memory),
        },
        Err(FixityFault::DiskFault) => Err(FixityFault::DiskFault),
        Err(FixityFault::Memory) => Err(FixityFault::Memory),
    }
}
