//! The groups of a volume, read in batches.
ghost use Rattle.std.specs.Prelude.{◌≡◌, ◌+◌, ◌-◌, ◌<◌, ◌≤◌, ◌^◌, ℕ, List, IfOk, IsTrue, OnOk, length};
ghost use Rattle.fixity.specs.Faults.{CountsDisk};
ghost use Rattle.fixity.specs.Verdicts.{StandsUpTo};
ghost use Rattle.fixity.specs.steps.Batches.{AllFit, AreParts};
ghost use Rattle.fixity.specs.steps.Files.{IsIn, file_in, volume_in};
ghost use Rattle.fixity.specs.steps.Runs.{IsFarthest};

use crate::FixityFault;
use crate::batch::{Batch, Spot, empty_batch, make_room, read_batch, size_for};
use crate::crew::{Crew, new_crew};
use crate::due::Due;
use crate::plan::Plan;
use crate::run::{RunEnd, run_ready};
use disk_model::Disk;
use std::alloc::{AllocError, Global};
use std::mem;
use std::thread::Threads;
use uuid::Uuid;

/// How many shares each worker has of a batch. They are taken one by one, so that nobody waits long for the slowest.
const SHARES: usize = 4;

/// How far the groups of a volume stand.
#[derive(Clone, Copy)]
pub struct Found {
    /// How many of them stand.
    pub groups: u32,
    /// Where the last of these ends, in bytes.
    pub place: u64,
}

/// What is in memory of a volume, and who reads it.
#[derive(Drop)]
pub struct Table {
    /// The batch that is read next.
    pub ready: Batch,
    /// All who read it.
    pub crew: Crew,
}

/// How far the groups of a volume stand behind its warcinfo, which ends at `start`: up to the last that is due, or to the first
/// that doesn't stand. They are read by at most so many workers.
pub fn find_groups<R: Threads + Sync, D: Disk>(
    rt: &R,
    alloc: Global,
    disk: &mut D,
    due: Due,
    namespace: &Uuid,
    start: u64,
    workers: u32,
) -> Result<Found, FixityFault>
    requires start { start ≤ due.len }
    requires workers { 0 < workers }
    requires numbers { due.first + due.count < 2 ^ 32 }
    requires there { IsTrue D.tells → IsIn (D.reading disk.old) due }
    requires begins { IsTrue D.tells → StandsUpTo (volume_in due namespace.now) (file_in (D.reading disk.old) due) 0 start }
    ensures found { IsTrue D.tells → IfOk result (λ found. IsFarthest (volume_in due namespace.now) (file_in (D.reading disk.old) due) found.groups found.place) }
    ensures fits { IfOk result (λ found. (found.groups ≤ due.count) × (found.place ≤ due.len)) }
    ensures reading { IsTrue D.tells → D.reading disk.new ≡ D.reading disk.old }
    ensures faults { CountsDisk (D.faults disk.old) (D.faults disk.new) result }
{
    let plan = Plan {
        due,
        namespace: *namespace,
    };
    let mut table = new_table(alloc, workers)?;
    go_through(rt, &plan, disk, start, &mut table)
}

/// A table on which nothing is, for so many workers.
fn new_table(alloc: Global, workers: u32) -> Result<Table, AllocError>
    ensures parts { (file : List ℕ) → IfOk result (AreParts file) }
    ensures fit { (len : ℕ) → IfOk result (AllFit len) }
{
    let parts = if workers == 1 {
        0
    } else {
        workers as usize * SHARES
    };
    Ok(Table {
        ready: empty_batch(alloc, parts),
        crew: new_crew(alloc, workers, parts)?,
    })
}

/// How far the groups of a volume stand behind its warcinfo, which ends at `start`.
fn go_through<R: Threads + Sync, D: Disk>(
    rt: &R,
    plan: &Plan,
    disk: &mut D,
    start: u64,
    table: &mut Table,
) -> Result<Found, FixityFault>
    requires start { start ≤ plan.now.due.len }
    requires numbers { plan.now.due.first + plan.now.due.count < 2 ^ 32 }
    requires there { IsTrue D.tells → IsIn (D.reading disk.old) plan.now.due }
    requires begins { IsTrue D.tells → StandsUpTo (volume_in plan.now.due plan.now.namespace) (file_in (D.reading disk.old) plan.now.due) 0 start }
    requires parts { IsTrue D.tells → AreParts (file_in (D.reading disk.old) plan.now.due) table.old }
    requires fit { AllFit plan.now.due.len table.old }
    ensures found { IsTrue D.tells → IfOk result (λ found. IsFarthest (volume_in plan.now.due plan.now.namespace) (file_in (D.reading disk.old) plan.now.due) found.groups found.place) }
    ensures fits { IfOk result (λ found. (found.groups ≤ plan.now.due.count) × (found.place ≤ plan.now.due.len)) }
    ensures reading { IsTrue D.tells → D.reading disk.new ≡ D.reading disk.old }
    ensures faults { CountsDisk (D.faults disk.old) (D.faults disk.new) result }
{
    // Read, so that a place in the file is known to be in a number's range.
    let _len = plan.due.len;
    let mut groups = 0;
    let mut place = start;
    let mut need = 0;
    'batches: while groups < plan.due.count {
        let spot = Spot {
            place,
            before: groups,
        };
        get_ready(disk, plan.due, spot, need, table)?;
        let run = run_ready(rt, plan, disk, &table.ready, &mut table.crew)?;
        groups += run.groups;
        place += run.len;
        match run.end {
            RunEnd::Whole => return Ok(Found { groups, place }),
            RunEnd::Missing => return Ok(Found { groups, place }),
            RunEnd::Need(n) => need = n,
        }
    }
    Ok(Found { groups, place })
}

/// Puts the batch on the table that begins at a spot and has so many bytes at least: the one that was read ahead, if it does, or
/// one that is read anew.
fn get_ready<D: Disk>(
    disk: &mut D,
    due: Due,
    spot: Spot,
    need: u64,
    table: &mut Table,
) -> Result<(), FixityFault>
    requires place { spot.place ≤ due.len }
    requires need { need ≤ due.len - spot.place }
    requires there { IsTrue D.tells → IsIn (D.reading disk.old) due }
    ensures at { OnOk result (table.new.ready.at ≡ spot) }
    ensures enough { OnOk result (need ≤ length table.new.ready.bytes.items) }
    ensures parts { IsTrue D.tells → AreParts (file_in (D.reading disk.old) due) table.old → OnOk result (AreParts (file_in (D.reading disk.old) due) table.new) }
    ensures fit { AllFit due.len table.old → OnOk result (AllFit due.len table.new) }
    ensures reading { IsTrue D.tells → D.reading disk.new ≡ D.reading disk.old }
    ensures faults { CountsDisk (D.faults disk.old) (D.faults disk.new) result }
{
    if is_ready(&table.crew.caller.ahead, spot.place, need) {
        trade(&mut table.ready, &mut table.crew.caller.ahead, spot);
        return Ok(());
    }
    let most = size_for(need);
    make_room(
        most,
        &mut table.ready.bytes,
        &mut table.crew.caller.ahead.bytes,
    );
    read_batch(disk, due, spot, most, &mut table.ready)
}

/// Whether a batch begins at this place and has so many bytes at least.
fn is_ready(batch: &Batch, place: u64, need: u64) -> bool
    ensures { IsTrue result → (batch.now.at.place ≡ place) × (need ≤ length batch.now.bytes.items) }
{
    if batch.at.place != place {
        return false;
    }
    need <= batch.bytes.len() as u64
}

/// Puts the batch that was read ahead in the place of the one that was ready, whose memory serves for the next one.
fn trade(ready: &mut Batch, ahead: &mut Batch, spot: Spot)
    ensures at { ready.new.at ≡ spot }
    ensures bytes { ready.new.bytes ≡ ahead.old.bytes }
    ensures ahead { ahead.new ≡ ready.old }
{
    mem::swap(ready, ahead);
    ready.at = spot;
}
