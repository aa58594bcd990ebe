//! A batch that many workers read while the next one is read ahead.
ghost use Rattle.std.specs.Prelude.{◌≡◌, ◌+◌, ◌-◌, ◌<◌, ◌≤◌, ◌^◌, [], IfOk, IsTrue, OnOk, length};
ghost use Rattle.std.specs.Thread.{IsSync};
ghost use Rattle.fixity.specs.Faults.{CountsDisk};
ghost use Rattle.fixity.specs.steps.Batches.{FitsIn, IsPart, number_in};
ghost use Rattle.fixity.specs.steps.Files.{IsIn, file_in};
ghost use Rattle.fixity.specs.steps.Shares.{HasRead, HaveRead, IsFront};

use crate::FixityFault;
use crate::batch::{Batch, empty_batch, read_ahead};
use crate::plan::Plan;
use crate::shares::Front;
use crate::workers::{Worker, front_of, new_worker, read_shares};
use disk_model::Disk;
use std::alloc::{AllocError, Global};
use std::sync::atomic::AtomicUsize;
use std::thread::{Threads, for_each_mut, join_mut};

/// The calling thread, which reads the next batch ahead and is then a worker too.
#[derive(Drop)]
pub struct Caller {
    /// The batch that it reads ahead.
    pub ahead: Batch,
    /// What it has read of the batch before that one.
    pub worker: Worker,
}

/// All who read a batch.
#[derive(Drop)]
pub struct Crew {
    /// The calling thread.
    pub caller: Caller,
    /// Those that have a thread of their own.
    pub others: Vec<Worker>,
}

/// A crew of so many workers, which cut a batch into so many parts.
pub fn new_crew(alloc: Global, workers: u32, parts: usize) -> Result<Crew, AllocError>
    ensures bytes { IfOk result (λ crew. crew.caller.ahead.bytes.items ≡ []) }
    ensures place { IfOk result (λ crew. crew.caller.ahead.at.place ≡ 0) }
{
    let mut others = Vec::new(alloc);
    'others: for _ in 1..workers {
        others.push(new_worker(alloc))?;
    }
    Ok(Crew {
        caller: Caller {
            ahead: empty_batch(alloc, parts),
            worker: new_worker(alloc),
        },
        others,
    })
}

/// The groups at the front of a batch that its crew reads, while the next one is read ahead: with one worker none, and nothing is read
/// ahead.
pub fn front_by<R: Threads + Sync, D: Disk>(
    rt: &R,
    plan: &Plan,
    disk: &mut D,
    batch: &Batch,
    crew: &mut Crew,
) -> Result<Front, FixityFault>
    requires numbers { plan.now.due.first + plan.now.due.count < 2 ^ 32 }
    requires there { IsTrue D.tells → IsIn (D.reading disk.old) plan.now.due }
    ensures front { IfOk result (IsFront plan.now.namespace (number_in plan.now.due batch.now) batch.now.bytes.items) }
    ensures few { IfOk result (λ front. front.groups ≤ plan.now.due.count - batch.now.at.before) }
    ensures part { IsTrue D.tells → IsPart (file_in (D.reading disk.old) plan.now.due) crew.old.caller.ahead
        → OnOk result (IsPart (file_in (D.reading disk.old) plan.now.due) crew.new.caller.ahead) }
    ensures fits { FitsIn plan.now.due.len crew.old.caller.ahead → OnOk result (FitsIn plan.now.due.len crew.new.caller.ahead) }
    ensures reading { IsTrue D.tells → D.reading disk.new ≡ D.reading disk.old }
    ensures faults { CountsDisk (D.faults disk.old) (D.faults disk.new) result }
{
    let none = Front { groups: 0, len: 0 };
    if crew.others.is_empty() {
        return Ok(none);
    }
    read_by_all(rt, plan, disk, batch, crew)?;
    let front = front_of(
        batch.shares.len(),
        &crew.caller.worker,
        crew.others.as_slice(),
    );
    // No more groups than are due were cut off.
    if plan.due.count.saturating_sub(batch.at.before) < front.groups {
        return Ok(none);
    }
    Ok(front)
}

/// The others read the shares of a batch, in threads of their own, while this thread reads the next batch ahead, and then shares too.
fn read_by_all<R: Threads + Sync, D: Disk>(
    rt: &R,
    plan: &Plan,
    disk: &mut D,
    batch: &Batch,
    crew: &mut Crew,
) -> Result<(), FixityFault>
    requires numbers { plan.now.due.first + plan.now.due.count < 2 ^ 32 }
    requires there { IsTrue D.tells → IsIn (D.reading disk.old) plan.now.due }
    ensures others { HaveRead plan.now.namespace (number_in plan.now.due batch.now) batch.now.bytes.items crew.new.others.items }
    ensures worker { HasRead plan.now.namespace (number_in plan.now.due batch.now) batch.now.bytes.items crew.new.caller.worker }
    ensures part { IsTrue D.tells → IsPart (file_in (D.reading disk.old) plan.now.due) crew.old.caller.ahead
        → OnOk result (IsPart (file_in (D.reading disk.old) plan.now.due) crew.new.caller.ahead) }
    ensures fits { FitsIn plan.now.due.len crew.old.caller.ahead → OnOk result (FitsIn plan.now.due.len crew.new.caller.ahead) }
    ensures reading { IsTrue D.tells → D.reading disk.new ≡ D.reading disk.old }
    ensures faults { CountsDisk (D.faults disk.old) (D.faults disk.new) result }
{
    let next = AtomicUsize::new(0);
    let next = &next;
    let others = &mut crew.others;
    let caller = &mut crew.caller;
    let mut beside = ||
        requires { IsSync R.row × (plan.now.due.first + plan.now.due.count < 2 ^ 32) }
        ensures { HaveRead plan.entry.now.namespace (number_in plan.entry.now.due batch.entry.now) batch.entry.now.bytes.items others.exit.now.items }
    { read_beside(rt, plan, batch, next, others) };
    let mut here = || -> Result<(), FixityFault>
        requires { (plan.now.due.first + plan.now.due.count < 2 ^ 32) × (IsTrue D.tells → IsIn (D.reading disk.now) plan.now.due) }
        ensures worker { HasRead plan.entry.now.namespace (number_in plan.entry.now.due batch.entry.now) batch.entry.now.bytes.items caller.exit.now.worker }
        ensures part { IsTrue D.tells → IsPart (file_in (D.reading disk.entry.now) plan.entry.now.due) caller.entry.now.ahead
            → OnOk result (IsPart (file_in (D.reading disk.entry.now) plan.entry.now.due) caller.exit.now.ahead) }
        ensures fits { FitsIn plan.entry.now.due.len caller.entry.now.ahead → OnOk result (FitsIn plan.entry.now.due.len caller.exit.now.ahead) }
        ensures reading { IsTrue D.tells → D.reading disk.exit.now ≡ D.reading disk.entry.now }
        ensures faults { CountsDisk (D.faults disk.entry.now) (D.faults disk.exit.now) result }
    { read_here(plan, batch, next, disk, caller) };
    let ((), read) = join_mut(rt, &mut beside, &mut here);
    read
}

/// The others read shares, each in a thread of its own where one can be made.
fn read_beside<R: Threads + Sync>(
    rt: &R,
    plan: &Plan,
    batch: &Batch,
    next: &AtomicUsize,
    others: &mut Vec<Worker>,
)
    requires { plan.now.due.first + plan.now.due.count < 2 ^ 32 }
    ensures { HaveRead plan.now.namespace (number_in plan.now.due batch.now) batch.now.bytes.items others.new.items }
{
    read_by_each(rt, plan, batch, next, others.as_mut_slice());
}

/// The same, of workers in a row.
fn read_by_each<R: Threads + Sync>(
    rt: &R,
    plan: &Plan,
    batch: &Batch,
    next: &AtomicUsize,
    others: &mut [Worker],
)
    requires { plan.now.due.first + plan.now.due.count < 2 ^ 32 }
    ensures count { length others.new ≡ length others.old }
    ensures read { HaveRead plan.now.namespace (number_in plan.now.due batch.now) batch.now.bytes.items others.new }
{
    let count = others.len();
    if count == 0 {
        return;
    }
    let work = |_: usize, worker: &mut Worker|
        requires { plan.now.due.first + plan.now.due.count < 2 ^ 32 }
        ensures { HasRead plan.entry.now.namespace (number_in plan.entry.now.due batch.entry.now) batch.entry.now.bytes.items worker.new }
    { read_shares(plan, batch, next, worker) };
    for_each_mut(rt, others, count, &work);
}

/// Reads the next batch ahead, and then such shares of this one as are left.
fn read_here<D: Disk>(
    plan: &Plan,
    batch: &Batch,
    next: &AtomicUsize,
    disk: &mut D,
    caller: &mut Caller,
) -> Result<(), FixityFault>
    requires numbers { plan.now.due.first + plan.now.due.count < 2 ^ 32 }
    requires there { IsTrue D.tells → IsIn (D.reading disk.old) plan.now.due }
    ensures worker { HasRead plan.now.namespace (number_in plan.now.due batch.now) batch.now.bytes.items caller.new.worker }
    ensures part { IsTrue D.tells → IsPart (file_in (D.reading disk.old) plan.now.due) caller.old.ahead
        → OnOk result (IsPart (file_in (D.reading disk.old) plan.now.due) caller.new.ahead) }
    ensures fits { FitsIn plan.now.due.len caller.old.ahead → OnOk result (FitsIn plan.now.due.len caller.new.ahead) }
    ensures reading { IsTrue D.tells → D.reading disk.new ≡ D.reading disk.old }
    ensures faults { CountsDisk (D.faults disk.old) (D.faults disk.new) result }
{
    let read = read_ahead(disk, plan.due, batch, &mut caller.ahead);
    read_shares(plan, batch, next, &mut caller.worker);
    read
}
