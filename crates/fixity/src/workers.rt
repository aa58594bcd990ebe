//! Workers that read the shares of a batch.
ghost use Rattle.std.specs.Prelude.{◌≡◌, ◌+◌, ◌<◌, ◌^◌, ℕ, List, IfSome, IsTrue, length};
ghost use Rattle.fixity.specs.steps.Batches.{number_in};
ghost use Rattle.fixity.specs.steps.Runs.{RunsTo};
ghost use Rattle.fixity.specs.steps.Shares.{HasRead, HaveRead, IsFront, ShareStands};

use crate::batch::Batch;
use crate::plan::Plan;
use crate::run::{RunEnd, run_behind};
use crate::shares::{Front, Share, part_of, with_each};
use capture::Memory;
use std::alloc::Global;
use std::sync::atomic::{AtomicUsize, Ordering};
use uuid::Uuid;

/// One who reads shares of a batch.
#[derive(Drop)]
pub struct Worker {
    /// Where memory for that comes from.
    pub alloc: Global,
    /// The shares that were read as so many groups, and as those that are due.
    pub read: Vec<Share>,
}

/// A worker that has read nothing.
pub fn new_worker(alloc: Global) -> Worker {
    Worker {
        alloc,
        read: Vec::new(alloc),
    }
}

/// Takes shares of a batch, the next one each time, and reads them, until all are taken. `next` is the place of the share that is
/// taken next, by whichever worker comes first.
pub fn read_shares(plan: &Plan, batch: &Batch, next: &AtomicUsize, worker: &mut Worker)
    requires { plan.now.due.first + plan.now.due.count < 2 ^ 32 }
    ensures { HasRead plan.now.namespace (number_in plan.now.due batch.now) batch.now.bytes.items worker.new }
{
    worker.read.clear();
    'shares: for _ in 0..batch.shares.len() {
        let at = next.fetch_add(1, Ordering::SeqCst);
        if batch.shares.len() <= at {
            return;
        }
        read_share(plan, batch, batch.shares[at], worker);
    }
}

/// Reads a share, and keeps it if it is the groups that are due in it.
fn read_share(plan: &Plan, batch: &Batch, share: Share, worker: &mut Worker)
    requires { plan.now.due.first + plan.now.due.count < 2 ^ 32 }
    ensures { HasRead plan.now.namespace (number_in plan.now.due batch.now) batch.now.bytes.items worker.old
        → HasRead plan.now.namespace (number_in plan.now.due batch.now) batch.now.bytes.items worker.new }
{
    if stands(worker.alloc, plan, batch, share) {
        // A share that isn't kept is read once more, behind those that are.
        let _ = worker.read.push(share);
    }
}

/// Whether a share is the groups that are due in it.
fn stands(alloc: Global, plan: &Plan, batch: &Batch, share: Share) -> bool
    requires { plan.now.due.first + plan.now.due.count < 2 ^ 32 }
    ensures { IsTrue result → ShareStands plan.now.namespace (number_in plan.now.due batch.now) batch.now.bytes.items share }
{
    let Some(text) = part_of(batch.bytes.as_slice(), share.at, share.len) else {
        return false;
    };
    let Some(number) = number_of(plan, batch.at.before, share) else {
        return false;
    };
    is_run(alloc, text, &plan.namespace, number, share.groups)
}

/// The number of the capture whose group is due at the front of a share, in a batch that so many groups stand before, if all its
/// groups are due.
fn number_of(plan: &Plan, before: u32, share: Share) -> Option<u32>
    requires { plan.now.due.first + plan.now.due.count < 2 ^ 32 }
    ensures { IfSome result (λ number. (number ≡ plan.now.due.first + before + share.before) × (number + share.groups < 2 ^ 32)) }
{
    let from = before.checked_add(share.before)?;
    let to = from.checked_add(share.groups)?;
    if plan.due.count < to {
        return None;
    }
    Some(plan.due.first + from)
}

/// Whether the bytes are so many groups from that with this number on, and nothing else.
fn is_run(alloc: Global, bytes: &[u8], namespace: &Uuid, number: u32, groups: u32) -> bool
    requires { number + groups < 2 ^ 32 }
    ensures { IsTrue result → RunsTo namespace.now number bytes.now groups (length bytes.now) }
{
    let none = Front { groups: 0, len: 0 };
    match run_behind(
        alloc,
        bytes,
        bytes.len() as u64,
        namespace,
        number,
        groups,
        none,
    ) {
        Ok(run) => match run.end {
            RunEnd::Whole => run.len == bytes.len() as u64,
            RunEnd::Missing => false,
            RunEnd::Need(_) => false,
        },
        Err(Memory) => false,
    }
}

/// The groups at the front of a batch that were read as its shares, which are so many.
pub fn front_of(shares: usize, worker: &Worker, others: &[Worker]) -> Front
    ensures { (namespace : List ℕ) (number : ℕ) (bytes : List ℕ) → HasRead namespace number bytes worker.now → HaveRead namespace number bytes others.now
        → IsFront namespace number bytes result }
{
    let mut front = Front { groups: 0, len: 0 };
    'passes: for _ in 0..shares {
        front = with_all(front, worker, others);
    }
    front
}

/// The groups at the front and those of such shares as go on from there, each worker's in turn.
fn with_all(front: Front, worker: &Worker, others: &[Worker]) -> Front
    ensures { (namespace : List ℕ) (number : ℕ) (bytes : List ℕ) → HasRead namespace number bytes worker.now → HaveRead namespace number bytes others.now
        → RunsTo namespace number bytes front.groups front.len → RunsTo namespace number bytes result.groups result.len }
{
    let mut longer = with_each(front, worker.read.as_slice());
    'others: for i in 0..others.len() {
        longer = with_each(longer, others[i].read.as_slice());
    }
    longer
}
