//! The groups that stand one behind the other in bytes that were read.
ghost use Rattle.std.specs.Prelude.{◌≡◌, ◌+◌, ◌-◌, ◌<◌, ◌≤◌, ◌^◌, ℕ, List, IfOk, IsTrue, OnOk, length, take};
ghost use Rattle.fixity.specs.Faults.{CountsDisk};
ghost use Rattle.fixity.specs.steps.Batches.{FitsIn, IsPart, number_in};
ghost use Rattle.fixity.specs.steps.Files.{IsIn, file_in};
ghost use Rattle.fixity.specs.steps.Runs.{IsRun, RunFits};
ghost use Rattle.fixity.specs.steps.Shares.{IsFront};

use crate::FixityFault;
use crate::batch::Batch;
use crate::crew::{Crew, front_by};
use crate::next::{Next, next_of};
use crate::plan::Plan;
use crate::shares::Front;
use capture::Memory;
use disk_model::Disk;
use std::alloc::Global;
use std::thread::Threads;
use uuid::Uuid;

/// Why no further group of a run is told.
#[derive(Clone, Copy)]
pub enum RunEnd {
    /// No further one is due.
    Whole,
    /// The next one doesn't stand there.
    Missing,
    /// What was read doesn't tell whether the next one stands there, which has so many bytes at least.
    Need(u64),
}

/// Groups that stand one behind the other.
#[derive(Clone, Copy)]
pub struct Run {
    /// How many they are.
    pub groups: u32,
    /// How long they are, in bytes.
    pub len: u64,
    /// Why there are no more.
    pub end: RunEnd,
}

/// The groups at the front of a batch, which its crew reads, while the next batch is read ahead.
pub fn run_ready<R: Threads + Sync, D: Disk>(
    rt: &R,
    plan: &Plan,
    disk: &mut D,
    ready: &Batch,
    crew: &mut Crew,
) -> Result<Run, FixityFault>
    requires numbers { plan.now.due.first + plan.now.due.count < 2 ^ 32 }
    requires before { ready.now.at.before ≤ plan.now.due.count }
    requires inside { FitsIn plan.now.due.len ready.now }
    requires there { IsTrue D.tells → IsIn (D.reading disk.old) plan.now.due }
    ensures run { (rest : List ℕ) → length rest ≡ plan.now.due.len - ready.now.at.place → ready.now.bytes.items ≡ take (length ready.now.bytes.items) rest
        → IfOk result (IsRun plan.now.namespace (number_in plan.now.due ready.now) (plan.now.due.count - ready.now.at.before) rest) }
    ensures within { IfOk result (RunFits (length ready.now.bytes.items) (plan.now.due.len - ready.now.at.place) (plan.now.due.count - ready.now.at.before)) }
    ensures part { IsTrue D.tells → IsPart (file_in (D.reading disk.old) plan.now.due) crew.old.caller.ahead
        → OnOk result (IsPart (file_in (D.reading disk.old) plan.now.due) crew.new.caller.ahead) }
    ensures fits { FitsIn plan.now.due.len crew.old.caller.ahead → OnOk result (FitsIn plan.now.due.len crew.new.caller.ahead) }
    ensures reading { IsTrue D.tells → D.reading disk.new ≡ D.reading disk.old }
    ensures faults { CountsDisk (D.faults disk.old) (D.faults disk.new) result }
{
    let front = front_by(rt, plan, disk, ready, crew)?;
    Ok(run_behind(
        crew.caller.worker.alloc,
        ready.bytes.as_slice(),
        plan.due.len - ready.at.place,
        &plan.namespace,
        plan.due.first + ready.at.before,
        plan.due.count - ready.at.before,
        front,
    )?)
}

/// The groups that stand in the bytes, from that with this number on and at most so many, of which those at the front were read.
/// What stands behind these is read here, one group behind the other, so that it is known why there are no more. `room` is how many
/// bytes there are from the first of these on.
pub fn run_behind(
    alloc: Global,
    bytes: &[u8],
    room: u64,
    namespace: &Uuid,
    number: u32,
    most: u32,
    front: Front,
) -> Result<Run, Memory>
    requires within { length bytes.now ≤ room }
    requires numbers { number + most < 2 ^ 32 }
    requires front { IsFront namespace.now number bytes.now front }
    requires few { front.groups ≤ most }
    ensures run { (rest : List ℕ) → length rest ≡ room → bytes.now ≡ take (length bytes.now) rest
        → IfOk result (IsRun namespace.now number most rest) }
    ensures fits { IfOk result (RunFits (length bytes.now) room most) }
{
    let mut groups = front.groups;
    let mut len = front.len as u64;
    'groups: while groups < most {
        let (_, behind) = bytes.split_at(len as usize);
        let next = next_of(alloc, behind, room - len, namespace, number + groups)?;
        match next {
            Next::Stands(n) => {
                groups += 1;
                len += n;
            }
            Next::Missing => {
                return Ok(Run {
                    groups,
                    len,
                    end: RunEnd::Missing,
                });
            }
            Next::Need(n) => {
                return Ok(Run {
                    groups,
                    len,
                    end: RunEnd::Need(n),
                });
            }
        }
    }
    Ok(Run {
        groups,
        len,
        end: RunEnd::Whole,
    })
}
