//! Runs the program over a disk in memory, once or several times.
use crate::objects::{Objects, objects_of};
use crate::ran::put_told;
use capture::Memory;
use case_outcomes::Program;
use case_setting::{Script, Setting};
use case_steps::{Outcome, after, disk_of, kept};
use command::{Ran, Unknown};
use disk_model::MemoryDisk;
use proxy_run::{CREW, run};
use std::alloc::Global;
use std::sync::Wait;
use std::thread::Threads;

/// The line between what one run gives and what the next does.
const THEN: &[u8] = b"then";

/// The program, over objects in memory.
#[derive(Clone, Copy)]
pub struct Memproxy;

impl Program for Memproxy {
    fn outcome_of_runs<R: Threads + Wait + Sync>(
        rt: &R,
        alloc: Global,
        script: &Script,
        turn: u32,
    ) -> Result<Option<Outcome>, Memory> {
        all_given(rt, alloc, script, turn)
    }
}

/// What all runs give in this turn.
fn all_given<R: Threads + Wait + Sync>(
    rt: &R,
    alloc: Global,
    script: &Script,
    turn: u32,
) -> Result<Option<Outcome>, Memory> {
    let Ok(disk) = disk_of(alloc, script.first.disk())? else {
        return Ok(None);
    };
    let runs = Runs { rt, alloc, turn };
    let mut outcome = Outcome::new(alloc);
    let done = runs.run_all(&mut outcome, script, disk);
    kept(outcome, done)
}

/// The runs of a case in one of its turns.
#[derive(Drop)]
struct Runs<'a, R> {
    rt: &'a R,
    alloc: Global,
    turn: u32,
}

impl<'a, R: Threads + Wait + Sync> Runs<'a, R> {
    /// Runs the program over a disk, and once more for each further run over what the one before it left. Whether each disk
    /// could be stopped.
    fn run_all(
        &self,
        outcome: &mut Outcome,
        script: &Script,
        disk: MemoryDisk,
    ) -> Result<bool, Memory> {
        let Some(mut disk) = self.run_over(outcome, &script.first, disk)? else {
            return Ok(false);
        };
        for setting in script.further.as_slice() {
            let told = put_then(self.alloc, outcome);
            let given = after(told, setting.fused(disk))?;
            disk = match self.run_over(outcome, setting, given)? {
                Some(left) => left,
                None => return Ok(false),
            };
        }
        Ok(true)
    }

    /// Runs the program over a disk, puts what it gives and what the stop behind it leaves, and gives that disk. `None` where
    /// the disk could not be stopped.
    fn run_over(
        &self,
        outcome: &mut Outcome,
        setting: &Setting,
        disk: MemoryDisk,
    ) -> Result<Option<MemoryDisk>, Memory> {
        let mut objects = objects_of(self.alloc, setting)?;
        self.run_with(outcome, setting, disk, &mut objects)
    }

    /// The same with these objects.
    fn run_with(
        &self,
        outcome: &mut Outcome,
        setting: &Setting,
        disk: MemoryDisk,
        objects: &mut Objects,
    ) -> Result<Option<MemoryDisk>, Memory> {
        if objects.crew.members.len() != CREW {
            return Ok(None);
        }
        let words = setting.words.as_slice();
        let Ran { status, disk } = run::<_, _, _, _, _, _, Unknown>(
            self.rt,
            self.alloc,
            words,
            disk,
            &mut objects.gate,
            &mut objects.crew,
            &mut objects.out,
        );
        let told = put_told(self.alloc, outcome, status, objects);
        match disk.stop(setting.stops.at(self.turn)) {
            Ok(left) => with_files(self.alloc, outcome, told, left),
            Err(_) => Ok(None),
        }
    }
}

fn put_then(alloc: Global, outcome: &mut Outcome) -> Result<(), Memory> {
    outcome.push(Vec::from_slice(alloc, THEN)?)
}

/// Puts the files behind what was told, and gives the disk.
fn with_files(
    alloc: Global,
    outcome: &mut Outcome,
    told: Result<(), Memory>,
    mut disk: MemoryDisk,
) -> Result<Option<MemoryDisk>, Memory> {
    let done = put_files(alloc, outcome, told, &mut disk);
    after(done, Some(disk))
}

fn put_files(
    alloc: Global,
    outcome: &mut Outcome,
    told: Result<(), Memory>,
    disk: &mut MemoryDisk,
) -> Result<(), Memory> {
    told?;
    outcome.put_files(alloc, disk)
}
