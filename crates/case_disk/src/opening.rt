//! What is found where the volumes of a disk are opened, and what is found again behind steps of their journal and a stop.
ghost use Rattle.std.specs.Prelude.{◌≡◌, ◌<◌, ◌≤◌, ◌^◌, ◌-◌, IfOk, IfSome, IsTrue, length};
ghost use Rattle.capture.specs.Tails.{IsCommitted};
ghost use Rattle.warc_text.specs.StandsFor.{commit_byte};
ghost use Rattle.warc_journal.specs.Journals.{IsInStep};
ghost use Rattle.volume_scan.specs.Scannings.{IsInPlace, captures_of, position_of};
ghost use Rattle.volume_scan.specs.declared.position.Stage.TheVariants.{Done};

use crate::group::put_group;
use capture::Memory;
use case_steps::{Outcome, Step, Work, after, kept};
use disk_model::{Disk, MemoryDisk};
use std::alloc::Global;
use volume_scan::{Found, ScanFault, Scanning};
use warc_journal::{Journal, Place};

/// How many captures are read at most.
const MOST: u32 = 1_000_000;

/// What the steps say, and what an opening finds behind them and a stop by this choice; or what an opening finds where there
/// are no steps. `None` where the disk could not be stopped.
pub fn outcome_of(
    alloc: Global,
    disk: MemoryDisk,
    steps: &[Step],
    stop: u32,
    skip: Option<u32>,
) -> Result<Option<Outcome>, Memory> {
    let mut outcome = Outcome::new(alloc);
    if steps.is_empty() {
        let done = tell(alloc, &mut outcome, disk, skip);
        return after(done, Some(outcome));
    }
    let worked = worked_on(alloc, &mut outcome, disk, steps, skip);
    let done = tell_stopped(alloc, &mut outcome, worked, stop, skip);
    kept(outcome, done)
}

/// What the steps say, and the files that a stop by this choice leaves behind them. `None` where the disk could not be
/// stopped.
pub fn files_behind(
    alloc: Global,
    disk: MemoryDisk,
    steps: &[Step],
    stop: u32,
) -> Result<Option<Outcome>, Memory> {
    let mut outcome = Outcome::new(alloc);
    let worked = worked_on(alloc, &mut outcome, disk, steps, None);
    let done = put_stopped(alloc, &mut outcome, worked, stop);
    kept(outcome, done)
}

/// Tells what an opening finds behind a stop by this choice. Whether the disk could be stopped.
fn tell_stopped(
    alloc: Global,
    outcome: &mut Outcome,
    disk: Result<MemoryDisk, Memory>,
    stop: u32,
    skip: Option<u32>,
) -> Result<bool, Memory> {
    match disk?.stop(stop) {
        Ok(left) => after(tell(alloc, outcome, left, skip), true),
        Err(_) => Ok(false),
    }
}

/// Tells the files that a stop by this choice leaves. Whether the disk could be stopped.
fn put_stopped(
    alloc: Global,
    outcome: &mut Outcome,
    disk: Result<MemoryDisk, Memory>,
    stop: u32,
) -> Result<bool, Memory> {
    match disk?.stop(stop) {
        Ok(mut left) => after(outcome.put_files(alloc, &mut left), true),
        Err(_) => Ok(false),
    }
}

/// Tells what an opening of the volumes finds. `skip`: so many captures are skipped behind the first warcinfo.
fn tell<D: Disk + Drop>(
    alloc: Global,
    outcome: &mut Outcome,
    disk: D,
    skip: Option<u32>,
) -> Result<(), Memory> {
    match Scanning::start(alloc, disk) {
        Ok(mut scanning) => {
            let read = read_all(alloc, outcome, &mut scanning, skip);
            without_answer(read)
        }
        Err(_) => outcome.put_found(alloc, "disk fault"),
    }
}

/// What was done, whatever it answered.
fn without_answer(done: Result<bool, Memory>) -> Result<(), Memory> {
    match done {
        Ok(_) => Ok(()),
        Err(Memory) => Err(Memory),
    }
}

/// Tells each thing that is found, to the end or to the first fault. Whether the end was met.
fn read_all<D: Disk>(
    alloc: Global,
    outcome: &mut Outcome,
    scanning: &mut Scanning<D>,
    skip: Option<u32>,
) -> Result<bool, Memory>
    requires { IsInPlace D.Disk scanning.old }
    ensures in_place { IsInPlace D.Disk scanning.new }
    ensures done { IfOk result (λ done. IsTrue done → (position_of scanning.new).stage ≡ Done) }
{
    if let Some(captures) = skip {
        skip_first(alloc, outcome, scanning, captures)?;
    }
    read_on(alloc, outcome, scanning)
}

/// Tells the first thing that is found. Where a volume begins and a further file follows, the rest of it is skipped as so
/// many captures.
fn skip_first<D: Disk>(
    alloc: Global,
    outcome: &mut Outcome,
    scanning: &mut Scanning<D>,
    captures: u32,
) -> Result<(), Memory>
    requires { IsInPlace D.Disk scanning.old }
    ensures { IsInPlace D.Disk scanning.new }
{
    if scanning.captures() >= MOST {
        return Ok(());
    }
    match scanning.step(alloc) {
        Ok(found) => {
            if let Found::Info { volume, .. } = &found
                && *volume < scanning.files().saturating_sub(1)
                && captures < MOST
            {
                scanning.skip(captures);
            }
            put_found(alloc, outcome, found)
        }
        Err(fault) => put_fault(alloc, outcome, fault),
    }
}

/// Opens the volumes, does the steps, and gives the disk back. Where the volumes can't be opened no step is done.
fn worked_on<D: Disk + Drop>(
    alloc: Global,
    outcome: &mut Outcome,
    disk: D,
    steps: &[Step],
    skip: Option<u32>,
) -> Result<D, Memory> {
    let mut scanning = match Scanning::start(alloc, disk) {
        Ok(scanning) => scanning,
        Err((_, disk)) => return Ok(disk),
    };
    match read_silently(alloc, &mut scanning, skip) {
        Ok(true) => {
            let mut journal = scanning.finish();
            let done = take_steps(alloc, outcome, &mut journal, steps);
            after(done, journal.into_disk())
        }
        Ok(false) => Ok(scanning.into_disk()),
        Err(Memory) => Err(Memory),
    }
}

/// Reads each thing that is found, and tells nothing. Whether the end was met.
fn read_silently<D: Disk>(
    alloc: Global,
    scanning: &mut Scanning<D>,
    skip: Option<u32>,
) -> Result<bool, Memory>
    requires { IsInPlace D.Disk scanning.old }
    ensures in_place { IsInPlace D.Disk scanning.new }
    ensures done { IfOk result (λ done. IsTrue done → (position_of scanning.new).stage ≡ Done) }
{
    let mut found = Outcome::new(alloc);
    read_all(alloc, &mut found, scanning, skip)
}

/// Does the steps, and tells of each that was done whether the journal refused it, or which group it read.
fn take_steps<D: Disk>(
    alloc: Global,
    outcome: &mut Outcome,
    journal: &mut Journal<D>,
    steps: &[Step],
) -> Result<(), Memory>
    requires { IsTrue D.tells → IsInStep D.Disk journal.old }
    ensures { IsTrue D.tells → IsInStep D.Disk journal.new }
{
    let mut refused = false;
    'working: for step in steps {
        if refused || !step.again {
            refused = take(alloc, outcome, journal, &step.work)?;
        }
    }
    Ok(())
}

/// Does a step, and tells of it. Whether the journal refused it.
fn take<D: Disk>(
    alloc: Global,
    outcome: &mut Outcome,
    journal: &mut Journal<D>,
    work: &Work,
) -> Result<bool, Memory>
    requires { IsTrue D.tells → IsInStep D.Disk journal.old }
    ensures { IsTrue D.tells → IsInStep D.Disk journal.new }
{
    if let Work::Group(text) = work {
        put_group(alloc, outcome, journal, text.as_slice())?;
        return Ok(false);
    }
    let refused = !is_taken(journal, work);
    outcome.put_step(alloc, refused)?;
    Ok(refused)
}

/// Tells each thing that is found, to the end or to the first fault. Whether the end was met.
fn read_on<D: Disk>(
    alloc: Global,
    outcome: &mut Outcome,
    scanning: &mut Scanning<D>,
) -> Result<bool, Memory>
    requires { IsInPlace D.Disk scanning.old }
    ensures in_place { IsInPlace D.Disk scanning.new }
    ensures done { IfOk result (λ done. IsTrue done → (position_of scanning.new).stage ≡ Done) }
{
    'reading: for _ in 0..MOST {
        if scanning.captures() >= MOST {
            return Ok(false);
        }
        match read_next(alloc, outcome, scanning)? {
            Some(done) => return Ok(done),
            None => (),
        }
    }
    Ok(false)
}

/// Tells the next thing that is found. Behind the last one it says whether that was the end.
fn read_next<D: Disk>(
    alloc: Global,
    outcome: &mut Outcome,
    scanning: &mut Scanning<D>,
) -> Result<Option<bool>, Memory>
    requires in_place { IsInPlace D.Disk scanning.old }
    requires fewer { captures_of scanning.old < 2 ^ 32 - 1 }
    ensures in_place { IsInPlace D.Disk scanning.new }
    ensures done { IfOk result (λ last. IfSome last (λ done. IsTrue done → (position_of scanning.new).stage ≡ Done)) }
{
    match scanning.step(alloc) {
        Ok(Found::End) => {
            outcome.put_found(alloc, "end")?;
            Ok(Some(true))
        }
        Ok(found) => {
            put_found(alloc, outcome, found)?;
            Ok(None)
        }
        Err(fault) => {
            put_fault(alloc, outcome, fault)?;
            Ok(Some(false))
        }
    }
}

/// Tells what was found.
fn put_found(alloc: Global, outcome: &mut Outcome, found: Found) -> Result<(), Memory> {
    let text = found_text(alloc, &found);
    drop(found);
    put_text(alloc, outcome, text)
}

fn found_text(alloc: Global, found: &Found) -> Result<String, Memory> {
    match found {
        Found::Info {
            volume,
            namespace,
            born,
        } => Ok(format!(in alloc; "volume {volume} {namespace} {born}")?),
        Found::Group { place, read } => group_told(alloc, *place, read.group.number),
        Found::End => Ok(String::from_str(alloc, "end")?),
    }
}

/// Tells a text.
pub fn put_text(
    alloc: Global,
    outcome: &mut Outcome,
    text: Result<String, Memory>,
) -> Result<(), Memory> {
    let text = text?;
    outcome.put_found(alloc, text.as_str())
}

/// What is told of the group with this number.
pub fn group_told(alloc: Global, place: Place, number: u32) -> Result<String, Memory> {
    let text = format!(in alloc;
        "group {number} in {} at {} of {}",
        place.volume, place.at, place.len
    )?;
    Ok(text)
}

/// Tells why nothing was found.
pub fn put_fault(alloc: Global, outcome: &mut Outcome, fault: ScanFault) -> Result<(), Memory> {
    match fault {
        ScanFault::Damaged { file, place } => {
            put_text(alloc, outcome, damage_text(alloc, file, place))
        }
        ScanFault::DiskFault => outcome.put_found(alloc, "disk fault"),
        ScanFault::Memory => Err(Memory),
    }
}

fn damage_text(alloc: Global, file: u32, place: u64) -> Result<String, Memory> {
    Ok(format!(in alloc; "damaged {file} {place}")?)
}

/// Does a step of the journal, where it may be done, and says whether the journal took it.
fn is_taken<D: Disk>(journal: &mut Journal<D>, work: &Work) -> bool
    requires { IsTrue D.tells → IsInStep D.Disk journal.old }
    ensures { IsTrue D.tells → IsInStep D.Disk journal.new }
{
    match work {
        Work::Append(text) => append(journal, text.as_slice()),
        Work::Roll(text) => roll(journal, text.as_slice()),
        Work::Repair => journal.repair().is_ok(),
        Work::Group(_) => true,
    }
}

/// The longest text that a step adds, and the longest that a volume gets.
const LONGEST: u64 = 1 << 40;

/// Whether a text may be added: it begins with the commit byte, and goes on.
fn is_addable(text: &[u8]) -> bool
    ensures { IsTrue result → IsCommitted commit_byte text.now × (length text.now ≤ 2 ^ 40) }
{
    match text {
        [b'W', _, ..] => text.len() as u64 <= LONGEST,
        _ => false,
    }
}

/// Adds a group, where the journal may take it.
fn append<D: Disk>(journal: &mut Journal<D>, text: &[u8]) -> bool
    requires { IsTrue D.tells → IsInStep D.Disk journal.old }
    ensures { IsTrue D.tells → IsInStep D.Disk journal.new }
{
    if !is_addable(text) || journal.volumes() == 0 || journal.last_len() > LONGEST {
        return false;
    }
    journal.append(text).is_ok()
}

/// Begins a volume, where the journal may take it.
fn roll<D: Disk>(journal: &mut Journal<D>, text: &[u8]) -> bool
    requires { IsTrue D.tells → IsInStep D.Disk journal.old }
    ensures { IsTrue D.tells → IsInStep D.Disk journal.new }
{
    if !is_addable(text) || journal.volumes() == u32::MAX {
        return false;
    }
    journal.roll(text).is_ok()
}
