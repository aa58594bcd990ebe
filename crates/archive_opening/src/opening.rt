//! Opening: the volumes on a disk are read once, and what they hold is gathered.
ghost use Rattle.std.specs.Prelude.{◌≡◌, IfErr, IfOk, IfSome, IsTrue, None, OnOk};
ghost use Rattle.warc_journal.specs.Extents.{warc_files};
ghost use Rattle.warc_journal.specs.Journals.{Rests};
ghost use Rattle.warc_text.specs.Ids.{IsUuid};
ghost use Rattle.volume_scan.specs.Scannings.{IsInPlace, disk_of, files_in, position_of};
ghost use Rattle.volume_scan.specs.declared.position.Stage.TheVariants.{Done as IsDone};
ghost use Rattle.archive_gathering.specs.Gathering.{IsSteady};
ghost use Rattle.archive_opening.specs.Opening.{IsDamageIn, IsOpened, IsOtherIn, IsReadRefusal};
ghost use Rattle.archive_gathering.specs.Refusing.{CountsFault, IsCause};
ghost use Rattle.archive_opening.specs.Following.{Follows, HasAll, ReadsOn};

use archive_gathering::{Gathered, damaged};
use archive_shelf::ReopenFault;
use disk_model::Disk;
use std::alloc::Global;
use uuid::Uuid;
use volume_scan::{
    ScanFault, Scanning, damaged_files_stand_for_no_book, files_begin_with_what_was_read,
};
use warc_journal::Journal;

/// Reads all volumes.
fn read_all<D: Disk>(
    alloc: Global,
    scanning: &mut Scanning<D>,
    gathered: &mut Gathered,
) -> Result<(), ReopenFault>
    requires in_place { IsInPlace D.Disk scanning.old }
    requires steady { IsSteady gathered.old }
    requires follows { Follows D.Disk scanning.old gathered.old }
    ensures all { OnOk result (HasAll D.Disk scanning.new gathered.new) }
    ensures done { OnOk result ((position_of scanning.new).stage ≡ IsDone) }
    ensures in_step { OnOk result (IsSteady gathered.new) }
    ensures damage { IfErr result (λ fault. IsTrue D.tells → IsReadRefusal (files_in D.Disk scanning.old) fault) }
    ensures cause { IfErr result (IsCause None) }
    ensures in_place { IsInPlace D.Disk scanning.new }
    ensures rests { IsTrue D.tells → Rests D.Disk (disk_of scanning.old) (disk_of scanning.new) }
    ensures steady { OnOk result (D.faults (disk_of scanning.new) ≡ D.faults (disk_of scanning.old)) }
    ensures faults { IfErr result (CountsFault (D.faults (disk_of scanning.old)) (D.faults (disk_of scanning.new))) }
{
    'steps: while read_one(alloc, scanning, gathered)? {}
    Ok(())
}

/// Reads what stands next; false at the end.
fn read_one<D: Disk>(
    alloc: Global,
    scanning: &mut Scanning<D>,
    gathered: &mut Gathered,
) -> Result<bool, ReopenFault>
    requires in_place { IsInPlace D.Disk scanning.old }
    requires steady { IsSteady gathered.old }
    requires follows { Follows D.Disk scanning.old gathered.old }
    ensures reads { IfOk result (ReadsOn D.Disk scanning.old scanning.new gathered.new) }
    ensures damage { IfErr result (λ fault. IsTrue D.tells → IsReadRefusal (files_in D.Disk scanning.old) fault) }
    ensures cause { IfErr result (IsCause None) }
    ensures in_place { IsInPlace D.Disk scanning.new }
    ensures rests { IsTrue D.tells → Rests D.Disk (disk_of scanning.old) (disk_of scanning.new) }
    ensures still { OnOk result (D.faults (disk_of scanning.new) ≡ D.faults (disk_of scanning.old)) }
    ensures faults { IfErr result (CountsFault (D.faults (disk_of scanning.old)) (D.faults (disk_of scanning.new))) }
{
    files_begin_with_what_was_read();
    damaged_files_stand_for_no_book();
    match scanning.step(alloc) {
        Ok(found) => gathered.gather(alloc, found),
        Err(ScanFault::Damaged { file, place }) => Err(damaged(file, place)),
        Err(ScanFault::DiskFault) => Err(ReopenFault::DiskFault),
        Err(ScanFault::Memory) => Err(ReopenFault::Memory),
    }
}

/// What an opening gives, of which an archive is made.
#[derive(Drop)]
pub struct Opened<D> {
    /// The journal that goes on with the volumes.
    pub journal: Journal<D>,
    /// What was gathered of them.
    pub gathered: Gathered,
}

/// Reads the volumes on a disk. Nothing is written. Refused, the disk is given back.
pub fn open_volumes<D: Disk>(
    alloc: Global,
    disk: D,
    asked: &Option<Uuid>,
) -> Result<Opened<D>, (ReopenFault, D)>
    requires uuid { IfSome asked.now IsUuid }
    ensures opened { IfOk result (IsOpened D.Disk disk asked.now) }
    ensures damage { IfErr result (λ refused. IsTrue D.tells → IsDamageIn (warc_files (D.reading disk)) refused.0) }
    ensures other { IfErr result (λ refused. IsTrue D.tells → IsOtherIn (warc_files (D.reading disk)) asked.now refused.0) }
    ensures cause { IfErr result (λ refused. IsCause asked.now refused.0) }
    ensures given_back { IfErr result (λ refused. IsTrue D.tells → Rests D.Disk disk refused.1) }
    ensures faults { IfErr result (λ refused. CountsFault (D.faults disk) (D.faults refused.1) refused.0) }
{
    let mut scanning = match Scanning::start(alloc, disk) {
        Ok(scanning) => scanning,
        Err((_, disk)) => return Err((ReopenFault::DiskFault, disk)),
    };
    let mut gathered = Gathered::in_namespace(alloc, asked);
    match read_all(alloc, &mut scanning, &mut gathered) {
        Ok(()) => finish(alloc, scanning, gathered, asked),
        Err(fault) => {
            gathered.let_go();
            Err((fault, scanning.into_disk()))
        }
    }
}

/// Goes on with the volumes that were read. One that has none has the namespace that is asked for.
fn finish<D: Disk>(
    alloc: Global,
    scanning: Scanning<D>,
    gathered: Gathered,
    asked: &Option<Uuid>,
) -> Result<Opened<D>, (ReopenFault, D)>
    requires uuid { IfSome asked.now IsUuid }
    requires in_place { IsInPlace D.Disk scanning }
    requires all { HasAll D.Disk scanning gathered }
    requires done { (position_of scanning).stage ≡ IsDone }
    requires steady { IsSteady gathered }
    ensures opened { IfOk result (IsOpened D.Disk (disk_of scanning) asked.now) }
    ensures other { IfErr result (λ refused. IsTrue D.tells → IsOtherIn (files_in D.Disk scanning) asked.now refused.0) }
    ensures damage { IfErr result (λ refused. IsTrue D.tells → IsDamageIn (files_in D.Disk scanning) refused.0) }
    ensures cause { IfErr result (λ refused. IsCause asked.now refused.0) }
    ensures given_back { IfErr result (λ refused. refused.1 ≡ disk_of scanning) }
    ensures faults { IfErr result (λ refused. CountsFault (D.faults (disk_of scanning)) (D.faults refused.1) refused.0) }
{
    let journal = scanning.finish();
    if journal.volumes() == 0 {
        gathered.let_go();
        return Ok(Opened {
            journal,
            gathered: Gathered::in_namespace(alloc, asked),
        });
    }
    match gathered.other_than(asked) {
        Some(fault) => {
            gathered.let_go();
            Err((fault, journal.into_disk()))
        }
        None => Ok(Opened { journal, gathered }),
    }
}
