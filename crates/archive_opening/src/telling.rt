//! Opening by checkpoints: a volume behind which another one stands isn't read past its warcinfo, where a finished checkpoint tells of its
//! captures.
ghost use Rattle.std.specs.Prelude.{◌≡◌, ◌+◌, ◌<◌, ◌≤◌, IfErr, IfNone, IfOk, IfSome, IsTrue, None, OnOk, Option, length};
ghost use Rattle.warc_journal.specs.Extents.{warc_files};
ghost use Rattle.warc_journal.specs.Journals.{Rests, disk_of as disk_of_journal, last_len};
ghost use Rattle.volume_scan.specs.Scannings.{IsInPlace, disk_of, file_count, files_in, position_of};
ghost use Rattle.volume_scan.specs.declared.position.Stage.TheVariants.{Done as IsDone};
ghost use Rattle.disk_model.specs.Image as images;
ghost use Rattle.checkpoint.specs.Checkpoints.{AreLinesFor, IsCheckpoint, checkpoint_of};
ghost use Rattle.checkpoint.specs.Reading.{IsNoCheckpoint};
ghost use Rattle.warc_text.specs.Ids.{IsUuid};
ghost use Rattle.archive_opening.specs.Counting.{CountsOn, CountsOnTo, CountsTo, CountsUpTo, HasCountsOf, LastEndsAt};
ghost use Rattle.archive_opening.specs.Telling.{AreCheckpointsSynced, FitsVolume, GoesWith, HasAllOf, IsAskedFor, IsKnownRefusal, IsOpenedBy, IsReadOf, IsReadWhole, IsSmall, MayBeSettled, OpensAt, ReadsWhole, ReadsWholeOn, ReadsWholeTo, StepsOn, TellsOn, known_to, step_of};
ghost use Rattle.archive_gathering.specs.Gathering.{IsSteady};
ghost use Rattle.archive_opening.specs.Opening.{IsDamageIn, IsOpened, IsOtherIn, IsOutside, IsReadRefusal};
ghost use Rattle.archive_gathering.specs.Refusing.{CountsFault, IsCause};
ghost use Rattle.archive_opening.specs.Following.{HasAll, left};
ghost use Rattle.archive_volumes.specs.Held.{book_of};
ghost use Rattle.archive_opening.specs.Refusing.{IsBorneOut};

use crate::opening::Opened;
use crate::starting::start;
use archive_gathering::{Gathered, TEXT_BOUND, are_next, by_number, damaged, reading_laws};
use archive_shelf::ReopenFault;
use capture::{Book, Memory};
use cdxj_line::Line;
use checkpoint::{CheckpointFault, read_for};
use disk_model::{Disk, Kind};
use shown::Shown;
use std::alloc::Global;
use uuid::Uuid;
use volume_scan::{
    Found, ScanFault, Scanning, damage_behind_a_skipped_volume_is_of_no_book,
    damaged_files_stand_for_no_book, files_begin_with_what_was_read, scans_stay_beside_other_work,
};
use warc_text::files_stand_for_one_book;

/// What was read in one step.
#[derive(Clone, Copy)]
pub(crate) enum Step {
    /// The warcinfo of the volume with this number.
    Begun(u32),
    /// A capture.
    More,
    /// Nothing: all was read.
    End,
}

/// What was found.
fn step_to(found: &Found) -> Step
    ensures step { result ≡ step_of found.now }
    ensures small { IsSmall result }
{
    match found {
        Found::Info {
            volume,
            namespace: _,
            born: _,
        } => Step::Begun(*volume),
        Found::Group { place: _, read: _ } => Step::More,
        Found::End => Step::End,
    }
}

/// Reads what stands next, and gathers it.
fn read_found<D: Disk>(
    alloc: Global,
    scanning: &mut Scanning<D>,
    gathered: &mut Gathered,
    known: &Shown<Option<Book>>,
) -> Result<Step, ReopenFault>
    requires in_place { IsInPlace D.Disk scanning.old }
    requires steady { IsSteady gathered.old }
    requires goes { GoesWith D.Disk known.now.value scanning.old gathered.old }
    requires counts { IsTrue D.tells → CountsOn (D.reading (disk_of scanning.old)) (position_of scanning.old) (book_of gathered.old.held) }
    ensures counts { IsTrue D.tells → IfOk result (CountsTo (D.reading (disk_of scanning.new)) (position_of scanning.new) (book_of gathered.new.held)) }
    ensures steps { IfOk result (StepsOn D.Disk known.now.value scanning.old scanning.new gathered.new) }
    ensures refused { IfErr result (IsKnownRefusal known.now.value) }
    ensures whole { ReadsWhole D.Disk scanning.old gathered.old → IfOk result (ReadsWholeTo D.Disk scanning.new gathered.new) }
    ensures damage { ReadsWhole D.Disk scanning.old gathered.old → IfErr result (IsReadRefusal (files_in D.Disk scanning.old)) }
    ensures borne_out { IsTrue D.tells → IfErr result (IsBorneOut (D.reading (disk_of scanning.old))) }
    ensures cause { IfErr result (IsCause None) }
    ensures in_place { IsInPlace D.Disk scanning.new }
    ensures rests { IsTrue D.tells → Rests D.Disk (disk_of scanning.old) (disk_of scanning.new) }
    ensures still { OnOk result (D.faults (disk_of scanning.new) ≡ D.faults (disk_of scanning.old)) }
    ensures faults { IfErr result (CountsFault (D.faults (disk_of scanning.old)) (D.faults (disk_of scanning.new))) }
{
    // only the clauses read it
    let _ = known;
    files_begin_with_what_was_read();
    damaged_files_stand_for_no_book();
    damage_behind_a_skipped_volume_is_of_no_book();
    match scanning.step(alloc) {
        Ok(found) => {
            let step = step_to(&found);
            match gathered.gather(alloc, found) {
                Ok(_) => Ok(step),
                Err(fault) => Err(fault),
            }
        }
        Err(ScanFault::Damaged { file, place }) => Err(damaged(file, place)),
        Err(ScanFault::DiskFault) => Err(ReopenFault::DiskFault),
        Err(ScanFault::Memory) => Err(ReopenFault::Memory),
    }
}

/// The lines of a volume's checkpoint, and how long its file is.
#[derive(Drop)]
pub(crate) struct FileLines {
    pub(crate) volume: u32,
    pub(crate) len: u64,
    pub(crate) lines: Vec<Line>,
}

/// Takes these lines in place of the rest of the volume that was just begun, if they are those of the next captures.
fn take_lines<D: Disk>(
    scanning: &mut Scanning<D>,
    gathered: &mut Gathered,
    told: FileLines,
    known: &Shown<Option<Book>>,
) -> Result<(), ReopenFault>
    requires in_place { IsInPlace D.Disk scanning.old }
    requires steady { IsSteady gathered.old }
    requires goes { GoesWith D.Disk known.now.value scanning.old gathered.old }
    requires opens { OpensAt scanning.old told.volume }
    requires another { told.volume + 1 < file_count scanning.old }
    requires fit { AreLinesFor told.volume told.lines.items }
    requires read { IsTrue D.tells → IsReadOf (D.reading (disk_of scanning.old)) told }
    requires counts { IsTrue D.tells → CountsUpTo (D.reading (disk_of scanning.old)) (position_of scanning.old) (book_of gathered.old.held) }
    ensures counts { IsTrue D.tells → OnOk result (CountsOn (D.reading (disk_of scanning.new)) (position_of scanning.new) (book_of gathered.new.held)) }
    ensures goes { OnOk result (GoesWith D.Disk known.now.value scanning.new gathered.new) }
    ensures steady { OnOk result (IsSteady gathered.new) }
    ensures left { OnOk result (left scanning.new ≤ left scanning.old) }
    ensures in_place { IsInPlace D.Disk scanning.new }
    ensures disk { disk_of scanning.new ≡ disk_of scanning.old }
    ensures memory { IfErr result (λ fault. fault ≡ ReopenFault.Memory) }
{
    reading_laws();
    files_begin_with_what_was_read();
    let FileLines {
        volume: _,
        len,
        lines,
    } = told;
    let lines = by_number(lines);
    let first = scanning.captures();
    if !are_next(lines.as_slice(), first, len) {
        return Ok(());
    }
    let count = lines.len() as u32;
    match gathered.add_lines(lines, len, known) {
        Ok(()) => {
            scanning.skip(count);
            Ok(())
        }
        Err(Memory) => Err(ReopenFault::Memory),
    }
}

/// The length of a volume's file.
fn file_len<D: Disk>(disk: &mut D, volume: u32) -> Result<u64, ReopenFault>
    requires there { IsTrue D.tells → volume < images.file_count (D.reading disk.old) Kind.Warc }
    ensures len { IsTrue D.tells → IfOk result (λ len. len ≡ length (images.file_of (D.reading disk.old) Kind.Warc volume)) }
    ensures rests { IsTrue D.tells → Rests D.Disk disk.old disk.new }
    ensures still { OnOk result (D.faults disk.new ≡ D.faults disk.old) }
    ensures faults { IfErr result (CountsFault (D.faults disk.old) (D.faults disk.new)) }
    ensures outside { IfErr result IsOutside }
{
    match disk.len(Kind::Warc, volume) {
        Ok(len) => Ok(len),
        Err(_) => Err(ReopenFault::DiskFault),
    }
}

/// The lines of a volume's checkpoint, if that is finished.
fn lines_for<D: Disk>(
    alloc: Global,
    disk: &mut D,
    volume: u32,
) -> Result<Option<Vec<Line>>, ReopenFault>
    ensures read { IsTrue D.tells → IfOk result (λ read. IfSome read (λ lines. IsCheckpoint volume lines.items (checkpoint_of (D.reading disk.old) volume))) }
    ensures none { IsTrue D.tells → IfOk result (λ read. IfNone read (IsNoCheckpoint volume (checkpoint_of (D.reading disk.old) volume))) }
    ensures fit { IfOk result (λ read. IfSome read (λ lines. AreLinesFor volume lines.items)) }
    ensures rests { IsTrue D.tells → Rests D.Disk disk.old disk.new }
    ensures still { OnOk result (D.faults disk.new ≡ D.faults disk.old) }
    ensures faults { IfErr result (CountsFault (D.faults disk.old) (D.faults disk.new)) }
    ensures outside { IfErr result IsOutside }
{
    match read_for(alloc, disk, volume) {
        Ok(lines) => Ok(lines),
        Err(CheckpointFault::DiskFault) => Err(ReopenFault::DiskFault),
        Err(CheckpointFault::Memory) => Err(ReopenFault::Memory),
    }
}

/// The lines of a volume's checkpoint, if that is finished, and how long the volume's file is.
fn file_lines<D: Disk>(
    alloc: Global,
    disk: &mut D,
    volume: u32,
) -> Result<Option<FileLines>, ReopenFault>
    requires there { IsTrue D.tells → volume < images.file_count (D.reading disk.old) Kind.Warc }
    ensures read { IsTrue D.tells → IfOk result (λ read. IfSome read (IsReadOf (D.reading disk.old))) }
    ensures none { IsTrue D.tells → IfOk result (λ read. IfNone read (IsNoCheckpoint volume (checkpoint_of (D.reading disk.old) volume))) }
    ensures fit { IfOk result (λ read. IfSome read (FitsVolume volume)) }
    ensures rests { IsTrue D.tells → Rests D.Disk disk.old disk.new }
    ensures still { OnOk result (D.faults disk.new ≡ D.faults disk.old) }
    ensures faults { IfErr result (CountsFault (D.faults disk.old) (D.faults disk.new)) }
    ensures outside { IfErr result IsOutside }
{
    let len = file_len(disk, volume)?;
    match lines_for(alloc, disk, volume) {
        Ok(Some(lines)) => Ok(Some(FileLines { volume, len, lines })),
        Ok(None) => Ok(None),
        Err(fault) => Err(fault),
    }
}

/// Takes the lines of the volume that was just begun, where another file follows.
fn tell_volume<D: Disk>(
    alloc: Global,
    scanning: &mut Scanning<D>,
    gathered: &mut Gathered,
    volume: u32,
    known: &Shown<Option<Book>>,
) -> Result<(), ReopenFault>
    requires in_place { IsInPlace D.Disk scanning.old }
    requires steady { IsSteady gathered.old }
    requires goes { GoesWith D.Disk known.now.value scanning.old gathered.old }
    requires opens { OpensAt scanning.old volume }
    requires counts { IsTrue D.tells → CountsUpTo (D.reading (disk_of scanning.old)) (position_of scanning.old) (book_of gathered.old.held) }
    ensures counts { IsTrue D.tells → OnOk result (CountsOn (D.reading (disk_of scanning.new)) (position_of scanning.new) (book_of gathered.new.held)) }
    ensures goes { OnOk result (GoesWith D.Disk known.now.value scanning.new gathered.new) }
    ensures whole { ReadsWhole D.Disk scanning.old gathered.old → OnOk result (ReadsWhole D.Disk scanning.new gathered.new) }
    ensures steady { OnOk result (IsSteady gathered.new) }
    ensures left { OnOk result (left scanning.new ≤ left scanning.old) }
    ensures in_place { IsInPlace D.Disk scanning.new }
    ensures rests { IsTrue D.tells → Rests D.Disk (disk_of scanning.old) (disk_of scanning.new) }
    ensures still { OnOk result (D.faults (disk_of scanning.new) ≡ D.faults (disk_of scanning.old)) }
    ensures faults { IfErr result (CountsFault (D.faults (disk_of scanning.old)) (D.faults (disk_of scanning.new))) }
    ensures outside { IfErr result IsOutside }
{
    scans_stay_beside_other_work::<D>();
    let last = scanning.files() - 1;
    if volume == last {
        return Ok(());
    }
    match file_lines(alloc, scanning.disk(), volume) {
        Ok(Some(told)) => take_lines(scanning, gathered, told, known),
        Ok(None) => Ok(()),
        Err(fault) => Err(fault),
    }
}

/// Reads what stands next, and takes the lines of a volume; false at the end.
fn read_next<D: Disk>(
    alloc: Global,
    scanning: &mut Scanning<D>,
    gathered: &mut Gathered,
    known: &Shown<Option<Book>>,
) -> Result<bool, ReopenFault>
    requires in_place { IsInPlace D.Disk scanning.old }
    requires steady { IsSteady gathered.old }
    requires goes { GoesWith D.Disk known.now.value scanning.old gathered.old }
    requires counts { IsTrue D.tells → CountsOn (D.reading (disk_of scanning.old)) (position_of scanning.old) (book_of gathered.old.held) }
    ensures counts { IsTrue D.tells → IfOk result (CountsOnTo (D.reading (disk_of scanning.new)) (position_of scanning.new) (book_of gathered.new.held)) }
    ensures tells { IfOk result (TellsOn D.Disk known.now.value scanning.old scanning.new gathered.new) }
    ensures refused { IfErr result (IsKnownRefusal known.now.value) }
    ensures whole { ReadsWhole D.Disk scanning.old gathered.old → IfOk result (ReadsWholeOn D.Disk scanning.new gathered.new) }
    ensures damage { ReadsWhole D.Disk scanning.old gathered.old → IfErr result (IsReadRefusal (files_in D.Disk scanning.old)) }
    ensures borne_out { IsTrue D.tells → IfErr result (IsBorneOut (D.reading (disk_of scanning.old))) }
    ensures cause { IfErr result (IsCause None) }
    ensures in_place { IsInPlace D.Disk scanning.new }
    ensures rests { IsTrue D.tells → Rests D.Disk (disk_of scanning.old) (disk_of scanning.new) }
    ensures still { OnOk result (D.faults (disk_of scanning.new) ≡ D.faults (disk_of scanning.old)) }
    ensures faults { IfErr result (CountsFault (D.faults (disk_of scanning.old)) (D.faults (disk_of scanning.new))) }
{
    match read_found(alloc, scanning, gathered, known) {
        Ok(Step::Begun(volume)) => match tell_volume(alloc, scanning, gathered, volume, known) {
            Ok(()) => Ok(true),
            Err(fault) => Err(fault),
        },
        Ok(Step::More) => Ok(true),
        Ok(Step::End) => Ok(false),
        Err(fault) => Err(fault),
    }
}

/// Reads all volumes.
fn read_each<D: Disk>(
    alloc: Global,
    scanning: &mut Scanning<D>,
    gathered: &mut Gathered,
    known: &Shown<Option<Book>>,
) -> Result<(), ReopenFault>
    requires in_place { IsInPlace D.Disk scanning.old }
    requires steady { IsSteady gathered.old }
    requires goes { GoesWith D.Disk known.now.value scanning.old gathered.old }
    requires counts { IsTrue D.tells → CountsOn (D.reading (disk_of scanning.old)) (position_of scanning.old) (book_of gathered.old.held) }
    ensures counts { IsTrue D.tells → OnOk result (HasCountsOf (D.reading (disk_of scanning.new)) (book_of gathered.new.held)) }
    ensures ends { IsTrue D.tells → OnOk result (LastEndsAt (D.reading (disk_of scanning.new)) (book_of gathered.new.held) (position_of scanning.new).extent.end) }
    ensures all { OnOk result (HasAllOf D.Disk known.now.value scanning.new gathered.new) }
    ensures done { OnOk result ((position_of scanning.new).stage ≡ IsDone) }
    ensures steady { OnOk result (IsSteady gathered.new) }
    ensures refused { IfErr result (IsKnownRefusal known.now.value) }
    ensures whole { ReadsWhole D.Disk scanning.old gathered.old → OnOk result (HasAll D.Disk scanning.new gathered.new) }
    ensures damage { ReadsWhole D.Disk scanning.old gathered.old → IfErr result (IsReadRefusal (files_in D.Disk scanning.old)) }
    ensures borne_out { IsTrue D.tells → IfErr result (IsBorneOut (D.reading (disk_of scanning.old))) }
    ensures cause { IfErr result (IsCause None) }
    ensures in_place { IsInPlace D.Disk scanning.new }
    ensures rests { IsTrue D.tells → Rests D.Disk (disk_of scanning.old) (disk_of scanning.new) }
    ensures still { OnOk result (D.faults (disk_of scanning.new) ≡ D.faults (disk_of scanning.old)) }
    ensures faults { IfErr result (CountsFault (D.faults (disk_of scanning.old)) (D.faults (disk_of scanning.new))) }
{
    'steps: while read_next(alloc, scanning, gathered, known)? {}
    Ok(())
}

/// Goes on with the volumes that were read. One that has none has the namespace that is asked for. A last volume that is too long is damage.
fn finish<D: Disk>(
    alloc: Global,
    scanning: Scanning<D>,
    gathered: Gathered,
    asked: &Option<Uuid>,
    known: &Shown<Option<Book>>,
) -> Result<Opened<D>, (ReopenFault, D)>
    requires uuid { IfSome asked.now IsUuid }
    requires in_place { IsInPlace D.Disk scanning }
    requires all { HasAllOf D.Disk known.now.value scanning gathered }
    requires done { (position_of scanning).stage ≡ IsDone }
    requires steady { IsSteady gathered }
    requires asked_for { IfSome known.now.value (IsAskedFor asked.now) }
    requires counts { IsTrue D.tells → HasCountsOf (D.reading (disk_of scanning)) (book_of gathered.held) }
    requires ends { IsTrue D.tells → LastEndsAt (D.reading (disk_of scanning)) (book_of gathered.held) (position_of scanning).extent.end }
    ensures counts { IsTrue D.tells → IfOk result (λ opened. HasCountsOf (D.reading (disk_of scanning)) (book_of opened.gathered.held)) }
    ensures ends { IsTrue D.tells → IfOk result (λ opened. LastEndsAt (D.reading (disk_of scanning)) (book_of opened.gathered.held) (last_len opened.journal)) }
    ensures opened { IfOk result (IsOpenedBy D.Disk (disk_of scanning) asked.now known.now.value) }
    ensures refused { IfErr result (λ refused. IsKnownRefusal known.now.value refused.0) }
    ensures whole { HasAll D.Disk scanning gathered → IfOk result (IsOpened D.Disk (disk_of scanning) asked.now) }
    ensures damage { HasAll D.Disk scanning gathered → IfErr result (λ refused. IsDamageIn (files_in D.Disk scanning) refused.0) }
    ensures other { HasAll D.Disk scanning gathered → IfErr result (λ refused. IsTrue D.tells → IsOtherIn (files_in D.Disk scanning) asked.now refused.0) }
    ensures borne_out { IsTrue D.tells → IfErr result (λ refused. IsBorneOut (D.reading (disk_of scanning)) refused.0) }
    ensures cause { IfErr result (λ refused. IsCause asked.now refused.0) }
    ensures given_back { IfErr result (λ refused. refused.1 ≡ disk_of scanning) }
    ensures faults { IfErr result (λ refused. CountsFault (D.faults (disk_of scanning)) (D.faults refused.1) refused.0) }
{
    // only the clauses read it
    let _ = known;
    files_stand_for_one_book();
    let journal = scanning.finish();
    if journal.volumes() == 0 {
        gathered.let_go();
        return Ok(Opened {
            journal,
            gathered: Gathered::in_namespace(alloc, asked),
        });
    }
    if journal.last_len() >= TEXT_BOUND {
        gathered.let_go();
        let last = journal.volumes() - 1;
        return Err((damaged(last, 0), journal.into_disk()));
    }
    match gathered.other_than(asked) {
        Some(fault) => {
            gathered.let_go();
            Err((fault, journal.into_disk()))
        }
        None => Ok(Opened { journal, gathered }),
    }
}

/// Reads the volumes on a disk, by their checkpoints where these are finished. Each file is synced first, so that a crash leaves what is read;
/// nothing is written. Refused, the disk is given back.
///
/// The book is that of the volumes where it is known, by a caller whose proof may name it: one that kept the disk. Where nobody knows it, a
/// checkpoint may tell of other captures than its volume holds.
pub fn open_by_checkpoints<D: Disk>(
    alloc: Global,
    disk: D,
    asked: &Option<Uuid>,
    known: &Shown<Option<Book>>,
) -> Result<Opened<D>, (ReopenFault, D)>
    requires uuid { IfSome asked.now IsUuid }
    requires known { MayBeSettled D.Disk disk asked.now known.now.value }
    ensures opened { IfOk result (IsOpenedBy D.Disk disk asked.now (known_to D.tells known.now.value)) }
    ensures counts { IsTrue D.tells → IfOk result (λ opened. HasCountsOf (D.reading disk) (book_of opened.gathered.held)) }
    ensures ends { IsTrue D.tells → IfOk result (λ opened. LastEndsAt (D.reading disk) (book_of opened.gathered.held) (last_len opened.journal)) }
    ensures refused { IfErr result (λ refused. IsKnownRefusal (known_to D.tells known.now.value) refused.0) }
    ensures whole { IsTrue D.tells → IsReadWhole (D.reading disk) → IfOk result (IsOpened D.Disk disk asked.now) }
    ensures damage { IsTrue D.tells → IsReadWhole (D.reading disk) → IfErr result (λ refused. IsDamageIn (warc_files (D.reading disk)) refused.0) }
    ensures other { IsTrue D.tells → IsReadWhole (D.reading disk) → IfErr result (λ refused. IsOtherIn (warc_files (D.reading disk)) asked.now refused.0) }
    ensures synced { IfOk result (λ opened. IsTrue D.tells → AreCheckpointsSynced (D.reading disk) (D.images (disk_of_journal opened.journal))) }
    ensures borne_out { IsTrue D.tells → IfErr result (λ refused. IsBorneOut (D.reading disk) refused.0) }
    ensures cause { IfErr result (λ refused. IsCause asked.now refused.0) }
    ensures given_back { IfErr result (λ refused. IsTrue D.tells → Rests D.Disk disk refused.1) }
    ensures faults { IfErr result (λ refused. CountsFault (D.faults disk) (D.faults refused.1) refused.0) }
{
    let mut scanning = match start(alloc, disk) {
        Ok(scanning) => scanning,
        Err(refused) => return Err(refused),
    };
    let sure = Shown::told_by(known);
    let mut gathered = Gathered::in_namespace(alloc, asked);
    match read_each(alloc, &mut scanning, &mut gathered, &sure) {
        Ok(()) => finish(alloc, scanning, gathered, asked, &sure),
        Err(fault) => {
            gathered.let_go();
            Err((fault, scanning.into_disk()))
        }
    }
}
