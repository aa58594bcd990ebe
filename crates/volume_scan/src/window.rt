//! A part of a file, as it was read.
ghost use Rattle.std.specs.Prelude.{◌≡◌, ◌+◌, ◌-◌, ◌<◌, ◌≤◌, ◌^◌, ℕ, IfOk, IsTrue, List, OnOk, drop, length, min, take, vec_len};
ghost use Rattle.capture.specs.Faults.{CountsFaults};
ghost use Rattle.warc_journal.specs.Extents.{warc_files};
ghost use Rattle.warc_journal.specs.Journals.{Rests};
ghost use Rattle.volume_scan.specs.Unread.{file_at};
ghost use Rattle.volume_scan.specs.steps.Readings.{CountsRead, IsAt};
ghost use Rattle.volume_scan.specs.Windows.{IsInside, Shows};

use crate::ScanFault;
use disk_model::{Disk, Kind};
use std::alloc::{AllocError, Global};
use warc_journal::DiskFault;

/// The bytes of a file from a place on, as far as they were read.
#[derive(Drop)]
pub struct Window {
    /// The number of the file, and its length in bytes.
    file: u32,
    len: u64,
    /// Where the bytes stand in it.
    from: u64,
    bytes: Vec<u8>,
}

impl Window {
    /// A window that shows nothing of a file which isn't there.
    pub fn beside(alloc: Global, file: u32) -> Window
        ensures inside { IsInside result }
        ensures shows { (files : List (List ℕ)) → length files ≤ file → Shows result files }
    {
        Window {
            file,
            len: 0,
            from: 0,
            bytes: Vec::new(alloc),
        }
    }

    /// The length of the file, in bytes.
    pub fn len(&self) -> u64
        ensures { result ≡ self.now.len }
    {
        self.len
    }

    /// The bytes from a place on.
    pub fn behind(&self, place: u64) -> &[u8]
        requires at { IsAt self.now self.now.file place }
        ensures { result.now ≡ drop (place - self.now.from) self.now.bytes.items }
    {
        let (_, rest) = self.bytes.as_slice().split_at((place - self.from) as usize);
        rest
    }

    /// Goes to a place of a file. What was read of it stays.
    pub fn go_to<D: Disk>(&mut self, disk: &mut D, file: u32, place: u64) -> Result<(), DiskFault>
        requires inside { IsInside self.old }
        requires there { IsTrue D.tells → file < length (warc_files (D.reading disk.old)) }
        requires within { IsTrue D.tells → place ≤ length (file_at (warc_files (D.reading disk.old)) file) }
        requires shows { IsTrue D.tells → Shows self.old (warc_files (D.reading disk.old)) }
        ensures at { OnOk result (IsAt self.new file place) }
        ensures inside { IsInside self.new }
        ensures shows { IsTrue D.tells → Shows self.new (warc_files (D.reading disk.new)) }
        ensures rests { IsTrue D.tells → Rests D.Disk disk.old disk.new }
        ensures faults { CountsFaults (D.faults disk.old) (D.faults disk.new) result }
    {
        if self.shows(file, place) {
            return Ok(());
        }
        // A disk that tells nothing may have given a length that is less than before.
        let len = disk.len(Kind::Warc, file)?.max(place);
        self.bytes.clear();
        self.file = file;
        self.len = len;
        self.from = place;
        Ok(())
    }

    /// Whether it shows the place of the file, or ends there.
    fn shows(&self, file: u32, place: u64) -> bool
        ensures { IsTrue result → IsAt self.now file place }
    {
        if self.file != file || place < self.from {
            return false;
        }
        place - self.from <= self.bytes.len() as u64
    }

    /// Reads on, until it shows so many bytes from the place on, or all that the file has. Where it has to read at all, it
    /// reads so many bytes more.
    pub fn reach<D: Disk>(
        &mut self,
        alloc: Global,
        disk: &mut D,
        place: u64,
        least: u64,
        beyond: u64,
    ) -> Result<(), ScanFault>
        requires at { IsAt self.old self.old.file place }
        requires inside { IsInside self.old }
        requires there { IsTrue D.tells → self.old.file < length (warc_files (D.reading disk.old)) }
        requires shows { IsTrue D.tells → Shows self.old (warc_files (D.reading disk.old)) }
        ensures at { IsAt self.new self.old.file place }
        ensures inside { IsInside self.new }
        ensures len { self.new.len ≡ self.old.len }
        ensures reaches { OnOk result (min least (self.old.len - place)
            ≤ self.new.from + length self.new.bytes.items - place) }
        ensures shows { IsTrue D.tells → Shows self.new (warc_files (D.reading disk.new)) }
        ensures rests { IsTrue D.tells → Rests D.Disk disk.old disk.new }
        ensures faults { CountsRead (D.faults disk.old) (D.faults disk.new) result }
    {
        let room = self.len - place;
        let shown = self.behind(place);
        if least.min(room) <= shown.len() as u64 {
            return Ok(());
        }
        let wanted = least.saturating_add(beyond).min(room);
        let bytes = read_on(alloc, disk, self.file, place, shown, wanted)?;
        self.bytes = bytes;
        self.from = place;
        Ok(())
    }
}

/// Zeros, to be put behind bytes many at once: `resize` writes one after the other.
const ZEROS: &[u8; 4_096] = &[0; 4_096];

/// Puts zeros behind the bytes, until there are so many.
fn put_zeros(bytes: &mut Vec<u8>, wanted: u64) -> Result<(), AllocError>
    requires more { length bytes.old.items ≤ wanted }
    ensures front { OnOk result (take (length bytes.old.items) bytes.new.items ≡ bytes.old.items) }
    ensures len { OnOk result (vec_len bytes.new ≡ wanted) }
{
    'zeros: while (bytes.len() as u64) < wanted {
        let more = (wanted - bytes.len() as u64).min(4_096) as usize;
        bytes.extend_from_slice(&ZEROS[..more])?;
    }
    Ok(())
}

/// So many bytes of a file from a place on, the first of which are there already.
#[tactic(auto, unfolding(disk_model::specs::Image::file_of))]
fn read_on<D: Disk>(
    alloc: Global,
    disk: &mut D,
    file: u32,
    place: u64,
    there: &[u8],
    wanted: u64,
) -> Result<Vec<u8>, ScanFault>
    requires more { length there.now ≤ wanted }
    requires fits { place + wanted < 2 ^ 64 }
    requires file { IsTrue D.tells → file < length (warc_files (D.reading disk.old)) }
    requires in_range { IsTrue D.tells → place + wanted ≤ length (file_at (warc_files (D.reading disk.old)) file) }
    requires there { IsTrue D.tells → there.now
        ≡ take (length there.now) (drop place (file_at (warc_files (D.reading disk.old)) file)) }
    ensures bytes { IsTrue D.tells → IfOk result (λ bytes. bytes.items
        ≡ take wanted (drop place (file_at (warc_files (D.reading disk.old)) file))) }
    ensures len { IfOk result (λ bytes. length bytes.items ≡ wanted) }
    ensures rests { IsTrue D.tells → Rests D.Disk disk.old disk.new }
    ensures faults { CountsRead (D.faults disk.old) (D.faults disk.new) result }
{
    let mut bytes = Vec::with_capacity(alloc, wanted as usize)?;
    bytes.extend_from_slice(there)?;
    put_zeros(&mut bytes, wanted)?;
    let (_, into) = bytes.split_at_mut(there.len());
    match disk.read(Kind::Warc, file, place + there.len() as u64, into) {
        Ok(()) => Ok(bytes),
        Err(_) => Err(ScanFault::DiskFault),
    }
}
